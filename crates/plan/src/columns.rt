//! The columns of a plan, each of which carries the plan that it is of.
ghost use Rattle.std.specs.Prelude.{◌≡◌, ℕ, ◌+◌, ◌<◌, ◌≤◌, length, slice_index};
ghost use Rattle.plan.specs.Lookups.{size_in, label_in, start_in, rows_in, links_in, parent_in, place_in};
ghost use Rattle.plan.specs.Positions.{Positions};
ghost use Rattle.plan.specs.Views.{arrays_of};

use crate::plans::Plan;
use std::ops::Range;

/// A column of a plan: the plan, and one of its positions, 1 to n.
#[derive(Clone, Copy)]
pub struct Column<'a> {
    pub plan: &'a Plan,
    pub position: u16,
    ghost low: { 0 < position },
    ghost high: { position ≤ size_in (arrays_of plan.now) },
}

impl<'a> Column<'a> {
    ghost use Rattle.plan.specs.Walks.{columns_at, later_left};

    /// The label that goes at its position, 1 to n.
    pub fn label(self) -> u16
        ensures value { result ≡ label_in (arrays_of self.entry.plan.now) self.entry.position }
        ensures inside { (0 < result) × (result ≤ size_in (arrays_of self.entry.plan.now)) }
    {
        self.plan.order[self.position as usize - 1]
    }

    /// Its places, the diagonal first.
    pub fn places(self) -> Range<usize>
        ensures start { result.start ≡ start_in (arrays_of self.entry.plan.now) self.entry.position }
        ensures end { result.end ≡ start_in (arrays_of self.entry.plan.now) (self.entry.position + 1) }
        ensures some { result.start < result.end }
        ensures inside { result.end ≤ length (arrays_of self.entry.plan.now).rows }
    {
        let starts = &self.plan.starts;
        let position = self.position as usize;
        starts[position - 1] as usize..starts[position] as usize
    }

    /// Its rows below the diagonal.
    pub fn rows(self) -> &'a [u16]
        ensures value { result.now ≡ rows_in (arrays_of self.entry.plan.now) self.entry.position }
        ensures above { (i : ℕ) → i < length result.now → (self.entry.position < slice_index result.now i) × (slice_index result.now i ≤ size_in (arrays_of self.entry.plan.now)) }
        ensures rises { (i j : ℕ) → i < j → j < length result.now → slice_index result.now i < slice_index result.now j }
        ensures short { length result.now ≤ 8192 }
    {
        let places = self.places();
        &self.plan.rows[places.start + 1..places.end]
    }

    /// Whether each row below the diagonal is a link of the sheet.
    pub fn links(self) -> &'a [bool]
        ensures { result.now ≡ links_in (arrays_of self.entry.plan.now) self.entry.position }
    {
        let places = self.places();
        &self.plan.links[places.start + 1..places.end]
    }

    /// The columns at its rows, all of them later ones.
    pub fn later(self) -> Later<'a>
        ensures { later_left result ≡ columns_at self.entry.plan.now (rows_in (arrays_of self.entry.plan.now) self.entry.position) }
    {
        Later {
            plan: self.plan,
            rows: self.rows(),
        }
    }

    /// The label of its parent, 0 at a root.
    // 0 and no Option, by a rule of the project: the look-up by label and the listing both give 0.
    pub fn parent_label(self) -> u16
        ensures { result ≡ parent_in (arrays_of self.entry.plan.now) self.entry.position }
    {
        match self.rows() {
            [] => 0,
            [row, ..] => self.plan.order[*row as usize - 1],
        }
    }

    /// The place of a row, the diagonal first, then the rows; none where the column does not have it.
    pub fn place(self, row: u16) -> Option<usize>
        ensures { result ≡ place_in (arrays_of self.entry.plan.now) row self.entry.position }
    {
        let diagonal = self.places().start;
        if row == self.position {
            return Some(diagonal);
        }
        let index = self.rows().binary_search(&row).ok()?;
        Some(diagonal + 1 + index)
    }
}

/// The columns of a plan that are left of a walk, from either end.
#[derive(Drop)]
pub struct Columns<'a> {
    pub(crate) plan: &'a Plan,
    pub(crate) left: Range<u16>,
    ghost low: { 0 < left.start },
    ghost high: { left.end ≤ size_in (arrays_of plan.now) + 1 },
}

impl<'a> Iterator for Columns<'a> {
    type Item = Column<'a>;

    ghost use Rattle.std.specs.Iterator.{YieldsFirstBy, item_count};
    ghost use Rattle.plan.specs.Walks.{column_is, columns_left};

    ghost next_gives = { YieldsFirstBy column_is columns_left };

    ghost remaining = { item_count columns_left };

    fn next(&mut self) -> Option<Column<'a>> {
        let first = self.left.next()?;
        Some(Column {
            plan: self.plan,
            position: first,
        })
    }
}

impl<'a> DoubleEndedIterator for Columns<'a> {
    ghost use Rattle.std.specs.Iterator.{YieldsLastBy};
    ghost use Rattle.plan.specs.Walks.{column_is, columns_left};

    ghost next_back_gives = { YieldsLastBy column_is columns_left };

    fn next_back(&mut self) -> Option<Column<'a>> {
        let last = self.left.next_back()?;
        Some(Column {
            plan: self.plan,
            position: last,
        })
    }
}

/// The columns at rows of a column that are left of a walk.
#[derive(Drop)]
pub struct Later<'a> {
    pub(crate) plan: &'a Plan,
    pub(crate) rows: &'a [u16],
    ghost positions: { Positions (arrays_of plan.now) rows.now },
}

impl<'a> Iterator for Later<'a> {
    type Item = Column<'a>;

    ghost use Rattle.std.specs.Iterator.{YieldsFirstBy, item_count};
    ghost use Rattle.plan.specs.Walks.{column_is, later_left};

    ghost next_gives = { YieldsFirstBy column_is later_left };

    ghost remaining = { item_count later_left };

    fn next(&mut self) -> Option<Column<'a>> {
        let (row, rows) = self.rows.split_first()?;
        self.rows = rows;
        Some(Column {
            plan: self.plan,
            position: *row,
        })
    }
}
