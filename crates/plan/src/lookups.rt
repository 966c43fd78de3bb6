//! What is asked of a plan.
ghost use Rattle.std.specs.Prelude.{◌≡◌, ℕ, ◌<◌, ◌≤◌, false, ◌&&◌, length, is_ok, Ok, IfOk, MatchResult, nat_le, nat_lt, slice_index, slice_index_or};
ghost use Rattle.plan.specs.declared.refusals.Refusal.TheVariants.{OutOfRange};
ghost use Rattle.std.specs.List.{range_with_len};
ghost use Rattle.plan.specs.Lookups.{size_in, label_in, position_in, rows_in, parent_in, within, place_of};
ghost use Rattle.plan.specs.Planned.{Keeps};
ghost use Rattle.plan.specs.Views.{arrays_of};
ghost use Rattle.plan.specs.Walks.{column_is, columns_at, columns_left};

use crate::columns::{Column, Columns};
use crate::plans::Plan;
use crate::refusals::Refusal;

impl Plan {
    /// The number of nodes. Every plan keeps the rules of the layout.
    pub fn n(&self) -> u16
        ensures value { result ≡ size_in (arrays_of self.now) }
        ensures keeps { Keeps (arrays_of self.now) }
    {
        self.order.len() as u16
    }

    /// The labels in the order in which they go.
    pub fn order(&self) -> &[u16]
        ensures { result.now ≡ (arrays_of self.now).order }
    {
        self.order.as_slice()
    }

    /// The position of each label.
    pub fn positions(&self) -> &[u16]
        ensures { result.now ≡ (arrays_of self.now).positions }
    {
        self.positions.as_slice()
    }

    /// The place at which each column starts, and the number of places.
    pub fn starts(&self) -> &[u32]
        ensures { result.now ≡ (arrays_of self.now).starts }
    {
        self.starts.as_slice()
    }

    /// The position of the row at each place.
    pub fn rows(&self) -> &[u16]
        ensures { result.now ≡ (arrays_of self.now).rows }
    {
        self.rows.as_slice()
    }

    /// Whether each place is a link of the sheet.
    pub fn links(&self) -> &[bool]
        ensures { result.now ≡ (arrays_of self.now).links }
    {
        self.links.as_slice()
    }

    /// The number of places: P.
    pub fn places(&self) -> usize
        ensures { result ≡ length (arrays_of self.now).rows }
    {
        self.rows.len()
    }

    /// Whether a label or a position is 1 to n.
    fn check(&self, k: u16) -> Result<(), Refusal>
        ensures answer { result ≡ within (arrays_of self.now) k (Ok tt) }
        ensures inside { IfOk result (λ _. (0 < k) × (k ≤ size_in (arrays_of self.now))) }
    {
        if k < 1 || k > self.n() {
            return Err(Refusal::OutOfRange);
        }
        Ok(())
    }

    /// The columns, in the order of their positions.
    pub fn columns(&self) -> Columns<'_>
        ensures { columns_left result ≡ columns_at self.now (range_with_len 1 (size_in (arrays_of self.now))) }
    {
        Columns {
            plan: self,
            left: 1..self.n() + 1,
        }
    }

    /// The column at a position.
    pub fn column_at(&self, position: u16) -> Result<Column<'_>, Refusal>
        ensures ok { is_ok result ≡ (nat_lt 0 position && nat_le position (size_in (arrays_of self.now))) }
        ensures cases { MatchResult result (λ c. column_is c ≡ (self.now, position)) (λ e. e ≡ OutOfRange) }
    {
        self.check(position)?;
        Ok(Column {
            plan: self,
            position,
        })
    }

    /// The column of a label.
    pub fn column_of(&self, label: u16) -> Result<Column<'_>, Refusal>
        ensures ok { is_ok result ≡ (nat_lt 0 label && nat_le label (size_in (arrays_of self.now))) }
        ensures cases { MatchResult result (λ c. column_is c ≡ (self.now, position_in (arrays_of self.now) label)) (λ e. e ≡ OutOfRange) }
    {
        self.check(label)?;
        Ok(Column {
            plan: self,
            position: self.positions[label as usize - 1],
        })
    }

    /// The label at a position.
    pub fn label_at(&self, position: u16) -> Result<u16, Refusal>
        ensures { result ≡ within (arrays_of self.now) position (Ok (label_in (arrays_of self.now) position)) }
    {
        Ok(self.column_at(position)?.label())
    }

    /// The rows of the column at a position, below its diagonal.
    pub fn rows_at(&self, position: u16) -> Result<&[u16], Refusal>
        ensures ok { is_ok result ≡ (nat_lt 0 position && nat_le position (size_in (arrays_of self.now))) }
        ensures cases { MatchResult result (λ s. s.now ≡ rows_in (arrays_of self.now) position) (λ e. e ≡ OutOfRange) }
    {
        Ok(self.column_at(position)?.rows())
    }

    /// The position of a label, and its parent's label: 0 at a root.
    pub fn node(&self, label: u16) -> Result<(u16, u16), Refusal>
        ensures { result ≡ within (arrays_of self.now) label (Ok (position_in (arrays_of self.now) label, parent_in (arrays_of self.now) (position_in (arrays_of self.now) label))) }
    {
        let column = self.column_of(label)?;
        Ok((column.position, column.parent_label()))
    }

    /// The place of two labels, whichever stands first; none where the plan has none.
    pub fn place(&self, a: u16, b: u16) -> Result<Option<usize>, Refusal>
        ensures { result ≡ within (arrays_of self.now) a (within (arrays_of self.now) b (Ok (place_of (arrays_of self.now) a b))) }
    {
        let first = self.column_of(a)?;
        let second = self.column_of(b)?;
        Ok(if first.position < second.position {
            first.place(second.position)
        } else {
            second.place(first.position)
        })
    }

    /// Whether a place is a link of the sheet. The diagonals aren't, and nor is what is no place.
    pub fn is_link(&self, place: usize) -> bool
        ensures { result ≡ slice_index_or (arrays_of self.now).links place false }
    {
        self.links.get(place).copied().unwrap_or(false)
    }
}
