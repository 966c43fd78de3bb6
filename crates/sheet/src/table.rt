//! Which labels are linked, as a table, so that no look-up goes through the links.
ghost use Rattle.std.specs.Prelude.{◌≡◌, ℕ, List, [], ◌∷◌, ◌++◌, IfOk, vec_len};
ghost use Rattle.sheet.specs.Patterns.{IsLabel, linked_in};
ghost use Rattle.sheet.specs.Tables.{cell_of, Shows};

use crate::drafts::MOST_NODES;
use std::alloc::{AllocError, Global};

/// The cells of a row, and the rows.
const SIDE: usize = MOST_NODES as usize;

/// 512 rows of 512 cells: the labels a and b are linked where the cell in row a - 1 and column b - 1 is set.
// One vector of cells: of rows as arrays `as_flattened` would lend them too, but its proof lacks the rows' lengths.
#[derive(Drop)]
pub(crate) struct LinkTable {
    cells: Vec<bool>,
    ghost size: { vec_len cells ≡ 262144 },
}

impl LinkTable {
    /// A table in which no labels are linked.
    pub(crate) fn reserve(heap: Global) -> Result<LinkTable, AllocError>
        ensures { IfOk result (λ t. Shows [] t.cells.items) }
    {
        let cells = vec![in heap; false; SIDE * SIDE]?;
        Ok(LinkTable { cells })
    }

    /// The cells, row after row.
    pub(crate) fn cells(&self) -> &[bool]
        ensures { result.now ≡ self.now.cells.items }
    {
        self.cells.as_slice()
    }

    // That both are labels stays a clause of three: a pair of labels as a type would be made and taken apart at each call.
    /// Whether the labels a and b are linked.
    pub(crate) fn linked(&self, a: u16, b: u16) -> bool
        requires { IsLabel 512 a × IsLabel 512 b }
        ensures { (links : List (ℕ × ℕ)) → Shows links self.now.cells.items → result ≡ linked_in links a b }
    {
        self.cells[cell(a, b)]
    }

    /// Links the labels a and b.
    pub(crate) fn link(&mut self, a: u16, b: u16)
        requires { IsLabel 512 a × IsLabel 512 b }
        ensures { (links : List (ℕ × ℕ)) → Shows links self.old.cells.items → Shows (links ++ (a, b) ∷ []) self.new.cells.items }
    {
        self.cells[cell(a, b)] = true;
        self.cells[cell(b, a)] = true;
    }
}

/// The place of the cell in row a - 1 and column b - 1.
fn cell(a: u16, b: u16) -> usize
    requires { IsLabel 512 a × IsLabel 512 b }
    ensures { result ≡ cell_of a b }
{
    (a as usize - 1) * SIDE + (b as usize - 1)
}
