//! Graphs made and changed.
ghost use Rattle.std.specs.Prelude.{◌≡◌, ℕ, false, IfOk};
ghost use Rattle.nodeset.specs.Rows.{linked_in, linked_also, joined_to};

use super::Rows;
use crate::sets::NodeSet;
use std::alloc::{AllocError, Global};

impl Rows {
    /// The graph without links, in memory of its own.
    pub fn reserve(heap: Global) -> Result<Rows, AllocError>
        ensures { IfOk result (λ g. (a b : ℕ) → linked_in g a b ≡ false) }
    {
        let sets = vec![in heap; NodeSet::empty(); 512]?;
        Ok(Rows { sets })
    }

    /// Links two nodes; nothing where either isn't below 512.
    pub fn link(&mut self, a: u16, b: u16)
        ensures { (i j : ℕ) → linked_in self.new i j ≡ linked_also (linked_in self.old) a b i j }
    {
        if a < 512 && b < 512 {
            self.sets[a as usize].insert(b);
            self.sets[b as usize].insert(a);
        }
    }

    /// Links node a to all that node v is linked to, but for a itself, and parts it from v; nothing where either isn't below 512.
    pub fn join(&mut self, v: u16, a: u16)
        ensures { (i j : ℕ) → linked_in self.new i j ≡ joined_to (linked_in self.old) v a i j }
    {
        if v < 512 && a < 512 {
            let mut row = self.sets[v as usize];
            row.join(&self.sets[a as usize]);
            row.remove(a);
            row.remove(v);
            self.sets[a as usize] = row;
        }
    }
}
