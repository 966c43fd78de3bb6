//! Sets made and changed.
ghost use Rattle.std.specs.Prelude.{◌≡◌, ℕ, false, not, ◌&&◌, ◌||◌, ◌==◌, nat_lt};
ghost use Rattle.nodeset.specs.Sets.{has};

use super::NodeSet;
use crate::words::bit_of;
use std::array;

impl NodeSet {
    /// The set that has nothing.
    pub fn empty() -> NodeSet
        ensures { (i : ℕ) → has result i ≡ false }
    {
        NodeSet { words: [0; 8] }
    }

    /// Adds i; nothing where i isn't below 512.
    pub fn insert(&mut self, i: u16)
        ensures { (j : ℕ) → has self.new j ≡ has self.old j || (i == j && nat_lt j 512) }
    {
        // By index, here and in remove: of what get_mut lends, a proof knows nothing afterwards.
        if i < 512 {
            self.words[i as usize / 64] |= bit_of(i);
        }
    }

    /// Takes i away.
    pub fn remove(&mut self, i: u16)
        ensures { (j : ℕ) → has self.new j ≡ has self.old j && not (i == j) }
    {
        if i < 512 {
            self.words[i as usize / 64] &= !bit_of(i);
        }
    }

    /// Adds all that another set has.
    pub fn join(&mut self, other: &NodeSet)
        ensures { (j : ℕ) → has self.new j ≡ has self.old j || has other.now j }
    {
        self.words = array::from_fn(|k| self.words[k] | other.words[k]);
    }
}
