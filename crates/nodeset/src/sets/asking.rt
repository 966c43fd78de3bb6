//! What a set has, how many, and which comes next.
ghost use Rattle.std.specs.Prelude.{◌≡◌, ◌-◌};
ghost use Rattle.nodeset.specs.Sets.{has, count_below, first_of, FindsLeast};

use super::NodeSet;
use crate::words::{bit_of, count, lowest_from};

impl NodeSet {
    /// Whether the set has i; what isn't below 512 it never has.
    pub fn has(&self, i: u16) -> bool
        ensures { result ≡ has self.now i }
    {
        i < 512 && self.words[i as usize / 64] & bit_of(i) != 0
    }

    /// How many the set has.
    pub fn len(&self) -> u16
        ensures { result ≡ count_below (has self.now) 512 }
    {
        self.words.iter().map(|word| count(*word)).sum()
    }

    /// The least number from i on that the set has.
    pub fn first_from(&self, i: u16) -> Option<u16>
        ensures value { result ≡ first_of (has self.now) i (512 - i) }
        ensures least { FindsLeast (has self.now) i result }
    {
        let mut low = i % 64;
        for word in i / 64..8 {
            if let Some(bit) = lowest_from(self.words[word as usize], low) {
                return Some(word * 64 + bit);
            }
            low = 0;
        }
        None
    }
}
