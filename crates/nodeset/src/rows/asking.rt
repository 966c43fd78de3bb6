//! The links of a node: which, how many, and which comes next.
ghost use Rattle.std.specs.Prelude.{◌≡◌, ◌-◌, ℕ};
ghost use Rattle.nodeset.specs.Rows.{linked_in};
ghost use Rattle.nodeset.specs.Sets.{has, count_below, first_of, FindsLeast};

use super::Rows;
use crate::sets::NodeSet;

impl Rows {
    /// The nodes to which node a is linked.
    pub fn row(&self, a: u16) -> NodeSet
        ensures { (b : ℕ) → has result b ≡ linked_in self.now a b }
    {
        self.sets
            .get(a as usize)
            .copied()
            .unwrap_or(NodeSet::empty())
    }

    /// To how many nodes node a is linked.
    pub fn degree(&self, a: u16) -> u16
        ensures { result ≡ count_below (linked_in self.now a) 512 }
    {
        self.row(a).len()
    }

    /// The least node from b on to which node a is linked.
    pub fn neighbour_from(&self, a: u16, b: u16) -> Option<u16>
        ensures value { result ≡ first_of (linked_in self.now a) b (512 - b) }
        ensures least { FindsLeast (linked_in self.now a) b result }
    {
        self.sets.get(a as usize)?.first_from(b)
    }
}
