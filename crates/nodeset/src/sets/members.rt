//! The members of a set, one after another.
ghost use Rattle.std.specs.Prelude.{◌≡◌, ◌-◌};
ghost use Rattle.std.specs.Iterator.{at_most};
ghost use Rattle.nodeset.specs.Members.{GivesMember};

use super::NodeSet;

/// The members from a number on, the least first.
#[derive(Clone, Debug, Drop)]
pub struct Members {
    set: NodeSet,
    from: u16,
}

impl NodeSet {
    /// The members, the least first: those that the set has now, whatever becomes of it meanwhile.
    pub fn iter(&self) -> Members
        ensures set { result.set ≡ self.now }
        ensures from { result.from ≡ 0 }
    {
        Members {
            set: *self,
            from: 0,
        }
    }
}

impl Iterator for Members {
    type Item = u16;

    ghost next_gives = { GivesMember };

    ghost remaining = { λ s. at_most (512 - s.from) };

    fn next(&mut self) -> Option<u16> {
        let found = self.set.first_from(self.from)?;
        self.from = found + 1;
        Some(found)
    }
}
