//! The members of a set come each once, the least first, as tests of the compiled sets.
ghost use Rattle.std.specs.Prelude.{◌≡◌};
ghost use Rattle.nodeset.specs.Sets.{has, count_below};

use crate::sets::NodeSet;

/// The set of some numbers.
fn set_of(numbers: &[u16]) -> NodeSet {
    let mut set = NodeSet::empty();
    for i in numbers {
        set.insert(*i);
    }
    set
}

/// How many members come.
fn tally(set: &NodeSet) -> u16
    ensures { result ≡ count_below (has set.now) 512 }
{
    let mut n = 0;
    for _a in set.iter() {
        n += 1;
    }
    n
}

#[test]
fn members_ascend(rt: HostRuntime) {
    let mut members = set_of(&[511, 64, 0, 63]).iter();
    for want in [Some(0), Some(63), Some(64), Some(511), None] {
        assert_eq!(rt; members.next(), want);
    }
}

#[test]
fn members_are_counted(rt: HostRuntime) {
    let set = set_of(&[7, 8, 7, 512, 300]);
    assert_eq!(rt; set.len(), 3);
    assert_eq!(rt; tally(&set), 3);
}
