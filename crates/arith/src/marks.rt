//! Marks as numbers to eliminate with: they tell where anything can come to stand.
ghost use Rattle.arith.specs.Marks.{off, updated_mark, judged_mark};
ghost use Rattle.std.proofs.Common.{rules};

use crate::arithmetic::Arithmetic;

/// Whether anything stands at a place.
#[derive(Clone, Copy)]
pub struct Mark {
    pub on: bool,
}

/// Nothing is off. A place comes on where its row and its column both are.
impl Arithmetic for Mark {
    ghost nothing = { off };

    ghost updated = { updated_mark };

    ghost judged = { judged_mark };

    ghost row = { Prim.search rules };

    ghost column = { Prim.search rules };

    fn nothing() -> Mark {
        Mark { on: false }
    }

    fn update(a: Mark, u: Mark, _d: Mark, v: Mark) -> Mark {
        Mark {
            on: a.on | (u.on & v.on),
        }
    }

    /// 1: off.
    fn verdict(d: Mark) -> u32 {
        if d.on { 0 } else { 1 }
    }
}
