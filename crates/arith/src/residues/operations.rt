//! Residues as numbers to eliminate and to solve with.
ghost use Rattle.std.specs.Prelude.{◌≡◌, ◌<◌};
ghost use Rattle.arith.specs.Residues.{residue, difference, product, quotient, updated_residue, judged_residue, taken_residue, divided_residue};
ghost use Rattle.arith.specs.Nothing;

use super::modular::{inverse, times};
use super::{PRIME, Residue};
use crate::arithmetic::{Arithmetic, Solving};
use std::ops::{Mul, Sub};

/// The residue of any number: its remainder by 65,521.
impl From<u32> for Residue {
    ghost from_gives = { λ x r. r ≡ residue x };

    fn from(x: u32) -> Residue {
        Residue { value: x % PRIME }
    }
}

/// The residue as a number, 0 to 65,520.
impl From<Residue> for u32 {
    ghost from_gives = { λ r x. x ≡ r.value };

    fn from(residue: Residue) -> u32 {
        residue.value
    }
}

impl Sub for Residue {
    type Output = Residue;

    ghost sub_gives = { λ a b r. r ≡ difference a b };

    fn sub(self, b: Residue) -> Residue {
        Residue::from(self.value + (PRIME - b.value))
    }
}

impl Mul for Residue {
    type Output = Residue;

    ghost mul_gives = { λ a b r. r ≡ product a b };

    fn mul(self, b: Residue) -> Residue {
        Residue {
            value: times(self.value, b.value),
        }
    }
}

impl Residue {
    /// The same as `Residue::from`.
    pub fn of(x: u32) -> Residue
        ensures { result ≡ residue x }
    {
        Residue::from(x)
    }

    /// The same as `u32::from`.
    pub fn value(self) -> u32
        ensures { result ≡ self.value }
    {
        u32::from(self)
    }

    /// By one inverse. It is no `/`, since `d` has to be above 0.
    fn divided_by(self, d: Residue) -> Residue
        requires { 0 < d.value }
        ensures { result ≡ quotient self d }
    {
        Residue {
            value: times(self.value, inverse(d.value)),
        }
    }
}

/// Nothing is 0, and it is no pivot: an update by it leaves a number as it is.
impl Arithmetic for Residue {
    ghost nothing = { residue 0 };

    ghost updated = { updated_residue };

    ghost judged = { judged_residue };

    ghost row = { Nothing.row };

    ghost column = { Nothing.column };

    fn nothing() -> Residue {
        Residue::from(0)
    }

    fn update(a: Residue, u: Residue, d: Residue, v: Residue) -> Residue {
        if d.value == 0 {
            a
        } else {
            a - v.divided_by(d) * u
        }
    }

    /// 1: zero.
    fn verdict(d: Residue) -> u32 {
        if d.value == 0 { 1 } else { 0 }
    }
}

/// A number over 0 is the number itself.
#[tactic(auto, using(crate::specs::Nothing::calm))]
impl Solving for Residue {
    ghost taken = { taken_residue };

    ghost divided = { divided_residue };

    ghost calm = { Nothing.calm };

    fn take(b: Residue, u: Residue, y: Residue) -> Residue {
        b - u * y
    }

    fn over(b: Residue, d: Residue) -> Residue {
        if d.value == 0 { b } else { b.divided_by(d) }
    }
}
