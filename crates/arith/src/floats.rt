//! Floats of 64 bits as numbers to eliminate and to solve with.
ghost use Rattle.arith.specs.Floats.{plus_zero, updated_float, judged_float, taken_float, divided_float};
ghost use Rattle.arith.specs.Zeros;

use crate::arithmetic::{Arithmetic, Solving};

/// Nothing is +0. A place whose row or column has a zero, of either sign, stays as it is: an infinite quotient times that
/// zero would not be a number.
impl Arithmetic for f64 {
    ghost nothing = { plus_zero };

    ghost updated = { updated_float };

    ghost judged = { judged_float };

    ghost row = { Zeros.row };

    ghost column = { Zeros.column };

    fn nothing() -> f64 {
        0.0
    }

    fn update(a: f64, u: f64, d: f64, v: f64) -> f64 {
        if u == 0.0 || v == 0.0 {
            a
        } else {
            a - (v / d) * u
        }
    }

    /// 3: infinite or not a number, 1: a zero, 2: below zero.
    fn verdict(d: f64) -> u32 {
        if !d.is_finite() {
            3
        } else if d == 0.0 {
            1
        } else if d < 0.0 {
            2
        } else {
            0
        }
    }
}

#[tactic(auto, using(crate::specs::Zeros::calm))]
impl Solving for f64 {
    ghost taken = { taken_float };

    ghost divided = { divided_float };

    ghost calm = { Zeros.calm };

    fn take(b: f64, u: f64, y: f64) -> f64 {
        if u == 0.0 { b } else { b - u * y }
    }

    fn over(b: f64, d: f64) -> f64 {
        b / d
    }
}
