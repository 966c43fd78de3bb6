//! What is answered, and how it is printed.
ghost use Rattle.std.specs.Prelude.{◌≡◌};
ghost use Rattle.arithcheck.specs.declared.answers.Answer.TheVariants as answer;

use arith::marks::Mark;
use arith::residues::Residue;
use std::fmt;
use std::num::f64_to_bits_with_nan;

/// A number of one of the kinds, or a verdict.
#[derive(Clone, Copy)]
pub enum Answer {
    Float(f64),
    Residue(u32),
    Mark(bool),
    Verdict(u32),
}

impl From<f64> for Answer {
    ghost from_gives = { λ x r. r ≡ answer.Float x };

    fn from(float: f64) -> Answer {
        Answer::Float(float)
    }
}

impl From<Residue> for Answer {
    ghost from_gives = { λ x r. r ≡ answer.Residue x.value };

    fn from(residue: Residue) -> Answer {
        Answer::Residue(u32::from(residue))
    }
}

impl From<Mark> for Answer {
    ghost from_gives = { λ x r. r ≡ answer.Mark x.on };

    fn from(mark: Mark) -> Answer {
        Answer::Mark(mark.on)
    }
}

/// A float by its bits, in 16 hexadecimal digits, or as `nan`; a residue in hexadecimal; a mark as `on` or `off`; a
/// verdict in decimal.
impl fmt::Display for Answer {
    fn fmt<W: fmt::Write>(&self, f: &mut fmt::Formatter<W>) -> fmt::Result {
        match *self {
            Answer::Float(x) if x.is_nan() => write!(f, "nan"),
            Answer::Float(x) => write!(f, "{:016x}", f64_to_bits_with_nan(x)),
            Answer::Residue(value) => write!(f, "{value:x}"),
            Answer::Mark(true) => write!(f, "on"),
            Answer::Mark(false) => write!(f, "off"),
            Answer::Verdict(verdict) => write!(f, "{verdict}"),
        }
    }
}
