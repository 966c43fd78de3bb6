//! How the numbers of each kind are spelled in a question, and what they are as answers.
ghost use Rattle.std.specs.Prelude.{◌≡◌};
ghost use Rattle.std.proofs.Common.{rules};
ghost use Rattle.arithcheck.specs.declared.answers.Answer.{Answer};
ghost use Rattle.arithcheck.specs.declared.answers.Answer.TheVariants as answer;

use crate::answers::Answer;
use arith::marks::Mark;
use arith::residues::Residue;
use std::num::f64_from_bits_with_nan;

/// A kind of number that can be asked about.
// Not FromStr: that of a float reads decimals, and those of the other two kinds would be of their crate.
pub trait Spelled: Sized + Into<Answer> {
    // the number as an answer
    ghost answered: { Self → Answer };

    /// The number that a word spells.
    fn read(word: &str) -> Option<Self>;

    // it is what the number converts to
    ghost told: { (x : Self) (r : Answer) → Self.converts x r → r ≡ answered x };
}

/// A float is spelled by its bits, in hexadecimal; the bits of any NaN are NaN.
impl Spelled for f64 {
    ghost answered = { answer.Float };

    ghost told = { Prim.search rules };

    fn read(word: &str) -> Option<f64> {
        let bits = u64::from_str_radix(word, 16).ok()?;
        Some(f64_from_bits_with_nan(bits))
    }
}

/// A residue is spelled by any 32-bit number that it is the remainder of, in hexadecimal.
impl Spelled for Residue {
    ghost answered = { λ x. answer.Residue x.value };

    ghost told = { Prim.search rules };

    fn read(word: &str) -> Option<Residue> {
        u32::from_str_radix(word, 16).ok().map(Residue::from)
    }
}

/// A mark is spelled `on` or `off`.
impl Spelled for Mark {
    ghost answered = { λ x. answer.Mark x.on };

    ghost told = { Prim.search rules };

    fn read(word: &str) -> Option<Mark> {
        match word {
            "on" => Some(Mark { on: true }),
            "off" => Some(Mark { on: false }),
            _ => None,
        }
    }
}
