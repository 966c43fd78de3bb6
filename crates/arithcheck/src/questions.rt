//! Questions: a kind of number, a function of it, and the function's arguments.
use crate::answering::{eliminate, solve};
use crate::answers::Answer;
use crate::calls::{EliminationCall, SolvingCall};
use crate::spelling::Spelled;
use arith::marks::Mark;
use arith::residues::Residue;
use std::str::SplitWhitespace;

/// The answer to a question, or nothing if the line is none.
pub fn answer_to(question: &str) -> Option<Answer> {
    let mut words = question.split_whitespace();
    let kind = words.next()?;
    let function = words.next()?;
    match kind {
        "float" => solving(function, &mut words).map(solve::<f64>),
        "residue" => solving(function, &mut words).map(solve::<Residue>),
        "mark" => eliminating(function, &mut words).map(eliminate::<Mark>),
        _ => None,
    }
}

/// The call of a function of solving or of elimination, with the numbers that follow.
fn solving<N: Copy + Spelled>(
    function: &str,
    words: &mut SplitWhitespace<'_>,
) -> Option<SolvingCall<N>> {
    match function {
        "take" => Some(SolvingCall::Take(number(words)?, number(words)?, number(words)?)),
        "over" => Some(SolvingCall::Over(number(words)?, number(words)?)),
        _ => Some(SolvingCall::Base(eliminating(function, words)?)),
    }
}

/// The call of a function of elimination, with the numbers that follow.
fn eliminating<N: Copy + Spelled>(
    function: &str,
    words: &mut SplitWhitespace<'_>,
) -> Option<EliminationCall<N>> {
    match function {
        "nothing" => Some(EliminationCall::Nothing),
        "update" => Some(EliminationCall::Update(
            number(words)?,
            number(words)?,
            number(words)?,
            number(words)?,
        )),
        "verdict" => Some(EliminationCall::Verdict(number(words)?)),
        _ => None,
    }
}

/// The number that the next word spells.
fn number<N: Spelled>(words: &mut SplitWhitespace<'_>) -> Option<N> {
    N::read(words.next()?)
}
