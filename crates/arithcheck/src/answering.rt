//! What the calls answer.
ghost use Rattle.std.specs.Prelude.{◌≡◌};
ghost use Rattle.arith.specs.Operations.{operations_of, solvers_of};
ghost use Rattle.arithcheck.specs.Calls.{eliminated, solved};

use crate::answers::Answer;
use crate::calls::{EliminationCall, SolvingCall};
use crate::spelling::Spelled;
use arith::arithmetic::{Arithmetic, Solving};

/// The answer to a call of elimination.
pub fn eliminate<N: Arithmetic + Spelled>(call: EliminationCall<N>) -> Answer
    ensures { result ≡ eliminated (operations_of N.Arithmetic) N.Spelled.answered call }
{
    match call {
        EliminationCall::Nothing => N::nothing().into(),
        EliminationCall::Update(a, u, d, v) => N::update(a, u, d, v).into(),
        EliminationCall::Verdict(d) => Answer::Verdict(N::verdict(d)),
    }
}

/// The answer to a call of solving.
pub fn solve<N: Solving + Spelled>(call: SolvingCall<N>) -> Answer
    ensures { result ≡ solved (solvers_of N.Arithmetic N.taken N.divided) N.Spelled.answered call }
{
    match call {
        SolvingCall::Base(call) => eliminate(call),
        SolvingCall::Take(b, u, y) => N::take(b, u, y).into(),
        SolvingCall::Over(b, d) => N::over(b, d).into(),
    }
}
