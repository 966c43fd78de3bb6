//! Calls of the functions of an arithmetic.
// Values and no closures: the contracts that say how a call is answered go by its cases.

/// A call of a function that elimination needs, with its arguments.
#[derive(Clone, Copy)]
pub enum EliminationCall<N> {
    Nothing,
    Update(N, N, N, N),
    Verdict(N),
}

/// A call of a function that solving needs, those of elimination among them.
#[derive(Clone, Copy)]
pub enum SolvingCall<N> {
    Base(EliminationCall<N>),
    Take(N, N, N),
    Over(N, N),
}
