//! Calls as values, and what is answered to them.

/// A call on a box over any arithmetic.
#[derive(Clone, Copy, PartialEq, Eq, Debug)]
pub enum Call<N> {
    /// Makes every number nothing.
    Clear,
    /// Enters a number for two labels.
    Set(u16, u16, N),
    /// Eliminates all nodes in their order.
    Eliminate,
    /// Asks for the worked number of two labels.
    Read(u16, u16),
    /// Asks how often was solved.
    Tally,
}

/// What is answered to a call, unless it is refused.
#[derive(Clone, Copy, PartialEq, Eq, Debug)]
pub enum Answer<N> {
    /// It was done.
    Done,
    /// The number that was read.
    Number(N),
    /// How often was solved.
    Tally(u32),
}
