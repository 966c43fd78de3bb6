//! How a box stands.

/// What has become of a box so far.
#[derive(Clone, Copy, PartialEq, Eq, Debug)]
pub enum Standing {
    /// Never cleared.
    Bare,
    /// Cleared, and not eliminated since.
    Cleared,
    /// The last elimination came to a number that is no pivot.
    Stuck,
    /// The last elimination came to its end.
    Worked,
}
