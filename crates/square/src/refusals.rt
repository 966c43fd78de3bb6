//! Why a call is refused.
ghost use Rattle.std.specs.Prelude.{◌≡◌};
ghost use Rattle.square.specs.Refusals.{number_of};

/// A refusal, each case of which has a number.
#[derive(Clone, Copy, PartialEq, Eq, Debug)]
pub enum Refusal {
    /// The box was never cleared.
    NotCleared,
    /// A table hasn't the length that the plan gives it.
    WrongLength,
    /// A label isn't 1 to n.
    OutOfRange,
    /// Two different labels aren't linked on the sheet.
    NotLinked,
    /// The number on the diagonal of the label is no pivot, for the cause that its verdict gives.
    NoPivot(u16, u32),
    /// The last elimination didn't come to its end, or there was none.
    NotWorked,
}

impl Refusal {
    /// The number of the refusal.
    pub fn number(self) -> u8
        ensures { result ≡ number_of self }
    {
        match self {
            Refusal::NotCleared => 15,
            Refusal::WrongLength => 16,
            Refusal::OutOfRange => 17,
            Refusal::NotLinked => 18,
            Refusal::NoPivot(_, _) => 19,
            Refusal::NotWorked => 20,
        }
    }
}
