//! Why a call on plans is refused.
ghost use Rattle.std.specs.Prelude.{◌≡◌};
ghost use Rattle.plan.specs.Refusals.{number_of};

/// A refusal, each case of which has a number.
#[derive(Clone, Copy, PartialEq, Eq, Debug)]
pub enum Refusal {
    /// A plan would have more than 8,192 places.
    TooManyPlaces,
    /// A rule by given order was asked for, and the sheet has no order words.
    NoOrder,
    /// A label or a position isn't 1 to n.
    OutOfRange,
}

impl Refusal {
    pub fn number(self) -> u8
        ensures { result ≡ number_of self }
    {
        match self {
            Refusal::TooManyPlaces => 13,
            Refusal::NoOrder => 14,
            Refusal::OutOfRange => 17,
        }
    }
}
