//! Why a call that writes into a lent table is refused.
ghost use Rattle.std.specs.Prelude.{◌≡◌};
ghost use Rattle.listing.specs.Refusals.{number_of};

/// The table is too short for what is to be written.
#[derive(Clone, Copy, PartialEq, Eq, Debug)]
pub struct TooShort;

impl TooShort {
    /// The number of the refusal: 21.
    pub fn number(self) -> u8
        ensures { result ≡ number_of self }
    {
        21
    }
}
