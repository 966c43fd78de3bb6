//! Whole numbers modulo the prime 65,521.
ghost use Rattle.std.specs.Prelude.{◌<◌};

mod modular;
mod operations;

/// The prime. What residues promise names its digits and not this constant: another number here is then refused.
const PRIME: u32 = 65_521;

/// A residue, 0 to 65,520.
#[derive(Clone, Copy)]
pub struct Residue {
    value: u32,
    ghost below: { value < 65521 },
}
