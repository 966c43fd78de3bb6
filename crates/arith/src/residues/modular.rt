//! Products and inverses modulo the prime.
ghost use Rattle.std.specs.Prelude.{◌≡◌, ◌*◌, ◌%◌, ◌<◌};

use super::PRIME;

/// a × b, modulo the prime.
pub(super) fn times(a: u32, b: u32) -> u32
    ensures { result ≡ a * b % 65521 }
{
    (u64::from(a) * u64::from(b) % u64::from(PRIME)) as u32
}

/// What d is multiplied by to give 1, modulo the prime p. At each turn s × d ≡ m. With q the whole part of p ÷ m,
/// −q × m ≡ p % m, which is below m and not 0: so m goes down to 1.
pub(super) fn inverse(d: u32) -> u32
    requires { (0 < d) × (d < 65521) }
    ensures { result * d % 65521 ≡ 1 }
{
    let mut m = d;
    let mut s = 1;
    while m > 1 {
        s = times(PRIME - PRIME / m, s);
        m = PRIME % m;
    }
    s
}
