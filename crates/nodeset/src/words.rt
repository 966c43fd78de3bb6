//! The bits of a word.
ghost use Rattle.std.specs.Prelude.{◌≡◌, ◌%◌, ◌^◌, ◌<◌, ◌≤◌, IfSome};
ghost use Rattle.nodeset.specs.Sets.{bit_at, count_below, FindsLeast};

/// The bit of number i in its word.
pub(crate) fn bit_of(i: u16) -> u64
    ensures { result ≡ 2 ^ (i % 64) }
{
    1 << (i % 64)
}

/// How many bits are set.
pub(crate) fn count(word: u64) -> u16
    ensures value { result ≡ count_below (bit_at word) 64 }
    ensures few { result ≤ 64 }
{
    word.count_ones() as u16
}

/// The lowest bit from `low` on that is set.
pub(crate) fn lowest_from(word: u64, low: u16) -> Option<u16>
    requires { low < 64 }
    ensures least { FindsLeast (bit_at word) low result }
    ensures within { IfSome result (λ bit. bit < 64) }
{
    let rest = word >> low;
    if rest == 0 {
        return None;
    }
    Some(low + rest.trailing_zeros() as u16)
}
