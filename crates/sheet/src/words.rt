//! The word layer: a sheet's bytes, four to a word, low byte first.
ghost use Rattle.std.specs.Prelude.{◌≡◌};
ghost use Rattle.sheet.specs.Words.{decoded, next_word, seen};

/// A word by its kind, with the fields that it holds.
#[derive(Clone, Copy, PartialEq, Eq, Debug)]
pub enum Word {
    /// The number of nodes.
    Head(u16),
    /// The two labels that are linked.
    Link(u16, u16),
    /// The next label of the order.
    Order(u16),
    /// The number of words before it.
    End(u32),
}

/// What is wrong with the bytes of one word; each case holds the word's index.
#[derive(Clone, Copy, PartialEq, Eq, Debug)]
pub enum WordFault {
    Cut(usize),
    UnknownKind(usize),
    SpareBits(usize),
}

// A place goes with each item to where its fault is made, and the fault keeps it on the way up: a rule of the project.
/// What the 32 bits of the word at place `at` say.
pub fn decode(bits: u32, at: usize) -> Result<Word, WordFault>
    ensures { result ≡ decoded bits at }
{
    let low = (bits & 0x3ff) as u16;
    let high = (bits >> 10 & 0x3ff) as u16;
    let above_low = bits >> 10 & 0x3_ffff;
    let above_high = bits >> 20 & 0xff;
    match bits >> 28 {
        1 if above_low == 0 => Ok(Word::Head(low)),
        2 if above_high == 0 => Ok(Word::Link(high, low)),
        3 if above_low == 0 => Ok(Word::Order(low)),
        15 => Ok(Word::End(bits & 0x0fff_ffff)),
        1..=3 => Err(WordFault::SpareBits(at)),
        _ => Err(WordFault::UnknownKind(at)),
    }
}

/// The word at the front of `bytes`, which is at place `at`, and the bytes after it; none where no byte is left.
pub fn next_word(bytes: &[u8], at: usize) -> Result<Option<(Word, &[u8])>, WordFault>
    ensures { seen result ≡ next_word bytes.now at }
{
    match bytes {
        [] => Ok(None),
        [a, b, c, d, rest @ ..] => {
            let word = decode(u32::from_le_bytes([*a, *b, *c, *d]), at)?;
            Ok(Some((word, rest)))
        }
        _ => Err(WordFault::Cut(at)),
    }
}
