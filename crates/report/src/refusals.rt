//! What is wrong with some bytes, in words: the fault, the word at its place and the rule that it breaks.
ghost use Rattle.std.specs.Prelude.{◌≡◌, Some};
ghost use Rattle.report.specs.Refusals.{hex_bytes, word_text, bytes_at, refusal_text};

use crate::rules::rule;
use sheet::reading::Fault;
use std::fmt;

/// The two lines that tell of a fault, and of the bytes that it was found in.
#[derive(Clone, Copy)]
pub struct Refusal<'a> {
    pub fault: Fault,
    pub bytes: &'a [u8],
}

impl fmt::Display for Refusal<'_> {
    ghost output = { λ x. Some (refusal_text x.fault x.bytes.now) };

    fn fmt<W: fmt::Write>(&self, f: &mut fmt::Formatter<W>) -> fmt::Result {
        let fault = self.fault;
        let place = fault.place();
        let word = WordBytes(bytes_at(self.bytes, place));
        let broken = rule(fault);
        writeln!(f, "{fault}\nword {place} is {word}: {broken}")
    }
}

/// The bytes of the word at a place: fewer than four where the bytes run out.
fn bytes_at(bytes: &[u8], place: usize) -> &[u8]
    ensures { result.now ≡ bytes_at bytes.now place }
{
    // A product that does not fit lies past the end of every slice, as does the largest number in its place.
    let start = place.saturating_mul(4).min(bytes.len());
    let rest = &bytes[start..];
    &rest[0..rest.len().min(4)]
}

/// The bytes of a word as a number in hexadecimal, or that it is missing.
#[derive(Clone, Copy)]
struct WordBytes<'a>(&'a [u8]);

impl fmt::Display for WordBytes<'_> {
    ghost output = { λ x. Some (word_text x.0.now) };

    fn fmt<W: fmt::Write>(&self, f: &mut fmt::Formatter<W>) -> fmt::Result {
        if self.0.is_empty() {
            return write!(f, "missing");
        }
        let digits = HexBytes(self.0);
        write!(f, "0x{digits}")
    }
}

/// Two digits for each byte, the last byte first.
#[derive(Clone, Copy)]
struct HexBytes<'a>(&'a [u8]);

impl fmt::Display for HexBytes<'_> {
    ghost output = { λ x. Some (hex_bytes x.0.now) };

    fn fmt<W: fmt::Write>(&self, f: &mut fmt::Formatter<W>) -> fmt::Result {
        for &byte in self.0.iter().rev() {
            write!(f, "{byte:02x}")?;
        }
        Ok(())
    }
}
