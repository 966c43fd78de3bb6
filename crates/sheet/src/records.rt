//! The record layer: what a word adds to a sheet, and whether its labels may stand there.
ghost use Rattle.std.specs.Prelude.{◌≡◌};
ghost use Rattle.sheet.specs.Words.{seen};
ghost use Rattle.sheet.specs.Patterns.{is_label};
ghost use Rattle.sheet.specs.Records.{next_record, labelled, checked};
ghost use Rattle.sheet.specs.Drafts.{drafted};
ghost use Rattle.sheet.specs.declared.records.RecordFault.TheVariants.{InWord};

use crate::drafts::Draft;
use crate::words::{Word, WordFault, next_word};

/// What a word adds to a sheet.
#[derive(Clone, Copy, PartialEq, Eq, Debug)]
pub enum Record {
    /// Two labels to link.
    Pair(u16, u16),
    /// The label whose turn in the order is next.
    Turn(u16),
}

/// A fault of a word, or a label that may not stand where it does; each case holds the word's index.
#[derive(Clone, Copy, PartialEq, Eq, Debug)]
pub enum RecordFault {
    InWord(WordFault),
    NoSuchLabel(usize),
    SelfLink(usize),
    LinkedTwice(usize),
    OrderedTwice(usize),
}

// By hand, here and above: a derived From would not say in which case the fault ends up.
impl From<WordFault> for RecordFault {
    ghost from_gives = { λ e r. r ≡ InWord e };

    fn from(e: WordFault) -> RecordFault {
        RecordFault::InWord(e)
    }
}

/// The word at the front of `bytes`, with the bytes after it; none where no byte is left.
pub fn next_record(bytes: &[u8], at: usize) -> Result<Option<(Word, &[u8])>, RecordFault>
    ensures { seen result ≡ next_record bytes.now at }
{
    Ok(next_word(bytes, at)?)
}

/// Whether a label is one of n nodes.
pub(crate) fn is_label(n: u16, label: u16) -> bool
    ensures { result ≡ is_label n label }
{
    (1..=n).contains(&label)
}

/// Refuses a label that isn't one of 1 to n.
fn check_label(n: u16, label: u16, at: usize) -> Result<(), RecordFault>
    ensures { result ≡ labelled n label at }
{
    if !is_label(n, label) {
        return Err(RecordFault::NoSuchLabel(at));
    }
    Ok(())
}

impl Draft {
    /// Checks the labels of a record at place `at` against the sheet so far.
    pub(crate) fn check(&self, item: Record, at: usize) -> Result<(), RecordFault>
        ensures { result ≡ checked (drafted self.now) item at }
    {
        match item {
            Record::Pair(a, b) => {
                check_label(self.n, a, at)?;
                check_label(self.n, b, at)?;
                if a == b {
                    return Err(RecordFault::SelfLink(at));
                }
                if self.table.linked(a, b) {
                    return Err(RecordFault::LinkedTwice(at));
                }
                Ok(())
            }
            Record::Turn(a) => {
                check_label(self.n, a, at)?;
                if self.order.contains(&a) {
                    return Err(RecordFault::OrderedTwice(at));
                }
                Ok(())
            }
        }
    }
}
