//! The sheet layer: the words of a sheet in turn, from the head to the end.
ghost use Rattle.std.specs.Prelude.{◌≡◌, ◌+◌, ◌<◌, length, IfOk};
ghost use Rattle.sheet.specs.Patterns.{Rules, Lawful};
ghost use Rattle.sheet.specs.Layouts.{Reads, ReadsLayouts, OneSheet, ReadsFront};
ghost use Rattle.sheet.specs.Records.{Fits};
ghost use Rattle.sheet.specs.Reading.{admitted, put, entered, blank, begun, closed, accepted, finished, read_sheet, Sound};
ghost use Rattle.sheet.specs.Drafts.{drafted};
ghost use Rattle.sheet.specs.Views.{told, pattern_of, state_of};
ghost use Rattle.sheet.specs.declared.reading.Fault.TheVariants.{InRecord};

use crate::drafts::{Draft, MOST_LINKS, MOST_NODES};
use crate::records::{Record, RecordFault, is_label, next_record};
use crate::room::Room;
use crate::sheets::Sheet;
use crate::words::Word;

/// Why some bytes are no sheet: a fault of a record, or a word that may not stand where it does. Each case holds its
/// place: the word's index, or the number of words where the next one is missing.
#[derive(Clone, Copy, PartialEq, Eq, Debug)]
pub enum Fault {
    InRecord(RecordFault),
    NoHead(usize),
    HeadCount(usize),
    SecondHead(usize),
    LateLink(usize),
    AfterEnd(usize),
    TooManyLinks(usize),
    EndCount(usize),
    NoEnd(usize),
    OrderShort(usize),
}

impl From<RecordFault> for Fault {
    ghost from_gives = { λ e r. r ≡ InRecord e };

    fn from(e: RecordFault) -> Fault {
        Fault::InRecord(e)
    }
}

/// How far the reading of a sheet has come.
#[derive(Clone, Copy, PartialEq, Eq, Debug)]
pub(crate) enum Phase {
    Start,
    Body,
    Ended,
}

/// What the words so far have led to, and the place of the next one.
#[derive(Drop)]
struct Reader {
    phase: Phase,
    draft: Draft,
    at: usize,
}

impl Draft {
    /// Refuses a link that comes after an order word or after 4,096 links.
    fn admit(&self, item: Record, at: usize) -> Result<(), Fault>
        ensures { result ≡ admitted (drafted self.now) item at }
    {
        match item {
            Record::Pair(_, _) if !self.order.is_empty() => Err(Fault::LateLink(at)),
            Record::Pair(_, _) if self.links.len() >= MOST_LINKS => Err(Fault::TooManyLinks(at)),
            _ => Ok(()),
        }
    }

    /// Puts down a record that was found in order.
    fn put(&mut self, item: Record)
        requires { Fits (drafted self.old) item }
        ensures { drafted self.new ≡ put (drafted self.old) item }
    {
        match item {
            Record::Pair(a, b) => {
                self.links.push_reserved((a, b));
                self.table.link(a, b);
            }
            Record::Turn(a) => self.order.push_reserved(a),
        }
    }

    /// Takes the record of the word at place `at`, or tells its fault.
    fn enter(&mut self, item: Record, at: usize) -> Result<(), Fault>
        requires { Rules (drafted self.old) }
        ensures { told result (λ _. drafted self.new) ≡ entered (drafted self.old) item at }
    {
        self.admit(item, at)?;
        self.check(item, at)?;
        self.put(item);
        Ok(())
    }
}

impl Reader {
    /// A reader that no word has come to yet.
    fn new(room: Room) -> Reader
        ensures state { state_of result ≡ blank }
        ensures place { result.at ≡ 0 }
    {
        Reader {
            phase: Phase::Start,
            draft: room.draft,
            at: 0,
        }
    }

    /// The head, which counts `n` nodes.
    fn begin(&mut self, n: u16) -> Result<(), Fault>
        ensures state { told result (λ _. state_of self.new) ≡ begun (state_of self.old) n self.old.at }
        ensures place { self.new.at ≡ self.old.at }
    {
        if !is_label(MOST_NODES, n) {
            return Err(Fault::HeadCount(self.at));
        }
        self.draft.n = n;
        self.phase = Phase::Body;
        Ok(())
    }

    /// The end word, which counts `count` words before it.
    fn close(&mut self, count: u32) -> Result<(), Fault>
        ensures state { told result (λ _. state_of self.new) ≡ closed (state_of self.old) count self.old.at }
        ensures place { self.new.at ≡ self.old.at }
    {
        if count as usize != self.at {
            return Err(Fault::EndCount(self.at));
        }
        let given = self.draft.order.len();
        if given != 0 && given < self.draft.n as usize {
            return Err(Fault::OrderShort(self.at));
        }
        self.phase = Phase::Ended;
        Ok(())
    }

    /// Takes the next word.
    fn accept(&mut self, word: Word) -> Result<(), Fault>
        requires { Sound (state_of self.old) self.old.at }
        ensures state { told result (λ _. state_of self.new) ≡ accepted (state_of self.old) word self.old.at }
        ensures place { IfOk result (λ _. self.new.at ≡ self.old.at + 1) }
    {
        match (self.phase, word) {
            (Phase::Start, Word::Head(n)) => self.begin(n)?,
            (Phase::Start, _) => return Err(Fault::NoHead(self.at)),
            (Phase::Body, Word::Head(_)) => return Err(Fault::SecondHead(self.at)),
            (Phase::Body, Word::Link(a, b)) => self.draft.enter(Record::Pair(a, b), self.at)?,
            (Phase::Body, Word::Order(a)) => self.draft.enter(Record::Turn(a), self.at)?,
            (Phase::Body, Word::End(count)) => self.close(count)?,
            (Phase::Ended, _) => return Err(Fault::AfterEnd(self.at)),
        }
        self.at += 1;
        Ok(())
    }

    /// What the words give, where no other follows.
    fn finish(self) -> Result<Sheet, Fault>
        requires { Sound (state_of self) self.at }
        ensures { told result pattern_of ≡ finished (state_of self) self.at }
    {
        match self.phase {
            Phase::Start => Err(Fault::NoHead(self.at)),
            Phase::Body => Err(Fault::NoEnd(self.at)),
            Phase::Ended => Ok(Sheet { draft: self.draft }),
        }
    }
}

/// Reads a sheet: what it says, or its first fault.
pub fn read(room: Room, bytes: &[u8]) -> Result<Sheet, Fault>
    ensures exact { told result pattern_of ≡ read_sheet bytes.now }
    ensures layout { Reads (told result pattern_of) bytes.now }
    ensures layouts { ReadsLayouts }
    ensures one { OneSheet }
    ensures front { ReadsFront }
{
    let mut reader = Reader::new(room);
    let mut rest = bytes;
    // The reader has the place for faults of its own, so an iterator over the words would count it a second time.
    while let Some((word, after)) = next_record(rest, reader.at)? {
        reader.accept(word)?;
        rest = after;
    }
    reader.finish()
}
