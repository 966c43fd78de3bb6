//! What a fault tells: its number, the layer that found it and its place, and the line that says so.
ghost use Rattle.std.specs.Prelude.{◌≡◌, Some};
ghost use Rattle.sheet.specs.Faults.{word_number, word_place, record_number, record_place, record_layer, number_of, place_of, layer_of, layer_text, fault_text};

use crate::reading::Fault;
use crate::records::RecordFault;
use crate::words::WordFault;
use std::fmt;

/// The layer of the reader that found a fault.
#[derive(Clone, Copy, PartialEq, Eq, Debug)]
pub enum Layer {
    Words,
    Records,
    Sheets,
}

// The numbers are fixed by the project's rules, in which some faults share one.
impl WordFault {
    pub(crate) fn number(self) -> u8
        ensures { result ≡ word_number self }
    {
        match self {
            WordFault::Cut(_) => 1,
            WordFault::UnknownKind(_) => 2,
            WordFault::SpareBits(_) => 3,
        }
    }

    pub(crate) fn place(self) -> usize
        ensures { result ≡ word_place self }
    {
        match self {
            WordFault::Cut(at) | WordFault::UnknownKind(at) | WordFault::SpareBits(at) => at,
        }
    }
}

impl RecordFault {
    pub(crate) fn number(self) -> u8
        ensures { result ≡ record_number self }
    {
        match self {
            RecordFault::InWord(e) => e.number(),
            RecordFault::NoSuchLabel(_) => 9,
            RecordFault::SelfLink(_) => 10,
            RecordFault::LinkedTwice(_) => 11,
            RecordFault::OrderedTwice(_) => 12,
        }
    }

    pub(crate) fn layer(self) -> Layer
        ensures { result ≡ record_layer self }
    {
        match self {
            RecordFault::InWord(_) => Layer::Words,
            _ => Layer::Records,
        }
    }

    pub(crate) fn place(self) -> usize
        ensures { result ≡ record_place self }
    {
        match self {
            RecordFault::InWord(e) => e.place(),
            RecordFault::NoSuchLabel(at)
            | RecordFault::SelfLink(at)
            | RecordFault::LinkedTwice(at)
            | RecordFault::OrderedTwice(at) => at,
        }
    }
}

impl Fault {
    pub fn number(self) -> u8
        ensures { result ≡ number_of self }
    {
        match self {
            Fault::InRecord(e) => e.number(),
            Fault::NoHead(_) | Fault::HeadCount(_) => 4,
            Fault::SecondHead(_) | Fault::LateLink(_) | Fault::AfterEnd(_) => 5,
            Fault::TooManyLinks(_) => 6,
            Fault::EndCount(_) | Fault::NoEnd(_) => 7,
            Fault::OrderShort(_) => 8,
        }
    }

    pub fn layer(self) -> Layer
        ensures { result ≡ layer_of self }
    {
        match self {
            Fault::InRecord(e) => e.layer(),
            _ => Layer::Sheets,
        }
    }

    /// The index of the word at fault, or the number of words where the next one is missing.
    pub fn place(self) -> usize
        ensures { result ≡ place_of self }
    {
        match self {
            Fault::InRecord(e) => e.place(),
            Fault::NoHead(at)
            | Fault::HeadCount(at)
            | Fault::SecondHead(at)
            | Fault::LateLink(at)
            | Fault::AfterEnd(at)
            | Fault::TooManyLinks(at)
            | Fault::EndCount(at)
            | Fault::NoEnd(at)
            | Fault::OrderShort(at) => at,
        }
    }
}

impl Layer {
    // A function and no Display: a name is part of a line, and one that writes itself would be no plainer in it.
    pub fn name(self) -> &'static str
        ensures { result.now ≡ layer_text self }
    {
        match self {
            Layer::Words => "word",
            Layer::Records => "record",
            Layer::Sheets => "sheet",
        }
    }
}

/// The word `fault`, the number, the layer and the place.
impl fmt::Display for Fault {
    ghost output = { λ e. Some (fault_text e) };

    fn fmt<W: fmt::Write>(&self, f: &mut fmt::Formatter<W>) -> fmt::Result {
        let number = self.number();
        let layer = self.layer().name();
        let place = self.place();
        write!(f, "fault {number} {layer} {place}")
    }
}
