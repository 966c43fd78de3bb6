//! What the reading of a sheet comes to, in numbers.
ghost use Rattle.std.specs.Prelude.{◌≡◌};
ghost use Rattle.sheet.specs.Reading.{read_sheet};
ghost use Rattle.sheet.specs.Views.{pattern_of};
ghost use Rattle.sheet_vectors.specs.Outcomes.{counts_of, told_of, outcome_of};

use sheet::faults::Layer;
use sheet::reading::{Fault, read};
use sheet::room::Room;
use sheet::sheets::Sheet;

/// How many nodes, links and order words a sheet has.
#[derive(Clone, Copy, PartialEq, Eq, Debug)]
pub struct Counts {
    pub nodes: u16,
    pub links: usize,
    pub order: usize,
}

/// What is told of a fault.
#[derive(Clone, Copy, PartialEq, Eq, Debug)]
pub struct Told {
    pub number: u8,
    pub layer: Layer,
    pub place: usize,
}

/// What some bytes are read as.
pub type Outcome = Result<Counts, Told>;

/// Reads a sheet, and keeps the numbers of what came of it.
pub fn outcome_of(room: Room, bytes: &[u8]) -> Outcome
    ensures { result ≡ outcome_of (read_sheet bytes.now) }
{
    let sheet = read(room, bytes).map_err(told_of)?;
    Ok(counts_of(&sheet))
}

fn counts_of(sheet: &Sheet) -> Counts
    ensures { result ≡ counts_of (pattern_of sheet.now) }
{
    Counts {
        nodes: sheet.n(),
        links: sheet.links().len(),
        order: sheet.order().len(),
    }
}

fn told_of(fault: Fault) -> Told
    ensures { result ≡ told_of fault }
{
    Told {
        number: fault.number(),
        layer: fault.layer(),
        place: fault.place(),
    }
}
