//! The memory that the reading of a sheet takes, asked for before any sheet is looked at.
ghost use Rattle.std.specs.Prelude.{◌≡◌};
ghost use Rattle.sheet.specs.Drafts.{drafted};
ghost use Rattle.sheet.specs.Reading.{empty};

use crate::drafts::{Draft, MOST_LINKS, MOST_NODES};
use crate::table::LinkTable;
use std::alloc::{AllocError, Global};

/// Room for any sheet, in a draft that says nothing yet: 4,096 links, 512 order labels and the table of the links.
#[derive(Drop)]
pub struct Room {
    pub(crate) draft: Draft,
    ghost blank: { drafted draft ≡ empty },
}

impl Room {
    /// Reserves the room. This is the one call that can be refused for want of memory.
    pub fn reserve(heap: Global) -> Result<Room, AllocError> {
        let draft = Draft {
            n: 0,
            links: Vec::with_capacity(heap, MOST_LINKS)?,
            order: Vec::with_capacity(heap, MOST_NODES as usize)?,
            table: LinkTable::reserve(heap)?,
        };
        Ok(Room { draft })
    }
}
