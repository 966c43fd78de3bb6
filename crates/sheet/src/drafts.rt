//! The sheet that is being read.
ghost use Rattle.std.specs.Prelude.{◌≡◌, ◌≤◌, vec_capacity};
ghost use Rattle.sheet.specs.Tables.{Shows};

use crate::table::LinkTable;

/// The nodes that a sheet may have at most.
pub(crate) const MOST_NODES: u16 = 512;

/// The links that a sheet may have at most.
pub(crate) const MOST_LINKS: usize = 4096;

/// What the words so far say, with room for what the others may.
#[derive(Drop)]
pub(crate) struct Draft {
    pub(crate) n: u16,
    pub(crate) links: Vec<(u16, u16)>,
    pub(crate) order: Vec<u16>,
    pub(crate) table: LinkTable,
    ghost size: { n ≤ 512 },
    ghost links_room: { 4096 ≤ vec_capacity links },
    ghost order_room: { 512 ≤ vec_capacity order },
    ghost shows: { Shows links.items table.cells.items },
}
