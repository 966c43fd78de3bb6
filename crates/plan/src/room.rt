//! The memory that the making of a plan takes, asked for before any sheet is looked at.
ghost use Rattle.std.specs.Prelude.{◌≡◌, ℕ, ◌≤◌, false, vec_len, vec_capacity};
ghost use Rattle.nodeset.specs.Rows.{linked_in as adjacent};

use crate::layout::Layout;
use crate::records::NodeRecord;
use nodeset::rows::Rows;
use std::alloc::{AllocError, Global};

/// Room for the plan of any sheet, and for the tables of the planner.
#[derive(Drop)]
pub struct Room {
    pub(crate) graph: Rows,
    pub(crate) nodes: Vec<NodeRecord>,
    pub(crate) left: Vec<u16>,
    pub(crate) order: Vec<u16>,
    pub(crate) positions: Vec<u16>,
    pub(crate) layout: Layout,
    ghost unlinked: { (a b : ℕ) → adjacent graph a b ≡ false },
    ghost full: { vec_len positions ≡ 512 },
    ghost empty: { (vec_len nodes ≡ 0) × (vec_len left ≡ 0) × (vec_len order ≡ 0) },
    ghost unlaid: { (vec_len layout.starts ≡ 0) × (vec_len layout.rows ≡ 0) },
    ghost nodes_room: { (512 ≤ vec_capacity nodes) × (512 ≤ vec_capacity left) × (512 ≤ vec_capacity order) },
}

impl Room {
    /// Reserves the room. This is the one call that can be refused for want of memory.
    pub fn reserve(heap: Global) -> Result<Room, AllocError> {
        let graph = Rows::reserve(heap)?;
        let nodes = Vec::with_capacity(heap, 512)?;
        let left = Vec::with_capacity(heap, 512)?;
        let order = Vec::with_capacity(heap, 512)?;
        let positions = vec![in heap; 0; 512]?;
        let starts = Vec::with_capacity(heap, 513)?;
        let rows = Vec::with_capacity(heap, 8192)?;
        let links = Vec::with_capacity(heap, 8192)?;
        let layout = Layout {
            starts,
            rows,
            links,
        };
        Ok(Room {
            graph,
            nodes,
            left,
            order,
            positions,
            layout,
        })
    }
}
