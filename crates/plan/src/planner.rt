//! The planner: the elimination graph in rows of sets, from which one node goes at a time.
ghost use Rattle.std.specs.Prelude.{◌≡◌, ◌≤◌, vec_len, vec_capacity};
ghost use Rattle.nodeset.specs.Rows.{linked_in as adjacent};
ghost use Rattle.plan.specs.Scan.{Labels};
ghost use Rattle.plan.specs.Tables.{Alone, Inside};

use crate::records::NodeRecord;
use nodeset::rows::Rows;

mod eliminating;
mod running;
mod starting;

/// The neighbours of each node, the records of the n nodes, the labels that are left and ascend, the labels that went, in
/// their order, and how many places their columns have. The row of a node that went stays as it was then, so that it is the
/// node's column.
#[derive(Drop)]
pub(crate) struct Planner {
    pub(crate) n: usize,
    pub(crate) rows: Rows,
    pub(crate) nodes: Vec<NodeRecord>,
    pub(crate) left: Vec<u16>,
    pub(crate) order: Vec<u16>,
    pub(crate) places: usize,
    ghost small: { n ≤ 512 },
    ghost noted: { vec_len nodes ≡ n },
    ghost labelled: { Labels n left.items },
    ghost room: { 512 ≤ vec_capacity order },
    ghost alone: { Alone n (adjacent rows) },
    ghost inside: { Inside n (adjacent rows) },
}
