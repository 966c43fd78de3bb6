//! A graph on 512 nodes: for each node the set of those it is linked to. Nodes are numbered from 0.
ghost use Rattle.std.specs.Prelude.{◌≡◌, vec_len};

use crate::sets::NodeSet;

mod asking;
mod changing;

/// The rows of the graph.
#[derive(Drop)]
pub struct Rows {
    sets: Vec<NodeSet>,
    ghost all: { vec_len sets ≡ 512 },
}
