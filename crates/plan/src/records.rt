//! What the planner keeps of a node.

/// How many of the nodes left it is linked to, and whether it is gone.
// A record of both, by a rule of the project, and no Option of a degree.
#[derive(Clone, Copy)]
pub(crate) struct NodeRecord {
    pub(crate) degree: u16,
    pub(crate) gone: bool,
}
