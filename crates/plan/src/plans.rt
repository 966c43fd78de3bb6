//! A plan: the order, the tree, the columns and the store layout of an elimination.
ghost use Rattle.std.specs.Prelude.{◌≡◌, ◌+◌, ◌<◌, ◌≤◌, vec_len};
ghost use Rattle.plan.specs.Layout.{Undoes, Starts, Diagonals, Rises, Within, Closed};

/// The labels in the order in which they go, the position of each label, where each column starts, the rows of the columns,
/// each with its diagonal first, and beside each place whether it is a link of the sheet. Labels and positions count from 1.
/// Whatever exists as a `Plan` keeps the rules of the layout; no later call checks them.
// Rows and marks are two arrays, by a rule of the project: each is lent whole, and elimination walks rows alone.
#[derive(Drop)]
pub struct Plan {
    pub(crate) order: Vec<u16>,
    pub(crate) positions: Vec<u16>,
    pub(crate) starts: Vec<u32>,
    pub(crate) rows: Vec<u16>,
    pub(crate) links: Vec<bool>,
    ghost sizes: { (vec_len positions ≡ vec_len order) × (vec_len starts ≡ vec_len order + 1) × (vec_len links ≡ vec_len rows) },
    ghost bounds: { (0 < vec_len order) × (vec_len order ≤ 512) × (vec_len rows ≤ 8192) },
    ghost ranked: { Undoes (vec_len order) order.items positions.items },
    ghost placed: { Undoes (vec_len order) positions.items order.items },
    ghost starting: { Starts (vec_len order) starts.items rows.items },
    ghost headed: { Diagonals (vec_len order) starts.items rows.items },
    ghost rising: { Rises (vec_len order) starts.items rows.items },
    ghost within: { Within (vec_len order) rows.items },
    ghost closed: { Closed (vec_len order) starts.items rows.items links.items },
}
