//! What the columns of a plan are laid out from: the order, its inverse, and the rows after the last elimination.
ghost use Rattle.std.specs.Prelude.{◌≡◌, ℕ, ◌-◌, ◌<◌, ◌≤◌, ◌&&◌, length, ◌≢◌, nat_lt, slice_index};
ghost use Rattle.nodeset.specs.Rows.{linked_in as adjacent};
ghost use Rattle.nodeset.specs.Sets.{has};
ghost use Rattle.plan.specs.Laid.{Later};
ghost use Rattle.plan.specs.Layout.{Undoes};
ghost use Rattle.plan.specs.Tables.{Inside};

use nodeset::rows::Rows;
use nodeset::sets::NodeSet;
use sheet::sheets::Sheet;

/// The position of each label.
pub(crate) fn invert(order: &[u16], positions: &mut [u16])
    requires small { length order.now ≤ 512 }
    requires size { length positions.old ≡ length order.now }
    requires labels { (k : ℕ) → k < length order.now → (0 < slice_index order.now k) × (slice_index order.now k ≤ length order.now) }
    requires apart { (k j : ℕ) → k < j → j < length order.now → slice_index order.now k ≢ slice_index order.now j }
    ensures { Undoes (length order.now) order.now positions.new }
{
    for (k, label) in order.iter().enumerate() {
        positions[*label as usize - 1] = k as u16 + 1;
    }
}

/// An elimination of all nodes: the labels in the order in which they went, the position of each, the row that each node had
/// as it went, and the sheet.
#[derive(Drop)]
pub(crate) struct Elimination<'a> {
    pub(crate) order: &'a [u16],
    pub(crate) positions: &'a [u16],
    pub(crate) graph: &'a Rows,
    pub(crate) sheet: &'a Sheet,
    ghost small: { length order.now ≤ 512 },
    ghost long: { length positions.now ≡ length order.now },
    ghost ranked: { Undoes (length order.now) order.now positions.now },
    ghost placed: { Undoes (length order.now) positions.now order.now },
    ghost inside: { Inside (length order.now) (adjacent graph.now) },
    ghost later: { Later order.now (adjacent graph.now) },
}

impl Elimination<'_> {
    /// The indices in the order, one less than the positions, of the neighbours that the node at index k had as it went.
    pub(crate) fn column(&self, k: usize) -> NodeSet
        requires { k < length self.now.order.now }
        ensures { (i : ℕ) → has result i ≡ (nat_lt i (length self.now.order.now) && adjacent self.now.graph.now (slice_index self.now.order.now k - 1) (slice_index self.now.order.now i - 1)) }
    {
        let mut column = NodeSet::empty();
        for node in self.graph.row(self.order[k] - 1).iter() {
            column.insert(self.positions[node as usize] - 1);
        }
        column
    }
}
