//! Picking rules: which node goes next.
ghost use Rattle.std.specs.Prelude.{◌≡◌, ℕ, ◌<◌, ◌≤◌, length, MatchOption};
ghost use Rattle.std.specs.List.{IsFirstBest};
ghost use Rattle.graph.specs.Picking.{by_degree};
ghost use Rattle.plan.specs.Scan.{Labels, price_in, cheaper};

use crate::records::NodeRecord;

/// A picking rule. It gives each node that is left a price, which depends on its label and present degree alone; the node of
/// least price goes next, and of equal prices the one with the lowest label.
pub trait Rule {
    ghost priced: { Self → ℕ → ℕ → ℕ };

    fn price(&self, label: u16, degree: u16) -> u32
        ensures { result ≡ priced self.now label degree };
}

/// Least degree: the price is the degree.
#[derive(Clone, Copy)]
pub struct LeastDegree;

impl Rule for LeastDegree {
    ghost priced = { λ _. by_degree };

    fn price(&self, _label: u16, degree: u16) -> u32 {
        degree as u32
    }
}

/// The price of a label at the degree that its record has.
fn price_of<R: Rule>(rule: &R, nodes: &[NodeRecord], label: u16) -> u32
    requires { (0 < label) × (label ≤ length nodes.now) }
    ensures { result ≡ price_in (R.Rule.priced rule.now) nodes.now label }
{
    rule.price(label, nodes[label as usize - 1].degree)
}

/// The index of the label that goes next among those that are left: the first at the least price. They ascend, so it is the
/// lowest at that price. Two passes, since the first has no branch that depends on what it finds.
pub(crate) fn next<R: Rule>(rule: &R, nodes: &[NodeRecord], left: &[u16]) -> Option<usize>
    requires { Labels (length nodes.now) left.now }
    ensures { MatchOption result (length left.now ≡ 0) (λ i. IsFirstBest (cheaper (R.Rule.priced rule.now) nodes.now) left.now (length left.now) i) }
{
    let first = price_of(rule, nodes, *left.first()?);
    let prices = left.iter().map(|label| price_of(rule, nodes, *label));
    let least = prices.fold(first, |least, price| least.min(price));
    left.iter()
        .position(|label| price_of(rule, nodes, *label) == least)
}
