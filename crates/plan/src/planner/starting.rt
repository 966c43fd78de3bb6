//! The graph and the records before the first elimination.
ghost use Rattle.std.specs.Prelude.{◌≡◌, false, ℕ, ◌+◌, ◌<◌, ◌≤◌, vec_len, vec_capacity};
ghost use Rattle.std.specs.List.{range_with_len};
ghost use Rattle.graph.specs.Picking.{Price};
ghost use Rattle.nodeset.specs.Rows.{linked_in as adjacent};
ghost use Rattle.sheet.specs.Patterns.{LinkLabels, linked_in};
ghost use Rattle.sheet.specs.Views.{pattern_of};
ghost use Rattle.plan.specs.Shown.{Shows};
ghost use Rattle.plan.specs.Tables.{Inside, fresh_nodes};

use super::Planner;
use crate::records::NodeRecord;
use nodeset::rows::Rows;
use sheet::sheets::Sheet;

/// Links the nodes of each link of a sheet: label v is node v - 1.
fn link_nodes(graph: &mut Rows, links: &[(u16, u16)])
    requires none { (a b : ℕ) → adjacent graph.old a b ≡ false }
    requires labels { LinkLabels 512 links.now }
    ensures { (a b : ℕ) → adjacent graph.new a b ≡ linked_in links.now (a + 1) (b + 1) }
{
    for (a, b) in links {
        graph.link(*a - 1, *b - 1);
    }
}

/// Appends a record for each of n nodes, with the degree that its row gives, and its label.
fn note_nodes(graph: &Rows, n: u16, nodes: &mut Vec<NodeRecord>, left: &mut Vec<u16>)
    requires small { n ≤ 512 }
    requires inside { Inside n (adjacent graph.now) }
    requires empty { (vec_len nodes.old ≡ 0) × (vec_len left.old ≡ 0) }
    requires room { (n ≤ vec_capacity nodes.old) × (n ≤ vec_capacity left.old) }
    ensures nodes { nodes.new.items ≡ fresh_nodes (adjacent graph.now) n n }
    ensures labels { left.new.items ≡ range_with_len 1 n }
{
    // By number: a is the node itself, and no list of nodes is there yet.
    for a in 0..n {
        nodes.push_reserved(NodeRecord {
            degree: graph.degree(a),
            gone: false,
        });
        left.push_reserved(a + 1);
    }
}

impl Planner {
    /// The graph of a sheet, from which no node is gone.
    pub(crate) fn start(
        sheet: &Sheet,
        mut graph: Rows,
        mut nodes: Vec<NodeRecord>,
        mut left: Vec<u16>,
        order: Vec<u16>,
    ) -> Planner
        requires none { (a b : ℕ) → adjacent graph a b ≡ false }
        requires empty { (vec_len nodes ≡ 0) × ((vec_len left ≡ 0) × (vec_len order ≡ 0)) }
        requires room { (512 ≤ vec_capacity nodes) × ((512 ≤ vec_capacity left) × (512 ≤ vec_capacity order)) }
        ensures size { result.n ≡ (pattern_of sheet.now).n }
        ensures some { 0 < result.n }
        ensures kept { (vec_len result.order ≡ 0) × (result.places ≡ 0) }
        ensures stands { (price : Price) → Shows price (linked_in (pattern_of sheet.now).links) 0 result }
    {
        let n = sheet.n();
        link_nodes(&mut graph, sheet.links());
        note_nodes(&graph, n, &mut nodes, &mut left);
        Planner {
            n: n as usize,
            rows: graph,
            nodes,
            left,
            order,
            places: 0,
        }
    }
}
