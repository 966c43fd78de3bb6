//! One node goes: its row is joined to the rows of its neighbours, and their degrees are counted again.
ghost use Rattle.std.specs.Prelude.{◌≡◌, ◌<◌, set};
ghost use Rattle.nodeset.specs.Rows.{linked_in as adjacent};
ghost use Rattle.nodeset.specs.Sets.{count_below};
ghost use Rattle.plan.specs.Shown.{SameRest};
ghost use Rattle.plan.specs.Tables.{joined_rows, settled_rows, Agree, gone_in, Recounted};

use super::Planner;

impl Planner {
    /// Joins row v to row a, and counts a's degree again.
    fn join(&mut self, v: u16, a: u16)
        requires { (v < self.old.n) × (a < self.old.n) }
        ensures rows { Agree self.old.n (adjacent self.new.rows) (joined_rows (adjacent self.old.rows) v a) }
        ensures nodes { self.new.nodes.items ≡ set self.old.nodes.items a (record { degree = count_below (adjacent self.new.rows a) self.old.n; gone = gone_in self.old.nodes.items a }) }
        ensures rest { SameRest self.old self.new }
    {
        self.rows.join(v, a);
        self.nodes[a as usize].degree = self.rows.degree(a);
    }

    /// Joins row v to each row that it has.
    pub(super) fn settle(&mut self, v: u16)
        requires { v < self.old.n }
        ensures rows { Agree self.old.n (adjacent self.new.rows) (settled_rows (adjacent self.old.rows) v self.old.n) }
        ensures nodes { Recounted self.old.n (adjacent self.old.rows) v self.old.n self.old.nodes.items self.new.nodes.items }
        ensures rest { SameRest self.old self.new }
    {
        for a in self.rows.row(v).iter() {
            self.join(v, a);
        }
    }
}
