//! The run of eliminations: node after node, until all are gone or their columns have too many places.
ghost use Rattle.std.specs.Prelude.{◌≡◌, ℕ, ◌+◌, ◌<◌, ◌≤◌, Bool, vec_len, MatchResult};
ghost use Rattle.graph.specs.Theorems.{TwoWay};
ghost use Rattle.plan.specs.declared.refusals.Refusal.TheVariants.{TooManyPlaces};
ghost use Rattle.plan.specs.Planned.{place_count};
ghost use Rattle.plan.specs.Shown.{Shows, Advances};

use super::Planner;
use crate::refusals::Refusal;
use crate::rules::{Rule, next};

/// The most places that a plan may have.
const MOST_PLACES: usize = 8192;

impl Planner {
    /// The next node by the rule goes.
    fn eliminate_next<R: Rule>(&mut self, rule: &R)
        requires room { vec_len self.old.order < 512 }
        requires few { self.old.places ≤ 8192 }
        ensures size { self.new.n ≡ self.old.n }
        ensures longer { vec_len self.new.order ≤ vec_len self.old.order + 1 }
        ensures stands { Advances (R.Rule.priced rule.now) self.old self.new }
    {
        if let Some(i) = next(rule, &self.nodes, &self.left) {
            let label = self.left.remove(i);
            let v = label - 1;
            self.places += 1 + self.nodes[v as usize].degree as usize;
            self.order.push_reserved(label);
            self.nodes[v as usize].gone = true;
            self.settle(v);
        }
    }

    /// Every node goes, or the columns of those gone so far have too many places.
    pub(crate) fn eliminate_all<R: Rule>(&mut self, rule: &R) -> Result<(), Refusal>
        requires fresh { (vec_len self.old.order ≡ 0) × (self.old.places ≡ 0) }
        ensures size { self.new.n ≡ self.old.n }
        ensures ends { (linked : ℕ → ℕ → Bool) → TwoWay linked → Shows (R.Rule.priced rule.now) linked 0 self.old → MatchResult result (λ _. Shows (R.Rule.priced rule.now) linked self.new.n self.new × (place_count (R.Rule.priced rule.now) self.old.n linked ≤ 8192)) (λ e. (e ≡ TooManyPlaces) × (8192 < place_count (R.Rule.priced rule.now) self.old.n linked)) }
    {
        for _ in 0..self.n {
            self.eliminate_next(rule);
            if self.places > MOST_PLACES {
                return Err(Refusal::TooManyPlaces);
            }
        }
        Ok(())
    }
}
