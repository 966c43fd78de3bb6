//! From a sheet and a picking rule to a plan.
ghost use Rattle.std.specs.Prelude.{◌≡◌};
ghost use Rattle.std.specs.Result.{result_map_both};
ghost use Rattle.graph.specs.Theorems.{Eliminates};
ghost use Rattle.sheet.specs.Patterns.{linked_in};
ghost use Rattle.sheet.specs.Views.{pattern_of};
ghost use Rattle.plan.specs.Planned.{planned};
ghost use Rattle.plan.specs.Subject.{Answers};
ghost use Rattle.plan.specs.Views.{arrays_of};

use crate::laying::{Elimination, invert};
use crate::planner::Planner;
use crate::plans::Plan;
use crate::refusals::Refusal;
use crate::room::Room;
use crate::rules::Rule;
use sheet::sheets::Sheet;

/// The plan of a sheet by a picking rule; refused exactly when it would have more than 8,192 places.
pub fn make<R: Rule>(room: Room, sheet: &Sheet, rule: &R) -> Result<Plan, Refusal>
    ensures exact { result_map_both arrays_of (λ e. e) result ≡ planned (R.Rule.priced rule.now) (pattern_of sheet.now) }
    ensures answers { Answers (R.Rule.priced rule.now) (pattern_of sheet.now).n (linked_in (pattern_of sheet.now).links) }
    ensures keeps { Eliminates (R.Rule.priced rule.now) (pattern_of sheet.now).n (linked_in (pattern_of sheet.now).links) }
{
    let Room {
        graph,
        nodes,
        left,
        order,
        mut positions,
        mut layout,
    } = room;
    let mut planner = Planner::start(sheet, graph, nodes, left, order);
    planner.eliminate_all(rule)?;
    positions.truncate(planner.n);
    invert(&planner.order, &mut positions);
    layout.lay_out(&Elimination {
        order: &planner.order,
        positions: &positions,
        graph: &planner.rows,
        sheet,
    });
    Ok(Plan {
        order: planner.order,
        positions,
        starts: layout.starts,
        rows: layout.rows,
        links: layout.links,
    })
}
