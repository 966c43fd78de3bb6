//! Elimination, column by column, at the places of a plan.
ghost use Rattle.std.specs.Prelude.{◌≡◌, ℕ, ◌<◌, ◌≤◌, length};
ghost use Rattle.arith.specs.Operations.{operations_of};
ghost use Rattle.plan.specs.Views.{arrays_of};
ghost use Rattle.square.specs.Elimination.{reduced};
ghost use Rattle.square.specs.Plans.{matrix_of};
ghost use Rattle.numeric.specs.Calls.{Eliminates};
ghost use Rattle.numeric.specs.Updates.{Ascends, Contained, Updated};

use arith::arithmetic::Arithmetic;
use plan::columns::Column;
use plan::plans::Plan;
use square::refusals::Refusal;
use std::ops::Range;

/// Updates a later column, at the places `targets`, by the rows `sources` of the pivot's column. `rows` and `worked` begin at the
/// pivot. Both columns ascend and the target has every row of the source, so that one walk meets them all.
fn update_column<N: Arithmetic>(
    rows: &[u16],
    worked: &mut [N],
    sources: Range<usize>,
    targets: Range<usize>,
)
    requires long { length rows.now ≡ length worked.old }
    requires ordered { (sources.start < sources.end) × (sources.end ≤ targets.start) × (targets.start ≤ targets.end) × (targets.end ≤ length worked.old) }
    requires rises { Ascends rows.now sources.start sources.end }
    requires rises_later { Ascends rows.now targets.start targets.end }
    requires contained { Contained rows.now sources.start sources.end targets.start targets.end }
    ensures { Updated (operations_of N.Arithmetic) rows.now 0 sources.start sources.end targets.start targets.end worked.old worked.new }
{
    let pivot = worked[0];
    let factor = worked[sources.start];
    let mut next = sources.start;
    // By places: as pairs, rows and numbers would take a split of the table and two ranges more.
    for at in targets {
        if next < sources.end && rows[at] == rows[next] {
            worked[at] = N::update(worked[at], worked[next], pivot, factor);
            next += 1;
        }
    }
}

/// The step of a column: each column that it has a row of is updated.
fn eliminate_column<N: Arithmetic>(column: Column<'_>, worked: &mut [N])
    requires { length worked.old ≡ length (arrays_of column.plan.now).rows }
    ensures { (i j : ℕ) → matrix_of N.Arithmetic.nothing (arrays_of column.entry.plan.now) worked.new i j ≡ reduced (operations_of N.Arithmetic) column.entry.position (matrix_of N.Arithmetic.nothing (arrays_of column.entry.plan.now) worked.old) i j }
{
    let rows = column.plan.rows();
    let Range { start, end } = column.places();
    for (target, source) in column.later().zip(start + 1..end) {
        let targets = target.places();
        update_column(
            &rows[start..],
            &mut worked[start..],
            source - start..end - start,
            targets.start - start..targets.end - start,
        );
    }
}

/// Copies the entered numbers to the worked table and eliminates there, node after node in the plan's order. Refused when a table
/// isn't P long, and the worked table is then as it was; or at the first node whose diagonal is no pivot, and the worked table
/// then stands as it stood before that node's step.
pub fn eliminate<N: Arithmetic>(plan: &Plan, entered: &[N], worked: &mut [N]) -> Result<(), Refusal>
    ensures { Eliminates (operations_of N.Arithmetic) (arrays_of plan.now) entered.now worked.old result worked.new }
{
    let places = plan.places();
    if entered.len() != places || worked.len() != places {
        return Err(Refusal::WrongLength);
    }
    worked.copy_from_slice(entered);
    for column in plan.columns() {
        let cause = N::verdict(worked[column.places().start]);
        if cause != 0 {
            return Err(Refusal::NoPivot(column.label(), cause));
        }
        eliminate_column(column, worked);
    }
    Ok(())
}
