//! Solving for right sides, column by column, at the places of a plan.
ghost use Rattle.std.specs.Prelude.{◌≡◌, ◌-◌, ◌<◌, length, slice_index};
ghost use Rattle.arith.specs.Operations.{operations_of, solvers_of};
ghost use Rattle.plan.specs.Lookups.{size_in};
ghost use Rattle.plan.specs.Views.{arrays_of};
ghost use Rattle.square.specs.Plans.{matrix_of};
ghost use Rattle.numeric.specs.Calls.{Solves};
ghost use Rattle.numeric.specs.Passes.{forward_step, backward_step, Moves};
ghost use Rattle.numeric.specs.Labels.{HasLabel};

use arith::arithmetic::{Arithmetic, Solving};
use plan::columns::Column;
use plan::plans::Plan;
use square::refusals::Refusal;

/// Where a table by label has the number of position k.
fn slot(order: &[u16], k: u16) -> usize
    requires { HasLabel order.now k }
    ensures value { result ≡ slice_index order.now (k - 1) - 1 }
    ensures inside { result < length order.now }
{
    order[k as usize - 1] as usize - 1
}

// The tables' lengths stay clauses: a struct of a plan and its tables would ask in their place that the column is of that plan.
/// Forward past a column: the number of each of its rows is updated by that of its position.
fn forward_column<N: Arithmetic>(column: Column<'_>, worked: &[N], levels: &mut [N])
    requires long { length worked.now ≡ length (arrays_of column.plan.now).rows }
    requires size { length levels.old ≡ size_in (arrays_of column.plan.now) }
    ensures { Moves N.Arithmetic.nothing (arrays_of column.entry.plan.now) (forward_step (operations_of N.Arithmetic) (matrix_of N.Arithmetic.nothing (arrays_of column.entry.plan.now) worked.now) column.entry.position) levels.old levels.new }
{
    let order = column.plan.order();
    let places = column.places();
    let pivot = worked[places.start];
    let level = levels[slot(order, column.position)];
    for (row, number) in column
        .rows()
        .iter()
        .zip(&worked[places.start + 1..places.end])
    {
        let at = slot(order, *row);
        levels[at] = N::update(levels[at], *number, pivot, level);
    }
}

/// Back at a column: the levels of its rows are taken from the number of its position, which then goes over the pivot.
fn backward_column<N: Solving>(column: Column<'_>, worked: &[N], levels: &mut [N])
    requires long { length worked.now ≡ length (arrays_of column.plan.now).rows }
    requires size { length levels.old ≡ size_in (arrays_of column.plan.now) }
    ensures { Moves N.Arithmetic.nothing (arrays_of column.entry.plan.now) (backward_step (solvers_of N.Arithmetic N.taken N.divided) (matrix_of N.Arithmetic.nothing (arrays_of column.entry.plan.now) worked.now) (size_in (arrays_of column.entry.plan.now)) column.entry.position) levels.old levels.new }
{
    let order = column.plan.order();
    let places = column.places();
    let at = slot(order, column.position);
    let mut level = levels[at];
    for (row, number) in column
        .rows()
        .iter()
        .zip(&worked[places.start + 1..places.end])
    {
        level = N::take(level, *number, levels[slot(order, *row)]);
    }
    levels[at] = N::over(level, worked[places.start]);
}

/// Writes the levels for the right sides, both by label. Refused when the worked table isn't P long or one of the others isn't n
/// long, and the table of levels is then as it was.
pub fn solve<N: Solving>(
    plan: &Plan,
    worked: &[N],
    right: &[N],
    levels: &mut [N],
) -> Result<(), Refusal>
    ensures { Solves (solvers_of N.Arithmetic N.taken N.divided) (arrays_of plan.now) worked.now right.now levels.old result levels.new }
{
    let n = plan.n() as usize;
    if worked.len() != plan.places() || right.len() != n || levels.len() != n {
        return Err(Refusal::WrongLength);
    }
    levels.copy_from_slice(right);
    for column in plan.columns() {
        forward_column(column, worked, levels);
    }
    for column in plan.columns().rev() {
        backward_column(column, worked, levels);
    }
    Ok(())
}
