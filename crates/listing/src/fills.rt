//! The fill list of a plan: the places off the diagonal whose labels are not linked on the sheet.
ghost use Rattle.std.specs.Prelude.{◌≡◌};
ghost use Rattle.plan.specs.Views.{arrays_of};
ghost use Rattle.listing.specs.Fills.{column_fill, fill_pairs, ListsFill};
ghost use Rattle.listing.specs.Tables.{Puts, answer_for, table_for};

use crate::refusals::TooShort;
use crate::writing::{Page, write_all};
use plan::columns::Column;
use plan::plans::Plan;

/// Puts the fill pairs of a column.
fn put_column(column: Column, page: &mut Page<(u16, u16)>)
    ensures { Puts (column_fill (arrays_of column.entry.plan.now) column.entry.position) page.old page.new }
{
    for (row, link) in column.later().zip(column.links()) {
        if !*link {
            page.push((column.label(), row.label()));
        }
    }
}

/// Puts all fill pairs.
fn put_fill(plan: &Plan, page: &mut Page<(u16, u16)>)
    ensures { Puts (fill_pairs (arrays_of plan.now)) page.old page.new }
{
    for column in plan.columns() {
        put_column(column, page);
    }
}

/// How many fill pairs there are, once they stand at the front of the table: each pair of labels once, that of the lower
/// position first. Refused exactly when there are more than the table holds, and the table is then as it was.
pub fn fill_list(plan: &Plan, table: &mut [(u16, u16)]) -> Result<usize, TooShort>
    ensures answer { result ≡ answer_for (fill_pairs (arrays_of plan.now)) table.old }
    ensures table { table.new ≡ table_for (fill_pairs (arrays_of plan.now)) table.old }
    ensures theorem { ListsFill }
{
    write_all(table, |page| put_fill(plan, page))
}
