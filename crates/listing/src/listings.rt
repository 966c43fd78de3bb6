//! The listing of a plan: a line for the plan, then one for each position.
ghost use Rattle.std.specs.Prelude.{◌≡◌, length};
ghost use Rattle.plan.specs.Lookups.{size_in};
ghost use Rattle.plan.specs.Views.{arrays_of};
ghost use Rattle.listing.specs.Tables.{Puts, answer_for, table_for};
ghost use Rattle.listing.specs.Texts.{head_text, line_in, listing_text, ListsPlan};

use crate::refusals::TooShort;
use crate::writing::{Page, write_all};
use plan::columns::Column;
use plan::plans::Plan;

/// Puts the first line.
fn put_head(plan: &Plan, page: &mut Page<u8>)
    ensures { Puts (head_text (size_in (arrays_of plan.now)) (length (arrays_of plan.now).rows)) page.old page.new }
{
    page.extend(b"plan");
    page.spaced(usize::from(plan.n()));
    page.spaced(plan.places());
    page.push(b'\n');
}

/// Puts the line of a column.
fn put_line(column: Column, page: &mut Page<u8>)
    ensures { Puts (line_in (arrays_of column.entry.plan.now) column.entry.position) page.old page.new }
{
    page.number(usize::from(column.position));
    page.spaced(usize::from(column.label()));
    page.spaced(usize::from(column.parent_label()));
    page.extend(b" :");
    for row in column.later() {
        page.spaced(usize::from(row.label()));
    }
    page.push(b'\n');
}

/// Puts the whole listing.
fn put_listing(plan: &Plan, page: &mut Page<u8>)
    ensures { Puts (listing_text (arrays_of plan.now)) page.old page.new }
{
    put_head(plan, page);
    for column in plan.columns() {
        put_line(column, page);
    }
}

/// The length of the listing.
#[tactic(auto, using(crate::proofs::Bounds::plan_few))]
pub fn listing_length(plan: &Plan) -> usize
    ensures { result ≡ length (listing_text (arrays_of plan.now)) }
{
    let mut page = Page::new(&mut []);
    put_listing(plan, &mut page);
    page.len()
}

/// The length of the listing, once it stands at the front of the table. Refused exactly when it is longer than the table, and
/// the table is then as it was.
pub fn listing(plan: &Plan, table: &mut [u8]) -> Result<usize, TooShort>
    ensures answer { result ≡ answer_for (listing_text (arrays_of plan.now)) table.old }
    ensures table { table.new ≡ table_for (listing_text (arrays_of plan.now)) table.old }
    ensures theorem { ListsPlan }
{
    write_all(table, |page| put_listing(plan, page))
}
