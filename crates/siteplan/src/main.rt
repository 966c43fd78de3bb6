//! Reads a site sheet from standard input, and prints the listing of its plan by least degree, or the line of its fault.
#![tactic(auto)]

ghost use Rattle.std.specs.Prelude.{◌≡◌, IfOk};
ghost use Rattle.std.specs.Result.{result_map_both};
ghost use Rattle.plan.specs.Views.{arrays_of};
ghost use Rattle.listing.specs.Texts.{listing_text};
ghost use Rattle.siteplan.specs.Sites.{site_plan};

use intake::first_bytes;
use listing::faults::SiteFault;
use listing::listings::{listing, listing_length};
use plan::making::make;
use plan::plans::Plan;
use plan::rules::LeastDegree;
use sheet::reading::read;
use std::alloc::{AllocError, Global};
use std::io::Write;
use std::process::ExitCode;

/// The plan of a sheet by least degree, or why there is none.
fn plan_of(
    sheet_room: sheet::room::Room,
    plan_room: plan::room::Room,
    bytes: &[u8],
) -> Result<Plan, SiteFault>
    ensures { result_map_both arrays_of (λ e. e) result ≡ site_plan bytes.now }
{
    let sheet = read(sheet_room, bytes)?;
    let plan = make(plan_room, &sheet, &LeastDegree)?;
    Ok(plan)
}

/// The listing of a plan.
fn listing_of(heap: Global, plan: &Plan) -> Result<Vec<u8>, AllocError>
    ensures { IfOk result (λ v. v.items ≡ listing_text (arrays_of plan.now)) }
{
    let mut text = vec![in heap; 0; listing_length(plan)]?;
    // The table has just the listing's length, so the call is not refused.
    let _ = listing(plan, &mut text);
    Ok(text)
}

/// Prints the listing of the input's plan, or the line of its fault. A refusal is told on standard output: it ends with status 1
/// and no word on standard error.
fn main(rt: HostRuntime) -> anyhow::Result<ExitCode> {
    let sheet_room = sheet::room::Room::reserve(rt.alloc())?;
    let plan_room = plan::room::Room::reserve(rt.alloc())?;
    let input = first_bytes(rt.alloc(), rt.stdin())?;
    match plan_of(sheet_room, plan_room, input.as_slice()) {
        Ok(plan) => {
            let text = listing_of(rt.alloc(), &plan)?;
            rt.stdout().write_all(text.as_slice())?;
            Ok(ExitCode::SUCCESS)
        }
        Err(fault) => {
            rt.println(fault)?;
            Ok(ExitCode::FAILURE)
        }
    }
}
