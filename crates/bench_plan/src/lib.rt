//! Reading, ordering and layout of a sheet, again and again, for the benchmark's driver in C.
#![tactic(auto)]

use plan::making::make;
use plan::refusals::Refusal;
use plan::rules::LeastDegree;
use sheet::reading::{Fault, read};
use std::alloc::{AllocError, Global};

/// The memory of a reading and of a plan.
fn rooms(heap: Global) -> Result<(sheet::room::Room, plan::room::Room), AllocError> {
    let sheet_room = sheet::room::Room::reserve(heap)?;
    let plan_room = plan::room::Room::reserve(heap)?;
    Ok((sheet_room, plan_room))
}

/// The number of places of a sheet's plan under least degree, or the number of its refusal.
// A number and no enum of refusals, since C is given no more.
fn places(
    sheet_room: sheet::room::Room,
    plan_room: plan::room::Room,
    bytes: &[u8],
) -> Result<usize, u8> {
    let sheet = read(sheet_room, bytes).map_err(Fault::number)?;
    let plan = make(plan_room, &sheet, &LeastDegree).map_err(Refusal::number)?;
    Ok(plan.places())
}

/// The same as one number, negative for a refusal.
fn planned(heap: Global, bytes: &[u8]) -> Result<i64, AllocError> {
    let (sheet_room, plan_room) = rooms(heap)?;
    Ok(match places(sheet_room, plan_room, bytes) {
        Ok(places) => i64::try_from(places).unwrap_or(0),
        Err(number) => -i64::from(number),
    })
}

/// Plans a sheet as often as asked; what the last time gave, and 0 where there was no time or no memory.
#[unsafe(no_mangle)]
pub extern "C" fn plan_sheet(heap: Global, bytes: &[u8], times: u64) -> i64 {
    (0..times)
        .try_fold(0, |_, _| planned(heap, bytes))
        .unwrap_or(0)
}

/// Reserves the memory of a reading and of a plan as often as asked, and gives it back; how often that was done.
#[unsafe(no_mangle)]
pub extern "C" fn reserve_rooms(heap: Global, times: u64) -> u64 {
    for done in 0..times {
        if rooms(heap).is_err() {
            return done;
        }
    }
    times
}
