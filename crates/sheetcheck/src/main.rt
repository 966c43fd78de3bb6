//! Reads a site sheet from standard input, and prints what it holds or what is wrong with it.
#![tactic(auto)]

use intake::first_bytes;
use report::accounts::Account;
use report::refusals::Refusal;
use sheet::reading::read;
use sheet::room::Room;
use std::process::ExitCode;

// A refusal is told on standard output: it ends with status 1 and no word on standard error.
fn main(rt: HostRuntime) -> anyhow::Result<ExitCode> {
    let input = first_bytes(rt.alloc(), rt.stdin())?;
    let bytes = input.as_slice();
    let room = Room::reserve(rt.alloc())?;
    match read(room, bytes) {
        Ok(sheet) => {
            rt.print(Account(&sheet))?;
            Ok(ExitCode::SUCCESS)
        }
        Err(fault) => {
            rt.print(Refusal { fault, bytes })?;
            Ok(ExitCode::FAILURE)
        }
    }
}
