//! The fill list and the listing of a plan, into lent tables; the text of a refusal line.
#![tactic(auto)]

pub mod faults;
pub mod fills;
pub mod listings;
pub mod refusals;
mod writing;
