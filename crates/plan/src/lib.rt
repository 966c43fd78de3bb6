//! Elimination plans: from a sheet and a picking rule to an order, a tree, columns and a store layout.
#![tactic(auto)]

pub mod columns;
pub mod given;
mod laying;
mod layout;
pub mod lookups;
pub mod making;
mod planner;
pub mod plans;
mod records;
pub mod refusals;
pub mod room;
pub mod rules;
