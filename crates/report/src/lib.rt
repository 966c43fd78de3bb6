//! What a sheet holds, or what is wrong with it, in words.
#![tactic(auto)]

pub mod accounts;
pub mod refusals;
pub mod rules;
