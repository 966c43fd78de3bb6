//! Elimination and solving in the tables that a plan lays out, equal to those in the full square.
#![tactic(auto)]

pub mod elimination;
pub mod solution;
