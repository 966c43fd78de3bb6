//! The kinds of number that elimination and solving work with.
#![tactic(auto)]

pub mod arithmetic;
pub mod floats;
pub mod marks;
pub mod residues;
pub mod theorems;
