//! Sets of up to 512 nodes, in eight words, and rows of such sets: graphs that are joined and counted a word at a time.
#![tactic(auto)]

pub mod rows;
pub mod sets;
#[cfg(test)]
mod tests;
mod words;
