//! Vectors of the site sheet: words, and what they are read as and told of by the rules of docs/SHEET.md.
#![tactic(auto)]

#[cfg(test)]
mod built;
pub mod outcomes;
pub mod tellings;
#[cfg(test)]
mod tests;
pub mod vectors;
