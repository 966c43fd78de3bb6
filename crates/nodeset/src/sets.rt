//! A set of numbers below 512, a bit for each.

mod asking;
mod changing;
pub mod members;

/// The set: number i is bit i % 64 of word i / 64.
#[derive(Clone, Copy, PartialEq, Eq, Debug)]
pub struct NodeSet {
    words: [u64; 8],
}
