//! The bytes of words, and words too many to write down.
use std::alloc::{AllocError, Global};
use std::iter::once;

/// The bytes of words, low byte first.
pub(crate) fn packed(heap: Global, words: &[u32]) -> Result<Vec<u8>, AllocError> {
    words
        .iter()
        .flat_map(|word| word.to_le_bytes())
        .collect(heap)
}

/// A head of 512 nodes, and 4,096 links: each label to the next eight, where 1 comes after 512.
pub(crate) fn most_links(heap: Global) -> Result<Vec<u32>, AllocError> {
    let links = (0..512u32).flat_map(|label| {
        (1..=8u32).map(move |step| {
            let other = (label + step) % 512;
            0x2000_0000 | (label + 1) << 10 | (other + 1)
        })
    });
    once(0x1000_0200).chain(links).collect(heap)
}

/// An order word for each of 512 nodes, the last one first.
pub(crate) fn whole_order(heap: Global) -> Result<Vec<u32>, AllocError> {
    (1..=512u32)
        .rev()
        .map(|label| 0x3000_0000 | label)
        .collect(heap)
}
