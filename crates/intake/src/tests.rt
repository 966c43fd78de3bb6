//! A slice is taken in whole, or as far as the longest sheet and one word more.
use crate::first_bytes;
use std::test::Fail;

#[test]
fn all_bytes_or_the_first(rt: HostRuntime) -> Result<(), Fail> {
    let heap = rt.alloc();
    for (given, taken) in [(0, 0), (5, 5), (18_444, 18_444), (18_445, 18_444)] {
        let mut bytes: Vec<u8> = (0..=255).cycle().take(given).collect(heap)?;
        let input = first_bytes(heap, bytes.as_slice())?;
        bytes.truncate(taken);
        assert_eq!(rt; input.as_slice(), bytes.as_slice(), "of {given} bytes");
    }
    Ok(())
}
