//! Sheets from their links, and plans of them.
use plan::given::GivenOrder;
use plan::making::make;
use plan::plans::Plan;
use plan::refusals::Refusal;
use plan::rules::LeastDegree;
use sheet::reading::read;
use sheet::sheets::Sheet;
use std::alloc::{AllocError, Global};
use std::iter::once;
use std::test::Fail;

/// The sheet of n nodes with some links and some order words.
pub(crate) fn site(
    heap: Global,
    n: u16,
    links: &[(u16, u16)],
    order: &[u16],
) -> Result<Sheet, Fail> {
    let bytes = encoded(heap, n, links, order)?;
    let room = sheet::room::Room::reserve(heap)?;
    read(room, bytes.as_slice()).map_err(Fail::new)
}

/// The bytes of that sheet: a head, the links, the order words and the end, each word with its low byte first.
fn encoded(
    heap: Global,
    n: u16,
    links: &[(u16, u16)],
    order: &[u16],
) -> Result<Vec<u8>, AllocError> {
    let head = 0x1000_0000 | u32::from(n);
    let links = links
        .iter()
        .map(|&(a, b)| 0x2000_0000 | u32::from(a) << 10 | u32::from(b));
    let order = order.iter().map(|&label| 0x3000_0000 | u32::from(label));
    let mut words: Vec<u32> = once(head).chain(links).chain(order).collect(heap)?;
    let count = (words.len() & 0x0fff_ffff) as u32;
    words.push(0xf000_0000 | count)?;
    words
        .iter()
        .flat_map(|word| word.to_le_bytes())
        .collect(heap)
}

/// The labels 1 to n, each after the one before.
pub(crate) fn ascending(heap: Global, n: u16) -> Result<Vec<u16>, AllocError> {
    (1..=n).collect(heap)
}

/// Node 1 linked to each of 2 to n, and order words that name it first.
pub(crate) fn hub(heap: Global, n: u16) -> Result<Sheet, Fail> {
    let links: Vec<(u16, u16)> = (2..=n).map(|leaf| (1, leaf)).collect(heap)?;
    site(heap, n, links.as_slice(), ascending(heap, n)?.as_slice())
}

/// The plan of a sheet by least degree.
pub(crate) fn by_degree(heap: Global, sheet: &Sheet) -> Result<Result<Plan, Refusal>, AllocError> {
    Ok(make(plan::room::Room::reserve(heap)?, sheet, &LeastDegree))
}

/// The plan of a sheet by its order words.
pub(crate) fn by_order(heap: Global, sheet: &Sheet) -> Result<Result<Plan, Refusal>, AllocError> {
    let room = plan::room::Room::reserve(heap)?;
    Ok(GivenOrder::of(sheet).and_then(|rule| make(room, sheet, &rule)))
}
