//! Each vector is read, and told of, as its table says.
use crate::built::{most_links, packed, whole_order};
use crate::outcomes::{Counts, Told, outcome_of};
use crate::tellings::{TELLINGS, Telling};
use crate::vectors::{AFTER_MOST_LINKS, DOUBLE, SINGLE, Vector};
use report::accounts::Account;
use report::refusals::Refusal;
use sheet::faults::Layer::Sheets;
use sheet::reading::{Fault, read};
use sheet::room::Room;
use std::alloc::{AllocError, Global};
use std::process::Abort;
use std::test::Fail;

/// Reads each vector, after the words that stand before it.
fn check_each(
    rt: &impl Abort,
    heap: Global,
    before: &[u32],
    vectors: &[Vector],
) -> Result<(), Fail> {
    for &Vector(name, words, tail, outcome) in vectors {
        let mut bytes = packed(heap, before)?;
        bytes.extend_from_slice(packed(heap, words)?.as_slice())?;
        bytes.extend_from_slice(tail)?;
        let room = Room::reserve(heap)?;
        assert_eq!(rt; outcome_of(room, bytes.as_slice()), outcome, "{}", name);
    }
    Ok(())
}

#[test]
fn short_vectors(rt: HostRuntime) -> Result<(), Fail> {
    check_each(&rt, rt.alloc(), &[], &SINGLE)?;
    check_each(&rt, rt.alloc(), &[], &DOUBLE)
}

#[test]
fn long_vectors(rt: HostRuntime) -> Result<(), Fail> {
    let before = most_links(rt.alloc())?;
    check_each(&rt, rt.alloc(), before.as_slice(), &AFTER_MOST_LINKS)
}

#[test]
fn largest_sheet(rt: HostRuntime) -> Result<(), Fail> {
    let heap = rt.alloc();
    let mut words = most_links(heap)?;
    words.extend_from_slice(whole_order(heap)?.as_slice())?;
    words.push(0xf000_1201)?;
    let bytes = packed(heap, words.as_slice())?;
    assert_eq!(rt; bytes.len(), 18_440);
    assert_eq!(rt;
        outcome_of(Room::reserve(heap)?, bytes.as_slice()),
        Ok(Counts {
            nodes: 512,
            links: 4096,
            order: 512,
        })
    );
    Ok(())
}

#[test]
fn largest_sheet_and_a_link(rt: HostRuntime) -> Result<(), Fail> {
    let heap = rt.alloc();
    let mut words = most_links(heap)?;
    words.push(0x2000_040a)?;
    words.extend_from_slice(whole_order(heap)?.as_slice())?;
    words.push(0xf000_1202)?;
    let bytes = packed(heap, words.as_slice())?;
    assert_eq!(rt; bytes.len(), 18_444);
    assert_eq!(rt;
        outcome_of(Room::reserve(heap)?, bytes.as_slice()),
        Err(Told {
            number: 6,
            layer: Sheets,
            place: 4097,
        })
    );
    let text = told(heap, bytes.as_slice())?;
    assert_eq!(rt;
        text.as_str(),
        "fault 6 sheet 4097\nword 4097 is 0x2000040a: a sheet has at most 4096 links\n"
    );
    Ok(())
}

/// What is told of some bytes.
fn told(heap: Global, bytes: &[u8]) -> Result<String, AllocError> {
    match read(Room::reserve(heap)?, bytes) {
        Ok(sheet) => Account(&sheet).to_string(heap),
        Err(fault) => Refusal { fault, bytes }.to_string(heap),
    }
}

#[test]
fn tellings(rt: HostRuntime) -> Result<(), Fail> {
    let heap = rt.alloc();
    for &Telling(words, tail, text) in &TELLINGS {
        let mut bytes = packed(heap, words)?;
        bytes.extend_from_slice(tail)?;
        assert_eq!(rt; told(heap, bytes.as_slice())?.as_str(), text);
    }
    Ok(())
}

#[test]
fn a_place_past_all_bytes(rt: HostRuntime) -> Result<(), Fail> {
    let refusal = Refusal {
        fault: Fault::NoEnd(usize::MAX),
        bytes: b"abcd",
    };
    assert_eq!(rt;
        refusal.to_string(rt.alloc())?.as_str(),
        "fault 7 sheet 18446744073709551615\nword 18446744073709551615 is missing: a sheet ends with an end word\n"
    );
    Ok(())
}
