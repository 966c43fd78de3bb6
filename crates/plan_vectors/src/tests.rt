//! Each pattern has the order, the places and the fill of docs/PLAN.md.
use crate::sites::{ascending, by_degree, by_order, hub, site};
use listing::fills::fill_list;
use plan::plans::Plan;
use plan::refusals::Refusal;
use std::alloc::Global;
use std::process::Abort;
use std::test::Fail;

/// The fill pairs of a plan.
fn fill_of(heap: Global, plan: &Plan) -> Result<Vec<(u16, u16)>, Fail> {
    let mut pairs = vec![in heap; (0, 0); 8192]?;
    let filled = fill_list(plan, &mut pairs)?;
    pairs.truncate(filled);
    Ok(pairs)
}

/// A plan has an order, as many places, and a fill.
fn check_plan(
    rt: &impl Abort,
    heap: Global,
    made: Result<Plan, Refusal>,
    order: &[u16],
    places: usize,
    fill: &[(u16, u16)],
) -> Result<(), Fail> {
    let plan = made?;
    assert_eq!(rt; plan.order(), order);
    assert_eq!(rt; plan.places(), places);
    assert_eq!(rt; fill_of(heap, &plan)?.as_slice(), fill);
    Ok(())
}

#[test]
fn one_node(rt: HostRuntime) -> Result<(), Fail> {
    let heap = rt.alloc();
    let sheet = site(heap, 1, &[], &[])?;
    check_plan(&rt, heap, by_degree(heap, &sheet)?, &[1], 1, &[])
}

#[test]
fn three_nodes(rt: HostRuntime) -> Result<(), Fail> {
    let heap = rt.alloc();
    let sheet = site(heap, 3, &[(1, 3)], &[])?;
    check_plan(&rt, heap, by_degree(heap, &sheet)?, &[2, 1, 3], 4, &[])
}

#[test]
fn path(rt: HostRuntime) -> Result<(), Fail> {
    let heap = rt.alloc();
    let sheet = site(heap, 4, &[(1, 2), (2, 3), (3, 4)], &[])?;
    check_plan(&rt, heap, by_degree(heap, &sheet)?, &[1, 2, 3, 4], 7, &[])
}

#[test]
fn ring(rt: HostRuntime) -> Result<(), Fail> {
    let heap = rt.alloc();
    let sheet = site(heap, 4, &[(1, 2), (2, 3), (3, 4), (4, 1)], &[])?;
    check_plan(
        &rt,
        heap,
        by_degree(heap, &sheet)?,
        &[1, 2, 3, 4],
        9,
        &[(2, 4)],
    )
}

#[test]
fn look_ups_of_the_ring(rt: HostRuntime) -> Result<(), Fail> {
    let heap = rt.alloc();
    let sheet = site(heap, 4, &[(1, 2), (2, 3), (3, 4), (4, 1)], &[])?;
    let plan = by_degree(heap, &sheet)??;
    assert_eq!(rt; plan.node(2)?, (2, 3));
    assert_eq!(rt; plan.node(4)?, (4, 0));
    assert_eq!(rt; plan.label_at(3)?, 3);
    assert_eq!(rt; plan.rows_at(2)?, [3, 4].as_slice());
    assert_eq!(rt; plan.place(4, 2)?, Some(5));
    assert_eq!(rt; plan.place(3, 1)?, None);
    assert!(rt; !plan.is_link(5));
    assert!(rt; plan.is_link(4));
    assert!(rt; plan.place(0, 1).is_err());
    assert!(rt; plan.node(5).is_err());
    Ok(())
}

#[test]
fn hub_by_least_degree(rt: HostRuntime) -> Result<(), Fail> {
    let heap = rt.alloc();
    let sheet = hub(heap, 5)?;
    check_plan(
        &rt,
        heap,
        by_degree(heap, &sheet)?,
        &[2, 3, 4, 1, 5],
        9,
        &[],
    )
}

#[test]
fn hub_first(rt: HostRuntime) -> Result<(), Fail> {
    let heap = rt.alloc();
    let sheet = hub(heap, 5)?;
    check_plan(
        &rt,
        heap,
        by_order(heap, &sheet)?,
        &[1, 2, 3, 4, 5],
        15,
        &[(2, 3), (2, 4), (2, 5), (3, 4), (3, 5), (4, 5)],
    )
}

#[test]
fn hub_first_with_126_leaves(rt: HostRuntime) -> Result<(), Fail> {
    let heap = rt.alloc();
    let sheet = hub(heap, 127)?;
    let plan = by_order(heap, &sheet)??;
    assert_eq!(rt; plan.places(), 8_128);
    assert_eq!(rt; plan.order(), ascending(heap, 127)?.as_slice());
    assert_eq!(rt; fill_of(heap, &plan)?.len(), 7_875);
    let mut short = vec![in heap; (0, 0); 7_874]?;
    assert!(rt; fill_list(&plan, &mut short).is_err());
    Ok(())
}

#[test]
fn hub_first_with_127_leaves(rt: HostRuntime) -> Result<(), Fail> {
    let heap = rt.alloc();
    let sheet = hub(heap, 128)?;
    assert_eq!(rt; by_order(heap, &sheet)?.err(), Some(Refusal::TooManyPlaces));
    Ok(())
}

#[test]
fn no_order_words(rt: HostRuntime) -> Result<(), Fail> {
    let heap = rt.alloc();
    let sheet = site(heap, 2, &[(1, 2)], &[])?;
    assert_eq!(rt; by_order(heap, &sheet)?.err(), Some(Refusal::NoOrder));
    Ok(())
}
