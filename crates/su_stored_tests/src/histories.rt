// Histories at chance on a desk that is shed, over a source that has faults.
use crate::pairs::{Met, Pair, Step};
use std::alloc::Global;
use std::process::Abort;
use std::test::Fail;

/// How many steps a history has.
const STEPS: u64 = 120;

// A history is made, and then all is asked.
fn make_history(rt: &impl Abort, alloc: Global, seed: u64) -> Result<Met, Fail> {
    let mut pair = Pair::new(alloc, seed)?;
    for number in 0..STEPS {
        pair.go_on(rt, alloc, &Step { seed, number })?;
    }
    let end = Step {
        seed,
        number: STEPS,
    };
    pair.compare(rt, &end)?;
    Ok(pair.met)
}

// The 30 histories from that seed on are made, in which each thing is met that is to be.
fn make_histories(rt: &impl Abort, alloc: Global, first: u64) -> Result<(), Fail> {
    let mut met = Met::nothing();
    for seed in first..first.saturating_add(30) {
        met.add(&make_history(rt, alloc, seed)?);
    }
    assert!(rt; 900 <= met.accepted, "{met:?}");
    assert!(rt; 900 <= met.refused, "{met:?}");
    assert!(rt; 300 <= met.unloaded, "{met:?}");
    Ok(())
}

#[test]
fn histories_0_to_29_are_those_of_a_desk_in_memory(rt: HostRuntime) -> Result<(), Fail> {
    make_histories(&rt, rt.alloc(), 0)
}

#[test]
fn histories_30_to_59_are_those_of_a_desk_in_memory(rt: HostRuntime) -> Result<(), Fail> {
    make_histories(&rt, rt.alloc(), 30)
}

#[test]
fn histories_60_to_89_are_those_of_a_desk_in_memory(rt: HostRuntime) -> Result<(), Fail> {
    make_histories(&rt, rt.alloc(), 60)
}

#[test]
fn histories_90_to_119_are_those_of_a_desk_in_memory(rt: HostRuntime) -> Result<(), Fail> {
    make_histories(&rt, rt.alloc(), 90)
}

#[test]
fn histories_120_to_149_are_those_of_a_desk_in_memory(rt: HostRuntime) -> Result<(), Fail> {
    make_histories(&rt, rt.alloc(), 120)
}

#[test]
fn histories_150_to_179_are_those_of_a_desk_in_memory(rt: HostRuntime) -> Result<(), Fail> {
    make_histories(&rt, rt.alloc(), 150)
}

#[test]
fn histories_180_to_209_are_those_of_a_desk_in_memory(rt: HostRuntime) -> Result<(), Fail> {
    make_histories(&rt, rt.alloc(), 180)
}

#[test]
fn histories_210_to_239_are_those_of_a_desk_in_memory(rt: HostRuntime) -> Result<(), Fail> {
    make_histories(&rt, rt.alloc(), 210)
}

#[test]
fn histories_240_to_269_are_those_of_a_desk_in_memory(rt: HostRuntime) -> Result<(), Fail> {
    make_histories(&rt, rt.alloc(), 240)
}

#[test]
fn histories_270_to_299_are_those_of_a_desk_in_memory(rt: HostRuntime) -> Result<(), Fail> {
    make_histories(&rt, rt.alloc(), 270)
}
