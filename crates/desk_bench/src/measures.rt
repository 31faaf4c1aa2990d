// What is measured, in seconds of the thread's processor time.
use crate::faults::Fault;
use crate::works::{FILES, Time, WORKS, Work, author, change_of, first_of};
use std::alloc::Global;
use std::io;
use std::time::CpuClock;
use su_block::{BlockSource, Checked, MemoryBlocks};
use su_block_cache::BlockCache;
use su_bytes::{KEY_LENGTH, Refusal, Roster};
use su_no_blocks::NoBlocks;
use su_stored_desk::TrialDesk;

/// How often all of it is measured; the least time counts.
const ROUNDS: usize = 3;

/// How many items the source of the desk that leaves its tree keeps, as a client's does.
const CAPACITY: usize = 1_024;

fn now(rt: &impl CpuClock) -> io::Result<f64> {
    Ok(rt.thread_cpu_time()?.as_secs_f64())
}

/// The seconds that one takes of each of the works, and of their undo.
#[derive(Clone, Copy, Debug)]
struct Times {
    works: [f64; 5],
    undo: f64,
}

impl Times {
    /// Nothing was measured yet.
    fn none() -> Times {
        Times {
            works: [f64::MAX; 5],
            undo: f64::MAX,
        }
    }
}

/// Measures each work on both desks, and prints how long one takes on each.
pub(crate) fn measure<R>(rt: &R) -> Result<(), Fault>
where
    R: CpuClock + Print + AllocGlobal,
{
    let mut never = Times::none();
    let mut again = Times::none();
    for _ in 0..ROUNDS {
        measure_whole(rt, &mut never)?;
        measure_left(rt, &mut again)?;
    }
    for (index, work) in WORKS.iter().enumerate() {
        show(rt, work.name(), never.works[index], again.works[index])?;
    }
    show(rt, "undo", never.undo, again.undo)
}

/// Measures on a desk that leaves nothing.
fn measure_whole<R: CpuClock + AllocGlobal>(rt: &R, least: &mut Times) -> Result<(), Fault> {
    let alloc = rt.alloc();
    let mut desk = TrialDesk::new(alloc, roster(alloc)?, NoBlocks::new())?;
    make(alloc, &mut desk)?;
    measure_all(rt, &mut desk, least)
}

/// Measures on a desk that left all of its tree.
fn measure_left<R: CpuClock + AllocGlobal>(rt: &R, least: &mut Times) -> Result<(), Fault> {
    let alloc = rt.alloc();
    let items = Checked::new(MemoryBlocks::new(alloc));
    let source = BlockCache::new(alloc, items, CAPACITY)?;
    let mut desk = TrialDesk::new(alloc, roster(alloc)?, source)?;
    make(alloc, &mut desk)?;
    desk.shed()?;
    measure_all(rt, &mut desk, least)
}

/// Makes a roster of one user.
fn roster(alloc: Global) -> Result<Roster, Refusal> {
    Roster::of_keys(alloc, &[[0; KEY_LENGTH]])
}

/// Makes all files.
fn make<S: BlockSource>(alloc: Global, desk: &mut TrialDesk<S>) -> Result<(), Fault> {
    for index in 0..FILES {
        for change in first_of(alloc, index)? {
            desk.apply(author()?, change)?;
        }
    }
    Ok(())
}

/// Does each work with all files twice, of which the first time loads what is needed, and notes how
/// long one took the second time, where that is less than what is noted.
fn measure_all<R: CpuClock + AllocGlobal, S: BlockSource>(
    rt: &R,
    desk: &mut TrialDesk<S>,
    least: &mut Times,
) -> Result<(), Fault> {
    for (index, work) in WORKS.iter().enumerate() {
        do_all(rt, desk, *work, Time::First)?;
        if work.is_once() {
            let undo = undo_all(rt, desk)?;
            least.undo = lesser(undo, least.undo);
        }
        let seconds = do_all(rt, desk, *work, Time::Second)?;
        least.works[index] = lesser(seconds, least.works[index]);
    }
    Ok(())
}

fn lesser(one: f64, other: f64) -> f64 {
    if one < other { one } else { other }
}

/// Does a work with all files, and returns how long one took.
fn do_all<R: CpuClock + AllocGlobal, S: BlockSource>(
    rt: &R,
    desk: &mut TrialDesk<S>,
    work: Work,
    time: Time,
) -> Result<f64, Fault> {
    let mut seconds = 0.0;
    for index in 0..FILES {
        let change = change_of(rt.alloc(), work, index, time)?;
        let from = now(rt)?;
        desk.apply(author()?, change)?;
        seconds += now(rt)? - from;
    }
    Ok(seconds / f64::from(FILES))
}

/// Takes back the last work, file by file, and returns how long one took.
fn undo_all<R: CpuClock, S: BlockSource>(rt: &R, desk: &mut TrialDesk<S>) -> Result<f64, Fault> {
    let mut seconds = 0.0;
    for _ in 0..FILES {
        let from = now(rt)?;
        desk.undo_last(author()?)?;
        seconds += now(rt)? - from;
    }
    Ok(seconds / f64::from(FILES))
}

/// Prints how many microseconds one of this takes on what was never left, and on what is loaded again.
fn show(rt: &impl Print, what: &str, never: f64, again: f64) -> Result<(), Fault> {
    let (before, after, ratio) = (never * 1e6, again * 1e6, again / never);
    println!(rt;
        "{what:<9} {before:>8.2} us never left, {after:>8.2} us loaded again: {ratio:.2} times"
    )?;
    Ok(())
}
