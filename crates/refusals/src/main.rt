//! Carries out worked rows in which what can fail does so once: a call of a source, of a key's store,
//! a read or a write of a session, at one place after the other; and, where a library in front of the
//! C library refuses a call for memory (tests/refusals.py), that call, in whichever row it comes.
//! A call that is refused has changed nothing, and is made once more. An argument is the number of a
//! row that is carried out alone.
#![tactic(auto)]

mod asked;
mod asking;
mod books;
mod clients;
mod commits;
mod desks;
mod faults;
mod flaws;
mod forests;
mod inodes;
mod items;
mod keepers;
mod lists;
mod meets;
mod parts;
mod planned;
mod plans;
mod rows;
mod seats;
mod seen;
mod sessions;
mod shared_books;
mod signatures;
mod sources;
mod stores;
mod taking;
mod told;
mod trees;
mod trying;
mod views;
mod whys;

use faults::Stop;
use rows::{ROWS, Row, carry_out};
use seen::Seen;
use std::alloc::Global;
use std::env::Env;
use std::sync::Wait;
use std::thread::Threads;
use std::time::Clock;
use std::{env, io};
use su_bytes::{FileId, Refusal};

fn main(rt: HostRuntime) -> Result<(), Stop> {
    let chosen = chosen(&rt)?;
    for (place, row) in ROWS.into_iter().enumerate() {
        if chosen.is_none() || chosen == Some(place + 1) {
            show(&rt, rt.alloc(), row)?;
        }
    }
    Ok(())
}

/// The number of the row that the last argument names, from 1; none where it is no number: then all
/// are carried out.
fn chosen(rt: &(impl Env + AllocGlobal)) -> io::Result<Option<usize>> {
    let mut chosen = None;
    for word in env::args(rt)? {
        chosen = word.as_str().parse::<usize>().ok();
    }
    Ok(chosen)
}

fn show<R: Print + Threads + Wait + Clock + Sync>(
    rt: &R,
    alloc: Global,
    row: Row,
) -> Result<(), Stop> {
    // names the types for the prover (docs/ARCHITECTURE.md, "Forms the kit wants")
    let _none: (Option<FileId>, Option<Refusal>) = (None, None);
    let mut seen = Seen::none();
    carry_out(rt, alloc, row, &mut seen)?;
    let (name, said) = (row.name(), seen.said());
    println!(rt; "{name}: {said}")?;
    Ok(())
}
