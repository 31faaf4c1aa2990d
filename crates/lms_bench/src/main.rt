//! Measures key generation, signing and verification of `su_lms` on one core, beside what the hash
//! function allows, and key generation on all cores. It measures where it is given the argument `run`, and else says so: what it
//! measures is another thing each time.
#![tactic(auto)]

mod counts;
mod measures;

use measures::{Fault, Pair, measure};
use std::env::Env;
use std::thread::Threads;
use std::time::{Clock, CpuClock};
use std::{env, io};

fn main(rt: HostRuntime) -> Result<(), Fault> {
    if is_asked(&rt)? {
        run(&rt)
    } else {
        println!(rt;
            "lms_bench run: calls per second of generate, sign and verify, and the share of what SHA-256 allows"
        )?;
        Ok(())
    }
}

// Whether the last argument is `run`.
fn is_asked(rt: &(impl Env + AllocGlobal)) -> io::Result<bool> {
    let mut is_asked = false;
    for word in env::args(rt)? {
        is_asked = word.as_str() == "run";
    }
    Ok(is_asked)
}

fn run<R>(rt: &R) -> Result<(), Fault>
where
    R: CpuClock + Clock + Threads + Sync + Print + AllocGlobal,
{
    measure(rt, &Pair::new("w=4, h=5", 5, 3))?;
    measure(rt, &Pair::new("w=8, h=5", 5, 4))?;
    measure(rt, &Pair::new("w=4, h=10", 6, 3))?;
    measure(rt, &Pair::new("w=8, h=10", 6, 4))
}
