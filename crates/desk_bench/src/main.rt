//! Measures operations on a desk whose tree was left on a store and is loaded again, beside the same
//! on a desk that left nothing. It measures where it is given the argument `run`, and else says so:
//! what it measures is another thing each time.
#![tactic(auto)]

mod faults;
mod measures;
mod works;

use faults::Fault;
use measures::measure;
use std::env::Env;
use std::time::CpuClock;
use std::{env, io};

fn main(rt: HostRuntime) -> Result<(), Fault> {
    if is_asked(&rt)? {
        measure(&rt)
    } else {
        println!(rt;
            "desk_bench run: microseconds of operations on what is loaded again, beside those on what was never left"
        )?;
        Ok(())
    }
}

// Whether the last argument is `run`.
fn is_asked(rt: &(impl Env + AllocGlobal)) -> io::Result<bool> {
    let mut is_asked = false;
    for word in env::args(rt)? {
        is_asked = word.as_str() == "run";
    }
    Ok(is_asked)
}
