//! What a client at work does makes a run, of which the laws on forks speak.
#![tactic(auto)]

mod laws;

pub use laws::clients_make_runs;
