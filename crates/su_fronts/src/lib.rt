//! Which numbers of an i-table are known to be taken, so that a free one is found soon.
#![tactic(auto)]

mod fronts;

pub use fronts::Fronts;
