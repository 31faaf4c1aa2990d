//! Many sessions, each served by one of several workers in threads.
#![tactic(auto)]

mod links;
mod places;
mod reports;
mod workers;

pub use links::{Duplex, Link};
pub use su_session::Attend;
pub use workers::{MOST_WORKERS, serve_all};
