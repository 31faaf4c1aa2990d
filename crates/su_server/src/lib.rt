//! A server: many sessions over one shared book, and the sessions that a listener is offered.
#![tactic(auto)]

mod connections;
mod crowds;
mod servers;
mod stops;
mod watched;

pub use connections::{Connections, MOST_FAILURES};
pub use crowds::Crowd;
pub use servers::{Report, serve_book};
pub use stops::Stop;
pub use su_shared::BookFault;
pub use watched::{Patience, Watched};
