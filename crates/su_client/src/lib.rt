//! A client of a server: one call for each request, over a link that need not be trusted.
#![tactic(auto)]

mod clients;
mod links;
mod outboxes;
mod refusals;
mod wires;

pub use clients::Client;
pub use outboxes::Outbox;
