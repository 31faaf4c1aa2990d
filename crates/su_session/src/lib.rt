//! A session of a server with one client: a stream is cut into messages, a service answers each,
//! and the replies are written.
#![tactic(auto)]

mod attends;
mod exchanges;
mod incoming;
mod laws;
mod links;
mod services;
mod sessions;
mod talks;

pub use attends::Attend;
pub use exchanges::refuse;
pub use incoming::Incoming;
pub use laws::{all_messages, first_messages};
pub use services::Service;
pub use sessions::{End, MOST_READS, Served, serve};
