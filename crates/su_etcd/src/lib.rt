//! An engine that is etcd, over its JSON gateway: one request on each connection.
#![tactic(auto)]

mod etcds;
mod exchanges;
mod leads;
mod members;
mod wires;

pub use etcds::Etcd;
pub use exchanges::exchange;
pub use leads::{grant, keep_alive, revoke, take_lead};
pub use members::Members;
pub use wires::{Request, Wire};
