//! Operations on a forest of which parts may be left on a store that isn't trusted: what their
//! checks need is loaded, then they are checked, and then performed.
#![tactic(auto)]

mod accepted;
mod applying;
mod create;
mod drop_body;
mod laws;
mod link;
mod loading;
mod pointers;
mod rename;
mod take;
mod truncate;
mod unlink;
mod write;

pub use accepted::Accepted;
pub use applying::apply;
pub use laws::{found_fits, found_is_local, found_tells_plan};
pub use loading::fetch;
