//! The texts of a client's state folder, each with one spelling: who its team is, with the digest
//! that people compare, and when commits were taken.
#![tactic(auto)]

mod faults;
mod groups;
mod laws;
mod lines;
mod reading;
mod teams;
mod times;

pub use faults::{Mistake, TextFault};
pub use groups::{grouped, read_groups};
pub use laws::{groups_tell_digests, kept_times_are_found, texts_tell_teams};
pub use reading::read_team;
pub use teams::Team;
pub use times::time_of;
