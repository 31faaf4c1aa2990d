//! Where a server's book and a client's view meet.
#![tactic(auto)]

mod laws;

pub use laws::records_are_refused_for_their_changes;
