//! What a desk is: a history of operations, undos and rekeys, and the tree that its live operations make;
//! what is answered to a change, and laws of all that.
#![tactic(auto)]

mod entries;
mod fillings;
mod kept_batches;
mod kept_changes;
mod laws;
mod prepared;

pub use entries::{DeskReply, Entry, KeptEntry, entry_at, format_after, undoer_in};
pub use fillings::Filling;
pub use kept_batches::KeptBatch;
pub use kept_changes::KeptChange;
pub use laws::{
    areas_meet_in_a_cell, carried_groups_are_listed, good_histories_can_be_undone, latest_is_free,
    live_numbers_ascend, one_entry_more, operations_can_be_taken_out, versions_rise,
};
pub use prepared::Prepared;
