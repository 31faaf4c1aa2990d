//! What keeps the records of a book in an engine that several machines run: each record under a key
//! of its own, which is made once, with the items that came with it.
#![tactic(auto)]

mod keepers;
mod keys;
mod laws;

pub use keepers::EngineKeeper;
pub use keys::{item_key, record_key};
pub use laws::{
    begins_with_all, no_record_comes_behind, one_list, only_the_leader_adds, told_for_good,
};
