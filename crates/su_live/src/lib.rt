//! The live operations of a desk by their numbers, and an index from the cells that they read to
//! them: so an undo finds what stands in its way without a look at each. The index can be forgotten.
#![tactic(auto)]

mod entering;
mod live;
mod operations;
mod readers;

pub use live::LiveOperations;
pub use operations::LiveOperation;
