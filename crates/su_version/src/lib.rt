//! Version structures and commits: what they are, how they are spelled, and how they follow one
//! another.
#![tactic(auto)]

mod chains;
mod commits;
mod laws;
mod versions;

pub use chains::{Tip, Verdict};
pub use commits::{Commit, LONGEST_SIGNATURE};
pub use laws::{leaves_rise, no_spelling_begins_another};
pub use versions::{VersionStructure, format_of};
