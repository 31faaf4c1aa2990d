//! The state folder of a client for people: `.sundr` in a directory, for its owner alone, which one
//! process at a time works in.
//!
//! | File | What stands there |
//! |---|---|
//! | `team` | the users and their keys, as `su_team` spells them |
//! | `where` | `HOST:PORT`, on a line |
//! | `me` | the user's name, and the path of the key file, on a line each |
//! | `log` | the entries of the commits that were taken |
//! | `times` | eight bytes for each of them: the second in which it was taken, or 0 |
//! | `seen` | lines that tell up to which commit files were seen, as `su_seen` spells them |
//! | `lock` | the number of the process that works here |
//! | `scratch` | (its name stands for a moment alone) what a process need not hold in memory |
//!
//! Nothing is proved of what the disk does: no clause says what stands in a file. Of texts that are
//! read, clauses say that they are the ones that would be written.
#![tactic(auto)]

mod appended;
mod creating;
mod faults;
mod files;
mod finding;
mod folders;
mod locks;
mod members;
mod seen;
mod servers;

pub use creating::{NewFolder, create};
pub use faults::{FolderFault, Holder, Mistake};
pub use finding::find;
pub use folders::StateFolder;
pub use servers::Server;
