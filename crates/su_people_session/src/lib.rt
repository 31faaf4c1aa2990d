//! What stands below each command for people: the session of a client, which keeps what it takes
//! in a state folder and checks all that the server shows, walks of the tree that it holds, and
//! refusals in sentences.
#![tactic(auto)]

mod answers;
mod helpers;
mod keyless;
mod links;
mod loads;
mod names;
mod opening;
mod portions;
mod progress;
mod sentences;
mod sessions;
mod troubles;
mod walks;

pub use answers::Answer;
pub use helpers::Helper;
pub use keyless::Keyless;
pub use loads::{is_of_load, is_of_source};
pub use names::{is_of_state, last_name, named};
pub use opening::Items;
pub use progress::{Amount, Progress, counted};
pub use sentences::{is_lie, is_of_path, name_of, tell};
pub use sessions::{Leaves, Session, finish, leaves_of, look, sign};
pub use troubles::Trouble;
pub use walks::{Found, found_at, found_if_any, names_in, path_in, walked};
