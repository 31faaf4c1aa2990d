//! The commands of a client's script: what a line says, and why a line is no command.
#![tactic(auto)]

mod commands;
mod lines;
mod mistakes;
mod verbs;

pub use commands::{ClientCommand, ClientLine};
pub use lines::read_line;
pub use mistakes::client_mistake_in;
pub use verbs::CLIENT_WORDS;
