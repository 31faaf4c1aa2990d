//! The command lines for people: what their words ask for, and the texts of their help.
#![tactic(auto)]

mod commands;
mod deeds;
mod groups;
mod help;
mod numbers;
mod reading;
mod servers;

pub use commands::with_people;
pub use deeds::{CompareArgs, Deed, GetArgs, InitArgs, PeopleLine, PutArgs};
pub use reading::people_line_of;
pub use servers::{Server, read_server};
