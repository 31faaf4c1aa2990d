//! The command line of `sundr`: what its words ask for, and the texts of its help.
#![tactic(auto)]

mod help;
mod keys;
mod line;
mod serving;

pub use line::{Line, line_of};
pub use serving::{ClientArgs, ServeArgs};
pub use su_line::LineFault;
