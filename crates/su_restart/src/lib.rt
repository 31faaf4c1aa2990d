//! How a server that was killed and the next one meet, as two functions over any disk that can crash:
//! what the one has acknowledged is what the other's keeper finds. No program calls them.
#![tactic(auto)]

mod kills;
mod takes_over;

pub use kills::kill;
pub use takes_over::take_over;
