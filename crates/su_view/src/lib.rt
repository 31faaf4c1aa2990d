//! A client's view whose tree may lie on a source that isn't trusted: the list of commits that it
//! holds, which makes a chain, and is legal where nothing was mixed up.
#![tactic(auto)]

mod handles;
mod kept_commits;
mod keys;
mod last_commits;
mod lists;
mod records;
mod refusals;
mod views;

pub use keys::OwnKey;
pub use refusals::ViewRefusal;
pub use views::View;
