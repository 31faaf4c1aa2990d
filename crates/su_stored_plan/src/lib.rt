//! Plans of commands on a desk whose tree may lie on a store that isn't trusted.
#![tactic(auto)]

mod plans;

pub use plans::{find, plan, plan_all};
pub use su_draft::Command;
