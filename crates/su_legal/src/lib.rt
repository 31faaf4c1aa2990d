//! Legal lists of commits: what a client takes. Definitions, what follows from them, and no code.
#![tactic(auto)]

mod laws;

pub use laws::{fronts_are_legal, legal_lists_are_good};
