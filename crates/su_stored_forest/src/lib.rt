//! A forest of i-tables that lies on a store which isn't trusted, and is asked as if it were whole.
#![tactic(auto)]

mod freed;
mod keeps;
mod numbers;
mod operations;
mod performs;
mod reads;
mod sheds;
mod stored;
mod undos;

pub use stored::StoredForest;
