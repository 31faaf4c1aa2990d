//! One file of a store, open or shut: what it keeps, whatever a crash leaves of it.
#![tactic(auto)]

mod crashes;
mod current;
mod places;
mod store_volumes;

pub use places::Place;
pub use store_volumes::StoreVolume;
