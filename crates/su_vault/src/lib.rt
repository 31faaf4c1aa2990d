//! What keeps the records of a book in files, one behind another, with the items that they need.
#![tactic(auto)]

mod crashing;
mod faults;
mod shelves;
mod vaults;
mod volumes;

pub use crashing::Crashing;
pub use faults::VolumeFault;
pub use shelves::Shelf;
pub use vaults::Vault;
pub use volumes::Volume;
