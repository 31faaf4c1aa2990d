//! Areas in bytes, some 6 each, and footprints that are kept so: a desk keeps one of each live
//! operation.
#![tactic(auto)]

mod areas;
mod cursors;
mod footprints;
mod kinds;
mod lent;
mod marks;
mod sided;
mod spelled;

pub use areas::{put_area, take_area};
pub use cursors::MarksLeft;
pub use footprints::KeptFootprint;
