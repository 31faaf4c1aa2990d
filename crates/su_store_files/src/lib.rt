//! The files of a vault in their order, of which few are open: what they keep, one behind another,
//! while records are kept, and files are shut, opened again, and begun.
#![tactic(auto)]

mod archive_files;
mod crashes;
mod past;
mod turns;
mod volumes;

pub use archive_files::{ArchiveFiles, ArchiveName};
pub use past::PastFiles;
pub use volumes::{Opened, Volumes};
