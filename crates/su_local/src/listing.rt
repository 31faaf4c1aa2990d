// What stands at a local path, and in a local folder.
use std::fs::{FileType, Metadata, read_dir};
use std::io::ErrorKind;
use std::{fs, io};

/// What stands at a local path.
#[derive(Clone, Copy, Debug, PartialEq, Eq)]
pub enum LocalKind {
    File {
        /// How many bytes it has.
        size: u64,
    },
    Folder,
    /// A symbolic link, a pipe, a socket or a device.
    Other,
}

/// A name in a local folder, with what stands there.
#[derive(Debug, Drop)]
pub struct LocalEntry {
    pub name: String,
    pub kind: LocalKind,
}

/// What a local folder has.
#[derive(Debug, Drop)]
pub struct LocalListing {
    /// By their names, ascending.
    pub entries: Vec<LocalEntry>,
    /// How many names are no text, and stand in no entry.
    pub unreadable: u64,
}

/// Tells what stands at a path, where a symbolic link is followed; `None` where nothing does.
pub fn kind_of(rt: &HostRuntime, path: &str) -> io::Result<Option<LocalKind>> {
    match fs::metadata(rt, path) {
        Ok(found) => Ok(Some(kind_in(&found))),
        Err(reason) if reason.kind() == ErrorKind::NotFound => Ok(None),
        Err(reason) => Err(reason),
    }
}

/// Lists a folder. Links in it aren't followed.
pub fn entries_of(rt: &HostRuntime, path: &str) -> io::Result<LocalListing> {
    let mut listing = LocalListing {
        entries: Vec::new(rt.alloc()),
        unreadable: 0,
    };
    for found in read_dir(rt, path)? {
        match found {
            Ok(entry) => {
                let name = String::from_str(rt.alloc(), entry.file_name())?;
                let kind = kind_in(&entry.metadata()?);
                listing.entries.push(LocalEntry { name, kind })?;
            }
            Err(reason) if reason.kind() == ErrorKind::InvalidFilename => {
                listing.unreadable = listing.unreadable.saturating_add(1);
            }
            Err(reason) => return Err(reason),
        }
    }
    listing
        .entries
        .sort_unstable_by(|one, other| one.name.as_str().cmp(other.name.as_str()));
    Ok(listing)
}

/// Returns the kind that is told of what stands there.
fn kind_in(found: &Metadata) -> LocalKind {
    let kind: FileType = found.file_type();
    if kind.is_file() {
        return LocalKind::File { size: found.len() };
    }
    if kind.is_dir() {
        return LocalKind::Folder;
    }
    LocalKind::Other
}
