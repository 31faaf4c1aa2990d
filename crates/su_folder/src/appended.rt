// Files that grow at their end.
use crate::faults::FolderFault;
use std::alloc::Global;
use std::fs::{File, OpenOptions};
use std::io;
use std::io::Write;
use std::os::unix::fs::FileExt;

/// A file that is open for appending, and how many bytes of it stand. What a write that failed left
/// behind these is cut off before anything else is appended.
#[derive(Drop)]
pub(crate) struct Appended {
    path: String,
    file: File,
    length: u64,
    is_torn: bool,
}

impl Appended {
    /// Opens a file that is there.
    pub(crate) fn open(rt: &HostRuntime, path: String) -> Result<Appended, FolderFault> {
        match opened(rt, path.as_str()) {
            Ok((file, length)) => Ok(Appended {
                path,
                file,
                length,
                is_torn: false,
            }),
            Err(reason) => Err(FolderFault::Unread { path, reason }),
        }
    }

    /// Lends its path.
    pub(crate) fn path(&self) -> &str {
        self.path.as_str()
    }

    /// Returns how many bytes stand.
    pub(crate) fn length(&self) -> u64 {
        self.length
    }

    /// Appends bytes. After a fault none of them stands.
    pub(crate) fn append(&mut self, alloc: Global, bytes: &[u8]) -> Result<(), FolderFault> {
        match self.try_append(bytes) {
            Ok(()) => Ok(()),
            Err(reason) => Err(FolderFault::unwritten(alloc, self.path.as_str(), reason)),
        }
    }

    /// Cuts the file to a length, or fills it up with zeros.
    pub(crate) fn resize(&mut self, alloc: Global, length: u64) -> Result<(), FolderFault> {
        match self.file.set_len(length) {
            Ok(()) => {
                self.length = length;
                self.is_torn = false;
                Ok(())
            }
            Err(reason) => Err(FolderFault::unwritten(alloc, self.path.as_str(), reason)),
        }
    }

    /// Waits until the disk has the file.
    pub(crate) fn sync(&self, alloc: Global) -> Result<(), FolderFault> {
        match self.file.sync_all() {
            Ok(()) => Ok(()),
            Err(reason) => Err(FolderFault::unwritten(alloc, self.path.as_str(), reason)),
        }
    }

    /// Reads the eight bytes from a place on. `None` where they can't be read.
    pub(crate) fn eight_at(&self, place: u64) -> Option<[u8; 8]> {
        let mut bytes = [0; 8];
        match self.file.read_exact_at(&mut bytes, place) {
            Ok(()) => Some(bytes),
            Err(_) => None,
        }
    }

    fn try_append(&mut self, bytes: &[u8]) -> io::Result<()> {
        if self.is_torn {
            self.file.set_len(self.length)?;
            self.is_torn = false;
        }
        if let Err(reason) = self.file.write_all(bytes) {
            self.is_torn = self.file.set_len(self.length).is_err();
            return Err(reason);
        }
        self.length = self.length.saturating_add(bytes.len() as u64);
        Ok(())
    }
}

/// Opens a file for appending, and asks for its length.
fn opened(rt: &HostRuntime, path: &str) -> io::Result<(File, u64)> {
    let file = OpenOptions::new().read(true).append(true).open(rt, path)?;
    let length = file.metadata()?.len();
    Ok((file, length))
}
