// How many records a store has kept, in a file beside its own.
use crate::stores::{Folder, FolderFault};
use std::alloc::Global;
use std::fs::{File, OpenOptions};
use std::io;
use std::io::Read;
use std::os::unix::fs::FileExt;
use su_tally::Notebook;

/// The most bytes of a count: 20 digits, and the end of the line.
const LONGEST: u64 = 21;

/// The file of a folder that has the count of its records: a number, and the end of the line. Each
/// is written over the one before, which is no longer, and nothing waits for the disk: a kill loses
/// none, and a loss of power the newest.
#[derive(Drop)]
pub(crate) struct CountFile {
    file: File,
    alloc: Global,
}

impl CountFile {
    /// Opens the count of a folder, and makes it where there is none. Returns it with the number
    /// that is there, 0 where it is empty, as one is that was just made. `NoCount` where something
    /// else is.
    pub fn of(folder: &Folder<'_, '_>) -> Result<(CountFile, u64), FolderFault> {
        let alloc = folder.rt.alloc();
        let path = folder.count_path()?;
        let (file, text) = match opened(folder.rt, path.as_str()) {
            Ok(found) => found,
            Err(error) => return Err(FolderFault::Unread { path, error }),
        };
        match count_in(text.as_str()) {
            Some(count) => Ok((CountFile { file, alloc }, count)),
            None => Err(FolderFault::NoCount(path)),
        }
    }
}

impl Notebook for CountFile {
    fn note(&mut self, count: u64) {
        if let Ok(text) = format!(in self.alloc; "{count}\n") {
            let _ = self.file.write_all_at(text.as_bytes(), 0);
        }
    }
}

/// Opens a file, which is made where it isn't there, and reads its text.
fn opened(rt: &HostRuntime, path: &str) -> io::Result<(File, String)> {
    let mut file = OpenOptions::new()
        .read(true)
        .write(true)
        .create(true)
        .open(rt, path)?;
    let mut text = String::new(rt.alloc());
    (&mut file).take(LONGEST + 1).read_to_string(&mut text)?;
    Ok((file, text))
}

/// Returns the number of a line, 0 where there is none. `None` where the text is something else.
fn count_in(text: &str) -> Option<u64> {
    if text.is_empty() {
        return Some(0);
    }
    text.strip_suffix("\n")?.parse().ok()
}
