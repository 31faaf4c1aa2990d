// Files of the state folder, as they are read and written whole.
ghost use Rattle.std.specs.Prelude.{OnOk};
ghost use Rattle.std.specs.Io.KnownBytes.{Appends};

use crate::faults::{FolderFault, Mistake};
use std::alloc::{AllocError, Global};
use std::fs::{File, OpenFile, OpenOptions};
use std::io::{ErrorKind, Read, Write};
use std::os::unix::fs::OpenOptionsExt;
use std::{fs, io};

/// Only the owner may read or write.
pub(crate) const PRIVATE: u32 = 0o600;

/// Returns the path of the state folder of a directory.
pub(crate) fn folder_path(alloc: Global, directory: &str) -> Result<String, AllocError> {
    if directory.is_empty() || directory.ends_with('/') {
        return format!(in alloc; "{directory}.sundr");
    }
    format!(in alloc; "{directory}/.sundr")
}

/// Whether there is a folder at a path, or a link to one.
pub(crate) fn is_folder(rt: &HostRuntime, path: &str) -> bool {
    match fs::metadata(rt, path) {
        Ok(found) => found.is_dir(),
        Err(_) => false,
    }
}

/// Reads a plain file of at most so many bytes. Faults in order: `Unread` where it isn't there;
/// `Wrong` where it is no plain file; `Unread`; `TooLong`. `NoMemory` can come at any time.
pub(crate) fn read_file(rt: &HostRuntime, path: &str, most: u64) -> Result<Vec<u8>, FolderFault> {
    let alloc = rt.alloc();
    match fs::metadata(rt, path) {
        Ok(found) if found.is_file() => {}
        Ok(_) => return Err(FolderFault::wrong(alloc, path, Mistake::NoFile)),
        Err(reason) => return Err(FolderFault::unread(alloc, path, reason)),
    }
    let read = File::open(rt, path).and_then(|file| first_bytes(
        alloc,
        file,
        most.saturating_add(1),
    ));
    let bytes = match read {
        Ok(bytes) => bytes,
        Err(reason) => return Err(FolderFault::unread(alloc, path, reason)),
    };
    if most < bytes.len() as u64 {
        return Err(FolderFault::TooLong {
            path: String::from_str(alloc, path)?,
            most,
        });
    }
    Ok(bytes)
}

/// Reads to the end, or so many bytes.
fn first_bytes<F: Read + Drop>(alloc: Global, reader: F, count: u64) -> io::Result<Vec<u8>> {
    let mut bytes = Vec::new(alloc);
    reader.take(count).read_to_end(&mut bytes)?;
    Ok(bytes)
}

/// Writes a private file that isn't there yet, and waits until the disk has it.
pub(crate) fn write_new(rt: &HostRuntime, path: &str, bytes: &[u8]) -> io::Result<()> {
    let mut file = OpenOptions::new()
        .write(true)
        .create_new(true)
        .mode(PRIVATE)
        .open(rt, path)?;
    write_synced(&mut file, bytes)
}

/// Writes a private file beside that of a name in a folder, puts it in its place, and waits until
/// the disk has it. After an error the old file stands there, or the new one.
pub(crate) fn replace(
    rt: &HostRuntime,
    folder: &str,
    name: &str,
    bytes: &[u8],
) -> Result<(), FolderFault> {
    let alloc = rt.alloc();
    let path = format!(in alloc; "{folder}/{name}")?;
    let next = format!(in alloc; "{folder}/{name}.next")?;
    let replaced = remove_old(rt, next.as_str())
        .and_then(|()| write_new(rt, next.as_str(), bytes))
        .and_then(|()| fs::rename(rt, next.as_str(), path.as_str()))
        .and_then(|()| sync_folder(rt, folder));
    replaced.map_err(|reason| FolderFault::unwritten(alloc, path.as_str(), reason))
}

/// Waits until the disk has the names of a folder.
pub(crate) fn sync_folder(rt: &HostRuntime, folder: &str) -> io::Result<()> {
    File::open(rt, folder)?.sync_all()
}

/// Removes a file, if it is there.
fn remove_old(rt: &HostRuntime, path: &str) -> io::Result<()> {
    match fs::remove_file(rt, path) {
        Err(reason) if reason.kind() != ErrorKind::NotFound => Err(reason),
        _ => Ok(()),
    }
}

/// Writes these bytes, and waits until the disk has them.
fn write_synced<F: Write + OpenFile>(file: &mut F, bytes: &[u8]) -> io::Result<()>
    ensures { OnOk result (Appends (F.contents file.old) (F.contents file.new) bytes.now) }
{
    file.write_all(bytes)?;
    file.sync_all()
}
