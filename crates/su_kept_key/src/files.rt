// The files of a key: its own, and PATH.next, in which it is written first.
ghost use Rattle.std.specs.Prelude.{◌≡◌, ℕ, List, Some, IfOk, IfErr, OnOk, take};
ghost use Rattle.std.specs.Io.KnownBytes.{Appends};
ghost use Rattle.su_lms.specs.KeyFile.{private_key_of, key_file_bytes};
ghost use Rattle.su_kept_key.specs.Reading.{RefusesNoKey};

use crate::faults::KeptKeyFault;
use std::alloc::Global;
use std::fs::{File, OpenFile, OpenOptions};
use std::io::{ErrorKind, Read, Write};
use std::os::unix::fs::{MetadataExt, OpenOptionsExt};
use std::{fs, io};
use su_lms::KeyFile;

/// Only the owner may read or write.
pub(crate) const PRIVATE: u32 = 0o600;

/// Splits off the folder of a path. `None` where the path ends in no name.
pub(crate) fn folder_of(path: &str) -> Option<&str> {
    match path.rsplit_once('/') {
        _ if path.ends_with('/') || path.is_empty() => None,
        None => Some("."),
        Some(("", _)) => Some("/"),
        Some((folder, _)) => Some(folder),
    }
}

/// Refuses what is no plain file with one name. A rename would replace a link, or one name of
/// several, and the key would stay behind it with leaves that have signed since.
pub(crate) fn require_plain(rt: &HostRuntime, path: &str) -> Result<(), KeptKeyFault> {
    let alloc = rt.alloc();
    let found = match fs::symlink_metadata(rt, path) {
        Ok(found) => found,
        Err(reason) => return Err(KeptKeyFault::unread(alloc, path, reason)),
    };
    if !found.is_file() {
        return Err(KeptKeyFault::InTheWay {
            path: String::from_str(alloc, path)?,
        });
    }
    let names = found.nlink();
    if 1 < names {
        return Err(KeptKeyFault::ManyNames {
            path: String::from_str(alloc, path)?,
            names,
        });
    }
    Ok(())
}

/// Reads the key file at a path from a reader, and no more than 65 bytes of it. `Unread` where
/// reading fails; `NoKey` where they are the bytes of no key file; `NoMemory`.
pub(crate) fn read_key<F: Read + Drop>(
    alloc: Global,
    path: &str,
    reader: F,
) -> Result<KeyFile, KeptKeyFault>
    ensures found { IfOk result (λ file. (input : List ℕ) → F.remaining reader ≡ Some input
        → take 65 input ≡ key_file_bytes (private_key_of file) file.next) }
    ensures refused { IfErr result (λ fault. (input : List ℕ) → F.remaining reader ≡ Some input
        → RefusesNoKey (take 65 input) fault) }
{
    let bytes = match first_bytes(alloc, reader) {
        Ok(bytes) => bytes,
        Err(reason) => return Err(KeptKeyFault::unread(alloc, path, reason)),
    };
    match KeyFile::decode(bytes.as_slice()) {
        Ok(file) => Ok(file),
        Err(refusal) => Err(KeptKeyFault::NoKey {
            path: String::from_str(alloc, path)?,
            refusal,
        }),
    }
}

/// Reads to the end, or 65 bytes: one more than a key file has.
fn first_bytes<F: Read + Drop>(alloc: Global, reader: F) -> io::Result<Vec<u8>>
    ensures { IfOk result (λ bytes. (input : List ℕ) → F.remaining reader ≡ Some input →
        bytes.items ≡ take 65 input) }
{
    let mut bytes = Vec::new(alloc);
    reader.take(65).read_to_end(&mut bytes)?;
    Ok(bytes)
}

/// Writes a private file at `new`, puts it in the place of `path`, and waits until the disk has it.
/// What a run that was stopped left at `new` is removed first. After an error the old file stands at
/// `path`, or the new one.
pub(crate) fn replace(
    rt: &HostRuntime,
    folder: &File,
    path: &str,
    new: &str,
    bytes: &[u8],
) -> io::Result<()> {
    remove_old(rt, new)?;
    let mut file = OpenOptions::new()
        .write(true)
        .create_new(true)
        .mode(PRIVATE)
        .open(rt, new)?;
    write_synced(&mut file, bytes)?;
    fs::rename(rt, new, path)?;
    folder.sync_all()
}

/// Removes a file, if it is there.
fn remove_old(rt: &HostRuntime, path: &str) -> io::Result<()> {
    match fs::remove_file(rt, path) {
        Err(reason) if reason.kind() != ErrorKind::NotFound => Err(reason),
        _ => Ok(()),
    }
}

/// Writes these bytes, and waits until the disk has them.
fn write_synced<F: Write + OpenFile>(file: &mut F, bytes: &[u8]) -> io::Result<()>
    ensures { OnOk result (Appends (F.contents file.old) (F.contents file.new) bytes.now) }
{
    file.write_all(bytes)?;
    file.sync_all()
}
