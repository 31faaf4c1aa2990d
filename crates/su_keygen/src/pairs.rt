// The two files of a key: FILE, and FILE.pub with its public key. A run that is stopped at any time
// leaves no public key beside a key that isn't its own, and no file half written:
//
// 1. The folder is locked, so that key makers take turns in it, and synced, so that one that can't
//    be is met before anything is changed.
// 2. Where something else than a plain file stands at FILE or FILE.pub, all is left as it is.
// 3. The key is locked, as each process does that signs with it, so that no key in use is replaced.
// 4. What a run that was stopped left is removed, and standard error tells of it.
// 5. Both are written whole under names of this run: the old pair stands, and perhaps these.
// 6. The old public key is removed: the old key stands alone. Where that has signed, both get names
//    that end in .old in its place, first the public key: so no key is lost that somebody's commits
//    are signed with. Nothing is replaced where such an old key stands already.
// 7. The new key takes its name: the new key stands alone.
// 8. The new public key takes its name: the new pair stands.
//
// After each step the disk has it. Wherever a key stands alone, files of step 5 stand there too, by
// which the next run knows that one was stopped.

ghost use Rattle.std.specs.Prelude.{◌≡◌, ◌++◌, true, IfSome, OnOk};
ghost use Rattle.std.specs.Char.{is_ascii_digit};
ghost use Rattle.std.specs.Io.KnownBytes.{Appends};
ghost use Rattle.std.specs.List.{list_all};
ghost use Rattle.su_keygen.specs.Unfinished.{IsPart, IsUnfinished};

use crate::faults::KeygenFault;
use crate::keygen::first_bytes;
use std::alloc::{AllocError, Global};
use std::fs::{DirEntry, File, OpenFile, OpenOptions, TryLockError};
use std::io::{ErrorKind, Write};
use std::os::unix::fs::OpenOptionsExt;
use std::{fs, io, process};
use su_kept_key::lock_key;
use su_lms::KeyFile;

/// Only the owner may read or write.
pub(crate) const PRIVATE: u32 = 0o600;

/// All may read, and the owner may write.
const PUBLIC: u32 = 0o644;

/// The paths of a key's two files, and of those in which this run writes them first.
#[derive(Drop)]
struct Places {
    key: String,
    public: String,
    new_key: String,
    new_public: String,
    old_key: String,
    old_public: String,
}

impl Places {
    /// Returns the places of a run, whose own number is part of its names.
    fn of_run(alloc: Global, out: &str, run: u32) -> Result<Places, AllocError> {
        Ok(Places {
            key: String::from_str(alloc, out)?,
            public: format!(in alloc; "{out}.pub")?,
            new_key: format!(in alloc; "{out}.part.{run}")?,
            new_public: format!(in alloc; "{out}.pub.part.{run}")?,
            old_key: format!(in alloc; "{out}.old")?,
            old_public: format!(in alloc; "{out}.pub.old")?,
        })
    }
}

/// Writes a key to the file `out`, and its public key to `out.pub`, over what stood there. A fault
/// before the old public key is removed leaves the old pair, and besides at most `out.lock`; a later
/// one leaves what a run does that is stopped there. A key that has signed stays, as `out.old` beside
/// `out.pub.old`, and standard error tells of it. Faults in order: `NoName`; `Folder`; `InTheWay`;
/// `Lock`, where another process uses the key or its lock can't be had; `OldStands`; `Unwritten`.
/// `NoMemory` can come at any time, and so can `Folder`.
pub fn keep_pair(
    rt: &HostRuntime,
    out: &str,
    key: &[u8],
    public: &[u8],
) -> Result<(), KeygenFault> {
    let alloc = rt.alloc();
    let Some((folder, name)) = folder_and_name(out) else {
        return Err(KeygenFault::NoName {
            path: String::from_str(alloc, out)?,
        });
    };
    let places = Places::of_run(alloc, out, process::id(rt.process()))?;
    let in_folder = |reason| KeygenFault::folder(alloc, folder, reason);
    let locked = lock_folder(rt, folder).map_err(in_folder)?;
    leave_others(rt, places.key.as_str())?;
    leave_others(rt, places.public.as_str())?;
    let _key_lock = lock_key(rt, places.key.as_str())?;
    remove_left(rt, folder, name).map_err(in_folder)?;
    let has_signed = has_signed(rt, places.key.as_str())?;
    if has_signed {
        leave_old(rt, places.old_key.as_str())?;
    }
    let prepared = write_new(rt, places.new_key.as_str(), key, PRIVATE)
        .and_then(|()| write_new(rt, places.new_public.as_str(), public, PUBLIC))
        .and_then(|()| clear_names(rt, &locked, &places, has_signed));
    if prepared.is_err() {
        let _ = fs::remove_file(rt, places.new_key.as_str());
        let _ = fs::remove_file(rt, places.new_public.as_str());
    }
    prepared?;
    take_names(rt, &locked, &places)
}

/// Whether what stands at a path is a key that has signed. One that can't be read is told as
/// `Unwritten`, since it isn't replaced.
fn has_signed(rt: &HostRuntime, path: &str) -> Result<bool, KeygenFault> {
    let alloc = rt.alloc();
    let bytes = match File::open(rt, path).and_then(|file| first_bytes(alloc, file, 65)) {
        Ok(bytes) => bytes,
        Err(reason) if reason.kind() == ErrorKind::NotFound => return Ok(false),
        Err(reason) => return Err(KeygenFault::unwritten(alloc, path, reason)),
    };
    match KeyFile::decode(bytes.as_slice()) {
        Ok(file) => Ok(0 < file.next),
        Err(_) => Ok(false),
    }
}

/// Refuses to replace an old key that was kept before.
fn leave_old(rt: &HostRuntime, path: &str) -> Result<(), KeygenFault> {
    match fs::symlink_metadata(rt, path) {
        Err(reason) if reason.kind() == ErrorKind::NotFound => Ok(()),
        Err(reason) => Err(KeygenFault::unwritten(rt.alloc(), path, reason)),
        Ok(_) => Err(KeygenFault::OldStands {
            path: String::from_str(rt.alloc(), path)?,
        }),
    }
}

/// Takes the names from the old pair: its public key goes, or both get names of their own where the
/// key has signed.
fn clear_names(
    rt: &HostRuntime,
    folder: &File,
    places: &Places,
    has_signed: bool,
) -> Result<(), KeygenFault> {
    if !has_signed {
        return remove_old(rt, places.public.as_str());
    }
    let (key, public) = (places.key.as_str(), places.public.as_str());
    let (old_key, old_public) = (places.old_key.as_str(), places.old_public.as_str());
    move_if_there(rt, public, old_public)?;
    let moved = folder
        .sync_all()
        .and_then(|()| fs::rename(rt, key, old_key));
    if let Err(reason) = moved {
        let _ = fs::rename(rt, old_public, public);
        return Err(KeygenFault::unwritten(rt.alloc(), key, reason));
    }
    let _ = eprintln!(rt; "sundr: the key {key} has signed, so it is kept as {old_key}");
    Ok(())
}

/// Gives a file another name, if it is there.
fn move_if_there(rt: &HostRuntime, from: &str, to: &str) -> Result<(), KeygenFault> {
    match fs::rename(rt, from, to) {
        Err(reason) if reason.kind() != ErrorKind::NotFound => {
            Err(KeygenFault::unwritten(rt.alloc(), from, reason))
        }
        _ => Ok(()),
    }
}

/// Splits a path before its last name. `None` where it ends in none.
pub(crate) fn folder_and_name(path: &str) -> Option<(&str, &str)> {
    match path.rsplit_once('/') {
        _ if path.ends_with('/') || path.is_empty() => None,
        None => Some((".", path)),
        Some(("", name)) => Some(("/", name)),
        Some((folder, name)) => Some((folder, name)),
    }
}

/// Opens a folder, and waits until no other key maker works in it. None does as long as the file
/// that is returned is open.
fn lock_folder(rt: &HostRuntime, path: &str) -> io::Result<File> {
    let folder = File::open(rt, path)?;
    if let Err(TryLockError::WouldBlock) = folder.try_lock() {
        let _ = eprintln!(rt;
            "sundr: another key is being made in {path}: this one comes after it"
        );
    }
    folder.lock()?;
    folder.sync_all()?;
    Ok(folder)
}

/// Refuses what stands at a path and is no plain file.
fn leave_others(rt: &HostRuntime, path: &str) -> Result<(), KeygenFault> {
    match fs::symlink_metadata(rt, path) {
        Ok(found) if found.is_file() => Ok(()),
        Ok(_) => Err(KeygenFault::InTheWay {
            path: String::from_str(rt.alloc(), path)?,
        }),
        Err(reason) if reason.kind() == ErrorKind::NotFound => Ok(()),
        Err(reason) => Err(KeygenFault::unwritten(rt.alloc(), path, reason)),
    }
}

/// Removes what key makers of that file left when they were stopped, in a folder that is locked.
fn remove_left(rt: &HostRuntime, folder: &str, name: &str) -> io::Result<()> {
    for entry in fs::read_dir(rt, folder)? {
        match entry {
            Ok(entry) if is_left(entry.file_name().as_bytes(), name.as_bytes()) => remove_entry(
                rt, &entry,
            )?,
            Ok(_) => {}
            Err(reason) if reason.kind() == ErrorKind::InvalidFilename => {}
            Err(reason) => return Err(reason),
        }
    }
    Ok(())
}

/// Removes a file that a key maker left, and tells of it.
fn remove_entry(rt: &HostRuntime, entry: &DirEntry<HostRuntime, Global>) -> io::Result<()> {
    let path = entry.path().as_str();
    fs::remove_file(rt, path)?;
    let _ = eprintln!(rt;
        "sundr: an earlier run was stopped before its pair stood: removed its {path}"
    );
    Ok(())
}

/// Whether a key maker of the file of that name writes under this one first.
fn is_left(entry: &[u8], name: &[u8]) -> bool
    ensures { result ≡ true → IsUnfinished name.now entry.now }
{
    let Some(rest) = behind(entry, name) else {
        return false;
    };
    match behind(rest, b".pub") {
        Some(part) => is_part(part),
        None => is_part(rest),
    }
}

/// Whether it is `.part.` and the number of a run.
fn is_part(text: &[u8]) -> bool
    ensures { result ≡ true → IsPart text.now }
{
    match behind(text, b".part.") {
        Some(run) => !run.is_empty() && are_digits(run),
        None => false,
    }
}

/// Whether each byte is a decimal digit.
fn are_digits(text: &[u8]) -> bool
    ensures { result ≡ list_all is_ascii_digit text.now }
{
    text.iter().all(|byte| byte.is_ascii_digit())
}

/// What stands in a text behind its front. `None` where it begins otherwise.
fn behind<'a>(text: &'a [u8], front: &[u8]) -> Option<&'a [u8]>
    ensures { IfSome result (λ rest. text.now ≡ front.now ++ rest.now) }
{
    if text.len() < front.len() {
        return None;
    }
    let (head, rest) = text.split_at(front.len());
    if head == front { Some(rest) } else { None }
}

/// Writes a file that isn't there yet, and waits until the disk has it.
pub(crate) fn write_new(
    rt: &HostRuntime,
    path: &str,
    bytes: &[u8],
    mode: u32,
) -> Result<(), KeygenFault> {
    let written = OpenOptions::new()
        .write(true)
        .create_new(true)
        .mode(mode)
        .open(rt, path)
        .and_then(|mut file| write_synced(&mut file, bytes));
    written.map_err(|reason| KeygenFault::unwritten(rt.alloc(), path, reason))
}

/// Writes these bytes, and waits until the disk has them.
fn write_synced<F: Write + OpenFile>(file: &mut F, bytes: &[u8]) -> io::Result<()>
    ensures { OnOk result (Appends (F.contents file.old) (F.contents file.new) bytes.now) }
{
    file.write_all(bytes)?;
    file.sync_all()
}

/// Removes a file, if it is there.
fn remove_old(rt: &HostRuntime, path: &str) -> Result<(), KeygenFault> {
    match fs::remove_file(rt, path) {
        Err(reason) if reason.kind() != ErrorKind::NotFound => {
            Err(KeygenFault::unwritten(rt.alloc(), path, reason))
        }
        _ => Ok(()),
    }
}

/// Gives the new pair its names, once the old public key is removed.
fn take_names(rt: &HostRuntime, folder: &File, places: &Places) -> Result<(), KeygenFault> {
    let alloc = rt.alloc();
    let (key, public) = (places.key.as_str(), places.public.as_str());
    folder
        .sync_all()
        .and_then(|()| fs::rename(rt, places.new_key.as_str(), key))
        .and_then(|()| folder.sync_all())
        .map_err(|reason| KeygenFault::unwritten(alloc, key, reason))?;
    fs::rename(rt, places.new_public.as_str(), public)
        .and_then(|()| folder.sync_all())
        .map_err(|reason| KeygenFault::unwritten(alloc, public, reason))
}
