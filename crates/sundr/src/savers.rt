// Saving a log to a file.
ghost use Rattle.std.specs.Prelude.{◌↔◌, IsTrue, OnOk};
ghost use Rattle.std.specs.Io.KnownBytes.{Appends};
ghost use Rattle.sundr.specs.Saved.{BeginsLog};

use std::fs::{File, OpenFile, OpenOptions};
use std::io::{ErrorKind, Read, Write};
use std::{fs, io, process, str};
use su_version::format_of;

/// How the name of a key's lock ends, which is an empty file.
const LOCK: &str = ".lock";

/// Writes a log to a file of this process beside FILE, and puts that in the place of FILE once the
/// disk has it. After an error the old file stands there, or the new one. What is there and is no log
/// is left as it is: `AlreadyExists`. `InvalidInput` where the name is no text.
pub(crate) fn save_log(rt: &HostRuntime, file: &[u8], log: &[u8]) -> io::Result<()> {
    let Ok(path) = str::from_utf8(file) else {
        return Err(io::Error::new(ErrorKind::InvalidInput, "the name is no text"));
    };
    spare_others(rt, path)?;
    let run = process::id(rt.process());
    let new = format!(in rt.alloc(); "{path}.part.{run}")?;
    let mut file = OpenOptions::new()
        .write(true)
        .create_new(true)
        .open(rt, new.as_str())?;
    let taken = write_synced(&mut file, log).and_then(|()| fs::rename(rt, new.as_str(), path));
    if taken.is_err() {
        let _ = fs::remove_file(rt, new.as_str());
    }
    taken?;
    File::open(rt, folder_of(path))?.sync_all()
}

/// Refuses what is there at a path and isn't a plain file with a log: a key, or anything else that
/// somebody still wants.
fn spare_others(rt: &HostRuntime, path: &str) -> io::Result<()> {
    let is_log = match fs::symlink_metadata(rt, path) {
        Ok(found) => found.is_file() && !path.ends_with(LOCK) && holds_log(rt, path)?,
        Err(reason) if reason.kind() == ErrorKind::NotFound => true,
        Err(reason) => return Err(reason),
    };
    if !is_log {
        let why = "it is there and is no log, so it is left as it is";
        return Err(io::Error::new(ErrorKind::AlreadyExists, why));
    }
    Ok(())
}

/// Whether a file holds what a log may begin with.
fn holds_log(rt: &HostRuntime, path: &str) -> io::Result<bool> {
    let mut front = Vec::new(rt.alloc());
    File::open(rt, path)?.take(8).read_to_end(&mut front)?;
    Ok(begins_log(front.as_slice()))
}

/// Whether a log may begin with these bytes: with none, or with the number of bytes of a commit, and
/// the first bytes of that.
fn begins_log(front: &[u8]) -> bool
    ensures { IsTrue result ↔ BeginsLog front.now }
{
    front.is_empty() || (front.len() == 8 && format_of(&front[4..]).is_some())
}

/// Returns the folder of a path.
fn folder_of(path: &str) -> &str {
    match path.rsplit_once('/') {
        None => ".",
        Some(("", _)) => "/",
        Some((folder, _)) => folder,
    }
}

/// Writes these bytes, and waits until the disk has them.
fn write_synced<F: Write + OpenFile>(file: &mut F, bytes: &[u8]) -> io::Result<()>
    ensures { OnOk result (Appends (F.contents file.old) (F.contents file.new) bytes.now) }
{
    file.write_all(bytes)?;
    file.sync_all()
}
