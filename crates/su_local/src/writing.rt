// How a local file is written.
ghost use Rattle.std.specs.Prelude.{OnOk};
ghost use Rattle.std.specs.Io.KnownBytes.{Appends};

use std::fs::{OpenFile, OpenOptions};
use std::io::{ErrorKind, Write};
use std::{fs, io, process};

/// Puts a file with these bytes in the place of what stands at a path: it is written beside, under a
/// name of this process, synced, and then renamed. After an error the old one stands there, or the new
/// one.
pub fn write_whole(rt: &HostRuntime, path: &str, bytes: &[u8]) -> io::Result<()> {
    let run = process::id(rt.process());
    let beside = format!(in rt.alloc(); "{path}.part.{run}")?;
    let mut file = OpenOptions::new()
        .write(true)
        .create_new(true)
        .open(rt, beside.as_str())?;
    let taken = write_synced(&mut file, bytes).and_then(|()| fs::rename(rt, beside.as_str(), path));
    if taken.is_err() {
        let _ = fs::remove_file(rt, beside.as_str());
    }
    taken
}

/// Writes these bytes, and waits until the disk has them.
fn write_synced<F: Write + OpenFile>(file: &mut F, bytes: &[u8]) -> io::Result<()>
    ensures { OnOk result (Appends (F.contents file.old) (F.contents file.new) bytes.now) }
{
    file.write_all(bytes)?;
    file.sync_all()
}

/// Makes a folder at a path, unless one stands there.
pub fn make_folder(rt: &HostRuntime, path: &str) -> io::Result<()> {
    match fs::create_dir(rt, path) {
        Err(reason) if reason.kind() == ErrorKind::AlreadyExists => {
            let found = fs::metadata(rt, path)?;
            if found.is_dir() { Ok(()) } else { Err(reason) }
        }
        made => made,
    }
}
