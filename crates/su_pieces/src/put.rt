// The commands that put a file's new contents at a path.
ghost use Rattle.std.specs.Prelude.{◌≡◌, ◌+◌, ◌<◌, ◌≤◌, ◌^◌, ◌++◌, [], map, length, None, Some, IfOk};
ghost use Rattle.std.specs.List.{All, AllZip};
ghost use Rattle.std.specs.Option.{option_copied};
ghost use Rattle.su_bytes.specs.declared.formats.TheConstants.{NEWEST_FORMAT};
ghost use Rattle.su_op.specs.Limits.{largest_file};
ghost use Rattle.su_pieces.specs.Put.{Does, Put, write_of};

use crate::blocks::within;
use crate::pieces::{Piece, differing};
use std::alloc::{AllocError, Global};
use su_draft::Command;

/// Returns the commands that put new contents at a path, each to be carried out after those before
/// it, where `old` are the contents of the file that stands there; nothing stands there where it is
/// `None`. There are none where the file has the new contents already.
pub fn put_commands(
    alloc: Global,
    path: &[u8],
    old: Option<&[u8]>,
    new: &[u8],
) -> Result<Vec<Command>, AllocError>
    requires { length new.now ≤ largest_file NEWEST_FORMAT }
    ensures puts { IfOk result (λ commands.
        Put path.now (option_copied old.entry) new.now commands.items) }
    ensures none { IfOk result (λ commands.
        option_copied old.entry ≡ Some new.now → commands.items ≡ []) }
{
    match old {
        None => created(alloc, path, new),
        Some(old) => changed(alloc, path, old, new),
    }
}

/// Returns the commands where nothing stands at the path.
fn created(alloc: Global, path: &[u8], new: &[u8]) -> Result<Vec<Command>, AllocError>
    requires { length new.now < 2 ^ 32 }
    ensures { IfOk result (λ commands. Put path.now None new.now commands.items) }
{
    let pieces = differing(alloc, &[], new)?;
    let mut commands = writes(alloc, path, new, pieces.as_slice())?;
    let create = Command::Create {
        path: Vec::from_slice(alloc, path)?,
    };
    commands.insert(0, create)?;
    Ok(commands)
}

/// Returns the commands where a file stands at the path.
fn changed(alloc: Global, path: &[u8], old: &[u8], new: &[u8]) -> Result<Vec<Command>, AllocError>
    requires { length new.now < 2 ^ 32 }
    ensures { IfOk result (λ commands. Put path.now (Some old.now) new.now commands.items) }
{
    let pieces = differing(alloc, old, new)?;
    let mut commands = writes(alloc, path, new, pieces.as_slice())?;
    if new.len() < old.len() {
        commands.push(Command::Truncate {
            path: Vec::from_slice(alloc, path)?,
            size: new.len() as u32,
        })?;
    }
    Ok(commands)
}

/// Returns a write of each piece.
fn writes(
    alloc: Global,
    path: &[u8],
    new: &[u8],
    pieces: &[Piece],
) -> Result<Vec<Command>, AllocError>
    requires small { length new.now < 2 ^ 32 }
    requires inside { All (λ p. p.off + p.len ≤ length new.now) pieces.now }
    ensures { IfOk result (λ commands.
        AllZip (Does path.now) (map (write_of new.now) pieces.now) commands.items) }
{
    let mut commands = Vec::new(alloc);
    for piece in pieces {
        commands.push(write(alloc, path, new, piece)?)?;
    }
    Ok(commands)
}

/// Returns the write of a piece.
fn write(alloc: Global, path: &[u8], new: &[u8], piece: &Piece) -> Result<Command, AllocError>
    requires small { length new.now < 2 ^ 32 }
    requires inside { piece.now.off + piece.now.len ≤ length new.now }
    ensures { IfOk result (λ command. Does path.now (write_of new.now piece.now) command) }
{
    let bytes = within(new, piece.off, piece.len);
    Ok(Command::Write {
        path: Vec::from_slice(alloc, path)?,
        off: piece.off as u32,
        bytes: Vec::from_slice(alloc, bytes)?,
    })
}
