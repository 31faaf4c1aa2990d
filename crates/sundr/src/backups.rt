// Copying what a running server has stored.
ghost use Rattle.std.specs.Prelude.{◌≡◌, ℕ, List, Some, IfOk, length, string_bytes};
ghost use Rattle.su_arguments.specs.Ranges.{IsUserCount};
ghost use Rattle.sundr.specs.Run.{PrintsUnlessFault, IsCopiedLine, copied_text};

use crate::faults::tell_fault;
use crate::printing::print;
use crate::rosters::read_roster;
use std::alloc::{AllocError, Global};
use std::io::Write;
use std::net::{Net, TcpListener, TcpStream};
use std::sync::Wait;
use su_desk_script::Status;
use su_host::Copied;

/// Copies what the server on a port has stored into a folder, for the users with the public keys in
/// these files, 1 to 64 of them, and prints how many records the copy has, and how many of them are
/// new. `Fault` where a key can't be read, and where `su_host` ends with a fault, which standard
/// error tells.
pub(crate) fn backup<T, W: Write>(
    rt: &HostRuntime,
    host: &T,
    port: u16,
    folder: &str,
    keys: &[String],
    writer: &mut W,
) -> Status
where
    T: Net<Listener = TcpListener, Stream = TcpStream> + Wait + Sync,
    requires { IsUserCount (length keys.now) }
    ensures { (before : List ℕ) → W.contents writer.old ≡ Some before
        → PrintsUnlessFault IsCopiedLine before (W.contents writer.new) result }
{
    let roster = match read_roster(rt, keys) {
        Ok(roster) => roster,
        Err(reason) => return tell_fault(rt, reason),
    };
    let Some(copied) = su_host::backup(rt, host, port, folder, roster) else {
        return Status::Fault;
    };
    match copied_line(rt.alloc(), copied) {
        Ok(text) => print(rt, text.as_str(), writer),
        Err(_) => tell_fault(rt, "out of memory"),
    }
}

/// Returns the line that tells of a copy.
fn copied_line(alloc: Global, copied: Copied) -> Result<String, AllocError>
    ensures { IfOk result (λ text. IsCopiedLine (string_bytes text)) }
{
    let text = line_of(alloc, copied)?;
    Ok(text)
}

/// Returns a copy's numbers, in a line.
fn line_of(alloc: Global, copied: Copied) -> Result<String, AllocError>
    ensures { IfOk result (λ text. string_bytes text ≡ copied_text copied.records copied.new) }
{
    let Copied { records, new } = copied;
    format!(in alloc; "ok {records} new {new}\n")
}
