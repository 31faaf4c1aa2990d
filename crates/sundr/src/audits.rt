// Auditing a log.
ghost use Rattle.std.specs.Prelude.{◌≡◌, ℕ, List, Some, length};
ghost use Rattle.su_arguments.specs.Ranges.{IsUserCount};
ghost use Rattle.sundr.specs.Run.{PrintsUnlessFault, IsTakenLine};

use crate::faults::tell_fault;
use crate::rosters::read_roster;
use std::fs::File;
use std::io::{BufReader, ErrorKind, IsTerminal, Write};
use std::thread::Threads;
use su_audit::{Ending, Fault, Watcher, run_audit};
use su_desk_script::Status;

/// Audits the log in a file, of users with the public keys in these files, 1 to 64 of them. A
/// refused log is a fault of the input.
pub(crate) fn audit<T: Threads + Sync, W: Write>(
    rt: &HostRuntime,
    threads: &T,
    log: &str,
    keys: &[String],
    writer: &mut W,
) -> Status
    requires { IsUserCount (length keys.now) }
    ensures { (before : List ℕ) → W.contents writer.old ≡ Some before
        → PrintsUnlessFault IsTakenLine before (W.contents writer.new) result }
{
    let alloc = rt.alloc();
    let roster = match read_roster(rt, keys) {
        Ok(roster) => roster,
        Err(reason) => return tell_fault(rt, reason),
    };
    let reader = match File::open(rt, log).and_then(|file| BufReader::new(alloc, file)) {
        Ok(reader) => reader,
        Err(reason) => return tell_fault(rt, format_args!("reading {log}: {reason}")),
    };
    let mut progress = Progress::new(rt);
    match run_audit(threads, alloc, reader, writer, roster, &mut progress) {
        Ending::Taken => Status::Finished,
        Ending::Refused => Status::Fault,
        Ending::Failed(reason) => tell_ending(rt, log, &reason),
    }
}

/// Tells on standard error what failed in the audit of a log; nothing where nobody reads what it
/// prints.
fn tell_ending(rt: &HostRuntime, log: &str, reason: &Fault) -> Status
    ensures { result ≡ Status.Fault }
{
    match reason {
        Fault::Reading(reason) => tell_fault(rt, format_args!("reading {log}: {reason}")),
        Fault::Writing(error) if error.kind() == ErrorKind::BrokenPipe => Status::Fault,
        reason => tell_fault(rt, reason),
    }
}

/// Shows on standard error, where that is a terminal, how many commits were taken so far.
#[derive(Drop)]
struct Progress<'a> {
    rt: &'a HostRuntime,
    is_shown: bool,
    is_clear: bool,
}

impl<'a> Progress<'a> {
    fn new(rt: &'a HostRuntime) -> Progress<'a> {
        Progress {
            rt,
            is_shown: rt.stderr().is_terminal(),
            is_clear: true,
        }
    }
}

impl Watcher for Progress<'_> {
    fn taken(&mut self, count: u64) {
        if self.is_shown {
            let _ = eprint!(self.rt; "\r{count} commits");
            self.is_clear = false;
        }
    }

    /// Clears the line.
    fn ended(&mut self) {
        if !self.is_clear {
            let _ = eprint!(self.rt; "\r\x1b[K");
            self.is_clear = true;
        }
    }
}
