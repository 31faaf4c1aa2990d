// An audit of a log.
ghost use Rattle.std.specs.Prelude.{◌≡◌, ℕ, List, Some, IfOk, OnOk};
ghost use Rattle.std.specs.Io.KnownBytes.{Appends};
ghost use Rattle.su_audit.specs.declared.audits.Ending.TheVariants.{Taken, Refused};
ghost use Rattle.su_audit.specs.Audit.{Prints, PrintsSome, Tells, taken_text, refused_text};

use crate::steps::{Step, next_step};
use std::alloc::{AllocError, Global};
use std::io::{Read, Write};
use std::thread::Threads;
use std::{fmt, io};
use su_block::MemoryBlocks;
use su_bytes::{Refusal, Roster, User};
use su_log_ahead::{Ahead, PresumedKeys};
use su_no_blocks::NoBlocks;
use su_view::{View, ViewRefusal};

/// How an audit ended.
#[derive(Debug, Drop)]
pub enum Ending {
    /// All commits of the log were taken.
    Taken,
    /// One was refused.
    Refused,
    /// Something failed.
    Failed(Fault),
}

/// What failed in an audit.
#[derive(Debug, Drop)]
pub enum Fault {
    /// Reading the log.
    Reading(io::Error),
    /// Writing what comes of it.
    Writing(io::Error),
    /// There is no view of these users.
    NoView(Refusal),
    NoMemory,
}

impl fmt::Display for Fault {
    fn fmt<W: fmt::Write>(&self, f: &mut fmt::Formatter<W>) -> fmt::Result {
        match self {
            Fault::Reading(error) => write!(f, "reading the log: {error}"),
            Fault::Writing(error) => write!(f, "writing to standard output: {error}"),
            Fault::NoView(refusal) => write!(f, "there is no view: {refusal}"),
            Fault::NoMemory => write!(f, "out of memory"),
        }
    }
}

/// Somebody who watches an audit.
pub trait Watcher {
    /// Tells that so many commits were taken so far.
    fn taken(&mut self, count: u64);

    /// Tells that no more will be, before anything is printed.
    fn ended(&mut self);
}

/// Takes the commits of a log in a view of user 0, one after the other, each with the item that
/// follows it. Prints `ok N`, where all N of them are taken; else `at N` and the refusal of the Nth,
/// where those before it are. It reads ahead, and checks the signatures of what it read on all
/// cores; each time that the view has taken all of this, the watcher is told.
pub fn run_audit<T: Threads + Sync, R: Read + Drop, W: Write, X: Watcher>(
    rt: &T,
    alloc: Global,
    reader: R,
    writer: &mut W,
    roster: Roster,
    watcher: &mut X,
) -> Ending
    ensures prints { (log before : List ℕ) → R.remaining reader ≡ Some log
        → W.contents writer.old ≡ Some before
        → Prints roster log before (W.contents writer.new) result }
    // What is printed in any case, also of a log of which nothing is known beforehand.
    ensures text { (before : List ℕ) → W.contents writer.old ≡ Some before
        → PrintsSome before (W.contents writer.new) result }
{
    let Ok(user) = User::new(0) else {
        return Ending::Failed(Fault::NoMemory);
    };
    let mut items = MemoryBlocks::new(alloc);
    let mut view = match View::new(alloc, roster, user, NoBlocks::new()) {
        Ok(view) => view,
        Err(refusal) => return Ending::Failed(Fault::NoView(refusal)),
    };
    let Ok(keys) = PresumedKeys::of_roster(alloc, view.roster()) else {
        return Ending::Failed(Fault::NoMemory);
    };
    let mut log = Ahead::new(alloc, reader, keys);
    for number in 1..u64::MAX {
        match next_step(rt, alloc, &mut log, &mut items, &mut view) {
            Step::Took => {
                if log.is_used_up() {
                    watcher.taken(number);
                }
            }
            Step::Ended => {
                watcher.ended();
                return tell_taken(alloc, writer, number - 1);
            }
            Step::Refused(refusal) => {
                watcher.ended();
                return tell_refused(alloc, writer, number, &refusal);
            }
            Step::Failed(fault) => {
                watcher.ended();
                return Ending::Failed(fault);
            }
        }
    }
    Ending::Failed(Fault::Reading(io::Error::other("it has no end")))
}

/// Prints that so many commits were taken, which are all.
fn tell_taken<W: Write>(alloc: Global, writer: &mut W, count: u64) -> Ending
    ensures { (before : List ℕ) → W.contents writer.old ≡ Some before
        → Tells Taken (taken_text count) before (W.contents writer.new) result }
{
    match taken(alloc, count) {
        Ok(text) => match print(writer, text.as_slice()) {
            Ok(()) => Ending::Taken,
            Err(error) => Ending::Failed(Fault::Writing(error)),
        },
        Err(_) => Ending::Failed(Fault::NoMemory),
    }
}

/// Prints which commit of a log is refused, and why.
pub fn tell_refused<W: Write>(
    alloc: Global,
    writer: &mut W,
    number: u64,
    refusal: &ViewRefusal,
) -> Ending
    ensures { (before : List ℕ) → W.contents writer.old ≡ Some before
        → Tells Refused (refused_text number refusal.now) before (W.contents writer.new) result }
{
    match refused(alloc, number, refusal) {
        Ok(text) => match print(writer, text.as_slice()) {
            Ok(()) => Ending::Refused,
            Err(error) => Ending::Failed(Fault::Writing(error)),
        },
        Err(_) => Ending::Failed(Fault::NoMemory),
    }
}

/// Writes a text, and flushes it.
fn print<W: Write>(writer: &mut W, text: &[u8]) -> io::Result<()>
    ensures { OnOk result (Appends (W.contents writer.old) (W.contents writer.new) text.now) }
{
    writer.write_all(text)?;
    writer.flush()
}

/// Writes `ok N`.
fn taken(alloc: Global, count: u64) -> Result<Vec<u8>, AllocError>
    ensures { IfOk result (λ text. text.items ≡ taken_text count) }
{
    let text = format!(in alloc; "ok {count}\n")?;
    Vec::from_slice(alloc, text.as_bytes())
}

/// Writes `at N`, and the refusal in a line of its own.
fn refused(alloc: Global, number: u64, refusal: &ViewRefusal) -> Result<Vec<u8>, AllocError>
    ensures { IfOk result (λ text. text.items ≡ refused_text number refusal.now) }
{
    let text = format!(in alloc; "at {number}\nno {refusal}\n")?;
    Vec::from_slice(alloc, text.as_bytes())
}
