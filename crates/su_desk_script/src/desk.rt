// Running a script on a desk.
ghost use Rattle.std.specs.Prelude.{◌≡◌, ◌≤◌, ◌⊎◌, ℕ, List, None, Some, IfOk, OnOk, MatchOption, replicate};
ghost use Rattle.std.specs.Io.KnownBytes.{Appends};
ghost use Rattle.su_desk.specs.Trial.{nothing_ready};
ghost use Rattle.su_desk_lines.specs.Desk.{line_said};
ghost use Rattle.su_desk_script.specs.Step.{EndsBadly, LineSteps, Steps};
ghost use Rattle.su_desk_script.specs.Transcript.{LineSays, Prints, PrintsFrom, new_desk, status_code, status_of};
ghost use Rattle.su_desk_lines.specs.Unread.{unread};

use crate::loaded::LoadedDesk;
use crate::session::{Session, bad, refused};
use std::alloc::{AllocError, Global};
use std::io::{Read, Write};
use std::{fmt, io};
use su_bytes::{Format, KEY_LENGTH, Refusal, Roster};
use su_desk_lines::{LineReader, Mistake, NextLine, check_ranges, mistake_in, parse_line};

/// The status that a program ends with.
#[derive(Clone, Copy, Debug, PartialEq, Eq)]
pub enum Status {
    /// The input was carried out, refusals among the answers: 0.
    Finished,
    /// A fault of a file, a link or memory: 1.
    Fault,
    /// A line that is no command, or a wrong command line: 2.
    BadLine,
}

impl Status {
    /// Returns the exit status: 0, 1 or 2.
    pub fn code(self) -> u8
        ensures { result ≡ status_code self }
    {
        match self {
            Status::Finished => 0,
            Status::Fault => 1,
            Status::BadLine => 2,
        }
    }
}

/// How a run ended, and why.
#[derive(Debug, Drop)]
pub enum Ending {
    /// All lines were carried out.
    Finished,
    /// The line with that number, from 1, is no command; its first mistake, where there was memory
    /// to look for it.
    BadLine {
        number: u64,
        mistake: Option<Mistake>,
    },
    /// Something failed.
    Failed(Fault),
}

impl Ending {
    /// Returns the status of a program whose run ended so.
    pub fn status(&self) -> Status
        ensures { result ≡ status_of self.now }
    {
        match self {
            Ending::Finished => Status::Finished,
            Ending::BadLine { .. } => Status::BadLine,
            Ending::Failed(_) => Status::Fault,
        }
    }
}

/// What failed in a run.
#[derive(Debug, Drop)]
pub enum Fault {
    /// Reading the script.
    Reading(io::Error),
    /// Writing an answer.
    Writing(io::Error),
    NoMemory,
}

impl fmt::Display for Fault {
    fn fmt<W: fmt::Write>(&self, f: &mut fmt::Formatter<W>) -> fmt::Result {
        match self {
            Fault::Reading(error) => write!(f, "reading the script: {error}"),
            Fault::Writing(error) => write!(f, "writing an answer: {error}"),
            Fault::NoMemory => write!(f, "out of memory"),
        }
    }
}

/// Whether a run goes on after a line.
#[derive(Drop)]
enum Step {
    GoesOn,
    Ends(Ending),
}

/// Runs a script on a new desk of `users` users, 1 to 64, and prints what it answers. Changes are
/// made in that format.
pub fn run_desk<R: Read + Drop, W: Write>(
    alloc: Global,
    reader: R,
    writer: &mut W,
    users: u8,
    format: Format,
) -> Ending
    requires { (1 ≤ users) × (users ≤ 64) }
    ensures { (input before : List ℕ) →
        R.remaining reader ≡ Some input → W.contents writer.old ≡ Some before →
        Prints users format input before (W.contents writer.new) (status_of result) }
{
    let Ok(desk) = new_desk(alloc, users) else {
        return Ending::Failed(Fault::NoMemory);
    };
    run(
        alloc,
        Session::new(desk, format),
        LineReader::new(alloc, reader),
        writer,
    )
}

/// Makes a desk of that many users, whose keys are zero bytes.
fn new_desk(alloc: Global, users: u8) -> Result<LoadedDesk, Refusal>
    requires { (1 ≤ users) × (users ≤ 64) }
    ensures { IfOk result (λ desk. desk ≡ nothing_ready (new_desk users)) }
{
    let keys = zero_keys(alloc, users)?;
    LoadedDesk::new(alloc, Roster::of_keys(alloc, keys.as_slice())?)
}

/// Makes `count` keys of zero bytes.
fn zero_keys(alloc: Global, count: u8) -> Result<Vec<[u8; KEY_LENGTH]>, AllocError>
    ensures { IfOk result (λ keys. keys.items ≡ replicate count (replicate KEY_LENGTH 0)) }
{
    let mut keys = Vec::with_capacity(alloc, usize::from(count))?;
    for _number in 0..count {
        keys.push([0; KEY_LENGTH])?;
    }
    Ok(keys)
}

/// Carries out the lines of a reader, and prints their answers.
fn run<R: Read + Drop, W: Write>(
    alloc: Global,
    mut session: Session,
    mut lines: LineReader<R>,
    writer: &mut W,
) -> Ending
    ensures { (input before : List ℕ) →
        unread R.remaining lines ≡ Some input → W.contents writer.old ≡ Some before →
        PrintsFrom session 1 input before (W.contents writer.new) (status_of result) }
{
    for number in 1..u64::MAX {
        if let Step::Ends(ending) = next_step(alloc, &mut session, &mut lines, writer, number) {
            return ending;
        }
    }
    Ending::Failed(Fault::Reading(io::Error::other("it has too many lines")))
}

/// Carries out the next line, which has that number, and prints its answer.
fn next_step<R: Read + Drop, W: Write>(
    alloc: Global,
    session: &mut Session,
    lines: &mut LineReader<R>,
    writer: &mut W,
    number: u64,
) -> Step
    ensures { (input before : List ℕ) →
        unread R.remaining lines.old ≡ Some input → W.contents writer.old ≡ Some before →
        Steps session.old number input before
        session.new (unread R.remaining lines.new) (W.contents writer.new) result }
{
    match lines.next_line() {
        Ok(NextLine::Line(line)) => match line.as_slice() {
            [] => Step::GoesOn,
            line => line_step(alloc, session, line, writer, number),
        },
        Ok(NextLine::TooLong) => {
            Step::Ends(end_badly(alloc, writer, number, Some(Mistake::LongLine)))
        }
        Ok(NextLine::End) => Step::Ends(Ending::Finished),
        Err(error) => Step::Ends(Ending::Failed(Fault::Reading(error))),
    }
}

/// Carries out a line that is not empty, and prints its answer.
fn line_step<W: Write>(
    alloc: Global,
    session: &mut Session,
    line: &[u8],
    writer: &mut W,
    number: u64,
) -> Step
    ensures { (before : List ℕ) → W.contents writer.old ≡ Some before →
        LineSteps session.old number line.now before session.new (W.contents writer.new) result }
{
    match answer_line(alloc, session, line) {
        Ok(Some(text)) => match print(writer, text.as_slice()) {
            Ok(()) => Step::GoesOn,
            Err(error) => Step::Ends(Ending::Failed(Fault::Writing(error))),
        },
        Ok(None) => {
            let mistake = mistake_in(alloc, line).ok();
            Step::Ends(end_badly(alloc, writer, number, mistake))
        }
        Err(_) => Step::Ends(Ending::Failed(Fault::NoMemory)),
    }
}

/// Carries out a line that is not empty. Returns what it prints; `None` where it is no command.
fn answer_line(
    alloc: Global,
    session: &mut Session,
    line: &[u8],
) -> Result<Option<Vec<u8>>, AllocError>
    ensures said { IfOk result (λ answer. MatchOption answer (line_said line.now ≡ None)
        (λ text. LineSays session.old line.now text.items session.new)) }
    ensures kept { IfOk result (λ answer. MatchOption answer (session.new ≡ session.old)
        (λ text. Unit {0})) }
{
    let command = match parse_line(alloc, line) {
        Ok(Some(said)) => check_ranges(alloc, session.roster(), said),
        Ok(None) => return Ok(None),
        Err(_) => Err(Refusal::NoMemory),
    };
    let text = match command {
        Ok(command) => session.carry_out(alloc, command)?,
        Err(refusal) => refused(alloc, refusal)?,
    };
    Ok(Some(text))
}

/// Prints that the line is bad, which ends the run.
fn end_badly<W: Write>(
    alloc: Global,
    writer: &mut W,
    number: u64,
    mistake: Option<Mistake>,
) -> Ending
    ensures { (before : List ℕ) → W.contents writer.old ≡ Some before →
        EndsBadly number before (W.contents writer.new) (status_of result) }
{
    let Ok(text) = bad(alloc, number) else {
        return Ending::Failed(Fault::NoMemory);
    };
    match print(writer, text.as_slice()) {
        Ok(()) => Ending::BadLine { number, mistake },
        Err(error) => Ending::Failed(Fault::Writing(error)),
    }
}

/// Writes a text, and flushes it.
fn print<W: Write>(writer: &mut W, text: &[u8]) -> io::Result<()>
    ensures { OnOk result (Appends (W.contents writer.old) (W.contents writer.new) text.now) }
{
    writer.write_all(text)?;
    writer.flush()
}
