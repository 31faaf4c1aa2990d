//! `sundr init`, `put`, `get` and others keep a folder of a store for people.
//! `sundr desk` reads a script on standard input, a command a line, and prints an answer for each.
//! `sundr keygen` makes a key for signatures.
//! `sundr audit` reads a log of commits, and tells whether all of them are taken.
//! `sundr serve` serves a shared folder to the clients of its users.
//! `sundr client` runs a script against a server.
//! `sundr backup` copies what a running server has stored.
//! The other subcommands are for people, with files and folders.
#![tactic(auto)]

ghost use Rattle.std.specs.Prelude.{◌≡◌, ℕ, List, Some, IfOk, ◌≤◌, length, string_bytes};
ghost use Rattle.su_desk_script.specs.Transcript.{Prints};
ghost use Rattle.su_arguments.specs.Line.{HasGoodNumbers};
ghost use Rattle.sundr.specs.Key.{IsPublicLine};
ghost use Rattle.sundr.specs.Run.{CarriesOut, PrintsUnlessFault, refused_status};

mod audits;
mod backups;
mod client_faults;
mod clients;
mod endings;
mod faults;
mod key_files;
mod printing;
mod programs;
mod rosters;
mod savers;
mod sentences;
mod servers;

use audits::audit;
use backups::backup;
use clients::client;
use endings::Ended;
use faults::tell_fault;
use printing::print;
use servers::serve;
use std::io::{ErrorKind, IsTerminal, Read, Write};
use std::net::{Net, TcpListener, TcpStream};
use std::process::ExitCode;
use std::sync::Wait;
use std::thread::Threads;
use std::{env, io};
use su_arguments::{Line, LineFault, line_of};
use su_bytes::Format;
use su_client_lines::CLIENT_WORDS;
use su_desk_script::{DESK_WORDS, Ending, Fault, Status, run_desk};
use su_keygen::{KeygenFault, make_key};
use su_lms::Params;
use su_people::run;

fn main(rt: HostRuntime) -> ExitCode {
    let ended = match command_line(&rt) {
        Ok(line) => {
            let reader = Prompting::new(&rt, rt.reader());
            carry_out(&rt, &rt, line, reader, &mut io::writer(&rt))
        }
        Err(fault) => Ended::Program(refuse(&rt, &fault)),
    };
    ExitCode::from(ended.code())
}

/// Reads what the arguments ask for. Arguments that are no text are a wrong command line.
fn command_line(rt: &HostRuntime) -> Result<Line, LineFault>
    ensures { IfOk result HasGoodNumbers }
{
    let alloc = rt.alloc();
    let arguments = match env::args(rt) {
        Ok(arguments) => arguments,
        Err(reason) if reason.kind() == ErrorKind::InvalidData => {
            return Err(LineFault::Usage(String::from_str(alloc, "error: an argument is no text")?));
        }
        Err(_) => return Err(LineFault::NoMemory),
    };
    let texts: Vec<String> = arguments.collect(alloc)?;
    let words: Vec<&str> = texts.iter().map(|text| text.as_str()).collect(alloc)?;
    line_of(alloc, DESK_WORDS, CLIENT_WORDS, words.as_slice())
}

/// Carries out a command line with this input and output. A fault is told on standard error.
fn carry_out<T, R: Read + Drop, W: Write>(
    rt: &HostRuntime,
    host: &T,
    line: Line,
    reader: R,
    writer: &mut W,
) -> Ended
where
    T: Net<Listener = TcpListener, Stream = TcpStream> + Threads + Wait + Sync,
    requires { HasGoodNumbers line }
    ensures { (input before : List ℕ)
        → R.remaining reader ≡ Some input → W.contents writer.old ≡ Some before
        → CarriesOut line input before (W.contents writer.new) result }
{
    match line {
        Line::People(line) => Ended::People(run(rt, host, &line, writer)),
        Line::Desk { users, format } => {
            Ended::Program(run_script(rt, users, format, reader, writer))
        }
        Line::Keygen {
            entropy,
            out,
            params,
        } => Ended::Program(new_key(
            rt,
            host,
            entropy.as_ref().map(|path| path.as_str()),
            out.as_str(),
            params,
            writer,
        )),
        Line::Audit { log, keys } => {
            Ended::Program(audit(rt, host, log.as_str(), keys.as_slice(), writer))
        }
        Line::Serve(args) => Ended::Program(serve(rt, host, &args)),
        Line::Client(args) => Ended::Program(client(rt, host, &args, reader, writer)),
        Line::Backup { port, to, keys } => Ended::Program(backup(
            rt,
            host,
            port,
            to.as_str(),
            keys.as_slice(),
            writer,
        )),
        Line::Text(text) => Ended::Program(print(rt, text.as_str(), writer)),
    }
}

/// Runs a script on a new desk of `users` users, 1 to 64, whose changes are made in that format.
fn run_script<R: Read + Drop, W: Write>(
    rt: &HostRuntime,
    users: u8,
    format: Format,
    reader: R,
    writer: &mut W,
) -> Status
    requires { (1 ≤ users) × (users ≤ 64) }
    ensures { (input before : List ℕ)
        → R.remaining reader ≡ Some input → W.contents writer.old ≡ Some before
        → Prints users format input before (W.contents writer.new) result }
{
    let ending = run_desk(rt.alloc(), reader, writer, users, format);
    tell_ending(rt, &ending);
    ending.status()
}

/// Tells on standard error why a run ended before its input did; nothing where nobody reads the
/// answers any more.
fn tell_ending(rt: &HostRuntime, ending: &Ending) {
    let _ = match ending {
        Ending::BadLine {
            number,
            mistake: Some(mistake),
        } => eprintln!(rt; "sundr: line {number}: {mistake}"),
        Ending::Failed(Fault::Writing(error)) if error.kind() == ErrorKind::BrokenPipe => Ok(()),
        Ending::Failed(fault) => eprintln!(rt; "sundr: {fault}"),
        _ => Ok(()),
    };
}

/// Makes a key, and prints its public key.
fn new_key<T: Threads + Sync, W: Write>(
    rt: &HostRuntime,
    host: &T,
    entropy: Option<&str>,
    out: &str,
    params: Params,
    writer: &mut W,
) -> Status
    ensures { (before : List ℕ) → W.contents writer.old ≡ Some before
        → PrintsUnlessFault (IsPublicLine params) before (W.contents writer.new) result }
{
    match public_line(rt, host, entropy, out, params) {
        Ok(text) => print(rt, text.as_str(), writer),
        Err(fault) => tell_fault(rt, fault),
    }
}

/// Makes a key, and returns its public key as a line of 112 hex digits.
fn public_line<T: Threads + Sync>(
    rt: &HostRuntime,
    host: &T,
    entropy: Option<&str>,
    out: &str,
    params: Params,
) -> Result<String, KeygenFault>
    ensures { IfOk result (λ text. IsPublicLine params (string_bytes text)) }
{
    let alloc = rt.alloc();
    let public = make_key(rt, host, entropy, out, params)?;
    let digits = hex::encode(alloc, public.as_bytes())?;
    Ok(format!(in alloc; "{digits}\n")?)
}

/// Tells on standard error why there is nothing to do.
fn refuse(rt: &HostRuntime, fault: &LineFault) -> Status
    ensures { result ≡ refused_status fault.now }
{
    match fault {
        LineFault::Usage(text) => {
            let _ = eprintln!(rt; "{}", text.as_str().trim_end());
            Status::BadLine
        }
        LineFault::NoMemory => {
            let _ = eprintln!(rt; "sundr: {fault}");
            Status::Fault
        }
    }
}

/// A reader that asks for what it reads, where somebody types it.
#[derive(Drop)]
pub struct Prompting<'a, R> {
    reader: R,
    rt: &'a HostRuntime,
    is_typed: bool,
}

impl<'a, R> Prompting<'a, R> {
    /// Wraps what reads standard input. It prompts on standard error where standard input and
    /// output are both a terminal.
    pub fn new(rt: &'a HostRuntime, reader: R) -> Prompting<'a, R>
        ensures { result.reader ≡ reader }
    {
        let is_typed = rt.stdin().is_terminal() && rt.stdout().is_terminal();
        Prompting {
            reader,
            rt,
            is_typed,
        }
    }
}

impl<R: Read> Read for Prompting<'_, R> {
    ghost remaining = { λ s. R.remaining s.reader };

    fn read(&mut self, buf: &mut [u8]) -> io::Result<usize> {
        if self.is_typed {
            let _ = eprint!(self.rt; "> ");
        }
        let read = self.reader.read(buf);
        if self.is_typed && matches!(read, Ok(0)) {
            let _ = eprintln!(self.rt; "");
        }
        read
    }
}
