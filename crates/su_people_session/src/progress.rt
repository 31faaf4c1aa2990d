// How far a command is, on one line of standard error where that is a terminal.
use std::alloc::{AllocError, Global};
use std::io::IsTerminal;
use std::time::Instant;

/// How many files, and how many bytes these have.
#[derive(Clone, Copy, Debug)]
pub struct Amount {
    pub files: u64,
    pub bytes: u64,
}

impl Amount {
    /// Returns none.
    pub fn none() -> Amount {
        Amount { files: 0, bytes: 0 }
    }

    /// Counts one file more, of so many bytes.
    pub fn add(&mut self, bytes: u64) {
        self.files = self.files.saturating_add(1);
        self.bytes = self.bytes.saturating_add(bytes);
    }
}

/// How far a command is. It is told on one line of standard error where that is a terminal, and nowhere
/// else.
#[derive(Drop)]
pub struct Progress<'a> {
    rt: &'a HostRuntime,
    verb: &'static str,
    all: Amount,
    done: Amount,
    commits: u64,
    /// When it began; none where nothing is told.
    began: Option<Instant>,
}

impl<'a> Progress<'a> {
    /// Returns that of a command of which nothing is told.
    pub fn untold(rt: &'a HostRuntime) -> Progress<'a> {
        Progress {
            rt,
            verb: "",
            all: Amount::none(),
            done: Amount::none(),
            commits: 0,
            began: None,
        }
    }

    /// Begins that of a command, called by its verb, that has so much to do.
    pub fn new(rt: &'a HostRuntime, verb: &'static str, all: Amount) -> Progress<'a> {
        let began = if rt.stderr().is_terminal() {
            Instant::now(rt).ok()
        } else {
            None
        };
        Progress {
            rt,
            verb,
            all,
            done: Amount::none(),
            commits: 0,
            began,
        }
    }

    /// Tells that one more file, of so many bytes, is done.
    pub fn file_done(&mut self, bytes: u64) {
        self.done.add(bytes);
        self.tell();
    }

    /// Tells that so many commits more are made.
    pub fn committed(&mut self, count: u64) {
        self.commits = self.commits.saturating_add(count);
        self.tell();
    }

    /// Writes the line anew.
    fn tell(&self) {
        let Some(began) = &self.began else {
            return;
        };
        let seconds = match began.elapsed(self.rt) {
            Ok(time) => time.as_secs(),
            Err(_) => 0,
        };
        if let Ok(line) = self.line_at(self.rt.alloc(), seconds) {
            let _ = eprint!(self.rt; "\r\x1b[K{line}");
        }
    }

    /// Returns the line once so many seconds have gone by.
    fn line_at(&self, alloc: Global, seconds: u64) -> Result<String, AllocError> {
        let verb = self.verb;
        let (files, all_files) = (self.done.files, self.all.files);
        let done = megabytes(alloc, self.done.bytes)?;
        let all = megabytes(alloc, self.all.bytes)?;
        let commits = match self.commits {
            0 => String::new(alloc),
            count => format!(in alloc; "  {}", counted(alloc, count, "commit")?)?,
        };
        let left = match self.seconds_left(seconds) {
            Some(left) => format!(in alloc; "  {left} s left")?,
            None => String::new(alloc),
        };
        format!(in alloc; "{verb}  {files}/{all_files} files  {done}/{all} MB{commits}{left}")
    }

    /// Returns how many seconds are left where what is left takes as long as what is done, which took so
    /// many; none where no byte is done.
    fn seconds_left(&self, seconds: u64) -> Option<u64> {
        let left = self.all.bytes.saturating_sub(self.done.bytes);
        seconds.saturating_mul(left).checked_div(self.done.bytes)
    }

    /// Clears the line, before something else is told.
    pub fn clear(&self) {
        if self.began.is_some() {
            let _ = eprint!(self.rt; "\r\x1b[K");
        }
    }
}

/// Returns so many bytes in MB, with one digit behind the point.
fn megabytes(alloc: Global, bytes: u64) -> Result<String, AllocError> {
    let whole = bytes / 1_000_000;
    let tenths = bytes / 100_000 % 10;
    format!(in alloc; "{whole}.{tenths}")
}

/// Returns a number with the word for what it counts: `1 file`, `2 files`.
pub fn counted(alloc: Global, count: u64, word: &str) -> Result<String, AllocError> {
    match count {
        1 => format!(in alloc; "1 {word}"),
        _ => format!(in alloc; "{count} {word}s"),
    }
}
