// What stands around the client of people.
ghost use Rattle.std.specs.Prelude.{◌≤◌, length, OnOk};

use crate::links::{Link, Source, connect};
use crate::opening::items_behind;
use crate::progress::Progress;
use crate::sentences::tell;
use crate::troubles::Trouble;
use std::io::BufReader;
use std::net::{Net, TcpListener, TcpStream};
use std::thread::Threads;
use std::time::Duration;
use std::{io, thread};
use su_block::BlockSource;
use su_client_work::{Surroundings, log_behind};
use su_folder::StateFolder;
use su_kept_key::{KeptKey, signer_of};
use su_keygen::make_next_key;
use su_lms::{Params, Signer};
use su_person::Person;
use su_view::{View, ViewRefusal};

/// How many leaves a write of the key file is ahead at most.
pub(crate) const LEAVES_AHEAD: u32 = 16;

/// What stands around the client of people: its state folder, in which it keeps what is taken, and
/// how it connects and goes on to next keys. It tells on standard error what becomes of that.
#[derive(Drop)]
pub struct Helper<'a, T> {
    /// The program's runtime.
    pub rt: &'a HostRuntime,
    /// What opens its connections and starts its threads.
    pub host: &'a T,
    /// Its state folder.
    pub folder: StateFolder<'a>,
    /// How far its command is.
    pub progress: Progress<'a>,
    /// How many commits the log of the state folder has.
    kept: u64,
    /// How many bytes may have come into the tree in memory since that was left.
    pub(crate) grown: u64,
    /// Whether no next key is made any more, as that has failed.
    has_failed: bool,
}

impl<'a, T> Helper<'a, T> {
    /// Makes it of a state folder, whose log has so many commits; so many bytes may have come into the
    /// tree in memory since that was left.
    pub(crate) fn new(
        rt: &'a HostRuntime,
        host: &'a T,
        folder: StateFolder<'a>,
        kept: u64,
        grown: u64,
    ) -> Helper<'a, T> {
        Helper {
            rt,
            host,
            folder,
            progress: Progress::untold(rt),
            kept,
            grown,
            has_failed: false,
        }
    }

    /// Tells a line on standard error.
    pub fn warn(&self, text: &str) {
        self.progress.clear();
        let _ = eprintln!(self.rt; "sundr: {text}");
    }

    /// Tells on standard error why something isn't done, as `tell` does.
    pub fn tell(&self, trouble: &Trouble) {
        self.progress.clear();
        tell(self.rt, Some(self.folder.team()), trouble);
    }

    /// Syncs the state folder at the end of a command that only looks. What of it fails is told.
    pub fn end(&mut self) {
        if let Err(fault) = self.folder.sync() {
            let _ = eprintln!(self.rt; "sundr: {fault}");
        }
    }

    /// Tells whether the log of the state folder has so many commits.
    pub(crate) fn has_kept(&self, count: u64) -> bool {
        count <= self.kept
    }

    /// Appends what a view holds behind the log of the state folder to that.
    fn append<S: BlockSource + Drop>(&mut self, view: &View<S>) -> Result<(), Trouble>
        ensures { OnOk result (length view.now.holding.held ≤ self.new.kept) }
    {
        let (count, _) = view.head();
        if count <= self.kept {
            return Ok(());
        }
        let log = match log_behind(self.rt.alloc(), view, self.kept) {
            Ok(log) => log,
            Err(refusal) => return Err(Trouble::from(refusal)),
        };
        self.folder.append(log.as_slice(), count - self.kept)?;
        self.progress.committed(count - self.kept);
        self.grown = self.grown.saturating_add(items_behind(view, self.kept));
        self.kept = count;
        Ok(())
    }
}

impl<'a, T> Helper<'a, T> {
    /// Makes a key of these parameters in the state folder, and returns the path of its file.
    /// `NextKey` where it can't be made or stored; `NoMemory`.
    pub fn made_path(&self, params: Params) -> Result<String, Trouble> {
        let directory = self.folder.directory();
        let prefix = format!(in self.rt.alloc(); "{directory}/.sundr/key")?;
        match make_next_key(self.rt, prefix.as_str(), params) {
            Ok(path) => Ok(path),
            Err(fault) => Err(Trouble::NextKey(fault)),
        }
    }

    /// Opens the key in a file, and makes its signer in threads of a host. `Key` where the file
    /// can't be used; `NoMemory`.
    pub fn signer_at<H: Threads + Sync>(
        &self,
        host: &H,
        path: &str,
    ) -> Result<Signer<KeptKey<'a>>, Trouble> {
        let kept = KeptKey::open(self.rt, path, LEAVES_AHEAD)?;
        match signer_of(host, self.rt.alloc(), kept) {
            Ok(signer) => Ok(signer),
            Err(refusal) => Err(Trouble::from(refusal)),
        }
    }
}

impl<T> Surroundings<BufReader<TcpStream>, TcpStream> for Helper<'_, T>
where
    T: Net<Listener = TcpListener, Stream = TcpStream> + Threads + Sync,
{
    // Of what a connection brings no contract can speak.
    ghost may_connect = { λ _. Unit {0} };

    type Host = T;

    fn host(&self) -> &T {
        self.host
    }

    fn pause(&mut self, time: Duration) {
        thread::sleep(self.rt, time);
    }

    fn connect(&mut self) -> io::Result<Link> {
        let server = self.folder.server();
        connect(
            self.rt.alloc(),
            self.host,
            server.host.as_str(),
            server.port,
        )
    }
}

impl<'a, T> Person<BufReader<TcpStream>, TcpStream, KeptKey<'a>> for Helper<'a, T>
where
    T: Net<Listener = TcpListener, Stream = TcpStream> + Threads + Sync,
{
    ghost kept = { λ helper. helper.kept };

    fn keep(&mut self, view: &View<Source>) -> bool {
        match self.append(view) {
            Ok(()) => true,
            Err(trouble) => {
                let _ = eprintln!(self.rt; "sundr: {trouble}");
                false
            }
        }
    }

    fn next_key(&mut self, left: u32, store: &KeptKey<'a>) -> Option<String> {
        let params = store.file().params;
        if left == 0 || params.last_few() < left || self.has_failed {
            return None;
        }
        match self.made_path(params) {
            Ok(path) => Some(path),
            Err(trouble) => {
                self.has_failed = true;
                let _ = eprintln!(self.rt; "sundr: {left} leaves of your key are left: {trouble}");
                None
            }
        }
    }

    fn open_key<H: Threads + Sync>(&self, host: &H, file: &str) -> Option<Signer<KeptKey<'a>>> {
        match self.signer_at(host, file) {
            Ok(signer) => Some(signer),
            Err(trouble) => {
                let _ = eprintln!(self.rt; "sundr: {trouble}");
                None
            }
        }
    }

    fn tell_rekey(&mut self, rekeyed: &Result<u64, ViewRefusal>) {
        match rekeyed {
            Ok(number) => {
                let _ = eprintln!(self.rt;
                    "sundr: your key had few leaves left: commit {number} goes on to another one, \
which is in .sundr"
                );
            }
            Err(refusal) => {
                self.has_failed = true;
                let _ = eprintln!(self.rt; "sundr: going on to another key: {refusal}");
            }
        }
    }
}
