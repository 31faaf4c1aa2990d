// A state folder that a process works in.
ghost use Rattle.std.specs.Prelude.{◌≤◌, IfOk};

use crate::appended::Appended;
use crate::creating::spelled_place;
use crate::faults::{FolderFault, Mistake};
use crate::files::{PRIVATE, folder_path, is_folder, read_file, replace};
use crate::locks::lock_folder;
use crate::members::{Me, is_key_path, read_me, spelled_me};
use crate::seen::SeenLines;
use crate::servers::Server;
use std::fs::{File, OpenOptions};
use std::io::BufReader;
use std::os::unix::fs::OpenOptionsExt;
use std::time::{SystemTime, UNIX_EPOCH};
use std::{fs, str};
use su_bytes::User;
use su_team::{Team, TextFault, read_team, time_of};

/// Most bytes of the text of a team.
const MOST_OF_TEAM: u64 = 64 << 10;

/// Most bytes of `me`, and of `where`.
const MOST_OF_LINES: u64 = 8 << 10;

/// Bytes of a time.
const TIME_LENGTH: u64 = 8;

/// How many commits are appended before the log is synced.
const COMMITS_BETWEEN_SYNCS: u64 = 32;

/// What stands in a state folder, until it is set anew.
#[derive(Drop)]
struct Standing {
    team: Team,
    me: Me,
    user: User,
    server: Server,
}

/// What grows in a state folder.
#[derive(Drop)]
struct Growing {
    log: Appended,
    times: Appended,
    seen: SeenLines,
}

/// A state folder, which no other process works in as long as this value lives.
#[derive(Drop)]
pub struct StateFolder<'a> {
    rt: &'a HostRuntime,
    directory: String,
    folder: String,
    _lock: File,
    standing: Standing,
    growing: Growing,
    count: u64,
    unsynced: u64,
}

impl<'a> StateFolder<'a> {
    /// Opens the state folder of a directory, and locks it. What it refuses is left as it is. Faults
    /// in order: `NoFolder`; `InUse`, where another process works there, or this one already;
    /// `Unwritten`, where the lock can't be had; and then of `team`, `me`, `where`, `log`, `times`
    /// and `seen`, in this order: `Unread`; `TooLong`; `Team`, or `Wrong`; and `Unwritten`, where `seen`
    /// is to be written anew. `NoMemory` can come at any time. Until `align` is called, there are as
    /// many commits as `times` has times.
    pub fn open(rt: &'a HostRuntime, directory: &str) -> Result<StateFolder<'a>, FolderFault> {
        let alloc = rt.alloc();
        let folder = folder_path(alloc, directory)?;
        if !is_folder(rt, folder.as_str()) {
            return Err(FolderFault::NoFolder {
                path: String::from_str(alloc, directory)?,
            });
        }
        let lock = lock_folder(rt, directory, folder.as_str())?;
        let directory = String::from_str(alloc, directory)?;
        let standing = standing_in(rt, folder.as_str())?;
        let growing = growing_in(rt, folder.as_str())?;
        Ok(StateFolder {
            rt,
            directory,
            folder,
            _lock: lock,
            standing,
            count: growing.times.length() / TIME_LENGTH,
            growing,
            unsynced: 0,
        })
    }

    /// Lends the team.
    pub fn team(&self) -> &Team {
        &self.standing.team
    }

    /// Returns the user who works here.
    pub fn user(&self) -> User {
        self.standing.user
    }

    /// Lends the name of the user who works here.
    pub fn user_name(&self) -> &[u8] {
        self.standing.me.name.as_slice()
    }

    /// Lends the path of the user's key file, as it stands in `me`.
    pub fn key_path(&self) -> &str {
        self.standing.me.key.as_str()
    }

    /// Lends where the server listens.
    pub fn server(&self) -> &Server {
        &self.standing.server
    }

    /// Lends the path of the directory that has the state folder, as it was opened.
    pub fn directory(&self) -> &str {
        self.directory.as_str()
    }

    /// Puts another path of the user's key file into `me`. `Wrong` where it is empty or has a line
    /// feed; `Unwritten`. After a fault this value has the old path.
    pub fn set_key(&mut self, path: &str) -> Result<(), FolderFault> {
        let alloc = self.rt.alloc();
        if !is_key_path(path) {
            let file = format!(in alloc; "{}/me", self.folder)?;
            return Err(FolderFault::wrong(alloc, file.as_str(), Mistake::Me));
        }
        let key = String::from_str(alloc, path)?;
        let text = spelled_me(alloc, &self.standing.me.name, path)?;
        replace(self.rt, self.folder.as_str(), "me", &text)?;
        self.standing.me.key = key;
        Ok(())
    }

    /// Puts another server into `where`. `Wrong` where no server is read of what this one is shown
    /// as; `Unwritten`. After a fault this value has the old server.
    pub fn set_server(&mut self, server: &Server) -> Result<(), FolderFault> {
        let alloc = self.rt.alloc();
        let text = spelled_place(alloc, self.folder.as_str(), server)?;
        let host = String::from_str(alloc, server.host.as_str())?;
        replace(self.rt, self.folder.as_str(), "where", text.as_bytes())?;
        self.standing.server = Server {
            host,
            port: server.port,
        };
        Ok(())
    }

    /// Opens the log to be read from its beginning. `Unread`; `NoMemory`.
    pub fn read_log(&self) -> Result<BufReader<File>, FolderFault> {
        let alloc = self.rt.alloc();
        let opened = File::open(self.rt, self.growing.log.path()).and_then(|file| BufReader::new(
            alloc, file,
        ));
        match opened {
            Ok(reader) => Ok(reader),
            Err(reason) => Err(FolderFault::unread(alloc, self.growing.log.path(), reason)),
        }
    }

    /// Makes an empty file that no name leads to, for what this process need not hold in memory: the disk
    /// has its room again when the process ends. `None` where that can't be.
    pub fn scratch(&self) -> Option<File> {
        let path = format!(in self.rt.alloc(); "{}/scratch", self.folder).ok()?;
        let file = OpenOptions::new()
            .read(true)
            .write(true)
            .create(true)
            .truncate(true)
            .mode(PRIVATE)
            .open(self.rt, path.as_str())
            .ok()?;
        fs::remove_file(self.rt, path.as_str()).ok()?;
        Some(file)
    }

    /// Returns how many bytes the log has.
    pub fn log_length(&self) -> u64 {
        self.growing.log.length()
    }

    /// Cuts the log to so many bytes, and waits until the disk has it. Returns how many it dropped.
    /// `Damaged` where these are more than `most`, or the log has fewer bytes than are to stay: then
    /// nothing is done. `Unwritten`.
    pub fn cut_log(&mut self, length: u64, most: u64) -> Result<u64, FolderFault>
        ensures { IfOk result (λ dropped. dropped ≤ most) }
    {
        let alloc = self.rt.alloc();
        let before = self.growing.log.length();
        if before < length || most < before - length {
            return Err(FolderFault::Damaged {
                path: String::from_str(alloc, self.growing.log.path())?,
                length: before,
                whole: length,
            });
        }
        if length < before {
            self.growing.log.resize(alloc, length)?;
            self.growing.log.sync(alloc)?;
        }
        Ok(before - length)
    }

    /// Says how many commits the log has: `times` is cut or filled up with zeros, so that it has a
    /// time for each of them. `Unwritten`.
    pub fn align(&mut self, count: u64) -> Result<(), FolderFault> {
        let length = count.saturating_mul(TIME_LENGTH);
        if self.growing.times.length() != length {
            self.growing.times.resize(self.rt.alloc(), length)?;
        }
        self.count = count;
        Ok(())
    }

    /// Appends the entries of so many commits to the log, by one plain write, and the present second
    /// for each of them to `times`. The log is synced once 32 commits were appended since it was
    /// synced last. `Unwritten`: where its path is that of `times`, the log may have the entries.
    /// `NoMemory`, and then nothing is appended.
    pub fn append(&mut self, entries: &[u8], count: u64) -> Result<(), FolderFault> {
        let alloc = self.rt.alloc();
        self.align(self.count)?;
        let second = self.present_second().to_be_bytes();
        let mut times = Vec::new(alloc);
        for _ in 0..count {
            times.extend_from_slice(&second)?;
        }
        self.growing.log.append(alloc, entries)?;
        self.count = self.count.saturating_add(count);
        self.unsynced = self.unsynced.saturating_add(count);
        self.growing.times.append(alloc, &times)?;
        if self.unsynced < COMMITS_BETWEEN_SYNCS {
            return Ok(());
        }
        self.sync_log()
    }

    /// Waits until the disk has the log, `times` and `seen`. `Unwritten`.
    pub fn sync(&mut self) -> Result<(), FolderFault> {
        let alloc = self.rt.alloc();
        self.sync_log()?;
        self.growing.times.sync(alloc)?;
        self.growing.seen.sync(alloc)
    }

    /// Returns up to which commit the user has seen the file at a path. `None` where it wasn't seen.
    pub fn seen_at(&self, path: &[u8]) -> Option<u64> {
        self.growing.seen.number_of(path)
    }

    /// Notes that the user has seen the file at a path up to a commit, and appends the line that tells
    /// it to `seen`. `TooLong`, where `seen` has no room for it before it is written anew by the next
    /// start; `Unwritten`; `NoMemory`. After a fault it is noted nowhere, or in the file alone.
    pub fn note_seen(&mut self, number: u64, path: &[u8]) -> Result<(), FolderFault> {
        self.growing.seen.note(self.rt.alloc(), number, path)
    }

    /// Returns the second in which the commit with that number, from 1, was taken. `None` where there
    /// is no such commit, or it isn't known or can't be read.
    pub fn time_of(&self, number: u64) -> Option<u64> {
        if number < 1 || self.count < number {
            return None;
        }
        let place = (number - 1).checked_mul(TIME_LENGTH)?;
        let bytes = self.growing.times.eight_at(place)?;
        match time_of(&bytes, 1) {
            Some(second) if 0 < second => Some(second),
            _ => None,
        }
    }

    /// Waits until the disk has the log.
    fn sync_log(&mut self) -> Result<(), FolderFault> {
        self.growing.log.sync(self.rt.alloc())?;
        self.unsynced = 0;
        Ok(())
    }

    /// Returns the present second, or 0 where the clock can't tell it.
    fn present_second(&self) -> u64 {
        let Ok(now) = SystemTime::now(self.rt) else {
            return 0;
        };
        match now.duration_since(UNIX_EPOCH) {
            Ok(since) => since.as_secs(),
            Err(_) => 0,
        }
    }
}

/// Reads what stands in a state folder.
fn standing_in(rt: &HostRuntime, folder: &str) -> Result<Standing, FolderFault> {
    let team = team_in(rt, folder)?;
    let me = me_in(rt, folder)?;
    let user = user_in(rt, folder, &team, &me)?;
    let server = server_in(rt, folder)?;
    Ok(Standing {
        team,
        me,
        user,
        server,
    })
}

/// Opens what grows in a state folder.
fn growing_in(rt: &HostRuntime, folder: &str) -> Result<Growing, FolderFault> {
    let log = Appended::open(rt, format!(in rt.alloc(); "{folder}/log")?)?;
    let times = Appended::open(rt, format!(in rt.alloc(); "{folder}/times")?)?;
    let seen = SeenLines::open(rt, folder)?;
    Ok(Growing { log, times, seen })
}

/// Reads the team of a state folder.
fn team_in(rt: &HostRuntime, folder: &str) -> Result<Team, FolderFault> {
    let path = format!(in rt.alloc(); "{folder}/team")?;
    let text = read_file(rt, path.as_str(), MOST_OF_TEAM)?;
    match read_team(rt.alloc(), &text) {
        Ok(team) => Ok(team),
        Err(TextFault::NoMemory) => Err(FolderFault::NoMemory),
        Err(fault) => Err(FolderFault::Team { path, fault }),
    }
}

/// Reads who the user of a state folder is.
fn me_in(rt: &HostRuntime, folder: &str) -> Result<Me, FolderFault> {
    let path = format!(in rt.alloc(); "{folder}/me")?;
    let text = read_file(rt, path.as_str(), MOST_OF_LINES)?;
    match read_me(rt.alloc(), &text)? {
        Some(me) => Ok(me),
        None => Err(FolderFault::Wrong {
            path,
            mistake: Mistake::Me,
        }),
    }
}

/// Finds the user of a state folder in its team.
fn user_in(rt: &HostRuntime, folder: &str, team: &Team, me: &Me) -> Result<User, FolderFault> {
    match team.user_of(&me.name) {
        Some(user) => Ok(user),
        None => Err(FolderFault::Wrong {
            path: format!(in rt.alloc(); "{folder}/me")?,
            mistake: Mistake::NotInTeam,
        }),
    }
}

/// Reads where the server of a state folder listens.
fn server_in(rt: &HostRuntime, folder: &str) -> Result<Server, FolderFault> {
    let path = format!(in rt.alloc(); "{folder}/where")?;
    let text = read_file(rt, path.as_str(), MOST_OF_LINES)?;
    let server = match line_of(&text) {
        Some(line) => Server::read(rt.alloc(), line)?,
        None => None,
    };
    match server {
        Some(server) => Ok(server),
        None => Err(FolderFault::Wrong {
            path,
            mistake: Mistake::Server,
        }),
    }
}

/// Lends the text before the line feed that these bytes end with. `None` where they are none.
fn line_of(bytes: &[u8]) -> Option<&str> {
    match str::from_utf8(bytes) {
        Ok(text) => text.strip_suffix('\n'),
        Err(_) => None,
    }
}
