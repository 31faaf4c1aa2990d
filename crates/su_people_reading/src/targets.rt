// Where the bytes of a file go that is got.
ghost use Rattle.std.specs.Prelude.{◌≡◌, ◌++◌, ◌∷◌, [], ℕ, List, cond, IfOk, OnOk};

use http_server::Log;
use std::alloc::Global;
use su_bytes::NEWEST_FORMAT;
use su_local::{LocalKind, kind_of, read_whole, write_whole};
use su_op::largest_file;
use su_people_session::Trouble;

/// What is handed the bytes of a file.
pub trait Target {
    // What it was handed, in order: each time all the bytes of a file.
    ghost handed: { Self → List (List ℕ) };

    // What it said that it has, likewise.
    ghost found: { Self → List (List ℕ) };

    /// Tells whether it has just these bytes already. Refuses what may not be written over.
    fn has(&mut self, alloc: Global, bytes: &Vec<u8>) -> Result<bool, Trouble>
        ensures same { handed self.new ≡ handed self.old }
        ensures found { IfOk result (λ has. found self.new
            ≡ found self.old ++ cond has (bytes.now.items ∷ []) []) };

    /// Hands it the bytes of a file, with which it replaces what it had.
    fn hand(&mut self, alloc: Global, bytes: &Vec<u8>) -> Result<(), Trouble>
        ensures handed { handed self.new ≡ handed self.old ++ bytes.now.items ∷ [] }
        ensures same { found self.new ≡ found self.old };
}

/// A path of a local file, which is replaced where it has other bytes, if that is asked for.
#[derive(Drop)]
pub(crate) struct LocalFile<'a> {
    rt: &'a HostRuntime,
    path: &'a str,
    over: bool,
    handed: Log<Vec<u8>, ()>,
    found: Log<Vec<u8>, ()>,
}

impl<'a> LocalFile<'a> {
    /// Makes the target of a path; where `over`, a file there is written over.
    pub(crate) fn new(rt: &'a HostRuntime, path: &'a str, over: bool) -> LocalFile<'a>
        ensures handed { result.handed.items ≡ [] }
        ensures found { result.found.items ≡ [] }
    {
        LocalFile {
            rt,
            path,
            over,
            handed: Log::new(),
            found: Log::new(),
        }
    }
}

impl Target for LocalFile<'_> {
    ghost use Rattle.su_people_reading.specs.Getting.{files_in};

    ghost handed = { λ f. files_in f.handed.items };

    ghost found = { λ f. files_in f.found.items };

    /// Tells whether a file stands at the path that has just these bytes. Where it has others, which
    /// aren't to be written over, or something else stands there, that is told.
    fn has(&mut self, alloc: Global, bytes: &Vec<u8>) -> Result<bool, Trouble> {
        let has = is_at(self.rt, alloc, self.path, self.over, bytes)?;
        if has {
            self.found = self.found.and(bytes, &());
        }
        Ok(has)
    }

    /// Puts a file with these bytes in the place of what stands at the path. After an error the old
    /// one stands there, or the new one.
    fn hand(&mut self, alloc: Global, bytes: &Vec<u8>) -> Result<(), Trouble> {
        self.handed = self.handed.and(bytes, &());
        match write_whole(self.rt, self.path, bytes.as_slice()) {
            Ok(()) => Ok(()),
            Err(reason) => Err(Trouble::local(self.path, alloc, reason)),
        }
    }
}

/// Tells whether a file stands at a path that has just these bytes. Where it has others, which aren't
/// to be written over, or something else stands there, that is told.
fn is_at(
    rt: &HostRuntime,
    alloc: Global,
    path: &str,
    over: bool,
    bytes: &Vec<u8>,
) -> Result<bool, Trouble> {
    match kind_of(rt, path) {
        Ok(None) => return Ok(false),
        Ok(Some(LocalKind::File { .. })) => {}
        Ok(Some(_)) => return Err(Trouble::told(format!(in alloc; "{path}: it is no file"))),
        Err(reason) => return Err(Trouble::local(path, alloc, reason)),
    }
    match read_whole(rt, path, largest_file(NEWEST_FORMAT)) {
        Ok(Some(held)) if held.as_slice() == bytes.as_slice() => Ok(true),
        Ok(_) if over => Ok(false),
        Ok(_) => Err(Trouble::told(format!(in alloc;
            "{path}: it differs from what is in the store: put it first, get that under another \
name, or get --over"
        ))),
        Err(reason) => Err(Trouble::local(path, alloc, reason)),
    }
}
