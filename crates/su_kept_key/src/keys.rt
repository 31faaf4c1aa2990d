// A key in its file. The kit says nothing of what a file holds, so the contracts speak of the value:
// its key, the leaf that signs next, and the one that is stored, which is what the file says.
// `KeptKey::of_reader` says that they are those of the bytes that are read, `KeptKey::spelled` that
// the bytes to be written are those of the leaf that is stored then. That a file has them is left to
// `files::replace`, which answers once the disk has it.
ghost use Rattle.std.specs.Prelude.{◌≡◌, ◌<◌, ◌≤◌, ◌^◌, ◌↔◌, ℕ, List, Some, IfOk, IfErr, OnOk, IsSome};
ghost use Rattle.std.specs.Prelude.{max, string_bytes, take};
ghost use Rattle.su_lms.specs.PrivateKey.{leaf_count};
ghost use Rattle.su_lms.specs.ParameterSets.{height_of};
ghost use Rattle.su_lms.specs.KeyFile.{private_key_of, key_file_bytes};
ghost use Rattle.su_kept_key.specs.Kept.{Suffices};
ghost use Rattle.su_kept_key.specs.Reading.{RefusesNoKey};
ghost use Rattle.su_bytes.specs.declared.refusals.Refusal.TheVariants.{NoMemory};

use crate::faults::KeptKeyFault;
use crate::files::{folder_of, read_key, replace, require_plain};
use crate::locks::lock_key;
use std::alloc::Global;
use std::cell::Cell;
use std::fs::File;
use std::io;
use std::io::{ErrorKind, Read};
use std::marker::Model;
use std::thread::Threads;
use su_bytes::Refusal;
use su_lms::{KeyFile, KeyStore, Signer};

/// What a key file is to say, and the bytes that are written.
struct NextFile {
    file: KeyFile,
    bytes: [u8; 64],
}

/// A key in its file, which no other process uses as long as this value lives. What the file says is
/// the leaf that is stored: the one that signs next, or a later one, so that the file needn't be
/// written for each signature. A process that opens it signs with that leaf and those behind it.
#[derive(Drop)]
pub struct KeptKey<'a> {
    rt: &'a HostRuntime,
    path: String,
    new_path: String,
    folder: File,
    _lock: File,
    file: KeyFile,
    stored: u32,
    ahead: u32,
    is_put_back: Cell<bool>,
    failures: u64,
    fault: Option<io::Error>,
}

impl<'a> Model for KeptKey<'a> {
    ghost use Rattle.std.specs.Prelude.{◌≡◌, is_some, nat_lt, string_bytes};
    ghost use Rattle.su_lms.specs.KeyFile.{private_key_of};
    ghost use Rattle.su_lms.specs.PrivateKey.{leaf_count};
    ghost use Rattle.su_kept_key.specs.Kept.{Kept, Suffices};

    ghost Value = { Kept };

    ghost view = { λ s. record {
      path = string_bytes s.path;
      key = private_key_of s.file;
      next = s.file.next;
      stored = s.stored;
      ahead = s.ahead;
      failures = s.failures;
    } };

    ghost invariant = { λ s. (is_some s.fault ≡ nat_lt 0 s.failures)
        × Suffices (private_key_of s.file) s.ahead s.file.next s.stored };
}

impl<'a> KeptKey<'a> {
    /// Opens the key file at a path, and locks the key. One write of the file is to serve `ahead`
    /// signatures, and one where that is 0, or where the last few leaves sign. Faults in order: `NoName`; `Unread` where nothing stands
    /// there; `InTheWay`; `ManyNames`; `Lock`, as `lock_key` answers; `Unread`; `NoKey`; `Folder`.
    /// `NoMemory` can come at any time. Beside the file `PATH.lock` is made and stays.
    pub fn open(rt: &'a HostRuntime, path: &str, ahead: u32) -> Result<KeptKey<'a>, KeptKeyFault>
        ensures path { IfOk result (λ kept. kept.path ≡ path.now) }
        ensures stored { IfOk result (λ kept. kept.stored ≡ kept.next) }
        ensures ahead { IfOk result (λ kept. kept.ahead ≡ max ahead 1) }
        ensures failures { IfOk result (λ kept. kept.failures ≡ 0) }
    {
        let alloc = rt.alloc();
        let Some(folder) = folder_of(path) else {
            return Err(KeptKeyFault::NoName {
                path: String::from_str(alloc, path)?,
            });
        };
        require_plain(rt, path)?;
        let lock = lock_key(rt, path)?;
        // Who had the lock before may have signed: only now the next leaf stays what it is.
        match File::open(rt, path) {
            Ok(file) => KeptKey::of_reader(rt, lock, path, folder, file, ahead),
            Err(reason) => Err(KeptKeyFault::unread(alloc, path, reason)),
        }
    }

    /// Makes the value of the key at a path in a folder, whose file a reader brings: its key and
    /// its next leaf are those of the first 65 bytes, or of all where there are fewer. One write of
    /// the file is to serve `ahead` signatures, and one where that is 0. Faults in order: `Unread`;
    /// `NoKey`; `Folder`. `NoMemory` can come at any time.
    fn of_reader<F: Read + Drop>(
        rt: &'a HostRuntime,
        lock: File,
        path: &str,
        folder: &str,
        reader: F,
        ahead: u32,
    ) -> Result<KeptKey<'a>, KeptKeyFault>
        ensures path { IfOk result (λ kept. kept.path ≡ path.now) }
        ensures stored { IfOk result (λ kept. kept.stored ≡ kept.next) }
        ensures ahead { IfOk result (λ kept. kept.ahead ≡ max ahead 1) }
        ensures failures { IfOk result (λ kept. kept.failures ≡ 0) }
        ensures file { IfOk result (λ kept. (input : List ℕ) → F.remaining reader ≡ Some input
            → take 65 input ≡ key_file_bytes kept.key kept.next) }
        ensures refused { IfErr result (λ fault. (input : List ℕ) → F.remaining reader ≡ Some input
            → RefusesNoKey (take 65 input) fault) }
    {
        let alloc = rt.alloc();
        let file = read_key(alloc, path, reader)?;
        let folder = match File::open(rt, folder) {
            Ok(folder) => folder,
            Err(reason) => return Err(KeptKeyFault::folder(alloc, folder, reason)),
        };
        Ok(KeptKey {
            rt,
            path: String::from_str(alloc, path)?,
            new_path: format!(in alloc; "{path}.next")?,
            folder,
            _lock: lock,
            file,
            stored: file.next,
            ahead: ahead.max(1),
            is_put_back: Cell::new(false),
            failures: 0,
            fault: None,
        })
    }

    /// Returns the path of its file.
    pub fn path(&self) -> &str
        ensures { result.now ≡ self.now.path }
    {
        self.path.as_str()
    }

    /// Returns the parameter set, I, SEED and the leaf that signs next.
    pub fn file(&self) -> &KeyFile
        ensures key { private_key_of result.now ≡ self.now.key }
        ensures next { result.now.next ≡ self.now.next }
    {
        &self.file
    }

    /// Returns why the newest call of `store_next` that failed did so. `None` where none has failed.
    pub fn fault(&self) -> Option<&io::Error>
        ensures { IsSome result ↔ (0 < self.now.failures) }
    {
        self.fault.as_ref()
    }

    /// Puts the leaf that signs next in the file, where that says a later one, so that none is lost
    /// that hasn't signed, and returns what the file says, once the disk has it. It is the end of
    /// signing: from then on `store_next` fails. After an error the file says either leaf.
    // A view lends its key's store and doesn't give it back, so this takes it as it is lent.
    pub fn put_back(&self) -> io::Result<u32>
        ensures { IfOk result (λ stored. stored ≡ self.now.next) }
    {
        self.is_put_back.set(true);
        let next = self.file.next;
        if self.stored == next {
            return Ok(next);
        }
        let file = self.write(next)?;
        Ok(file.next)
    }

    /// Sees to it that the file says this leaf or a later one, and returns which, once the disk has
    /// it. Nothing is written where the file does already. `InvalidInput` where it is no later leaf
    /// than the one that signs next, or above the number of leaves, or where the next leaf was put
    /// back.
    fn store_ahead(&self, q: u32) -> io::Result<u32>
        ensures later { OnOk result (self.now.next < q) }
        ensures in_tree { OnOk result (q ≤ leaf_count self.now.key) }
        ensures suffices { IfOk result (Suffices self.now.key self.now.ahead q) }
        ensures no_lower { IfOk result (λ stored. self.now.stored ≤ stored) }
        ensures untouched { IfOk result (λ stored. q ≤ self.now.stored
            → stored ≡ self.now.stored) }
    {
        let params = self.file.params;
        let leaves = params.leaf_count();
        if self.is_put_back.get() || q <= self.file.next || leaves < q {
            return Err(io::Error::new(ErrorKind::InvalidInput, "no later leaf of the key"));
        }
        if q <= self.stored {
            return Ok(self.stored);
        }
        let last = q.saturating_add(self.ahead - 1);
        let most = q.max(leaves - params.last_few());
        let file = self.write(last.min(most))?;
        Ok(file.next)
    }

    /// Writes the key file with that leaf, and returns what it says, once the disk has it.
    /// `InvalidInput` where it is above the number of leaves.
    fn write(&self, leaf: u32) -> io::Result<KeyFile>
        ensures key { IfOk result (λ file. private_key_of file ≡ self.now.key) }
        ensures next { IfOk result (λ file. file.next ≡ leaf) }
    {
        let NextFile { file, bytes } = self.spelled(leaf)?;
        let (path, new_path) = (self.path.as_str(), self.new_path.as_str());
        replace(self.rt, &self.folder, path, new_path, &bytes)?;
        Ok(file)
    }

    /// Returns the key file with that leaf, and its bytes. `InvalidInput` where it is above the
    /// number of leaves.
    fn spelled(&self, leaf: u32) -> io::Result<NextFile>
        ensures key { IfOk result (λ made. private_key_of made.file ≡ self.now.key) }
        ensures next { IfOk result (λ made. made.file.next ≡ leaf) }
        ensures bytes { IfOk result (λ made. made.bytes ≡ key_file_bytes self.now.key leaf) }
    {
        let KeyFile {
            params,
            id,
            seed,
            ..
        } = self.file;
        if params.leaf_count() < leaf {
            return Err(io::Error::new(ErrorKind::InvalidInput, "no leaf of the key"));
        }
        let file = KeyFile {
            params,
            id,
            seed,
            next: leaf,
        };
        let bytes = file.encode();
        Ok(NextFile { file, bytes })
    }
}

impl<'a> KeyStore for KeptKey<'a> {
    ghost use Rattle.su_kept_key.specs.Kept.{Advances, CountsFailure};

    ghost stores = { Advances };

    ghost misses = { λ before _ after. CountsFailure before after };

    ghost failure_count = { λ kept. kept.failures };

    /// Has that leaf sign next, once the file says it or a later one: where it says an earlier one, a
    /// key file with the last leaf of so many takes its place. Says whether the disk has it. After a
    /// `false` either file stands, whole.
    fn store_next(&mut self, q: u32) -> bool {
        match self.store_ahead(q) {
            Ok(stored) => {
                self.file.next = q;
                self.stored = stored;
                true
            }
            Err(reason) => {
                self.failures = self.failures.saturating_add(1);
                self.fault = Some(reason);
                false
            }
        }
    }

    fn failures(&self) -> u64 {
        self.failures
    }
}

/// Makes the signer of a kept key, on all cores. Only `NoMemory` can come.
pub fn signer_of<'a, T: Threads + Sync>(
    host: &T,
    alloc: Global,
    kept: KeptKey<'a>,
) -> Result<Signer<KeptKey<'a>>, Refusal>
    ensures key { IfOk result (λ signer. signer.key ≡ kept.entry.key) }
    ensures next { IfOk result (λ signer. signer.next ≡ kept.entry.next) }
    ensures store { IfOk result (λ signer. signer.store ≡ kept.entry) }
    ensures refused { IfErr result (λ e. e ≡ NoMemory) }
{
    let KeyFile {
        params,
        id,
        seed,
        next,
    } = *kept.file();
    Signer::resume_in_threads(host, alloc, params, id, seed, next, kept)
}
