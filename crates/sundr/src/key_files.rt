// The key files of a client: that of the key with which it signs, and those of the next ones.
ghost use Rattle.std.specs.Prelude.{IfErr};
ghost use Rattle.sundr.specs.Key.{IsOfKeyFile};

use crate::client_faults::ClientFault;
use crate::faults::tell_fault;
use std::alloc::{AllocError, Global};
use std::str;
use std::thread::Threads;
use su_arguments::ClientArgs;
use su_bytes::Refusal;
use su_kept_key::{KeptKey, KeptKeyFault, signer_of};
use su_keygen::{make_next_key, next_key_path};
use su_lms::{Params, PublicKey, Signer};
use su_view::ViewRefusal;

/// Opens the key file at a path, one write of which serves so many signatures, and makes the signer of
/// its key.
pub(crate) fn open_signer<'a, T: Threads + Sync>(
    rt: &'a HostRuntime,
    host: &T,
    path: &str,
    leaves_ahead: u32,
) -> Result<Signer<KeptKey<'a>>, ClientFault> {
    let kept = KeptKey::open(rt, path, leaves_ahead)?;
    Ok(signer_of(host, rt.alloc(), kept)?)
}

/// Opens the file in which a client that worked before made the key that its user has now.
pub(crate) fn open_present<'a, T: Threads + Sync>(
    rt: &'a HostRuntime,
    host: &T,
    args: &ClientArgs,
    present: &PublicKey,
) -> Result<Signer<KeptKey<'a>>, ClientFault> {
    match present_path(rt.alloc(), args, present)? {
        Some(path) => match open_signer(rt, host, path.as_str(), args.leaves_ahead) {
            Ok(signer) => Ok(signer),
            Err(fault) => {
                tell_changed(rt, args, path.as_str());
                Err(fault)
            }
        },
        None => Err(old_key(rt.alloc(), args, present)),
    }
}

/// Tells that the user has another key by now, which is in that file.
fn tell_changed(rt: &HostRuntime, args: &ClientArgs, path: &str) {
    let (old, user) = (args.key.as_str(), args.user);
    let _ = eprintln!(rt; "sundr: {old} is not the key of user {user} now: that is in {path}");
}

/// Returns the path of the file in which a client would have made that key, if it makes any.
pub(crate) fn present_path(
    alloc: Global,
    args: &ClientArgs,
    present: &PublicKey,
) -> Result<Option<String>, AllocError> {
    match &args.next_key {
        Some(prefix) => Ok(Some(next_key_path(alloc, prefix.as_str(), &id_of(present))?)),
        None => Ok(None),
    }
}

/// Returns I of a public key (RFC 8554, Section 5.3).
fn id_of(key: &PublicKey) -> [u8; 16] {
    let mut id = [0; 16];
    id.copy_from_slice(&key.as_bytes()[8..24]);
    id
}

/// Returns that the key of the command line is no longer the user's, which that one is now.
fn old_key(alloc: Global, args: &ClientArgs, present: &PublicKey) -> ClientFault {
    let path: Result<_, _> = String::from_str(alloc, args.key.as_str());
    let digits: Result<_, _> = hex::encode(alloc, present.as_bytes());
    match (path, digits) {
        (Ok(path), Ok(present)) => ClientFault::OldKey {
            path,
            user: args.user,
            present,
        },
        _ => ClientFault::NoMemory,
    }
}

/// What a client knows of its key files while it works. It tells on standard error when few leaves are
/// left, and of the keys that it goes on to.
#[derive(Drop)]
pub(crate) struct KeyFiles<'a> {
    rt: &'a HostRuntime,
    leaves_ahead: u32,
    prefix: Option<&'a str>,
    /// The file of a key that was made, and that the client hasn't gone on to.
    made: Option<String>,
    /// Whether no next key is to be made any more: it was told that few leaves are left, or that no
    /// next key can be made or opened.
    has_told: bool,
}

impl<'a> KeyFiles<'a> {
    /// Makes those of a client with these arguments.
    pub(crate) fn new(rt: &'a HostRuntime, args: &'a ClientArgs) -> KeyFiles<'a> {
        KeyFiles {
            rt,
            leaves_ahead: args.leaves_ahead,
            prefix: args.next_key.as_ref().map(|prefix| prefix.as_str()),
            made: None,
            has_told: false,
        }
    }

    /// Opens the key file of that name, and tells on standard error why it can't be used.
    pub(crate) fn open<T: Threads + Sync>(
        &self,
        host: &T,
        file: &[u8],
    ) -> Result<Signer<KeptKey<'a>>, Refusal>
        ensures { IfErr result IsOfKeyFile }
    {
        let Ok(path) = str::from_utf8(file) else {
            return Err(Refusal::KeyFileFault);
        };
        match KeptKey::open(self.rt, path, self.leaves_ahead) {
            Ok(kept) => signer_of(host, self.rt.alloc(), kept),
            Err(fault) => {
                let refusal = refusal_of(&fault);
                tell_fault(self.rt, fault);
                Err(refusal)
            }
        }
    }

    /// Names the file of the next key, where few leaves of the present one are left, and next keys are
    /// made: of one of the same kind as the present one. Tells how many leaves are left where none are
    /// made.
    pub(crate) fn next(&mut self, left: u32, params: Params) -> Option<Vec<u8>> {
        if left == 0 || params.last_few() < left || self.has_told {
            return None;
        }
        let Some(prefix) = self.prefix else {
            self.tell_left(left);
            return None;
        };
        Some(self.made_path(prefix, params)?.into_bytes())
    }

    /// Tells how many leaves are left, once.
    fn tell_left(&mut self, left: u32) {
        self.has_told = true;
        let _ = eprintln!(self.rt;
            "sundr: the key can sign {left} times more: `rekey FILE` goes on to another key, and with \
--next-key the client does so by itself"
        );
    }

    /// Returns the path of a key that was made for this, and makes one where there is none.
    fn made_path(&mut self, prefix: &str, params: Params) -> Option<String> {
        let alloc = self.rt.alloc();
        if let Some(path) = &self.made {
            let path: Result<_, _> = String::from_str(alloc, path.as_str());
            return path.ok();
        }
        match make_next_key(self.rt, prefix, params) {
            Ok(path) => {
                let kept: Result<_, _> = String::from_str(alloc, path.as_str());
                self.made = kept.ok();
                Some(path)
            }
            Err(fault) => {
                self.has_told = true;
                tell_fault(self.rt, fault);
                None
            }
        }
    }

    /// Tells what came of going on to the key in the file of that name. Where the file can't be used,
    /// no next key is made any more.
    pub(crate) fn tell(&mut self, file: &[u8], rekeyed: &Result<u64, ViewRefusal>) {
        let path = str::from_utf8(file).unwrap_or("?");
        let _ = match rekeyed {
            Ok(number) => {
                self.made = None;
                eprintln!(self.rt; "sundr: commit {number}: from now on the key is {path}")
            }
            Err(refusal) => {
                if is_of_key_file(refusal) {
                    self.has_told = true;
                }
                eprintln!(self.rt; "sundr: going on to the key {path}: {refusal}")
            }
        };
    }
}

/// Whether the file of a key is why it was refused.
fn is_of_key_file(refusal: &ViewRefusal) -> bool {
    matches!(
        refusal,
        ViewRefusal::Plain(Refusal::KeyFileFault) | ViewRefusal::Plain(Refusal::BadKey)
    )
}

/// Returns the refusal of a key file that can't be used.
fn refusal_of(fault: &KeptKeyFault) -> Refusal
    ensures { IsOfKeyFile result }
{
    match fault {
        KeptKeyFault::NoKey { .. } => Refusal::BadKey,
        KeptKeyFault::NoMemory => Refusal::NoMemory,
        _ => Refusal::KeyFileFault,
    }
}
