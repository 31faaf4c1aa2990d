// Reading public keys.
ghost use Rattle.std.specs.Prelude.{◌≡◌, ℕ, List, Some, length, ⊤, IfOk, MatchOption, take};
ghost use Rattle.std.specs.List.{AllByRecursion};
ghost use Rattle.su_lms.specs.Signature.{IsPublicKey};

use std::alloc::{AllocError, Global};
use std::fs::File;
use std::io;
use std::io::Read;
use su_bytes::KEY_LENGTH;
use su_lms::PublicKey;
use thiserror::Error;

/// Why there are no keys: which file, and the reason.
#[derive(Debug, Drop, Error)]
pub enum KeyFault {
    /// The file can't be read.
    #[error("reading {path}: {reason}")]
    Unread { path: String, reason: io::Error },
    /// The file is no public key.
    #[error("{path} is no public key: 9 BadKey")]
    BadKey { path: String },
    /// Memory is refused.
    #[error("out of memory")]
    NoMemory,
}

impl From<AllocError> for KeyFault {
    fn from(_refused: AllocError) -> KeyFault {
        KeyFault::NoMemory
    }
}

/// Reads the public key in each of these files, in their order. Fails at the first one that can't
/// be read or holds none: a key has 56 bytes, and types that are known (RFC 8554, Section 5.3).
pub fn read_keys(rt: &HostRuntime, paths: &[String]) -> Result<Vec<[u8; KEY_LENGTH]>, KeyFault>
    ensures number { IfOk result (λ keys. length keys.items ≡ length paths.now) }
    ensures are_keys { IfOk result (λ keys. AllByRecursion IsPublicKey keys.items) }
{
    let mut keys = Vec::with_capacity(rt.alloc(), paths.len())?;
    for path in paths {
        let key = read_key(rt, path.as_str())?;
        if keys.push(key).is_err() {
            return Err(KeyFault::NoMemory);
        }
    }
    Ok(keys)
}

/// Reads the public key in a file.
fn read_key(rt: &HostRuntime, path: &str) -> Result<[u8; KEY_LENGTH], KeyFault>
    ensures { IfOk result IsPublicKey }
{
    let alloc = rt.alloc();
    match File::open(rt, path).and_then(|file| key_within(alloc, file)) {
        Ok(Some(key)) => Ok(key),
        Ok(None) => {
            let path = String::from_str(alloc, path)?;
            Err(KeyFault::BadKey { path })
        }
        Err(reason) => {
            let path = String::from_str(alloc, path)?;
            Err(KeyFault::Unread { path, reason })
        }
    }
}

/// Reads the public key that a reader has, if what it has is one.
fn key_within<F: Read + Drop>(alloc: Global, reader: F) -> io::Result<Option<[u8; KEY_LENGTH]>>
    // It is what the reader has, and none is left out.
    ensures spelled { IfOk result (λ found. (input : List ℕ) → F.remaining reader ≡ Some input
        → MatchOption found (¬ IsPublicKey input) (λ key. key ≡ input)) }
    ensures is_key { IfOk result (λ found. MatchOption found ⊤ IsPublicKey) }
{
    let bytes = first_bytes(alloc, reader)?;
    match PublicKey::parse(bytes.as_slice()) {
        Ok(key) => Ok(Some(*key.as_bytes())),
        Err(_) => Ok(None),
    }
}

/// Reads to the end, or 57 bytes, so a file may have no end.
fn first_bytes<F: Read + Drop>(alloc: Global, reader: F) -> io::Result<Vec<u8>>
    ensures { IfOk result (λ bytes. (input : List ℕ) → F.remaining reader ≡ Some input
        → bytes.items ≡ take 57 input) }
{
    let mut bytes = Vec::new(alloc);
    reader.take(57).read_to_end(&mut bytes)?;
    Ok(bytes)
}
