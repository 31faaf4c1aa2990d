// Making a key of entropy.
ghost use Rattle.std.specs.Prelude.{◌≡◌, ◌≢◌, ◌↔◌, ◌++◌, ℕ, List, Some, length, take, IfOk, IfSome, IsNone};
ghost use Rattle.su_lms.specs.PrivateKey.{key_of};
ghost use Rattle.su_lms.specs.KeyFile.{key_file_bytes, made_key};
ghost use Rattle.su_keygen.specs.Key.{IsKeyOf};

use crate::faults::KeygenFault;
use crate::pairs::keep_pair;
use std::alloc::{AllocError, Global};
use std::fs::File;
use std::io;
use std::io::Read;
use std::thread::Threads;
use su_lms::{KeyFile, NoStore, Params, PublicKey, Signer};

/// Bytes of entropy.
const LENGTH: usize = 48;

/// What a key is made of: I, by which keys are told apart, and SEED, which is secret (RFC 8554,
/// Section 5.3 and Appendix A).
#[derive(Clone, Copy)]
pub struct Entropy {
    pub id: [u8; 16],
    pub seed: [u8; 32],
}

impl Entropy {
    /// Takes 48 bytes apart: 16 of I, and then SEED. `None` where there are fewer or more.
    fn of_bytes(bytes: &[u8]) -> Option<Entropy>
        ensures parts { IfSome result (λ entropy. entropy.id ++ entropy.seed ≡ bytes.now) }
        ensures refused { IsNone result ↔ (length bytes.now ≢ LENGTH) }
    {
        if bytes.len() != LENGTH {
            return None;
        }
        let mut entropy = Entropy {
            id: [0; 16],
            seed: [0; 32],
        };
        entropy.id.copy_from_slice(&bytes[..16]);
        entropy.seed.copy_from_slice(&bytes[16..]);
        Some(entropy)
    }
}

/// What is kept of a new key: the bytes of its file, and its public key.
#[derive(Drop)]
struct NewKey {
    file: [u8; 64],
    public: PublicKey,
}

/// Where the system's entropy is read.
const SYSTEM: &str = "/dev/urandom";

/// Makes the key of a file of 48 bytes of entropy, or of 48 bytes of the system's where there is none.
/// Writes it to the file `out`, and its public key to `out.pub`, over plain files that stood there,
/// unless another process uses the key. The faults of the entropy come first, and then nothing was
/// written. Beside the key `out.lock` is made and stays.
pub fn make_key<T: Threads + Sync>(
    rt: &HostRuntime,
    host: &T,
    entropy: Option<&str>,
    out: &str,
    params: Params,
) -> Result<PublicKey, KeygenFault>
    ensures { IfOk result (IsKeyOf params) }
{
    let entropy = match entropy {
        Some(path) => read_entropy(rt, path)?,
        None => system_entropy(rt)?,
    };
    let made = new_key(host, rt.alloc(), params, entropy)?;
    keep_pair(rt, out, &made.file, made.public.as_bytes())?;
    Ok(made.public)
}

/// Makes the key of that entropy, with its first leaf to sign next, on all cores. Only `NoMemory`
/// can come.
fn new_key<T: Threads + Sync>(
    host: &T,
    alloc: Global,
    params: Params,
    entropy: Entropy,
) -> Result<NewKey, AllocError>
    ensures file { IfOk result (λ made.
        made.file ≡ key_file_bytes (made_key params entropy.id entropy.seed) 0) }
    ensures public { IfOk result (λ made.
        made.public ≡ key_of (made_key params entropy.id entropy.seed)) }
{
    let Entropy { id, seed } = entropy;
    let Ok(signer) = Signer::generate_in_threads(host, alloc, params, id, seed, NoStore) else {
        return Err(AllocError);
    };
    Ok(NewKey {
        file: file_of(params, entropy),
        public: signer.public(),
    })
}

/// Spells the file of the key of that entropy, with its first leaf to sign next.
pub(crate) fn file_of(params: Params, entropy: Entropy) -> [u8; 64]
    ensures { result ≡ key_file_bytes (made_key params entropy.id entropy.seed) 0 }
{
    let Entropy { id, seed } = entropy;
    let file = KeyFile {
        params,
        id,
        seed,
        next: 0,
    };
    file.encode()
}

/// Reads the entropy of a key from the system's source.
pub(crate) fn system_entropy(rt: &HostRuntime) -> Result<Entropy, KeygenFault> {
    let alloc = rt.alloc();
    let bytes = match File::open(rt, SYSTEM).and_then(|file| first_bytes(
        alloc,
        file,
        LENGTH as u64,
    )) {
        Ok(bytes) => bytes,
        Err(reason) => return Err(KeygenFault::unread(alloc, SYSTEM, reason)),
    };
    match Entropy::of_bytes(bytes.as_slice()) {
        Some(entropy) => Ok(entropy),
        None => Err(KeygenFault::TooShort {
            path: String::from_str(alloc, SYSTEM)?,
            length: bytes.len(),
        }),
    }
}

/// Reads the entropy in a file. No more than 49 bytes are read, so a file may have no end.
fn read_entropy(rt: &HostRuntime, path: &str) -> Result<Entropy, KeygenFault> {
    let alloc = rt.alloc();
    let bytes = match File::open(rt, path).and_then(|file| first_bytes(alloc, file, 49)) {
        Ok(bytes) => bytes,
        Err(reason) => return Err(KeygenFault::unread(alloc, path, reason)),
    };
    if let Some(entropy) = Entropy::of_bytes(bytes.as_slice()) {
        return Ok(entropy);
    }
    let path = String::from_str(alloc, path)?;
    if LENGTH < bytes.len() {
        return Err(KeygenFault::TooLong { path });
    }
    Err(KeygenFault::TooShort {
        path,
        length: bytes.len(),
    })
}

/// Reads to the end, or so many bytes.
pub(crate) fn first_bytes<F: Read + Drop>(
    alloc: Global,
    reader: F,
    count: u64,
) -> io::Result<Vec<u8>>
    ensures { IfOk result (λ bytes. (input : List ℕ) → F.remaining reader ≡ Some input →
        bytes.items ≡ take count input) }
{
    let mut bytes = Vec::new(alloc);
    reader.take(count).read_to_end(&mut bytes)?;
    Ok(bytes)
}
