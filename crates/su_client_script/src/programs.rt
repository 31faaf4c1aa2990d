// What a script asks of the program that runs it.
ghost use Rattle.std.specs.Prelude.{◌≡◌, ◌⊎◌, ℕ, List, IfErr, IfOk, OnOk};
ghost use Rattle.std.specs.Thread.{IsSync};
ghost use Rattle.su_bytes.specs.declared.refusals.Refusal.TheVariants.{BadKey, KeyFileFault, NoMemory};
ghost use Rattle.su_lms.specs.PrivateKey.{key_of};

use std::io;
use std::io::{Read, Write};
use std::thread::Threads;
use su_bytes::Refusal;
use su_client_work::Surroundings;
use su_lms::{KeyStore, Signer};
use su_view::ViewRefusal;

/// What a script asks of the program that runs it, beside what its client does.
pub trait Program<R: Read, W: Write, K: KeyStore>: Surroundings<R, W> {
    // It was handed this log, as a file of that name, and saved it.
    ghost saves: { Self → List ℕ → List ℕ → Self → Type 0 };
    // It opened a file of that name, which has the key with this public key.
    ghost opens: { Self → List ℕ → List ℕ → Type 0 };

    /// Puts a file of that name, with these bytes, in the place of what stands there.
    fn save(&mut self, file: &[u8], log: &[u8]) -> io::Result<()>
        ensures { OnOk result (saves self.old file.now log.now self.new) };

    /// Opens the key file of that name, and makes the signer of its key in threads of the host.
    /// `KeyFileFault` where it can't be read or another process uses it, `BadKey` where it is no key
    /// file; `NoMemory`.
    fn open_key<T: Threads + Sync>(&self, host: &T, file: &[u8]) -> Result<Signer<K>, Refusal>
        requires sync { IsSync T.row }
        ensures opened { IfOk result (λ signer. opens self.now file.now (key_of signer.key)) }
        ensures refused { IfErr result (λ e.
            (e ≡ KeyFileFault) ⊎ (e ≡ BadKey) ⊎ (e ≡ NoMemory)) };

    /// Is told before a change how many leaves of the client's key have not signed, and where the
    /// next one is stored. Names the file of the next key where the client is to go on to that.
    /// Which one it names, nothing rests on.
    fn next_key(&mut self, left: u32, store: &K) -> Option<Vec<u8>>;

    /// Is told what came of a rekey to the key in the file of that name, or that the file of a next
    /// key couldn't be opened. Nothing rests on it.
    fn tell_rekey(&mut self, file: &[u8], rekeyed: &Result<u64, ViewRefusal>);

    /// Is told of a command that was refused, once the line of the refusal is printed, so that it can
    /// tell what that may come from. Nothing rests on it.
    fn explain(&mut self, cause: &Cause);
}

/// Why a command was refused, with what is known beside.
#[derive(Clone, Copy, Debug)]
pub struct Cause {
    /// The refusal that was printed.
    pub refusal: ViewRefusal,
    /// Whether it met an operation that came behind a take of the same command, which is stored.
    pub after_take: bool,
    /// Of `OwnMissing` the number of the user's own last commit.
    pub own_last: Option<u64>,
}
