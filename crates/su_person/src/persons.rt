// What a person's client asks of the program around it.
ghost use Rattle.std.specs.Prelude.{◌≡◌, ◌≤◌, ℕ, true, length};
ghost use Rattle.std.specs.Thread.{IsSync};

use std::io::{Read, Write};
use std::thread::Threads;
use su_client_work::{LinkSource, Surroundings};
use su_lms::{KeyStore, Signer};
use su_view::{View, ViewRefusal};

/// What a person's client asks of the program around it, beside what each client does.
pub trait Person<R: Read + Drop, W: Write + Drop, K: KeyStore>: Surroundings<R, W> {
    /// How many commits, the first ones of the client's list, are kept.
    ghost kept: { Self → ℕ };

    /// Keeps the commits that the view holds and that aren't kept yet, and answers whether they are
    /// kept now. Why they aren't it tells by itself. It is called after each commit, and before
    /// anybody is told of that.
    fn keep(&mut self, view: &View<LinkSource<R, W>>) -> bool
        ensures { result ≡ true → length view.now.holding.held ≤ kept self.new };

    /// Is told before each change how many leaves of the client's key have not signed, and where the
    /// next one is stored. Makes the next key, and names its file, where the client is to go on to that.
    fn next_key(&mut self, left: u32, store: &K) -> Option<String>;

    /// Opens the key in a file that it named, and makes its signer in threads of the host; none where
    /// that fails, which it tells by itself.
    fn open_key<H: Threads + Sync>(&self, host: &H, file: &str) -> Option<Signer<K>>
        requires sync { IsSync H.row };

    /// Is told what came of a rekey to the key that it named last.
    fn tell_rekey(&mut self, rekeyed: &Result<u64, ViewRefusal>);
}
