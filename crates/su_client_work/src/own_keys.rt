// The key with which a client signs, and the one that its user has.
ghost use Rattle.std.specs.Prelude.{◌≡◌};
ghost use Rattle.su_version.specs.Chain.{chain_key};
ghost use Rattle.su_legal.specs.Legal.{commits_of};

use crate::members::Member;
use std::io::{Read, Write};
use su_lms::{KeyStore, PublicKey};

impl<R: Read + Drop, W: Write + Drop, K: KeyStore + Drop> Member<R, W, K> {
    /// Returns the key that its user has after the commits of the list, if there is such a user.
    pub fn present_key(&self) -> Option<PublicKey>
        ensures { let v = self.now.holding in
            result ≡ chain_key v.roster v.user (commits_of v.held) }
    {
        self.view.key(self.view.user())
    }

    /// Returns the public key of the key with which it signs.
    pub fn public_key(&self) -> PublicKey {
        self.key.public()
    }

    /// Returns how many leaves of that key have not signed.
    pub fn leaves_left(&self) -> u32 {
        self.key.left()
    }
}
