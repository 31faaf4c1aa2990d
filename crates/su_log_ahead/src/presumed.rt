// Keys that users are presumed to have.
use std::alloc::{AllocError, Global};
use su_bytes::{FileId, Refusal, Roster, User};
use su_lms::PublicKey;
use su_version::Commit;

/// How many users there can be.
const USERS: usize = 64;

/// The key that each user is presumed to have where a commit comes that is examined before its turn.
/// It is only a guess: the verdict on the commit says under which key it was found, and where that
/// isn't the author's when its turn comes, the signature is checked anew.
#[derive(Drop)]
pub struct PresumedKeys {
    keys: Vec<Option<PublicKey>>,
}

impl PresumedKeys {
    /// Makes the table in which no user has a key.
    pub fn new(alloc: Global) -> Result<PresumedKeys, AllocError> {
        let mut keys = Vec::with_capacity(alloc, USERS)?;
        for _ in 0..USERS {
            keys.push(None)?;
        }
        Ok(PresumedKeys { keys })
    }

    /// Makes the table of the keys of a roster's users, without those that are none.
    pub fn of_roster(alloc: Global, roster: &Roster) -> Result<PresumedKeys, AllocError> {
        // names the type for the prover (docs/ARCHITECTURE.md, "Forms the kit wants")
        let _file: Option<FileId> = None;
        let mut keys = PresumedKeys::new(alloc)?;
        for user in roster.users() {
            keys.set(user.user, PublicKey::parse(&user.key).ok());
        }
        Ok(keys)
    }

    /// Sets the key of a user, or that there is none.
    pub fn set(&mut self, user: User, key: Option<PublicKey>) {
        if let Some(kept) = self.keys.get_mut(usize::from(user.number())) {
            *kept = key;
        }
    }

    /// Returns the key of a user, if there is one.
    pub fn key(&self, user: User) -> Option<PublicKey> {
        match self.keys.get(usize::from(user.number())) {
            Some(key) => *key,
            None => None,
        }
    }

    /// Notes a commit that comes next: where it names a next key that is one, its author has that
    /// from then on.
    pub fn note(&mut self, commit: &Commit) {
        let version = commit.version();
        if let Some(next) = version.next_key() {
            if let Ok(key) = PublicKey::parse(&next) {
                self.set(version.author(), Some(key));
            }
        }
    }

    /// Returns the key of the author of what is read as the next commit, and notes it, if it is one.
    pub fn presume(&mut self, commit: &Result<Commit, Refusal>) -> Option<PublicKey> {
        match commit {
            Ok(commit) => {
                let key = self.key(commit.version().author());
                self.note(commit);
                key
            }
            Err(_) => None,
        }
    }
}
