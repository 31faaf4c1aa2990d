// Commits with their digests.
ghost use Rattle.std.specs.Prelude.{◌≡◌, ◌⊎◌, IfOk, IfErr};
ghost use Rattle.su_bytes.specs.declared.refusals.Refusal.TheVariants.{NoMemory};
ghost use Rattle.su_version.specs.Commit.{IsCommit, commit_bytes, commit_digest};
ghost use Rattle.su_book.specs.Malformed.{IsMalformed};

use sha2::Sha256;
use std::alloc::Global;
use std::marker::Model;
use su_bytes::{Digest, Refusal, User};
use su_version::Commit;

/// A commit with its digest at hand. Its model is the commit.
#[derive(Drop)]
pub struct HashedCommit {
    commit: Commit,
    digest: Digest,
}

impl Model for HashedCommit {
    ghost use Rattle.std.specs.Prelude.{◌≡◌};
    ghost use Rattle.su_version.specs.Commit.{Commit, commit_digest};

    ghost Value = { Commit };

    ghost view = { λ h. h.commit };

    ghost invariant = { λ h. h.digest ≡ commit_digest h.commit };
}

impl HashedCommit {
    /// Returns the commit that the bytes spell. `Malformed` where they are no commit's, with the
    /// place of the first part that isn't there; `NoMemory`.
    pub fn decode(alloc: Global, bytes: &[u8]) -> Result<HashedCommit, Refusal>
        ensures found { IfOk result (λ c. IsCommit c × (bytes.now ≡ commit_bytes c)) }
        ensures refused { IfErr result (λ e. (e ≡ NoMemory) ⊎ IsMalformed bytes.now e) }
    {
        let commit = Commit::decode(alloc, bytes)?;
        let digest = Digest::new(<Sha256 as sha2::Digest>::digest(bytes));
        Ok(HashedCommit { commit, digest })
    }

    /// Lends the commit.
    pub fn commit(&self) -> &Commit
        ensures { result.now ≡ self.now }
    {
        &self.commit
    }

    /// Returns the SHA-256 of its bytes.
    pub fn digest(&self) -> Digest
        ensures { result ≡ commit_digest self.now }
    {
        self.digest
    }

    /// Returns the author.
    pub fn author(&self) -> User
        ensures value { result ≡ self.now.version.author }
        ensures commit { IsCommit self.now }
    {
        self.commit.version().author()
    }
}
