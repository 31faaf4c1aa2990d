// A commit as a list keeps it.
ghost use Rattle.std.specs.Prelude.{◌≡◌};
ghost use Rattle.sha2.specs.Sha256.{sha256};
ghost use Rattle.su_version.specs.Commit.{commit_bytes};

use http_server::Log;
use std::marker::Model;
use su_bytes::Digest;
use su_version::{Commit, VersionStructure};

/// A commit as a list keeps it: its version structure, and the digest of its bytes. No memory holds
/// its signature. Its model is the whole commit.
#[derive(Drop)]
pub(crate) struct KeptCommit {
    version: VersionStructure,
    digest: Digest,
    /// The whole commit alone, which proofs read. (`Log` is the kit's list that no memory holds.)
    whole: Log<Commit, ()>,
}

impl Model for KeptCommit {
    ghost use Rattle.su_version.specs.Commit.{Commit as CommitParts};

    ghost Value = { CommitParts };

    ghost use Rattle.su_view.specs.KeptCommit.{first_in, unsigned, IsKeptAs};

    ghost view = { λ k. first_in (unsigned k.version) k.whole.items };

    ghost invariant = { λ k. IsKeptAs k.version k.digest
        (first_in (unsigned k.version) k.whole.items) };
}

impl KeptCommit {
    /// Keeps a commit whose bytes have this digest. Takes no memory.
    pub(crate) fn new(commit: Commit, digest: Digest) -> KeptCommit
        requires { digest ≡ sha256 (commit_bytes commit) }
        ensures { result ≡ commit }
    {
        let whole = Log::new().and(&commit, &());
        KeptCommit {
            version: commit.into_version(),
            digest,
            whole,
        }
    }

    /// Lends the version structure.
    pub(crate) fn version(&self) -> &VersionStructure
        ensures { result.now ≡ self.now.version }
    {
        &self.version
    }

    /// Returns the digest of the bytes.
    pub(crate) fn digest(&self) -> Digest
        ensures { result ≡ sha256 (commit_bytes self.now) }
    {
        self.digest
    }
}
