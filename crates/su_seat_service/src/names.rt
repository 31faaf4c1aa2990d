// What a commit names.
ghost use Rattle.std.specs.Prelude.{◌≡◌, Some, IfOk, IfErr};
ghost use Rattle.su_bytes.specs.declared.refusals.Refusal.TheVariants.{NoMemory};
ghost use Rattle.su_version.specs.Commit.{Commit as CommitParts, IsCommit, commit_bytes};

use std::alloc::Global;
use su_bytes::{Digest, Refusal};
use su_version::Commit;

/// Returns the digest of the item that a commit names, that of its change. `None` where the bytes
/// are no commit's; `NoMemory` where there is none to read them.
pub(crate) fn named_by(alloc: Global, commit: &[u8]) -> Result<Option<Digest>, Refusal>
    ensures named { IfOk result (λ named. (c : CommitParts) → IsCommit c
        → commit.now ≡ commit_bytes c → named ≡ Some c.version.change) }
    ensures refused { IfErr result (λ e. e ≡ NoMemory) }
{
    match Commit::decode(alloc, commit) {
        Ok(commit) => Ok(Some(commit.version().change())),
        Err(Refusal::NoMemory) => Err(Refusal::NoMemory),
        Err(_) => Ok(None),
    }
}
