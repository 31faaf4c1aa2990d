// A server is killed, and its disks crash.
ghost use Rattle.std.specs.Prelude.{◌≡◌, false, List, IfSome};
ghost use Rattle.std.specs.List.{All};
ghost use Rattle.su_keeper.specs.Kept.{KeptRecord};
ghost use Rattle.su_vault.specs.Records.{commits_of};
ghost use Rattle.su_store_files.specs.Volumes.{HoldsInTurn, IsAtEnd, WereFound};

use std::alloc::Global;
use std::sync::Wait;
use su_store_files::{ArchiveFiles, ArchiveName, Opened};
use su_store_keeper::Archive;
use su_vault::{Crashing, Shelf};

/// Kills a server whose keeper has not failed, lets its disks crash, and opens what the next start
/// finds. Where the keeper holds some records, all that it was handed, the files stand for just these
/// then, as long as no wrong answer was taken as true. `None` where a file was lost to a call or
/// isn't opened, or there is no memory.
pub fn kill<N, V, H, R>(
    alloc: Global,
    archive: Archive<'_, ArchiveFiles<N, V, H>, R>,
) -> Option<Opened<V>>
where
    N: ArchiveName,
    V: Crashing,
    H: Shelf<V>,
    R: Wait,
    requires running { archive.vault.volumes.is_halted ≡ false }
    requires end { IsAtEnd V.Volume archive.vault.volumes }
    ensures { (records : List KeptRecord)
        → HoldsInTurn V.Volume archive.entry.vault.volumes records
        → IfSome result (λ files. V.Volume.is_clean files.first
        → All V.Volume.is_clean files.later.items
        → WereFound V.Volume files (commits_of records)) }
{
    archive.into_vault().into_volumes().crash(alloc)
}
