// The next server takes over what is found.
ghost use Rattle.std.specs.Prelude.{ℕ, List, [], ◌↔◌};
ghost use Rattle.su_store_files.specs.Archived.{Holds};
ghost use Rattle.su_store_files.specs.Volumes.{FindsInTurn, WereFound, WereSound};

use std::alloc::Global;
use std::sync::Wait;
use su_shared_items::SharedBlocks;
use su_store_files::{ArchiveFiles, ArchiveName, Opened};
use su_store_keeper::Archive;
use su_vault::{Shelf, Volume};

/// Makes the keeper of a new book over files that were found. It holds none of their records yet.
/// Where what they were found with stands for some commits, these are what the keeper found: what it
/// gives a book that is opened over it (`SharedBook::open`), in their order and to the end.
pub fn take_over<'a, N, V, H, R>(
    rt: &'a R,
    alloc: Global,
    files: Opened<V>,
    shelf: H,
    blocks: &'a SharedBlocks,
) -> Archive<'a, ArchiveFiles<N, V, H>, R>
where
    N: ArchiveName,
    V: Volume,
    H: Shelf<V>,
    R: Wait,
    requires named { N.found ↔ WereSound V.Volume files }
    ensures begun { Holds V.Volume N.found result.vault.volumes [] }
    ensures found { (commits : List (List ℕ)) → WereFound V.Volume files commits
        → FindsInTurn V.Volume result.vault.volumes commits }
{
    let vault: ArchiveFiles<N, V, H> = ArchiveFiles::new(alloc, files, shelf);
    Archive::new(rt, alloc, vault, usize::MAX, blocks)
}
