// What a crash leaves of the files of a vault, for theorems that span a restart.
ghost use Rattle.std.specs.Prelude.{◌≡◌, false, List, IfSome};
ghost use Rattle.std.specs.List.{All, AllZip};
ghost use Rattle.su_keeper.specs.Kept.{KeptRecord};
ghost use Rattle.su_vault.specs.Records.{commits_of};
ghost use Rattle.su_store_files.specs.Volumes.{AreLeft, IsAtEnd, HoldsInTurn, WereFound};

use crate::volumes::{Opened, Volumes};
use std::alloc::Global;
use su_vault::Crashing;

/// Crashes these files, the last one first: what is found then stands in that order. `None` where one
/// was lost to a call, or there is no memory.
fn crash_all<V: Crashing>(alloc: Global, mut files: Vec<V>) -> Option<Vec<V>>
    ensures { (lists : List (List KeptRecord)) → AllZip V.Volume.keeps files.items lists
        → IfSome result (λ found. AreLeft V.Volume found.items lists) }
{
    let mut found = Vec::new(alloc);
    while let Some(file) = files.pop() {
        let left = file.crash()?;
        match found.push(left) {
            Ok(()) => {}
            Err(_) => return None,
        }
    }
    Some(found)
}

impl<V: Crashing> Volumes<V> {
    /// Lets the process die and the disks crash, and opens what the next start finds: just the records
    /// that were kept, in their order, as long as no wrong answer was taken as true. `None` where a
    /// file was lost to a call or isn't opened, or there is no memory.
    pub fn crash(self, alloc: Global) -> Option<Opened<V>>
        requires running { self.is_halted ≡ false }
        requires end { IsAtEnd V.Volume self }
        ensures { (records : List KeptRecord) → HoldsInTurn V.Volume self records
            → IfSome result (λ files. V.Volume.is_clean files.first
            → All V.Volume.is_clean files.later.items
            → WereFound V.Volume files (commits_of records)) }
    {
        let Volumes {
            past,
            current,
            later: _later,
            kept: _,
            is_halted: _,
        } = self;
        let mut files = past.into_places();
        match files.push(current) {
            Ok(()) => {}
            Err(_) => return None,
        }
        let mut later = crash_all(alloc, files)?;
        let mut first = later.pop()?;
        match first.open(alloc) {
            Ok(()) => Some(Opened { first, later }),
            Err(_) => None,
        }
    }
}
