// What a crash leaves of a file of a store, for theorems that span a restart.
ghost use Rattle.std.specs.Prelude.{IsTrue};
ghost use Rattle.sqlite.specs.Files.{image_of};
ghost use Rattle.sqlite.specs.WalReads.{AreClean};
ghost use Rattle.sqlite.specs.WalFiles.{outcomes};

use crate::store_volumes::StoreVolume;
use sqlite_disk::{Crash, Disk, Files};
use su_vault::Crashing;

/// Crashes the disks of two files.
pub(crate) fn crash_both<D: Disk + Crash>(files: Files<D>) -> Files<D>
    ensures left { outcomes D.Disk files.log files.db (image_of D.Disk result) }
    ensures clean { AreClean D.Disk result.log result.db → AreClean D.Disk files.log files.db }
    ensures log { IsTrue (D.Disk.is_usable result.log) }
    ensures db { IsTrue (D.Disk.is_usable result.db) }
{
    let Files { log, db } = files;
    let (mut log, mut db) = (log, db);
    log.crash();
    db.crash();
    Files { log, db }
}

impl<D: Disk + Crash + Drop> Crashing for StoreVolume<D> {
    fn crash(self) -> Option<StoreVolume<D>> {
        let StoreVolume { place, options } = self;
        let shut = place.crash()?;
        Some(StoreVolume::over_shut(shut, options))
    }
}
