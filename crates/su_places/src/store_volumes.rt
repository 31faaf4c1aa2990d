// A file of a store as a volume.
ghost use Rattle.std.specs.Prelude.{◌≡◌, ℕ, List, []};
ghost use Rattle.su_places.specs.declared.places.Place.TheVariants.{Shut};
ghost use Rattle.sqlite.specs.State.{HasCleanDisk};
ghost use Rattle.sqlite.specs.Files.{file_state, over_files, image_of};
ghost use Rattle.su_store.specs.Kept.{nothing};
ghost use Rattle.su_store.specs.Tables.{Stands};
ghost use Rattle.su_store.specs.Files.{IsAtRest};
ghost use Rattle.su_places.specs.Current.{HoldsRecords, Counts, Shows, WasFound, RestsOpen, RestsShut};

use crate::places::Place;
use sqlite::{FileStore, Options};
use sqlite_disk::Disk;
use std::alloc::Global;
use su_bytes::Digest;
use su_store::{FileFault, MOST_RECORDS, RecordFile, ShutFile};
use su_vault::{Volume, VolumeFault};

/// A file of a store, and how it is opened each time that it was shut.
#[derive(Drop)]
pub struct StoreVolume<D: Disk> {
    pub(crate) place: Place<D>,
    pub(crate) options: Options,
}

impl<D: Disk + Drop> StoreVolume<D> {
    /// Takes over a file that no call has changed since it was opened.
    pub fn over(file: RecordFile<FileStore<D>>, options: Options) -> StoreVolume<D>
        requires { HasCleanDisk (file_state file.held) → IsAtRest over_files file }
        ensures rest { RestsOpen D.Disk result.place }
        ensures fresh { (HasCleanDisk (file_state file.held)
            → Stands nothing (file_state file.held).now.trees)
            → (n : ℕ) → Counts D.Disk result.place n [] }
        ensures shown { (HasCleanDisk (file_state file.held)
            → Stands nothing (file_state file.held).now.trees)
            → Shows D.Disk result.place [] }
    {
        StoreVolume {
            place: Place::Open(file),
            options,
        }
    }

    /// Takes over a file that is shut.
    pub fn over_shut(file: ShutFile<D>, options: Options) -> StoreVolume<D>
        ensures rest { RestsShut result.place }
        ensures place { result.place ≡ Shut file }
        ensures found { (commits : List (List ℕ))
            → HoldsRecords commits (image_of D.Disk file.files)
            → WasFound D.Disk result.place commits }
    {
        StoreVolume {
            place: Place::Shut(file),
            options,
        }
    }
}

impl<D: Disk + Drop> Volume for StoreVolume<D> {
    ghost use Rattle.su_places.specs.Places.{KeepsAll};
    ghost use Rattle.su_places.specs.Current.{Begins, Counts, IsClean, Shows, WasFound, count_of};
    ghost use Rattle.su_places.specs.Laws.{counts_begin, counts_all, shows_counted};

    ghost keeps = { λ f. KeepsAll D.Disk f.place };

    ghost begins = { λ f. Begins D.Disk f.place };

    ghost counts = { λ f. Counts D.Disk f.place };

    ghost count = { λ f. count_of f.place };

    ghost was_found = { λ f. WasFound D.Disk f.place };

    ghost shows = { λ f. Shows D.Disk f.place };

    ghost is_clean = { λ f. IsClean D.Disk f.place };

    type Fault = FileFault;

    fn fault_for(why: VolumeFault) -> FileFault {
        match why {
            VolumeFault::NoMemory => FileFault::NoMemory,
            VolumeFault::Foreign => FileFault::Foreign,
            VolumeFault::DamagedRecord(index) => FileFault::DamagedRecord(index),
            VolumeFault::OtherRecord(index) => FileFault::OtherRecord(index),
        }
    }

    fn len(&self) -> u32 {
        self.place.len()
    }

    fn is_full(&self) -> bool {
        MOST_RECORDS <= self.place.len()
    }

    fn open(&mut self, alloc: Global) -> Result<(), FileFault> {
        self.place.open(alloc, self.options)
    }

    fn shut(&mut self) -> Result<(), FileFault> {
        self.place.shut()
    }

    fn close(self) -> Result<(), FileFault> {
        self.place.close()
    }

    fn record(&mut self, number: u32) -> Result<Option<Vec<u8>>, FileFault> {
        self.place.record(number)
    }

    fn append(&mut self, commit: &[u8], items: &[Vec<u8>]) -> Result<(), FileFault> {
        self.place.append(commit, items)
    }

    fn item(&mut self, digest: Digest) -> Result<Option<Vec<u8>>, FileFault> {
        self.place.item(digest)
    }

    fn put_item(&mut self, item: &[u8]) -> Result<(), FileFault> {
        self.place.put_item(item)
    }

    ghost shows_counted = { λ f. shows_counted _ f.place };

    ghost begins_with_counted = { λ f. counts_begin _ f.place };

    ghost keeps_all_counted = { λ f. counts_all _ f.place };
}
