// A file of a store, which is read into memory only while it is open.
ghost use Rattle.std.specs.Prelude.{[], List, ℕ, IfOk, IfErr, IfSome, OnOk};
ghost use Rattle.sqlite.specs.Files.{image_of};
ghost use Rattle.sqlite.specs.WalReads.{AreClean};
ghost use Rattle.su_keeper.specs.Kept.{KeptRecord};
ghost use Rattle.su_vault.specs.Records.{KeepsRecords, commits_of};

use crate::crashes::crash_both;
use sqlite::{FileStore, Leftover, Options};
use sqlite_disk::{Crash, Disk};
use std::alloc::Global;
use std::mem;
use su_store::{FileFault, RecordFile, ShutFile};

/// A file of a store.
pub enum Place<D: Disk> {
    /// It is in memory.
    Open(RecordFile<FileStore<D>>),
    /// It isn't.
    Shut(ShutFile<D>),
    /// It could not be opened again, and this is left of it.
    Unopened(Leftover<D>),
    /// It could not be shut.
    Unshut(FileStore<D>),
    /// It is on its way from one of these to another.
    Away,
}

// It is written out, so that a caller does not prove again how each part is dropped.
impl<D: Disk + Drop> Drop for Place<D> {
    fn drop(self) {
        match self {
            Place::Open(_file) => {}
            Place::Shut(_file) => {}
            Place::Unopened(_left) => {}
            Place::Unshut(_store) => {}
            Place::Away => {}
        }
    }
}

impl<D: Disk + Drop> Place<D> {
    ghost use Rattle.su_places.specs.Places.{KeepsAll, IsShut};
    ghost use Rattle.su_places.specs.Current.{Counts, IsClean, Shows, WasFound};

    /// Shuts the file, if it is open.
    pub(crate) fn shut(&mut self) -> Result<(), FileFault>
        ensures kept { KeepsRecords (KeepsAll D.Disk) self.old self.new }
        ensures clean { OnOk result (IsClean D.Disk self.new → IsClean D.Disk self.old) }
        ensures shut { IsShut self.new }
    {
        match mem::replace(self, Place::Away).into_shut() {
            Ok(place) => {
                *self = place;
                Ok(())
            }
            Err((fault, place)) => {
                *self = place;
                Err(fault)
            }
        }
    }

    /// Opens the file, if it is shut.
    pub(crate) fn open(&mut self, alloc: Global, options: Options) -> Result<(), FileFault>
        ensures kept { KeepsRecords (KeepsAll D.Disk) self.old self.new }
        ensures anew { OnOk result ((commits : List (List ℕ)) → WasFound D.Disk self.old commits
            → Counts D.Disk self.new 0 []) }
        ensures found { OnOk result ((commits : List (List ℕ)) → WasFound D.Disk self.old commits
            → Shows D.Disk self.new commits) }
        ensures clean { OnOk result (IsClean D.Disk self.new → IsClean D.Disk self.old) }
    {
        match mem::replace(self, Place::Away).into_open(alloc, options) {
            Ok(place) => {
                *self = place;
                Ok(())
            }
            Err((fault, place)) => {
                *self = place;
                Err(fault)
            }
        }
    }

    fn into_shut(self) -> Result<Place<D>, (FileFault, Place<D>)>
        ensures kept { IfOk result (λ place. (records : List KeptRecord)
            → KeepsAll D.Disk self records → KeepsAll D.Disk place records) }
        ensures clean { IfOk result (λ place. IsClean D.Disk place → IsClean D.Disk self) }
        ensures shut { IfOk result IsShut }
        ensures lost { IfErr result (λ e. IsShut e.1) }
        ensures held { IfErr result (λ e. (records : List KeptRecord)
            → KeepsAll D.Disk self records → KeepsAll D.Disk e.1 records) }
    {
        match self {
            Place::Open(file) => match file.shut() {
                Ok(shut) => Ok(Place::Shut(shut)),
                Err((fault, store)) => Err((fault, Place::Unshut(store))),
            },
            other => Ok(other),
        }
    }

    fn into_open(self, alloc: Global, options: Options) -> Result<Place<D>, (FileFault, Place<D>)>
        ensures kept { IfOk result (λ place. (records : List KeptRecord)
            → KeepsAll D.Disk self records → KeepsAll D.Disk place records) }
        ensures anew { IfOk result (λ place. (commits : List (List ℕ))
            → WasFound D.Disk self commits → Counts D.Disk place 0 []) }
        ensures found { IfOk result (λ place. (commits : List (List ℕ))
            → WasFound D.Disk self commits → Shows D.Disk place commits) }
        ensures clean { IfOk result (λ place. IsClean D.Disk place → IsClean D.Disk self) }
        ensures held { IfErr result (λ e. (records : List KeptRecord)
            → KeepsAll D.Disk self records → KeepsAll D.Disk e.1 records) }
    {
        match self {
            Place::Shut(shut) => match shut.open(alloc, options) {
                Ok(file) => Ok(Place::Open(file)),
                Err((fault, left)) => Err((fault, Place::Unopened(left))),
            },
            other => Ok(other),
        }
    }

    /// Shuts the file, if it is open, and gives it up. `Spent` where it was lost to a call.
    pub(crate) fn close(self) -> Result<(), FileFault> {
        match self.into_shut() {
            Ok(place) => match &place {
                Place::Shut(_) => Ok(()),
                _ => Err(FileFault::Spent),
            },
            Err((fault, _place)) => Err(fault),
        }
    }
}

impl<D: Disk + Crash + Drop> Place<D> {
    ghost use Rattle.su_places.specs.Places.{KeepsAll};
    ghost use Rattle.su_places.specs.Current.{HoldsRecords};

    /// Gives up what is in memory, and crashes the disks of the two files. `None` where the file was
    /// lost to a call.
    pub(crate) fn crash(self) -> Option<ShutFile<D>>
        ensures { IfSome result (λ s. AreClean D.Disk s.files.log s.files.db
            → (records : List KeptRecord) → KeepsAll D.Disk self records
            → HoldsRecords (commits_of records) (image_of D.Disk s.files)) }
    {
        let files = match self {
            Place::Open(file) => file.abandon(),
            Place::Shut(shut) => shut.into_files(),
            _ => return None,
        };
        Some(ShutFile::over(crash_both(files)))
    }
}
