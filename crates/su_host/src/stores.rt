// The folder in which a server keeps what is stored.
ghost use Rattle.std.specs.Prelude.{All, IfOk};
ghost use Rattle.sqlite.specs.State.{HasCleanDisk};
ghost use Rattle.sqlite.specs.Files.{file_state, over_files};
ghost use Rattle.su_store.specs.Files.{IsAtRest};
ghost use Rattle.su_places.specs.Current.{RestsOpen, RestsShut};

use sqlite::{FileFrom, FileStore, Options, Unknown};
use sqlite_disk::Disk;
use std::alloc::{AllocError, AllocFailed};
use std::fs::File;
use std::hash::{BuildHasher, RandomState};
use std::os::unix::fs::MetadataExt;
use std::{fs, io};
use su_places::StoreVolume;
use su_store::{FileFault, RecordFile, ShutFile, make, open};
use su_store_files::Opened;
use su_vault::Shelf;
use thiserror::Error;

/// How many bytes of records and items a file takes, before the next one is begun.
pub(crate) const FULL: usize = 33_554_432;

/// The bytes of a store's file, as the disk has them. A write that a crash tears leaves each byte
/// old or new.
pub(crate) type DiskFile = FileFrom<Unknown>;

/// Why a folder isn't opened.
#[derive(Debug, Drop, Error)]
pub(crate) enum FolderFault {
    #[error("out of memory")]
    NoMemory,
    #[error("{path}: {error}")]
    Unread { path: String, error: io::Error },
    #[error("{path}: {fault}")]
    File { path: String, fault: FileFault },
    #[error("{0}: the file has another name too (a hard link): copy it instead, and remove one")]
    Linked(String),
    #[error("{0}: the file is missing, and a later one is there; put it back")]
    Missing(String),
    #[error("{0}: no count of records; put the file back, or remove it to serve what is there")]
    NoCount(String),
}

impl From<AllocError> for FolderFault {
    fn from(_refused: AllocError) -> FolderFault {
        FolderFault::NoMemory
    }
}

impl<T: Drop> From<AllocFailed<T>> for FolderFault {
    fn from(_refused: AllocFailed<T>) -> FolderFault {
        FolderFault::NoMemory
    }
}

/// The folder of a store, with its files `records.db`, `records-1.db` and so on, and how one is
/// opened that was shut.
#[derive(Clone, Copy)]
pub(crate) struct Folder<'a, 'n> {
    pub rt: &'a HostRuntime,
    pub name: &'n str,
    pub options: Options,
}

impl Folder<'_, '_> {
    /// Returns the path of the file of a number, counted from 0.
    pub fn path(&self, number: usize) -> Result<String, AllocError> {
        let folder = self.name;
        if number == 0 {
            format!(in self.rt.alloc(); "{folder}/records.db")
        } else {
            format!(in self.rt.alloc(); "{folder}/records-{number}.db")
        }
    }

    /// Returns the path of the count of all records.
    pub fn count_path(&self) -> Result<String, AllocError> {
        let folder = self.name;
        format!(in self.rt.alloc(); "{folder}/records.count")
    }

    /// Opens the files that are there; where there are none, the folder and the first one are made.
    /// None is opened where one is missing before another. Of a file whose making was cut short,
    /// the making is finished.
    pub fn open(&self) -> Result<Opened<StoreVolume<DiskFile>>, FolderFault>
        ensures first { IfOk result (λ files.
            RestsOpen ⟦<DiskFile as Disk>⟧ files.first.place) }
        ensures later { IfOk result (λ files.
            All (λ f. RestsShut f.place) files.later.items) }
    {
        let _ = fs::create_dir(self.rt, self.name);
        let last = match self.last() {
            Ok(last) => last,
            Err(error) => return Err(self.unread(error)),
        };
        self.check_before(last)?;
        let mut later = Vec::new(self.rt.alloc());
        for number in (1..=last).rev() {
            later.push(StoreVolume::over_shut(self.shut_file(number)?, self.options))?;
        }
        let first = StoreVolume::over(self.open_file(0)?, self.options);
        if let Err(error) = self.sync() {
            return Err(self.unread(error));
        }
        Ok(Opened { first, later })
    }

    /// Returns the highest number of a file that is there; 0 where none is.
    fn last(&self) -> io::Result<usize> {
        let mut last = 0;
        for entry in fs::read_dir(self.rt, self.name)? {
            if let Some(number) = number_in(entry?.file_name()) {
                last = last.max(number);
            }
        }
        Ok(last)
    }

    /// Refuses the folder where a file before the one of that number is missing.
    fn check_before(&self, last: usize) -> Result<(), FolderFault> {
        for number in 0..last {
            let path = self.path(number)?;
            match fs::exists(self.rt, path.as_str()) {
                Ok(true) => {}
                Ok(false) => return Err(FolderFault::Missing(path)),
                Err(error) => return Err(FolderFault::Unread { path, error }),
            }
        }
        Ok(())
    }

    fn open_file(&self, number: usize) -> Result<RecordFile<FileStore<DiskFile>>, FolderFault>
        ensures { IfOk result (λ f. HasCleanDisk (file_state f.held) → IsAtRest over_files f) }
    {
        let path = self.path(number)?;
        match open(self.rt, path.as_str(), Unknown) {
            Ok(file) => Ok(file),
            Err(FileFault::Unopened) if has_links(self.rt, path.as_str()) => {
                Err(FolderFault::Linked(path))
            }
            Err(fault) => Err(FolderFault::File { path, fault }),
        }
    }

    /// Opens the file of a number once, and shuts it.
    fn shut_file(&self, number: usize) -> Result<ShutFile<DiskFile>, FolderFault> {
        match self.open_file(number)?.shut() {
            Ok(shut) => Ok(shut),
            Err((fault, _store)) => Err(FolderFault::File {
                path: self.path(number)?,
                fault,
            }),
        }
    }

    /// The fault of a folder that isn't read.
    fn unread(&self, error: io::Error) -> FolderFault {
        match format!(in self.rt.alloc(); "{}", self.name) {
            Ok(path) => FolderFault::Unread { path, error },
            Err(_) => FolderFault::NoMemory,
        }
    }

    /// Waits until the disk has the names of the folder.
    fn sync(&self) -> io::Result<()> {
        File::open(self.rt, self.name)?.sync_all()
    }
}

impl Shelf<StoreVolume<DiskFile>> for Folder<'_, '_> {
    fn make(&mut self, number: usize) -> Result<StoreVolume<DiskFile>, FileFault> {
        let path = self.path(number)?;
        let file = make(self.rt, path.as_str(), Unknown)?;
        if self.sync().is_err() {
            return Err(FileFault::Unopened);
        }
        Ok(StoreVolume::over(file, self.options))
    }
}

/// Whether a file has several names.
fn has_links(rt: &HostRuntime, path: &str) -> bool {
    fs::metadata(rt, path).is_ok_and(|found| found.nlink() > 1)
}

/// The number in the name of a store's file, unless it is the first one, or none.
fn number_in(name: &str) -> Option<usize> {
    name.strip_prefix("records-")?
        .strip_suffix(".db")?
        .parse()
        .ok()
}

/// How a file is opened that was shut, with a number by chance for its log.
pub(crate) fn options(rt: &HostRuntime) -> io::Result<Options> {
    Ok(Options::new(RandomState::new(rt)?.hash_one(&0u8)))
}
