// A file of the store at a path, and what a crash leaves of its files.
ghost use Rattle.std.specs.Prelude.{IfOk, IsTrue};
ghost use Rattle.sqlite.specs.Tree.{Trees};
ghost use Rattle.sqlite_trees.specs.View.{IsClean};
ghost use Rattle.sqlite.specs.State.{HasCleanDisk};
ghost use Rattle.sqlite.specs.Files.{file_state, over_files, HoldsDatabase};
ghost use Rattle.sqlite.specs.WalFiles.{image_at};
ghost use Rattle.sqlite.specs.Closing.{IsCopied};
ghost use Rattle.sqlite.specs.WalReads.{AreClean};
ghost use Rattle.sqlite_store.specs.FileStore.{state as files_state, view};
ghost use Rattle.su_store.specs.Kept.{nothing};
ghost use Rattle.su_store.specs.Tables.{Stands};
ghost use Rattle.su_store.specs.Files.{IsAtRest};
ghost use Rattle.su_store.specs.Opening.{OpensFrom};

use crate::faults::FileFault;
use crate::record_files::RecordFile;
use sqlite::{Connection, FileFrom, FileStore, Start};
use sqlite_disk::{Disk, Files};

/// Opens the store's file at a path, or makes it with a sum at the end of each page. `start` says
/// how a crash is read: `Wary` syncs twice a record, `Unknown` once, where a write that a crash
/// tears leaves each byte old or new. The log beside the file is part of it.
pub fn open<T: Start>(
    rt: &HostRuntime,
    path: &str,
    start: T,
) -> Result<RecordFile<FileStore<FileFrom<T>>>, FileFault>
    ensures opened { IfOk result (λ f. HasCleanDisk (file_state f.held) →
        OpensFrom (image_at T.Start) f.held) }
    ensures rest { IfOk result (λ f. HasCleanDisk (file_state f.held) → IsAtRest over_files f) }
{
    take_up(rt, path, start, false)
}

/// Makes the store's file at a path, which keeps nothing yet, with a sum at the end of each page.
/// `Foreign` where the file that is there has a table. `start` is as for `open`.
pub fn make<T: Start>(
    rt: &HostRuntime,
    path: &str,
    start: T,
) -> Result<RecordFile<FileStore<FileFrom<T>>>, FileFault>
    ensures fresh { IfOk result (λ f. HasCleanDisk (file_state f.held) →
        Stands nothing (file_state f.held).now.trees) }
    ensures rest { IfOk result (λ f. HasCleanDisk (file_state f.held) → IsAtRest over_files f) }
{
    take_up(rt, path, start, true)
}

/// Opens the file at a path, or where it is made, refuses one with a table.
fn take_up<T: Start>(
    rt: &HostRuntime,
    path: &str,
    start: T,
    is_made: bool,
) -> Result<RecordFile<FileStore<FileFrom<T>>>, FileFault>
    ensures opened { IfOk result (λ f. HasCleanDisk (file_state f.held) →
        OpensFrom (image_at T.Start) f.held) }
    ensures rest { IfOk result (λ f. HasCleanDisk (file_state f.held) → IsAtRest over_files f) }
    ensures fresh { IsTrue is_made → IfOk result (λ f. HasCleanDisk (file_state f.held) →
        Stands nothing (file_state f.held).now.trees) }
{
    match Connection::open_from(rt, path, true, start) {
        Ok(connection) => RecordFile::take_up(connection, is_made),
        Err((error, _left)) => Err(FileFault::from(error)),
    }
}

impl<D: Disk + Drop> RecordFile<FileStore<D>> {
    /// Gives up the file. Whatever a crash leaves of its two files holds one of the databases that
    /// a crash could leave of this file, and the next open finds that one.
    pub fn into_store(self) -> FileStore<D>
        ensures { IsClean (view result) → (left : _) → (files_state result).may_leave left
            → ∥ ((db : Trees) × HoldsDatabase left db × (file_state self.held).may_leave db) ∥₁ }
    {
        let RecordFile {
            connection,
            count: _,
            is_spent: _,
        } = self;
        connection.into_store()
    }

    /// Copies the log into the database file, which then holds all that is kept, and gives both
    /// files back. A file that is dropped leaves it in the log, where the next open reads it.
    pub fn close(self) -> Result<Files<D>, FileFault>
        ensures { IfOk result (λ files. AreClean D.Disk files.log files.db →
            IsCopied self.held files) }
    {
        let RecordFile {
            connection,
            count: _,
            is_spent: _,
        } = self;
        match connection.close_files() {
            Ok(files) => Ok(files),
            Err((error, _left)) => Err(FileFault::from(error)),
        }
    }
}
