// A file of the store that is shut and opened again.
ghost use Rattle.std.specs.Prelude.{◌≡◌, false, IsTrue, IfOk, IfErr, OnOk};
ghost use Rattle.sqlite.specs.Tree.{Trees};
ghost use Rattle.sqlite.specs.Held.{state};
ghost use Rattle.sqlite_trees.specs.View.{IsClean};
ghost use Rattle.sqlite.specs.State.{HasCleanDisk};
ghost use Rattle.sqlite.specs.Files.{file_state, over_files, image_of, HoldsDatabase};
ghost use Rattle.sqlite.specs.Files.{IsCleanLeft, LeavesFiles};
ghost use Rattle.sqlite.specs.WalReads.{AreClean};
ghost use Rattle.sqlite_store.specs.FileStore.{state as files_state, view, recovers};
ghost use Rattle.su_store.specs.Files.{IsAtRest};
ghost use Rattle.sqlite.specs.Recovery.{Image};
ghost use Rattle.sqlite.specs.WalFiles.{outcomes};
ghost use Rattle.su_store.specs.Shut.{Rests, MayHold};

use crate::faults::FileFault;
use crate::record_files::RecordFile;
use sqlite::{Alter, Connection, FileStore, Leftover, Options};
use sqlite_disk::{Disk, Files};
use std::alloc::Global;

/// A file of the store that is shut: its two handles with their locks, and nothing of it in memory.
#[derive(Drop)]
pub struct ShutFile<D: Disk> {
    files: Files<D>,
    ghost log: { IsTrue (D.Disk.is_usable files.log) },
    ghost db: { IsTrue (D.Disk.is_usable files.db) },
}

impl<D: Disk> ShutFile<D> {
    /// Hands the two files back.
    pub fn into_files(self) -> Files<D>
        ensures { result ≡ self.files }
    {
        let ShutFile { files } = self;
        files
    }

    /// Takes over the handles of a file of the store that nothing has read yet.
    pub fn over(files: Files<D>) -> ShutFile<D>
        requires log { IsTrue (D.Disk.is_usable files.log) }
        requires db { IsTrue (D.Disk.is_usable files.db) }
        ensures { result.files ≡ files }
    {
        ShutFile { files }
    }
}

impl<D: Disk + Drop> RecordFile<FileStore<D>> {
    /// Copies the log into the database file, and gives up what is in memory. `Spent` where the
    /// connection is inside a transaction. After a failure, a crash leaves nothing new.
    pub fn shut(self) -> Result<ShutFile<D>, (FileFault, FileStore<D>)>
        ensures clean { IfOk result (λ shut. AreClean D.Disk shut.files.log shut.files.db →
            HasCleanDisk (file_state self.held)) }
        ensures rests { IfOk result (λ shut. AreClean D.Disk shut.files.log shut.files.db →
            Rests D.Disk shut.files (file_state self.held).now.trees) }
        ensures stays { IfOk result (λ shut. AreClean D.Disk shut.files.log shut.files.db →
            (file_state self.held).may_leave (file_state self.held).now.trees) }
        ensures doubt { IfErr result (λ e. IsClean (view e.1) →
            HasCleanDisk (file_state self.held)) }
        ensures left { IfErr result (λ e. (db : Trees) → recovers e.1 db →
            (file_state self.held).may_leave db) }
    {
        let RecordFile {
            connection,
            count: _,
            is_spent: _,
        } = self;
        let connection = match outside(connection) {
            Ok(connection) => connection,
            Err(store) => return Err((FileFault::Spent, store)),
        };
        match connection.close_files() {
            Ok(files) => Ok(ShutFile { files }),
            Err((error, store)) => Err((FileFault::from(error), store)),
        }
    }
}

impl<D: Disk + Drop> RecordFile<FileStore<D>> {
    /// Gives up what is in memory, and hands the two files back as they are, as a process that dies
    /// leaves them. Whatever a crash makes of them then holds tables that a crash could leave before.
    pub fn abandon(self) -> Files<D>
        ensures clean { AreClean D.Disk result.log result.db → HasCleanDisk (file_state self.held) }
        ensures left { AreClean D.Disk result.log result.db → (image : Image)
            → outcomes D.Disk result.log result.db image
            → ∥ MayHold (file_state self.held) image ∥₁ }
    {
        let RecordFile {
            connection,
            count: _,
            is_spent: _,
        } = self;
        connection.into_store().close()
    }
}

/// Gives a connection back that is outside of transactions. What another one stands on is left.
fn outside<S: Alter + Drop>(connection: Connection<S>) -> Result<Connection<S>, S>
    ensures same { IfOk result (λ c. c ≡ connection) }
    ensures settled { OnOk result (IsTrue (state S.Store connection).is_open →
        (state S.Store connection).now ≡ (state S.Store connection).committed) }
    ensures doubt { IfErr result (λ store. IsClean (S.Store.view store) →
        HasCleanDisk (state S.Store connection)) }
    ensures left { IfErr result (λ store. (db : Trees) → S.Store.recovers store db →
        (state S.Store connection).may_leave db) }
{
    if connection.is_autocommit() {
        Ok(connection)
    } else {
        Err(connection.into_store())
    }
}

impl<D: Disk + Drop> ShutFile<D> {
    /// Opens the file again, and reads it whole. What isn't a store's file is refused with
    /// `Foreign`, and nothing is written into it. After a failure, what is left is as the kit says.
    pub fn open(
        self,
        alloc: Global,
        options: Options,
    ) -> Result<RecordFile<FileStore<D>>, (FileFault, Leftover<D>)>
        ensures clean { IfOk result (λ f. HasCleanDisk (file_state f.held) →
            AreClean D.Disk self.files.log self.files.db) }
        ensures shows { IfOk result (λ f. HasCleanDisk (file_state f.held) → (db : Trees) →
            HoldsDatabase (image_of D.Disk self.files) db → (file_state f.held).now.trees ≡ db) }
        ensures rest { IfOk result (λ f. HasCleanDisk (file_state f.held) →
            IsAtRest over_files f) }
        ensures unspent { IfOk result (λ f. f.is_spent ≡ false) }
        ensures left { IfErr result (λ e. IsCleanLeft e.1 → LeavesFiles self.files e.1) }
    {
        let ShutFile { files } = self;
        match Connection::open_files_with(alloc, files, options, true) {
            Ok(connection) => match RecordFile::resume(connection) {
                Ok(file) => Ok(file),
                Err((fault, store)) => Err((fault, Leftover::Store(store))),
            },
            Err((error, left)) => Err((FileFault::from(error), left)),
        }
    }
}
