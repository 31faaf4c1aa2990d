// One file of records and blocks.
ghost use Rattle.std.specs.Prelude.{◌≡◌, ◌+◌, ◌≤◌, None, false, IsTrue, IfOk, IfErr, OnOk, OnErr, IfSome, map, option_map};
ghost use Rattle.sha2.specs.Sha256.{sha256};
ghost use Rattle.sqlite.specs.State.{HasCleanDisk, Survives};
ghost use Rattle.sqlite.specs.Held.{state};
ghost use Rattle.sqlite.specs.Tree.{Trees};
ghost use Rattle.sqlite_trees.specs.View.{IsClean};
ghost use Rattle.su_store.specs.Changes.{Extends, HasRecords, HoldsBlock, Keeps, LeavesBlock};
ghost use Rattle.su_store.specs.Lookups.{IsRecord, IsBlock};
ghost use Rattle.su_store.specs.Kept.{nothing};
ghost use Rattle.su_store.specs.Tables.{Stands, store_schema};
ghost use Rattle.su_store.specs.Files.{BeginsFrom, IsAtRest};

use crate::faults::FileFault;
use crate::lookups::{count_records, find_block, find_record, is_next};
use crate::records::{append, keep_block};
use crate::schemas::{is_new, is_store};
use crate::tables::prepare;
use sha2::Sha256;
use sqlite::{Alter, Connection, FileStore};
use sqlite_disk::Disk;
use std::marker::Model;
use su_bytes::Digest;

/// The most records of a file: more would make its next open slow, since that reads it whole.
pub const MOST_RECORDS: u32 = 100_000;

/// An open file of records, numbered from 0, and of the blocks that they need. Once a call has
/// failed for the disk or memory, or an append for damage, it is spent: every later call answers
/// `Spent`, and what was kept is found by the next open.
#[derive(Drop)]
pub struct RecordFile<S: Alter> {
    pub(crate) connection: Connection<S>,
    pub(crate) count: u32,
    pub(crate) is_spent: bool,
}

impl<S: Alter> Model for RecordFile<S> {
    ghost use Rattle.su_store.specs.Files.{File, IsReady, file_code};

    ghost Value = { File S };

    ghost coded = { file_code S.code };

    ghost view = { λ f. record { held = f.connection; count = f.count; is_spent = f.is_spent } };

    ghost invariant = { λ f. IsReady S.Store f.connection f.is_spent };
}

impl<S: Alter + Drop> RecordFile<S> {
    /// Takes over a connection: a store's file, or a new one, in which it makes the tables. An
    /// SQLite file of something else is refused with `Foreign`, and is left as it is. `Spent` where
    /// the connection is inside a transaction.
    pub fn over(connection: Connection<S>) -> Result<RecordFile<S>, FileFault>
        ensures clean { IfOk result (λ f. HasCleanDisk (state S.Store f.held) →
            HasCleanDisk (state S.Store connection)) }
        ensures begun { IfOk result (λ f. HasCleanDisk (state S.Store f.held) →
            BeginsFrom (state S.Store connection) (state S.Store f.held)) }
        ensures rest { IfOk result (λ f. HasCleanDisk (state S.Store f.held) →
            IsAtRest S.Store f) }
        ensures unspent { IfOk result (λ f. f.is_spent ≡ false) }
    {
        let mut connection = connection;
        prepare(&mut connection)?;
        let count = count_at_rest(&mut connection)?;
        Ok(RecordFile {
            connection,
            count,
            is_spent: false,
        })
    }

    /// Makes the tables of a new file, which keeps nothing. `Foreign` where it has a table already,
    /// and then it is left as it is.
    pub fn make(connection: Connection<S>) -> Result<RecordFile<S>, FileFault>
        ensures fresh { IfOk result (λ f. HasCleanDisk (state S.Store f.held) →
            Stands nothing (state S.Store f.held).now.trees) }
        ensures rest { IfOk result (λ f. HasCleanDisk (state S.Store f.held) →
            IsAtRest S.Store f) }
        ensures unspent { IfOk result (λ f. f.is_spent ≡ false) }
    {
        RecordFile::take_up(connection, true)
    }

    /// Takes over a connection as `over` does, or where the file is made, as `make` does.
    pub(crate) fn take_up(
        connection: Connection<S>,
        is_made: bool,
    ) -> Result<RecordFile<S>, FileFault>
        ensures clean { IfOk result (λ f. HasCleanDisk (state S.Store f.held) →
            HasCleanDisk (state S.Store connection)) }
        ensures begun { IfOk result (λ f. HasCleanDisk (state S.Store f.held) →
            BeginsFrom (state S.Store connection) (state S.Store f.held)) }
        ensures rest { IfOk result (λ f. HasCleanDisk (state S.Store f.held) →
            IsAtRest S.Store f) }
        ensures unspent { IfOk result (λ f. f.is_spent ≡ false) }
        ensures fresh { IsTrue is_made → IfOk result (λ f. HasCleanDisk (state S.Store f.held) →
            Stands nothing (state S.Store f.held).now.trees) }
    {
        if is_made && !is_new(connection.schema()) {
            return Err(FileFault::Foreign);
        }
        RecordFile::over(connection)
    }

    /// Takes over a connection to a store's file. What it stands on is left where the file is none.
    pub(crate) fn resume(connection: Connection<S>) -> Result<RecordFile<S>, (FileFault, S)>
        ensures clean { IfOk result (λ f. HasCleanDisk (state S.Store f.held) →
            HasCleanDisk (state S.Store connection)) }
        ensures same { IfOk result (λ f. HasCleanDisk (state S.Store f.held) →
            (state S.Store f.held).now ≡ (state S.Store connection).now) }
        ensures rest { IfOk result (λ f. HasCleanDisk (state S.Store f.held) →
            IsAtRest S.Store f) }
        ensures unspent { IfOk result (λ f. f.is_spent ≡ false) }
        ensures doubt { IfErr result (λ e. IsClean (S.Store.view e.1) →
            HasCleanDisk (state S.Store connection)) }
        ensures left { IfErr result (λ e. IsClean (S.Store.view e.1) → (db : Trees) →
            S.Store.recovers e.1 db → (state S.Store connection).may_leave db) }
    {
        let mut connection = connection;
        match count_of_store(&mut connection) {
            Ok(count) => Ok(RecordFile {
                connection,
                count,
                is_spent: false,
            }),
            Err(fault) => Err((fault, connection.into_store())),
        }
    }
}

/// Counts the records of a store's file. `Foreign` for one of something else.
fn count_of_store<S: Alter>(connection: &mut Connection<S>) -> Result<u32, FileFault>
    ensures same { HasCleanDisk (state S.Store connection.new) → OnOk result
        ((state S.Store connection.new).now ≡ (state S.Store connection.old).now) }
    ensures schema { HasCleanDisk (state S.Store connection.new) → OnOk result
        ((state S.Store connection.new).now.schema ≡ store_schema) }
    ensures counted { HasCleanDisk (state S.Store connection.new) → IfOk result (λ count.
        HasRecords count (state S.Store connection.new).now.trees) }
    ensures settled { HasCleanDisk (state S.Store connection.new) → OnOk result ((db : Trees) →
        (state S.Store connection.new).may_leave db
        → db ≡ (state S.Store connection.new).now.trees) }
    ensures crash { Survives (state S.Store connection.old) (state S.Store connection.new)
        (λ _. ⊥) }
{
    if !is_store(connection.schema()) {
        return Err(FileFault::Foreign);
    }
    count_at_rest(connection)
}

/// Counts the records of a file with the two tables. `Spent` where the connection is inside a
/// transaction, and `TooLong` where there are more records than a file may have.
fn count_at_rest<S: Alter>(connection: &mut Connection<S>) -> Result<u32, FileFault>
    requires { HasCleanDisk (state S.Store connection.old)
        → (state S.Store connection.old).now.schema ≡ store_schema }
    ensures same { HasCleanDisk (state S.Store connection.new) → OnOk result
        ((state S.Store connection.new).now ≡ (state S.Store connection.old).now) }
    ensures counted { HasCleanDisk (state S.Store connection.new) → IfOk result (λ count.
        HasRecords count (state S.Store connection.new).now.trees) }
    ensures settled { HasCleanDisk (state S.Store connection.new) → OnOk result ((db : Trees) →
        (state S.Store connection.new).may_leave db
        → db ≡ (state S.Store connection.new).now.trees) }
    ensures crash { Survives (state S.Store connection.old) (state S.Store connection.new)
        (λ _. ⊥) }
{
    let count = count_records(connection, MOST_RECORDS)?;
    if !connection.is_autocommit() {
        return Err(FileFault::Spent);
    }
    if MOST_RECORDS < count {
        return Err(FileFault::TooLong);
    }
    Ok(count)
}

// These two stand here and not above, so that a caller does not prove again what files are as a
// store of tables (docs/ARCHITECTURE.md, "Forms the kit wants").
impl<D: Disk> RecordFile<FileStore<D>> {
    /// How many records there are: the number of the next.
    pub fn len(&self) -> u32
        ensures { result ≡ self.now.count }
    {
        self.count
    }

    /// Whether there is no record.
    pub fn is_empty(&self) -> bool
        ensures { IsTrue result → self.now.count ≡ 0 }
    {
        self.count == 0
    }
}

impl<S: Alter> RecordFile<S> {
    /// Keeps one more record and the blocks that it needs, all or nothing, and returns its number.
    /// At `Ok` they are on the disk. `Full` at 100,000 records, and then nothing changes.
    pub fn append(&mut self, record: &[u8], blocks: &[Vec<u8>]) -> Result<u32, FileFault>
        ensures kept { HasCleanDisk (state S.Store self.new.held) → OnOk result
            (Keeps (Extends record.now (map (λ b. b.items) blocks.now))
            (state S.Store self.old.held) (state S.Store self.new.held)) }

        // A crash at any moment of the call leaves what it could leave before, or all of this.
        ensures crash { Survives (state S.Store self.old.held) (state S.Store self.new.held)
            (Extends record.now (map (λ b. b.items) blocks.now)
            (state S.Store self.old.held).now.trees) }
        ensures number { IfOk result (λ number. number ≡ self.old.count) }
        ensures count { OnOk result (self.new.count ≡ self.old.count + 1) }
        ensures same { OnErr result (self.new.count ≡ self.old.count) }
        ensures unspent { OnOk result (self.new.is_spent ≡ false) }
    {
        if self.is_spent {
            return Err(FileFault::Spent);
        }
        let number = self.count;
        if MOST_RECORDS <= number {
            return Err(FileFault::Full);
        }
        self.is_spent = true;
        if !is_next(&mut self.connection, number)? {
            return Err(FileFault::DamagedRecord(number));
        }
        if !append(&mut self.connection, number, record, blocks)? {
            return Err(FileFault::Spent);
        }
        self.count = number + 1;
        self.is_spent = false;
        Ok(number)
    }

    /// Holds a block under its digest, which no record comes with. Where one is held there, that one
    /// stays. At `Ok` it is on the disk.
    pub fn hold_block(&mut self, block: &[u8]) -> Result<(), FileFault>
        ensures kept { HasCleanDisk (state S.Store self.new.held) → OnOk result
            (Keeps (HoldsBlock block.now)
            (state S.Store self.old.held) (state S.Store self.new.held)) }

        // A crash at any moment of the call leaves what it could leave before, or all of this.
        ensures crash { Survives (state S.Store self.old.held) (state S.Store self.new.held)
            (LeavesBlock block.now (state S.Store self.old.held)) }
        ensures count { self.new.count ≡ self.old.count }
        ensures unspent { OnOk result (self.new.is_spent ≡ false) }
    {
        if self.is_spent {
            return Err(FileFault::Spent);
        }
        self.is_spent = true;
        if !keep_block(&mut self.connection, block)? {
            return Err(FileFault::Spent);
        }
        self.is_spent = false;
        Ok(())
    }

    /// Reads the record of a number. `None` from the count on. `DamagedRecord` where one below it
    /// isn't there.
    pub fn record(&mut self, number: u32) -> Result<Option<Vec<u8>>, FileFault>
        ensures found { HasCleanDisk (state S.Store self.new.held) → IfOk result (λ found.
            IsRecord number (option_map (λ b. b.items) found)
            (state S.Store self.old.held).now.trees) }
        ensures same { HasCleanDisk (state S.Store self.new.held) → OnOk result
            ((state S.Store self.new.held).now ≡ (state S.Store self.old.held).now) }
        ensures crash { Survives (state S.Store self.old.held) (state S.Store self.new.held)
            (λ _. ⊥) }
        ensures end { IfOk result (λ found. found ≡ None → self.new.count ≤ number) }
        ensures count { self.new.count ≡ self.old.count }
        ensures unspent { OnOk result (self.new.is_spent ≡ false) }
    {
        if self.is_spent {
            return Err(FileFault::Spent);
        }
        self.is_spent = true;
        let found = find_record(&mut self.connection, number)?;
        self.is_spent = false;
        if found.is_none() && number < self.count {
            return Err(FileFault::DamagedRecord(number));
        }
        Ok(found)
    }

    /// Reads the block of a digest, with which its bytes are compared. `None` where there is none.
    /// `DamagedBlock` where the bytes have another digest.
    pub fn block(&mut self, digest: Digest) -> Result<Option<Vec<u8>>, FileFault>
        ensures hashes { IfOk result (λ found. IfSome found (λ b. sha256 b.items ≡ digest)) }
        ensures found { HasCleanDisk (state S.Store self.new.held) → IfOk result (λ found.
            IsBlock digest (option_map (λ b. b.items) found)
            (state S.Store self.old.held).now.trees) }
        ensures same { HasCleanDisk (state S.Store self.new.held) → OnOk result
            ((state S.Store self.new.held).now ≡ (state S.Store self.old.held).now) }
        ensures crash { Survives (state S.Store self.old.held) (state S.Store self.new.held)
            (λ _. ⊥) }
        ensures count { self.new.count ≡ self.old.count }
        ensures unspent { OnOk result (self.new.is_spent ≡ false) }
    {
        if self.is_spent {
            return Err(FileFault::Spent);
        }
        self.is_spent = true;
        let found = find_block(&mut self.connection, digest.as_bytes())?;
        self.is_spent = false;
        if let Some(bytes) = &found {
            if <Sha256 as sha2::Digest>::digest(bytes.as_slice()) != *digest.as_bytes() {
                return Err(FileFault::DamagedBlock(digest));
            }
        }
        Ok(found)
    }
}
