// Which entries changed the bytes of several files last, as far as they were found.
ghost use Rattle.std.specs.Prelude.{◌≡◌, IfOk, OnOk, Some, None, cond, map};
ghost use Rattle.std.specs.List.{list_any};
ghost use Rattle.su_bytes.specs.Place.{file_eq};
ghost use Rattle.su_bytes.specs.declared.file_ids.FileId.{FileId};
ghost use Rattle.su_person.specs.FoundChanges.{Notes, found_of, is_asked, is_missing, key_of, noted_of};
ghost use Rattle.su_person.specs.LastChange.{changes_bytes, does_change};

use crate::changes::filled;
use std::alloc::{AllocError, Global};
use std::collections::BTreeMap;
use su_bytes::{FileId, User};
use su_desk::KeptEntry;
use su_op::{Batch, Change, Op};

/// A file in an order: whether it is a group's, which user's or group's, and its number there.
type FileKey = (bool, u8, u32);

/// Of each of several files the number and the author of the entry that changed its bytes last, where
/// that one was found: entries are noted from the newest to the oldest.
#[derive(Drop)]
pub(crate) struct FoundChanges {
    lasts: BTreeMap<FileKey, Option<(u64, User)>>,
}

impl FoundChanges {
    /// Makes those of the files, of which no entry was found yet. Fails only for want of memory.
    pub(crate) fn none_of(alloc: Global, files: &[FileId]) -> Result<FoundChanges, AllocError>
        ensures { IfOk result (λ found. (f : FileId)
            → noted_of found f ≡ cond (is_asked files.now f) (Some None) None) }
    {
        let mut lasts = BTreeMap::new(alloc);
        for file in files {
            lasts.insert(key_of(file), None)?;
        }
        Ok(FoundChanges { lasts })
    }

    /// Notes an entry by its number and its author, for the files whose bytes `changing` changes. Fails
    /// only for want of memory.
    pub(crate) fn note_entry(
        &mut self,
        alloc: Global,
        changing: &KeptEntry,
        number: u64,
        author: User,
    ) -> Result<(), AllocError>
        ensures { OnOk result (Notes (λ f. does_change f changing.now.change) (number, author)
            self.old self.new) }
    {
        if let Some(file) = filled(changing) {
            return self.note(&file, number, author);
        }
        let change = changing.change(alloc)?;
        self.note_change(&change, number, author)
    }

    /// Returns what was found of the files, in their order. Fails only for want of memory.
    pub(crate) fn in_order(
        &self,
        alloc: Global,
        files: &[FileId],
    ) -> Result<Vec<Option<(u64, User)>>, AllocError>
        ensures { IfOk result (λ lasts. lasts.items ≡ map (found_of self.now) files.now) }
    {
        let mut lasts = Vec::new(alloc);
        for file in files {
            lasts.push(self.last_of(file))?;
        }
        Ok(lasts)
    }

    /// Returns what was found of a file.
    fn last_of(&self, file: &FileId) -> Option<(u64, User)>
        ensures { result ≡ found_of self.now file.now }
    {
        match self.lasts.get(&key_of(file)) {
            Some(last) => *last,
            None => None,
        }
    }

    /// Notes the files whose bytes a change changes.
    fn note_change(&mut self, change: &Change, number: u64, author: User) -> Result<(), AllocError>
        ensures { OnOk result (Notes (λ f. does_change f change.now) (number, author)
            self.old self.new) }
    {
        match change {
            Change::Do(batch) => self.note_batch(batch, number, author),
            _ => Ok(()),
        }
    }

    /// Notes the files whose bytes an operation of a batch changes.
    fn note_batch(&mut self, batch: &Batch, number: u64, author: User) -> Result<(), AllocError>
        ensures { OnOk result (Notes (λ f. list_any (changes_bytes f) batch.now) (number, author)
            self.old self.new) }
    {
        let (first, more) = batch.parts();
        self.note_operation(first, number, author)?;
        self.note_operations(more, number, author)
    }

    /// Notes the files whose bytes one of these operations changes.
    fn note_operations(
        &mut self,
        operations: &[Op],
        number: u64,
        author: User,
    ) -> Result<(), AllocError>
        ensures { OnOk result (Notes (λ f. list_any (changes_bytes f) operations.now)
            (number, author) self.old self.new) }
    {
        for op in operations {
            self.note_operation(op, number, author)?;
        }
        Ok(())
    }

    /// Notes the file whose bytes an operation changes.
    fn note_operation(&mut self, op: &Op, number: u64, author: User) -> Result<(), AllocError>
        ensures { OnOk result (Notes (λ f. changes_bytes f op.now) (number, author)
            self.old self.new) }
    {
        match op {
            Op::Create(create) => self.note(&create.file, number, author),
            Op::Write(write) => self.note(&write.file, number, author),
            Op::Truncate(truncate) => self.note(&truncate.file, number, author),
            _ => Ok(()),
        }
    }

    /// Notes a file, where it is one of these and no entry was found yet.
    fn note(&mut self, file: &FileId, number: u64, author: User) -> Result<(), AllocError>
        ensures { OnOk result (Notes (λ f. file_eq f file.now) (number, author) self.old self.new) }
    {
        if self.is_missing(file) {
            self.lasts.insert(key_of(file), Some((number, author)))?;
        }
        Ok(())
    }

    /// Tells whether a file is one of these, and no entry was found yet.
    fn is_missing(&self, file: &FileId) -> bool
        ensures { result ≡ is_missing (noted_of self.now file.now) }
    {
        match self.lasts.get(&key_of(file)) {
            Some(last) => last.is_none(),
            None => false,
        }
    }
}

/// Returns the key of a file.
fn key_of(file: &FileId) -> FileKey
    ensures { result ≡ key_of file.now }
{
    match file {
        FileId::User(user, number) => (false, user.number(), number.number()),
        FileId::Group(group, number) => (true, group.number(), number.number()),
    }
}
