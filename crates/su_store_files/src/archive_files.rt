// The files of an archive, with what makes the next one.
ghost use Rattle.std.specs.Prelude.{◌≡◌, ℕ, List, [], ◌↔◌};
ghost use Rattle.su_store_files.specs.Volumes.{WereFound, WereSound, FindsInTurn};
ghost use Rattle.su_store_files.specs.Archived.{Holds};

use crate::volumes::{Opened, Volumes};
use std::alloc::Global;
use std::marker::{Brand, PhantomData};
use su_bytes::Digest;
use su_vault::{Shelf, Vault, Volume};

/// Names what the files of an archive were found with. Each run of a program picks it.
pub trait ArchiveName {
    // Each of them stood for some records.
    ghost found: { Type 0 };
}

impl ArchiveName for Brand {
    ghost found = { Unit {0} };
}

/// The files of an archive, and the shelf that makes the next one. They hold the records of a book,
/// if what they were found with stood for anything.
#[derive(Drop)]
pub struct ArchiveFiles<N: ArchiveName, V: Volume, H: Shelf<V>> {
    volumes: Volumes<V>,
    shelf: H,
    name: PhantomData<N>,
}

impl<N: ArchiveName, V: Volume, H: Shelf<V>> ArchiveFiles<N, V, H> {
    /// Begins with these files, none of whose records stands in the book.
    pub fn new(alloc: Global, files: Opened<V>, shelf: H) -> ArchiveFiles<N, V, H>
        requires named { N.found ↔ WereSound V.Volume files }
        ensures begun { Holds V.Volume N.found result.volumes [] }
        ensures found { (commits : List (List ℕ)) → WereFound V.Volume files commits
            → FindsInTurn V.Volume result.volumes commits }
    {
        ArchiveFiles {
            volumes: Volumes::new(alloc, files),
            shelf,
            name: PhantomData,
        }
    }
}

impl<N: ArchiveName, V: Volume, H: Shelf<V>> ArchiveFiles<N, V, H> {
    /// Hands the files back.
    pub fn into_volumes(self) -> Volumes<V>
        ensures { result ≡ self.volumes }
    {
        let ArchiveFiles {
            volumes,
            shelf: _shelf,
            name: _,
        } = self;
        volumes
    }
}

impl<N: ArchiveName, V: Volume, H: Shelf<V>> Vault for ArchiveFiles<N, V, H> {
    ghost use Rattle.std.specs.Prelude.{◌≡◌, []};
    ghost use Rattle.su_store_files.specs.Volumes.{AreClean, FindsInTurn, IsThrough, IsAtEnd};
    ghost use Rattle.su_store_files.specs.Archived.{Holds};

    ghost holds = { λ v. Holds V.Volume N.found v.volumes };

    ghost finds = { λ v. FindsInTurn V.Volume v.volumes };

    ghost is_clean = { λ v. AreClean V.Volume v.volumes };

    ghost is_at_end = { λ v. IsAtEnd V.Volume v.volumes };

    ghost is_taken_up = { λ v. IsThrough V.Volume v.volumes → v.volumes.later.items ≡ [] };

    ghost is_stopped = { λ v. v.volumes.is_halted };

    type Fault = V::Fault;

    fn number(&self) -> usize {
        self.volumes.number()
    }

    fn is_full(&self) -> bool {
        self.volumes.is_full()
    }

    fn is_halted(&self) -> bool {
        self.volumes.is_halted()
    }

    fn halt(&mut self) {
        self.volumes.halt();
    }

    fn has_next(&self) -> bool {
        self.volumes.has_next()
    }

    fn take_up(&mut self, alloc: Global) -> Result<(), V::Fault> {
        self.volumes.take_up(alloc)
    }

    fn next(&mut self, alloc: Global) -> Result<Option<Vec<u8>>, V::Fault> {
        self.volumes.next(alloc)
    }

    fn keep_found(&mut self, commit: &[u8]) -> Result<(), V::Fault> {
        self.volumes.keep_found(commit)?;
        Ok(())
    }

    fn begin(&mut self) -> Result<(), V::Fault> {
        self.volumes.begin(&mut self.shelf)
    }

    fn append(&mut self, commit: &[u8], items: &[Vec<u8>]) -> Result<(), V::Fault> {
        self.volumes.append(commit, items)?;
        Ok(())
    }

    fn item(
        &mut self,
        alloc: Global,
        number: usize,
        digest: Digest,
    ) -> Result<Option<Vec<u8>>, V::Fault> {
        self.volumes.item(alloc, number, digest)
    }

    fn put_item(&mut self, alloc: Global, number: usize, item: &[u8]) -> Result<bool, V::Fault> {
        self.volumes.put_item(alloc, number, item)
    }

    fn record(
        &mut self,
        alloc: Global,
        number: usize,
        index: u32,
        digest: Digest,
    ) -> Result<Option<Vec<u8>>, V::Fault> {
        self.volumes.record(alloc, number, index, digest)
    }

    fn record_at(
        &mut self,
        alloc: Global,
        number: usize,
        index: u32,
    ) -> Result<Option<Vec<u8>>, V::Fault> {
        self.volumes.record_at(alloc, number, index)
    }

    fn close(self) -> Result<(), V::Fault> {
        self.volumes.close()?;
        Ok(())
    }
}
