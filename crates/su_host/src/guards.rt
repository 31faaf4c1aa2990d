// The keeper of a server with a store.
ghost use Rattle.std.specs.Prelude.{List, ℕ};
ghost use Rattle.su_keeper.specs.Kept.{KeptRecord};

use crate::ends::Ends;
use crate::faults::tell_fault;
use crate::stores::Folder;
use std::alloc::Global;
use std::sync::Wait;
use su_bytes::Digest;
use su_keeper::{Keeper, NotKept};
use su_store::FileFault;
use su_store_keeper::Archive;
use su_tally::{Loss, Notebook, Tallied};
use su_vault::Vault;

/// Works on files of a folder, and knows why a call of its own failed.
pub(crate) trait HasFiles {
    /// Returns the fault of the call that failed, if one did.
    fn fault(&self) -> Option<&FileFault>;

    /// The number of the file that it asked last.
    fn number(&self) -> usize;

    /// Returns what the files lack of the records that were kept, if they do.
    fn loss(&self) -> Option<Loss>;

    /// Shuts the files, when all is copied from their logs.
    fn close(self) -> Result<(), FileFault>;
}

impl<'a, V: Vault<Fault = FileFault>, R: Wait> HasFiles for Archive<'a, V, R> {
    fn fault(&self) -> Option<&FileFault> {
        Archive::fault(self)
    }

    fn number(&self) -> usize {
        Archive::number(self)
    }

    fn loss(&self) -> Option<Loss> {
        None
    }

    fn close(self) -> Result<(), FileFault> {
        Archive::close(self)
    }
}

impl<K: Keeper + HasFiles, N: Notebook> HasFiles for Tallied<K, N> {
    fn fault(&self) -> Option<&FileFault> {
        self.keeper().fault()
    }

    fn number(&self) -> usize {
        self.keeper().number()
    }

    fn loss(&self) -> Option<Loss> {
        Tallied::loss(self)
    }

    fn close(self) -> Result<(), FileFault> {
        self.into_keeper().close()
    }
}

/// A keeper whose first failure is told on standard error, and stops the server. It holds what the
/// keeper within holds, and found what that found.
#[derive(Drop)]
pub(crate) struct Guard<'a, 'f, 'n, K> {
    keeper: K,
    folder: Folder<'f, 'n>,
    ends: &'a Ends,
}

impl<'a, 'f, 'n, K: Keeper> Guard<'a, 'f, 'n, K> {
    /// Guards the keeper over the files of a folder.
    pub fn new(keeper: K, folder: Folder<'f, 'n>, ends: &'a Ends) -> Guard<'a, 'f, 'n, K>
        ensures holds { (records : List KeptRecord) → K.holds keeper records
            → K.holds result.keeper records }
        ensures found { (rest : List (List ℕ)) → K.found keeper rest
            → K.found result.keeper rest }
    {
        Guard {
            keeper,
            folder,
            ends,
        }
    }
}

/// Has files of a folder, which are shut in the end.
pub(crate) trait Closing: Drop {
    /// Shuts the files, when all is copied from their logs, and returns whether they could be. If not,
    /// standard error tells why.
    fn close(self) -> bool;
}

/// Has files of a folder, which may lack items that records in them need.
pub(crate) trait Filling: Closing {
    /// How many items are lacking.
    fn lacking(&self) -> usize;

    /// Returns the digest of one of these items, counted from 0. `None` where there aren't so many.
    fn lacking_item(&self, index: usize) -> Option<Digest>;

    /// Keeps one of these items, if these bytes have its digest; then the last one has its place.
    /// Returns whether that went well; if not, standard error tells why.
    fn fill(&mut self, alloc: Global, index: usize, item: &[u8]) -> bool;
}

/// A keeper over files that can be filled in once it keeps no more records.
pub(crate) trait Copying: Keeper {
    type Files: Filling;

    /// Gives the files up, whose records are noted no more.
    fn into_files(self) -> Self::Files;
}

impl<'a, 'f, 'n, V, R, N> Copying for Guard<'a, 'f, 'n, Tallied<Archive<'a, V, R>, N>>
where
    V: Vault<Fault = FileFault>,
    R: Wait,
    N: Notebook,
{
    type Files = Guard<'a, 'f, 'n, Archive<'a, V, R>>;

    fn into_files(self) -> Guard<'a, 'f, 'n, Archive<'a, V, R>> {
        let Guard {
            keeper,
            folder,
            ends,
        } = self;
        Guard {
            keeper: keeper.into_keeper(),
            folder,
            ends,
        }
    }
}

impl<'a, 'f, 'n, V, R> Filling for Guard<'a, 'f, 'n, Archive<'a, V, R>>
where
    V: Vault<Fault = FileFault>,
    R: Wait,
{
    fn lacking(&self) -> usize {
        self.keeper.lacking()
    }

    fn lacking_item(&self, index: usize) -> Option<Digest> {
        self.keeper.lacking_item(index)
    }

    fn fill(&mut self, alloc: Global, index: usize, item: &[u8]) -> bool {
        let filled = self.keeper.fill(alloc, index, item);
        if filled.is_err() {
            self.alarm();
        }
        filled.is_ok()
    }
}

impl<'a, 'f, 'n, K: HasFiles> Guard<'a, 'f, 'n, K> {
    /// Tells of the keeper's fault, or of what its files lack, once, and stops the server.
    fn alarm(&self) {
        if !self.ends.has_failed() {
            match (self.keeper.fault(), self.keeper.loss()) {
                (Some(fault), _) => self.tell(self.keeper.number(), fault),
                (None, Some(loss)) => self.tell_loss(loss),
                (None, None) => {}
            }
        }
        self.ends.fail();
    }

    /// Tells that the files lack records.
    fn tell_loss(&self, loss: Loss) {
        let (name, Loss { kept, noted }) = (self.folder.name, loss);
        let fault = format_args!(
            "{name}: damaged behind record {kept}: {noted} records were kept; put a copy of the \
             folder in its place, or remove {name}/records.count to serve what is left"
        );
        tell_fault(self.folder.rt, fault);
    }

    /// Tells a fault of the file of a number.
    fn tell(&self, number: usize, fault: &FileFault) {
        let _ = match self.folder.path(number) {
            Ok(path) => tell_fault(self.folder.rt, format_args!("{path}: {fault}")),
            Err(_) => tell_fault(self.folder.rt, fault),
        };
    }
}

impl<'a, 'f, 'n, K: HasFiles + Drop> Closing for Guard<'a, 'f, 'n, K> {
    fn close(self) -> bool {
        let Guard {
            keeper,
            folder,
            ends: _,
        } = self;
        let name = folder.name;
        match keeper.close() {
            Ok(()) => true,
            Err(fault) => tell_fault(folder.rt, format_args!("{name}: {fault}")),
        }
    }
}

impl<'a, 'f, 'n, K: Keeper + HasFiles> Keeper for Guard<'a, 'f, 'n, K> {
    ghost use Rattle.std.specs.Prelude.{◌≡◌, true};

    ghost holds = { λ g. K.holds g.keeper };

    ghost found = { λ g. K.found g.keeper };

    ghost is_at_end = { λ g. K.is_at_end g.keeper };

    ghost is_clean = { λ g. K.is_clean g.keeper };

    ghost may_fail = { K.may_fail };

    ghost reads_back = { K.reads_back };

    fn keep(&mut self, alloc: Global, commit: &[u8], items: &[Vec<u8>]) -> Result<(), NotKept> {
        let kept = self.keeper.keep(alloc, commit, items);
        if kept.is_err() {
            self.alarm();
        }
        kept
    }

    fn next(&mut self, alloc: Global) -> Result<Option<Vec<u8>>, NotKept> {
        let found = self.keeper.next(alloc);
        if found.is_err() {
            self.alarm();
        }
        found
    }

    fn gives_back() -> bool
        ensures is { result ≡ K.reads_back }
        ensures failed { result ≡ true → K.may_fail }
    {
        K::gives_back()
    }

    fn record(
        &mut self,
        alloc: Global,
        number: u64,
        digest: Digest,
    ) -> Result<Option<Vec<u8>>, NotKept> {
        let found = self.keeper.record(alloc, number, digest);
        if found.is_err() {
            self.alarm();
        }
        found
    }

    fn item(&mut self, alloc: Global, digest: Digest) -> Result<Option<Vec<u8>>, NotKept> {
        let found = self.keeper.item(alloc, digest);
        if found.is_err() {
            self.alarm();
        }
        found
    }

    fn stop(&mut self) {
        self.keeper.stop();
        self.ends.fail();
    }
}
