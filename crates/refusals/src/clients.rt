// Users' views, each with its user's key.
ghost use Rattle.std.specs.Prelude.{◌≡◌, true};

use crate::faults::{Fault, Mistake};
use crate::seen::{Seen, viewed_again};
use std::alloc::{AllocError, Global};
use su_block::{BlockSource, Checked, MemoryBlocks};
use su_bytes::{
    Digest, FileId, Group, Inum, KEY_LENGTH, Kind, Name, Principal, Refusal, Roster, User,
};
use su_lms::{NoStore, Params, Signer};
use su_op::{Change, Create, Op, Take, Write};
use su_version::Commit;
use su_view::{OwnKey, View, ViewRefusal};

/// The source of most of these views.
pub(crate) type Items = Checked<MemoryBlocks>;

/// A user's view with the user's key.
pub(crate) struct Client<S: BlockSource> {
    pub(crate) view: View<S>,
    key: OwnKey<NoStore>,
}

impl<S: BlockSource + Drop> Drop for Client<S> {
    // (By hand, so that a caller's proof needs no case for each part of a view.)
    fn drop(self) {
        let Client {
            view: _view,
            key: _key,
        } = self;
    }
}

/// Makes the signer of a user's key.
pub(crate) fn signer(alloc: Global, user: u8) -> Result<Signer<NoStore>, Refusal> {
    Signer::generate(alloc, Params::new(5, 3)?, [user; 16], [7; 32], NoStore)
}

/// Makes the public key of a user.
fn key(alloc: Global, user: u8) -> Result<[u8; KEY_LENGTH], Refusal> {
    Ok(*signer(alloc, user)?.public().as_bytes())
}

/// Makes the roster of the users 0 and 1, who are both in group 0.
pub(crate) fn roster(alloc: Global) -> Result<Roster, Refusal> {
    Roster::of_keys(alloc, &[key(alloc, 0)?, key(alloc, 1)?])
}

/// Makes the client of a user, which holds no commits, over a source of items.
pub(crate) fn client_over<S: BlockSource + Drop>(
    alloc: Global,
    user: u8,
    source: S,
) -> Result<Client<S>, Refusal>
    requires { S.is_checked ≡ true }
{
    let whose = User::new(u64::from(user))?;
    let signer = signer(alloc, user)?;
    let view = View::new(alloc, roster(alloc)?, whose, source)?;
    Ok(Client::of(view, signer))
}

/// Makes the client of a user, which holds no commits and no items.
pub(crate) fn new_client(alloc: Global, user: u8) -> Result<Client<Items>, Refusal> {
    client_over(alloc, user, Checked::new(MemoryBlocks::new(alloc)))
}

/// Makes the clients of the users 0 and 1, which hold no commits and no items.
pub(crate) fn two_clients(alloc: Global) -> Result<(Client<Items>, Client<Items>), Refusal> {
    let (zero, one) = (signer(alloc, 0)?, signer(alloc, 1)?);
    let keys = [*zero.public().as_bytes(), *one.public().as_bytes()];
    let roster = Roster::of_keys(alloc, &keys)?;
    let zero = Client::of(new_view(alloc, roster.copy()?, User::FIRST)?, zero);
    let one = Client::of(new_view(alloc, roster, User::new(1)?)?, one);
    Ok((zero, one))
}

fn new_view(alloc: Global, roster: Roster, whose: User) -> Result<View<Items>, Refusal> {
    View::new(alloc, roster, whose, Checked::new(MemoryBlocks::new(alloc)))
}

/// The file of that number of group 0.
pub(crate) fn file(number: u64) -> Result<FileId, Refusal> {
    Ok(FileId::Group(Group::FIRST, Inum::new(number)?))
}

/// That this file of group 0 is made, with that name in the root directory.
pub(crate) fn create(alloc: Global, name: &[u8], number: u64) -> Result<Change, Refusal> {
    let create = Create {
        dir: FileId::ROOT,
        file: file(number)?,
        body: Inum::new(number)?,
        kind: Kind::File,
        name: Name::new(alloc, name)?,
    };
    Ok(Change::of(alloc, Op::Create(create)))
}

/// That a user takes this file of group 0 over.
pub(crate) fn take(alloc: Global, number: u64) -> Result<Change, Refusal> {
    let take = Take {
        file: file(number)?,
        body: Inum::new(number)?,
    };
    Ok(Change::of(alloc, Op::Take(take)))
}

/// That bytes are written to this file of group 0, from its first byte on.
pub(crate) fn write(alloc: Global, number: u64, bytes: &[u8]) -> Result<Change, Refusal> {
    let write = Write {
        file: file(number)?,
        off: 0,
        bytes: Vec::from_slice(alloc, bytes)?,
    };
    Ok(Change::of(alloc, Op::Write(write)))
}

impl<S: BlockSource + Drop> Client<S> {
    /// Makes the client of a view and its user's signer.
    pub(crate) fn of(view: View<S>, signer: Signer<NoStore>) -> Client<S> {
        Client {
            view,
            key: OwnKey::new(signer),
        }
    }

    /// Makes a commit of a change of its user.
    pub(crate) fn make(&mut self, change: Change) -> Result<Commit, ViewRefusal> {
        self.view.make(change, &mut self.key)
    }

    /// How many leaves its key has left.
    pub(crate) fn leaves(&self) -> u32 {
        self.key.left()
    }

    /// Commits a change of its user.
    pub(crate) fn commit(&mut self, change: Change, seen: &mut Seen) -> Result<u64, Fault>
        requires { S.is_checked ≡ true }
    {
        // names the types for the prover (docs/ARCHITECTURE.md, "Forms the kit wants")
        let _none: (Option<Principal>, Option<Refusal>, Option<FileId>) = (None, None, None);
        let (head, leaves) = (self.view.head(), self.leaves());
        let commit = viewed_again!(
            seen,
            self.view.head() == head && self.leaves() == leaves,
            self.make(change.clone()?)
        )?;
        let number = viewed_again!(
            seen,
            self.view.head() == head,
            self.view.accept_own(&commit)
        )?;
        Ok(number)
    }

    /// The bytes of the commit of that number, and the item of its change.
    pub(crate) fn entry(&self, number: u64) -> Result<(&[u8], &[u8]), Fault> {
        match self.view.entry(number) {
            Some(entry) => Ok(entry),
            None => Err(Fault::Wrong(Mistake::Commit)),
        }
    }

    /// The commit of that number.
    pub(crate) fn commit_at(&self, alloc: Global, number: u64) -> Result<Commit, Fault> {
        let (bytes, _item) = self.entry(number)?;
        Ok(Commit::decode(alloc, bytes)?)
    }

    /// A list of the commits of these numbers, as a server shows it.
    pub(crate) fn list(&self, alloc: Global, numbers: &[u64]) -> Result<Vec<u8>, Fault> {
        let mut list = Vec::new(alloc);
        for number in numbers {
            let (bytes, _item) = self.entry(*number)?;
            push_counted(&mut list, bytes)?;
        }
        Ok(list)
    }

    /// All that it shows: the head, and the files of the root directory with names and contents.
    pub(crate) fn reading(&mut self, alloc: Global) -> Result<Vec<u8>, Fault> {
        let (number, head) = self.view.head();
        let mut reading = Vec::from_slice(alloc, head.as_bytes())?;
        reading.extend_from_slice(&number.to_be_bytes())?;
        for (name, file) in &self.names()? {
            push_counted(&mut reading, name.as_bytes())?;
            push_counted(&mut reading, &self.contents(*file)?)?;
        }
        Ok(reading)
    }

    fn names(&mut self) -> Result<Vec<(Name, FileId)>, Refusal> {
        self.view.list(FileId::ROOT)
    }

    fn contents(&mut self, file: FileId) -> Result<Vec<u8>, Refusal> {
        self.view.read_at(file, 0, 9_999)
    }

    /// Holds the item from now on.
    pub(crate) fn put(&mut self, alloc: Global, item: &[u8]) -> Result<Digest, Refusal> {
        self.view.source_mut().put(alloc, item)
    }

    /// Is given the items of those commits of another client.
    pub(crate) fn get_items<T: BlockSource + Drop>(
        &mut self,
        alloc: Global,
        of: &Client<T>,
        numbers: &[u64],
    ) -> Result<(), Fault> {
        // names the types for the prover (docs/ARCHITECTURE.md, "Forms the kit wants")
        let _none: (Option<FileId>, Option<Refusal>) = (None, None);
        for number in numbers {
            let (_bytes, item) = of.entry(*number)?;
            self.put(alloc, item)?;
        }
        Ok(())
    }

    /// Is shown a list of commits, and once more, of what it hasn't taken, where memory was refused.
    /// Tells how many it takes, or what it refuses, of a list whose commits are whole.
    pub(crate) fn accept(
        &mut self,
        alloc: Global,
        list: &[u8],
        seen: &mut Seen,
    ) -> Result<Result<u64, ViewRefusal>, Fault>
        requires { S.is_checked ≡ true }
    {
        let before = self.reading(alloc)?;
        match self.view.accept(list) {
            Ok(count) => Ok(Ok(count)),
            Err((0, ViewRefusal::Plain(Refusal::NoMemory))) => {
                seen.note_call(self.reading(alloc)?.as_slice() == before.as_slice())?;
                Ok(behind(self.view.accept(list)))
            }
            Err((_, refusal)) => Ok(Err(refusal)),
        }
    }
}

fn behind(answer: Result<u64, (u64, ViewRefusal)>) -> Result<u64, ViewRefusal> {
    match answer {
        Ok(count) => Ok(count),
        Err((_, refusal)) => Err(refusal),
    }
}

/// Adds bytes, the number of them before.
pub(crate) fn push_counted(list: &mut Vec<u8>, bytes: &[u8]) -> Result<(), AllocError> {
    list.extend_from_slice(&((bytes.len() & 0xffff) as u32).to_be_bytes())?;
    list.extend_from_slice(bytes)
}
