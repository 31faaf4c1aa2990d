// Users' clients, each call of a view in a function of its own.
use crate::couriers::{Courier, Mood};
use std::alloc::{AllocError, Global};
use std::process::Abort;
use std::test::Fail;
use su_block::{BlockSource, Checked, MemoryBlocks};
use su_bytes::{
    Digest, FileId, Group, Inum, KEY_LENGTH, Kind, Name, Principal, Refusal, Roster, User,
};
use su_lms::{NoStore, Params, Signer};
use su_op::{Change, Create, Op, Take, Write};
use su_version::Commit;
use su_view::{OwnKey, View, ViewRefusal};

/// What a view answers to a list of commits.
pub(crate) type Answer = Result<u64, (u64, ViewRefusal)>;

/// A user's view with the user's key.
pub(crate) struct Client {
    view: View<Checked<Courier>>,
    key: OwnKey<NoStore>,
}

impl Drop for Client {
    // (By hand, so that a caller's proof needs no case for each part of a view.)
    fn drop(self) {
        let Client {
            view: _view,
            key: _key,
        } = self;
    }
}

/// Makes the signer of a user's key.
pub(crate) fn signer(alloc: Global, user: u8) -> Result<Signer<NoStore>, Refusal> {
    Signer::generate(alloc, Params::new(5, 3)?, [user; 16], [7; 32], NoStore)
}

/// Makes the public key of a user.
pub(crate) fn key(alloc: Global, user: u8) -> Result<[u8; KEY_LENGTH], Refusal> {
    Ok(*signer(alloc, user)?.public().as_bytes())
}

/// Makes the roster of the users 0 to 2, who are all in group 0.
pub(crate) fn roster(alloc: Global) -> Result<Roster, Refusal> {
    let keys = [key(alloc, 0)?, key(alloc, 1)?, key(alloc, 2)?];
    Roster::of_keys(alloc, &keys)
}

/// Makes the client of a user, which holds no commits.
pub(crate) fn new_client(alloc: Global, user: u8) -> Result<Client, Refusal> {
    let whose = User::new(u64::from(user))?;
    let key = OwnKey::new(signer(alloc, user)?);
    let roster = roster(alloc)?;
    let view = View::new(alloc, roster, whose, Checked::new(Courier::new(alloc)))?;
    Ok(Client { view, key })
}

/// The file of that number of group 0.
pub(crate) fn file(number: u64) -> Result<FileId, Refusal> {
    Ok(FileId::Group(Group::FIRST, Inum::new(number)?))
}

impl Client {
    fn make(&mut self, change: Change) -> Result<Commit, ViewRefusal> {
        self.view.make(change, &mut self.key)
    }

    fn take_own(&mut self, commit: &Commit) -> Result<u64, ViewRefusal> {
        self.view.accept_own(commit)
    }

    fn commit(&mut self, change: Change) -> Result<u64, Fail> {
        // names the types for the prover (docs/ARCHITECTURE.md, "Forms the kit wants")
        let _none: (Option<Principal>, Option<Refusal>) = (None, None);
        let commit = self.make(change)?;
        Ok(self.take_own(&commit)?)
    }

    /// Commits that this file of group 0 is made, with that name in the root directory.
    pub(crate) fn create(&mut self, alloc: Global, name: &[u8], number: u64) -> Result<u64, Fail> {
        let create = Create {
            dir: FileId::ROOT,
            file: file(number)?,
            body: Inum::new(number)?,
            kind: Kind::File,
            name: Name::new(alloc, name)?,
        };
        self.commit(Change::of(alloc, Op::Create(create)))
    }

    /// Commits that its user takes this file of group 0 over.
    pub(crate) fn take(&mut self, alloc: Global, number: u64) -> Result<u64, Fail> {
        let take = Take {
            file: file(number)?,
            body: Inum::new(number)?,
        };
        self.commit(Change::of(alloc, Op::Take(take)))
    }

    /// Commits that bytes are written to this file of group 0, from its first byte on.
    pub(crate) fn write(&mut self, alloc: Global, number: u64, bytes: &[u8]) -> Result<u64, Fail> {
        let write = Write {
            file: file(number)?,
            off: 0,
            bytes: Vec::from_slice(alloc, bytes)?,
        };
        self.commit(Change::of(alloc, Op::Write(write)))
    }

    /// Commits the undo of that entry.
    pub(crate) fn undo(&mut self, number: u64) -> Result<u64, Fail> {
        self.commit(Change::Undo(number))
    }

    /// Is shown a list of commits.
    pub(crate) fn accept(&mut self, list: &[u8]) -> Answer {
        self.view.accept(list)
    }

    /// Is shown the users' last commits.
    pub(crate) fn check_list(&self, shown: &[Commit]) -> Result<(), ViewRefusal> {
        self.view.check_list(shown)
    }

    /// The numbers of the live operations.
    pub(crate) fn live(&mut self) -> Result<Vec<u64>, Refusal> {
        self.view.live()
    }

    /// The number and the digest of the last commit.
    pub(crate) fn head(&self) -> (u64, Digest) {
        self.view.head()
    }

    /// The bytes of the commit of that number, and the item of its change.
    pub(crate) fn entry(&self, number: u64) -> Result<(&[u8], &[u8]), Fail> {
        match self.view.entry(number) {
            Some(entry) => Ok(entry),
            None => Err(Fail::new("no such commit")),
        }
    }

    /// The commit of that number.
    pub(crate) fn commit_at(&self, alloc: Global, number: u64) -> Result<Commit, Fail> {
        let (bytes, _item) = self.entry(number)?;
        Ok(Commit::decode(alloc, bytes)?)
    }

    /// A list of the commits of these numbers, as a server shows it.
    pub(crate) fn list(&self, alloc: Global, numbers: &[u64]) -> Result<Vec<u8>, Fail> {
        let mut list = Vec::new(alloc);
        for number in numbers {
            let (bytes, _item) = self.entry(*number)?;
            push_counted(&mut list, bytes)?;
        }
        Ok(list)
    }

    /// Holds the item from now on.
    pub(crate) fn put(&mut self, alloc: Global, item: &[u8]) -> Result<Digest, Refusal> {
        self.view.source_mut().put(alloc, item)
    }

    /// Its source does so from now on.
    pub(crate) fn set_mood(&mut self, mood: Mood) {
        self.view.source_mut().source_mut().mood = mood;
    }

    /// Its source loses all items.
    pub(crate) fn lose_items(&mut self, alloc: Global) {
        self.view.source_mut().source_mut().items = MemoryBlocks::new(alloc);
    }

    /// The bytes of a file.
    pub(crate) fn contents(&mut self, file: FileId) -> Result<Vec<u8>, Refusal> {
        self.view.read_at(file, 0, 9_999)
    }

    /// The names of the root directory, each with its file.
    pub(crate) fn names(&mut self) -> Result<Vec<(Name, FileId)>, Refusal> {
        self.view.list(FileId::ROOT)
    }

    /// All that it shows: the head, and the files of the root directory with names and contents.
    pub(crate) fn reading(&mut self, alloc: Global) -> Result<Vec<u8>, Fail> {
        let (number, head) = self.head();
        let mut reading = Vec::from_slice(alloc, head.as_bytes())?;
        reading.extend_from_slice(&number.to_be_bytes())?;
        for (name, file) in &self.names()? {
            push_counted(&mut reading, name.as_bytes())?;
            push_counted(&mut reading, &self.contents(*file)?)?;
        }
        Ok(reading)
    }

    /// Is given the items of those commits of another client.
    pub(crate) fn get_items(
        &mut self,
        alloc: Global,
        of: &Client,
        numbers: &[u64],
    ) -> Result<(), Fail> {
        // names the type for the prover (docs/ARCHITECTURE.md, "Forms the kit wants")
        let _none: Option<FileId> = None;
        for number in numbers {
            let (_bytes, item) = of.entry(*number)?;
            self.put(alloc, item)?;
        }
        Ok(())
    }

    /// Takes those commits of another client.
    pub(crate) fn follow(
        &mut self,
        alloc: Global,
        of: &Client,
        numbers: &[u64],
    ) -> Result<Answer, Fail> {
        self.get_items(alloc, of, numbers)?;
        let list = of.list(alloc, numbers)?;
        Ok(self.accept(&list))
    }

    /// Takes all those commits of another client.
    pub(crate) fn catch_up(
        &mut self,
        alloc: Global,
        of: &Client,
        numbers: &[u64],
    ) -> Result<(), Fail> {
        // names the type for the prover (docs/ARCHITECTURE.md, "Forms the kit wants")
        let _none: (Option<Principal>, Option<Refusal>) = (None, None);
        self.follow(alloc, of, numbers)??;
        Ok(())
    }

    /// Refuses the first commit of a list so, and shows what it showed before.
    pub(crate) fn refuses(
        &mut self,
        rt: &impl Abort,
        alloc: Global,
        list: &[u8],
        refusal: ViewRefusal,
    ) -> Result<(), Fail> {
        let before = self.reading(alloc)?;
        assert_eq!(rt; self.accept(list), Err((0, refusal)));
        assert!(rt; self.reading(alloc)?.as_slice() == before.as_slice());
        Ok(())
    }
}

/// Adds bytes, the number of them before.
pub(crate) fn push_counted(list: &mut Vec<u8>, bytes: &[u8]) -> Result<(), AllocError> {
    list.extend_from_slice(&((bytes.len() & 0xffff) as u32).to_be_bytes())?;
    list.extend_from_slice(bytes)
}
