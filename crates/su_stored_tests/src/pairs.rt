// A desk that is shed, over a source that has faults, beside one all of whose tree is in memory.
ghost use Rattle.std.specs.Prelude.{◌≡◌, []};

use crate::changes::{some_change, some_file, some_number, some_user};
use crate::desks::{
    StoredDesk, WholeDesk, failures, handle_of, mend, set_fault, stored_desk, whole_desk,
};
use crate::dice::Dice;
use crate::sources::Fault;
use std::alloc::Global;
use std::process::Abort;
use std::test::Fail;
use su_bytes::{FileId, Group, Refusal, User};
use su_desk::Prepared;
use su_files::{list, read_at, stat};
use su_op::Change;
use su_reading::TreeReader;

/// Which step of which history is made.
#[derive(Clone, Copy, Debug)]
pub(crate) struct Step {
    pub(crate) seed: u64,
    pub(crate) number: u64,
}

/// How often two desks accepted a change alike, and refused one, and how often something couldn't be
/// loaded.
#[derive(Clone, Copy, Debug)]
pub(crate) struct Met {
    pub(crate) accepted: u64,
    pub(crate) refused: u64,
    pub(crate) unloaded: u64,
}

impl Met {
    /// Nothing was met.
    pub(crate) fn nothing() -> Met {
        Met {
            accepted: 0,
            refused: 0,
            unloaded: 0,
        }
    }

    /// Adds what else was met.
    pub(crate) fn add(&mut self, other: &Met) {
        self.accepted = self.accepted.saturating_add(other.accepted);
        self.refused = self.refused.saturating_add(other.refused);
        self.unloaded = self.unloaded.saturating_add(other.unloaded);
    }
}

/// Two desks on which the same changes are made.
#[derive(Drop)]
pub(crate) struct Pair {
    stored: StoredDesk,
    plain: WholeDesk,
    dice: Dice,
    /// How often the source has failed.
    failures: u64,
    /// What was met so far.
    pub(crate) met: Met,
}

/// Returns how something is refused, if it is.
fn refusal_of<T>(answer: &Result<T, Refusal>) -> Option<Refusal> {
    match answer {
        Ok(_) => None,
        Err(refusal) => Some(*refusal),
    }
}

/// Tells whether two desks told the same of a change.
fn is_told_alike(one: &Result<Prepared, Refusal>, other: &Result<Prepared, Refusal>) -> bool {
    match (one, other) {
        (Ok(one), Ok(other)) => is_same(one, other),
        (Err(one), Err(other)) => one == other,
        _ => false,
    }
}

fn is_same(one: &Prepared, other: &Prepared) -> bool {
    one.number == other.number
        && one.versions.as_slice() == other.versions.as_slice()
        && one.author_handle == other.author_handle
        && one.groups.as_slice() == other.groups.as_slice()
}

impl Pair {
    /// Makes two desks without entries.
    pub(crate) fn new(alloc: Global, seed: u64) -> Result<Pair, Refusal> {
        let mut dice = Dice::new(seed);
        let capacity = dice.below(8) + 1;
        Ok(Pair {
            stored: stored_desk(alloc, capacity as usize)?,
            plain: whole_desk(alloc)?,
            dice,
            failures: 0,
            met: Met::nothing(),
        })
    }

    /// Makes the next step.
    pub(crate) fn go_on(
        &mut self,
        rt: &impl Abort,
        alloc: Global,
        step: &Step,
    ) -> Result<(), Fail> {
        self.upset();
        match self.dice.below(12) {
            0 | 1 => self.read(rt, step)?,
            2 => self.undo_last(rt, step)?,
            3 => self.take_back(rt, step)?,
            _ => self.change(rt, alloc, step)?,
        }
        if self.dice.one_of(3) {
            self.upset();
            self.shed(rt, step)?;
        }
        Ok(())
    }

    /// The source has a fault at some call, or none.
    fn upset(&mut self) {
        mend(&mut self.stored);
        if !self.dice.one_of(3) {
            return;
        }
        let fault = match self.dice.below(3) {
            0 => Fault::Lacks,
            1 => Fault::Lies,
            _ => Fault::Fails,
        };
        let before = self.dice.below(8);
        let lasts = self.dice.one_of(2);
        set_fault(&mut self.stored, fault, before, lasts);
    }

    /// Tells whether something couldn't be loaded or put, which is so just where the source has
    /// failed; then that is mended.
    fn has_failed(&mut self, rt: &impl Abort, step: &Step, refusal: Option<Refusal>) -> bool {
        let failures = failures(&mut self.stored);
        let has_failed = failures != self.failures;
        self.failures = failures;
        let is_told = matches!(
            refusal,
            Some(Refusal::MissingBlock | Refusal::WrongBlock | Refusal::SourceFailed)
        );
        assert_eq!(rt; is_told, has_failed, "{step:?}: {refusal:?}");
        if has_failed {
            mend(&mut self.stored);
            self.met.unloaded = self.met.unloaded.saturating_add(1);
        }
        has_failed
    }

    /// A change is made, and settled or not.
    fn change(&mut self, rt: &impl Abort, alloc: Global, step: &Step) -> Result<(), Fail> {
        let entries = self.plain.history().len() as u64;
        let (author, change) = some_change(alloc, &mut self.dice, &mut self.plain, entries)?;
        let author = self.who_may(author, &change);
        let told = self.plain.prepare(author, change.clone()?);
        let mut answer = self.stored.prepare(author, change.clone()?);
        if self.has_failed(rt, step, refusal_of(&answer)) {
            answer = self.stored.prepare(author, change.clone()?);
        }
        assert!(rt;
            is_told_alike(&answer, &told),
            "{step:?}: {author:?} {change:?}: {answer:?}, not {told:?}"
        );
        match answer {
            Ok(prepared) => self.settle(rt, step, prepared, author, change)?,
            Err(_) => self.met.refused = self.met.refused.saturating_add(1),
        }
        Ok(())
    }

    /// Returns who made the entry that is to be undone, and else that author.
    fn who_may(&self, author: User, change: &Change) -> User {
        let Change::Undo(number) = change else {
            return author;
        };
        match self
            .plain
            .history()
            .get((*number as usize).saturating_sub(1))
        {
            Some(entry) => entry.author(),
            None => author,
        }
    }

    /// The change that was accepted is settled, mostly.
    fn settle(
        &mut self,
        rt: &impl Abort,
        step: &Step,
        prepared: Prepared,
        author: User,
        change: Change,
    ) -> Result<(), Fail> {
        self.met.accepted = self.met.accepted.saturating_add(1);
        if !self.dice.one_of(6) {
            let number = self.plain.apply(author, change)?;
            assert_eq!(rt; self.stored.settle(prepared), number, "{step:?}");
        }
        Ok(())
    }

    /// The last live operation is undone.
    fn undo_last(&mut self, rt: &impl Abort, step: &Step) -> Result<(), Fail> {
        let author = some_user(&mut self.dice)?;
        let told = self.plain.undo_last(author);
        let mut answer = self.stored.undo_last(author);
        if self.has_failed(rt, step, refusal_of(&answer)) {
            answer = self.stored.undo_last(author);
        }
        assert_eq!(rt; answer, told, "{step:?}: undo_last {author:?}");
        Ok(())
    }

    /// What stands ready is taken back.
    fn take_back(&mut self, rt: &impl Abort, step: &Step) -> Result<(), Fail> {
        self.plain.take_back()?;
        let answer = self.stored.take_back();
        if self.has_failed(rt, step, refusal_of(&answer)) {
            self.stored.take_back()?;
        }
        Ok(())
    }

    /// All is left on the store, and at times what is kept of live operations.
    fn shed(&mut self, rt: &impl Abort, step: &Step) -> Result<(), Fail> {
        let answer = self.stored.shed();
        if self.has_failed(rt, step, refusal_of(&answer)) {
            self.stored.shed()?;
        }
        if self.dice.one_of(2) {
            self.upset();
            self.leave_kept(rt, step)?;
        }
        Ok(())
    }

    /// What is kept of live operations is left on the store too.
    fn leave_kept(&mut self, rt: &impl Abort, step: &Step) -> Result<(), Fail> {
        let answer = self.stored.leave_kept();
        if self.has_failed(rt, step, refusal_of(&answer)) {
            self.stored.leave_kept()?;
        }
        Ok(())
    }

    /// A file is asked about.
    fn read(&mut self, rt: &impl Abort, step: &Step) -> Result<(), Fail> {
        let (_holder, file) = some_file(&mut self.dice, &mut self.plain, None)?;
        self.read_stat(rt, step, &file);
        self.upset();
        self.read_names(rt, step, &file);
        self.upset();
        self.read_bytes(rt, step, &file);
        self.upset();
        self.read_free(rt, step)?;
        self.upset();
        self.read_free_in_group(rt, step)
    }

    fn read_stat(&mut self, rt: &impl Abort, step: &Step, file: &FileId) {
        let told = stat(&mut self.plain, *file);
        let mut answer = stat(&mut self.stored, *file);
        if self.has_failed(rt, step, refusal_of(&answer)) {
            answer = stat(&mut self.stored, *file);
        }
        assert_eq!(rt; answer, told, "{step:?}: {file:?}");
    }

    fn read_names(&mut self, rt: &impl Abort, step: &Step, file: &FileId) {
        let told = list(&mut self.plain, *file);
        let mut answer = list(&mut self.stored, *file);
        if self.has_failed(rt, step, refusal_of(&answer)) {
            answer = list(&mut self.stored, *file);
        }
        assert_eq!(rt;
            refusal_of(&answer),
            refusal_of(&told),
            "{step:?}: names of {file:?}"
        );
        if let (Ok(answer), Ok(told)) = (&answer, &told) {
            assert!(rt;
                answer.as_slice() == told.as_slice(),
                "{step:?}: names of {file:?}"
            );
        }
    }

    fn read_bytes(&mut self, rt: &impl Abort, step: &Step, file: &FileId) {
        let (off, len) = (self.dice.below(9_000), self.dice.below(9_000));
        let told = read_at(&mut self.plain, *file, off, len);
        let mut answer = read_at(&mut self.stored, *file, off, len);
        if self.has_failed(rt, step, refusal_of(&answer)) {
            answer = read_at(&mut self.stored, *file, off, len);
        }
        assert_eq!(rt;
            refusal_of(&answer),
            refusal_of(&told),
            "{step:?}: bytes of {file:?}"
        );
        if let (Ok(answer), Ok(told)) = (&answer, &told) {
            assert!(rt;
                answer.as_slice() == told.as_slice(),
                "{step:?}: bytes of {file:?}"
            );
        }
    }

    fn read_free(&mut self, rt: &impl Abort, step: &Step) -> Result<(), Fail> {
        let user = some_user(&mut self.dice)?;
        let number = some_number(&mut self.dice)?;
        let told = self.plain.free_number(user, number);
        let mut answer = self.stored.free_number(user, number);
        if self.has_failed(rt, step, refusal_of(&answer)) {
            answer = self.stored.free_number(user, number);
        }
        assert_eq!(rt; answer, told, "{step:?}: {user:?} from {number:?}");
        Ok(())
    }

    fn read_free_in_group(&mut self, rt: &impl Abort, step: &Step) -> Result<(), Fail> {
        let group = Group::new(self.dice.below(2))?;
        let number = some_number(&mut self.dice)?;
        let told = self.plain.free_group_number(group, number);
        let mut answer = self.stored.free_group_number(group, number);
        if self.has_failed(rt, step, refusal_of(&answer)) {
            answer = self.stored.free_group_number(group, number);
        }
        assert_eq!(rt; answer, told, "{step:?}: {group:?} from {number:?}");
        Ok(())
    }

    /// At the end both desks are alike.
    pub(crate) fn compare(&mut self, rt: &impl Abort, step: &Step) -> Result<(), Fail> {
        mend(&mut self.stored);
        self.stored.take_back()?;
        self.plain.take_back()?;
        self.compare_histories(rt, step)?;
        for number in 0..2 {
            self.compare_handles(rt, step, User::new(number)?)?;
        }
        Ok(())
    }

    /// The histories are the same: what is live, the version numbers, and what stands in the way of
    /// each undo.
    fn compare_histories(&self, rt: &impl Abort, step: &Step) -> Result<(), Fail>
        requires stored { self.now.stored.state.ready ≡ [] }
        requires plain { self.now.plain.state.ready ≡ [] }
    {
        let entries = self.plain.history().len() as u64;
        assert_eq!(rt; self.stored.history().len() as u64, entries, "{step:?}");
        assert!(rt;
            self.stored.live()?.as_slice() == self.plain.live()?.as_slice(),
            "{step:?}"
        );
        assert!(rt; self.stored.versions() == self.plain.versions(), "{step:?}");
        for number in 0..entries.saturating_add(2) {
            assert_eq!(rt;
                self.stored.blocker(number),
                self.plain.blocker(number),
                "{step:?}"
            );
        }
        Ok(())
    }

    /// The i-handles of a user are the same.
    fn compare_handles(&mut self, rt: &impl Abort, step: &Step, user: User) -> Result<(), Fail> {
        let handle = handle_of(&mut self.plain, user)?;
        assert_eq!(rt; handle_of(&mut self.stored, user)?, handle, "{step:?}");
        Ok(())
    }
}
