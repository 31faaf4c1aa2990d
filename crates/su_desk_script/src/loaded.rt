// A desk all of whose tree is loaded.
ghost use Rattle.std.specs.Prelude.{◌≡◌, ◌⊎◌, [], Ok, Err, IfOk, IfErr, OnOk, OnErr};
ghost use Rattle.su_bytes.specs.declared.refusals.Refusal.TheVariants.{NoMemory};
ghost use Rattle.su_desk.specs.Desk.{Answers, DeskState};
ghost use Rattle.su_desk.specs.History.{entry_by, undo_by, last_live};
ghost use Rattle.su_desk.specs.Trial.{nothing_ready};
ghost use Rattle.su_desk.specs.Version.{versions};
ghost use Rattle.su_desk.specs.declared.entries.Entry.{Entry as Entry_};
ghost use Rattle.su_part_tree.specs.Loading.{IsLoadRefusal};
ghost use Rattle.su_reading.specs.Reading.{Inquiry};
ghost use Rattle.su_stored_desk.specs.Asked.{Answers as MayAnswer};
ghost use Rattle.su_table.specs.Handle.{handle};
ghost use Rattle.su_table.specs.Query.{contents_within, listing};
ghost use Rattle.su_desk_script.specs.Described.{IsDescribed};
ghost use Rattle.su_desk_script.specs.Session.{desk_tree, description};

use std::alloc::Global;
use std::marker::Model;
use su_block::MemoryBlocks;
use su_bytes::{Digest, FileId, Format, Name, Place, Principal, Refusal, Roster, User};
use su_op::Change;
use su_reading::{InodeHead, TreeReader};
use su_stored_desk::TrialDesk;

/// A desk of whose tree nothing is left on a store. Its model is what is settled, and what stands
/// ready.
#[derive(Drop)]
pub struct LoadedDesk {
    desk: TrialDesk<MemoryBlocks>,
}

impl Model for LoadedDesk {
    ghost use Rattle.su_desk.specs.Trial.{TrialState};
    ghost use Rattle.su_desk_script.specs.Quiet.{IsQuiet};

    ghost Value = { TrialState };

    ghost view = { λ d. d.desk.state };

    ghost invariant = { λ d. IsQuiet d.desk };
}

impl LoadedDesk {
    /// Makes a desk with an empty history. Fails only with `NoMemory`.
    pub fn new(alloc: Global, roster: Roster) -> Result<LoadedDesk, Refusal>
        ensures value { IfOk result (λ desk. desk
            ≡ nothing_ready (record { roster = roster; history = [] })) }
        ensures refused { IfErr result (λ e. e ≡ NoMemory) }
    {
        Ok(LoadedDesk {
            desk: TrialDesk::new(alloc, roster, MemoryBlocks::new(alloc))?,
        })
    }

    /// Returns who belongs to the store.
    pub fn roster(&self) -> &Roster
        ensures { result.now ≡ self.now.settled.roster }
    {
        self.desk.roster()
    }

    /// Returns the version numbers of what is settled, of the users of the roster, and then of its
    /// groups.
    pub fn versions(&self) -> &[(Principal, u64)]
        ensures { result.now ≡ versions self.now.settled.roster self.now.settled.history }
    {
        self.desk.versions()
    }

    /// Makes a change in that format for good, and returns the number of its entry. What stood ready
    /// is taken back before.
    pub fn apply_as(&mut self, format: Format, author: User, change: Change) -> Result<u64, Refusal>
        ensures { Answers self.old.settled (entry_by author format change) result
            self.new.settled }
    {
        let answer = self.desk.apply_as(format, author, change);
        answer_without_loads(answer)
    }

    /// Undoes the last live operation in that format, as `apply_as` does. Fails with `NoOperation`
    /// of 0 where there is none.
    pub fn undo_last_as(&mut self, format: Format, author: User) -> Result<u64, Refusal>
        ensures { let d = self.old.settled in
            Answers d (undo_by author format (last_live d.history)) result self.new.settled }
    {
        let answer = self.desk.undo_last_as(format, author);
        answer_without_loads(answer)
    }

    /// Takes back what stands ready. Fails only with `NoMemory`.
    pub fn take_back(&mut self) -> Result<(), Refusal>
        ensures ok { OnOk result (self.new ≡ nothing_ready self.old.settled) }
        ensures refused { IfErr result (λ e. e ≡ NoMemory) }
        ensures err { OnErr result (self.new.settled ≡ self.old.settled) }
    {
        match self.desk.take_back() {
            Ok(()) => Ok(()),
            Err(refusal) => Err(without_loads(refusal)),
        }
    }

    /// Lists the names of a directory with the files that they lead to, ascending, where nothing
    /// stands ready. `NoFile` where the file has no body, `WrongKind` where its body is no directory;
    /// `NoMemory`.
    pub fn list(&mut self, directory: FileId) -> Result<Vec<(Name, FileId)>, Refusal>
        requires { self.old.ready ≡ [] }
        ensures ok { IfOk result (λ names.
            listing (desk_tree self.old.settled) directory ≡ Ok names.items) }
        ensures refused { IfErr result (λ e. (e ≡ NoMemory)
            ⊎ (listing (desk_tree self.old.settled) directory ≡ Err e)) }
        ensures same { self.new ≡ self.old }
    {
        self.desk.note_asked();
        match su_files::list(&mut self.desk, directory) {
            Ok(names) => Ok(names),
            Err(refusal) => Err(without_loads(refusal)),
        }
    }

    /// Reads the bytes of a file within a range, which may reach past its end, where nothing stands
    /// ready. `NoFile` where the file has no body, `WrongKind` where its body is a directory;
    /// `NoMemory`.
    pub fn read_at(&mut self, file: FileId, off: u64, len: u64) -> Result<Vec<u8>, Refusal>
        requires { self.old.ready ≡ [] }
        ensures ok { IfOk result (λ bytes.
            contents_within (desk_tree self.old.settled) file off len ≡ Ok bytes.items) }
        ensures refused { IfErr result (λ e. (e ≡ NoMemory)
            ⊎ (contents_within (desk_tree self.old.settled) file off len ≡ Err e)) }
        ensures same { self.new ≡ self.old }
    {
        self.desk.note_asked();
        match su_files::read_at(&mut self.desk, file, off, len) {
            Ok(bytes) => Ok(bytes),
            Err(refusal) => Err(without_loads(refusal)),
        }
    }

    /// Tells where the body of a file stands, and what it is beside its content, where nothing stands
    /// ready. `NoFile` where it has none, `WrongKind` where a group's pointer points at nothing;
    /// `NoMemory`.
    pub fn describe(&mut self, file: FileId) -> Result<(Place, InodeHead), Refusal>
        requires { self.old.ready ≡ [] }
        ensures ok { IfOk result (IsDescribed (desk_tree self.old.settled) file) }
        ensures refused { IfErr result (λ e. (e ≡ NoMemory)
            ⊎ (description (desk_tree self.old.settled) file ≡ Err e)) }
        ensures same { self.new ≡ self.old }
    {
        self.desk.note_asked();
        match describe(&mut self.desk, &file) {
            Ok(description) => Ok(description),
            Err(refusal) => Err(without_loads(refusal)),
        }
    }

    /// Returns the digest of an i-table, where nothing stands ready.
    pub fn handle(&self, principal: Principal) -> Digest
        requires { self.now.ready ≡ [] }
        ensures { result ≡ handle (desk_tree self.now.settled) principal }
    {
        match principal {
            Principal::User(user) => self.desk.i_handle(user),
            Principal::Group(group) => self.desk.group_handle(group),
        }
    }
}

/// Tells where the body of a file stands, and what it is beside its content. `NoFile` where it has
/// none, `WrongKind` where a group's pointer points at nothing; as the reader fails; or `NoMemory`.
fn describe<R: TreeReader>(reader: &mut R, file: &FileId) -> Result<(Place, InodeHead), Refusal>
    ensures describes { Inquiry R.shows R.fails R.follows reader.old reader.new result
        (λ T d. IsDescribed T file.now d) (λ T e. description T file.now ≡ Err e) }
{
    let Some((user, number)) = reader.body(*file)? else {
        return Err(Refusal::NoFile(*file));
    };
    match reader.head((user, number))? {
        Some(head) => Ok(((user, number), head)),
        None => Err(Refusal::WrongKind(*file)),
    }
}

/// Tells the answer to a change of a desk all of which is loaded: a load that is refused as want of
/// memory.
fn answer_without_loads(answer: Result<u64, Refusal>) -> Result<u64, Refusal>
    ensures { (d e : DeskState) (entry : Entry_) → MayAnswer d entry answer e
        → Answers d entry result e }
{
    match answer {
        Ok(number) => Ok(number),
        Err(refusal) => Err(without_loads(refusal)),
    }
}

/// Tells a refusal of a desk all of which is loaded: a load that is refused as want of memory. (It
/// can't come, as nothing was left on the desk's store; but no clause of the desk says so.)
fn without_loads(refusal: Refusal) -> Refusal
    ensures load { IsLoadRefusal refusal → result ≡ NoMemory }
    ensures told { (result ≡ NoMemory) ⊎ (result ≡ refusal) }
{
    match refusal {
        Refusal::MissingBlock
        | Refusal::WrongBlock
        | Refusal::SourceFailed
        | Refusal::Malformed(_) => Refusal::NoMemory,
        refusal => refusal,
    }
}
