// The tree of the list is asked about, and commands are planned on it.
ghost use Rattle.std.specs.Prelude.{◌≡◌, ◌⊎◌, ℕ, List, Ok, Err, None, IfOk, IfErr};
ghost use Rattle.su_bytes.specs.declared.formats.TheConstants.{NEWEST_FORMAT};
ghost use Rattle.su_desk.specs.History.{live_numbers};
ghost use Rattle.su_draft.specs.Walk.{found};
ghost use Rattle.su_files.specs.Stat.{stat_in};
ghost use Rattle.su_legal.specs.Legal.{history};
ghost use Rattle.su_op.specs.Batch.{first_refusal};
ghost use Rattle.su_part_forest.specs.Loading.{HashedFor};
ghost use Rattle.su_part_tree.specs.Loading.{IsLoadRefusal};
ghost use Rattle.su_plan.specs.Plan.{plan, plan_all};
ghost use Rattle.su_stored_desk.specs.Hashed.{WasHashed};
ghost use Rattle.su_table.specs.Query.{contents, contents_within, listing};
ghost use Rattle.su_view.specs.Holding.{tree_of_list};

use super::View;
use su_block::BlockSource;
use su_bytes::{FileId, Name, Refusal};
use su_draft::Command;
use su_files::Stat;
use su_op::Op;

impl<S: BlockSource> View<S> {
    ghost use Rattle.su_view.specs.Viewed.{desk_of, AsksOn, AsksOnly, IsClear};

    /// Returns the numbers of the live operations, ascending. Fails as a load does, and with
    /// `NoMemory`.
    pub fn live(&mut self) -> Result<Vec<u64>, Refusal>
        ensures value { let v = self.old.holding in IsClear S.may_give self.new
            → IfOk result (λ numbers. numbers.items ≡ live_numbers (history v.held)) }
        ensures refused { IsClear S.may_give self.new → IfErr result IsLoadRefusal }
        ensures holding { self.new.holding ≡ self.old.holding }
        ensures asks { AsksOn S.may_give S.follows self.old self.new }
    {
        self.keeping.desk.take_back()?;
        self.keeping.desk.live()
    }

    /// Tells what a file is: who holds it, its kind, its size and its names. `NoFile` where it has no
    /// body; or as a load is refused.
    pub fn stat(&mut self, file: FileId) -> Result<Stat, Refusal>
        ensures ok { let v = self.old.holding in IsClear S.may_give self.new
            → IfOk result (λ stat. stat_in (tree_of_list v) file ≡ Ok stat) }
        ensures refused { let v = self.old.holding in IsClear S.may_give self.new
            → IfErr result (λ e. IsLoadRefusal e ⊎ (stat_in (tree_of_list v) file ≡ Err e)) }
        ensures holding { self.new.holding ≡ self.old.holding }
        ensures asks { AsksOn S.may_give S.follows self.old self.new }
    {
        self.keeping.desk.take_back()?;
        self.keeping.desk.note_asked();
        su_files::stat(&mut self.keeping.desk, file)
    }

    /// Lists the names of a directory with the files that they lead to, ascending. `NoFile` where
    /// the file has no body, `WrongKind` where its body is no directory; or as a load is refused.
    pub fn list(&mut self, file: FileId) -> Result<Vec<(Name, FileId)>, Refusal>
        ensures ok { let v = self.old.holding in IsClear S.may_give self.new
            → IfOk result (λ names. listing (tree_of_list v) file ≡ Ok names.items) }
        ensures refused { let v = self.old.holding in IsClear S.may_give self.new
            → IfErr result (λ e. IsLoadRefusal e ⊎ (listing (tree_of_list v) file ≡ Err e)) }
        ensures holding { self.new.holding ≡ self.old.holding }
        ensures asks { AsksOn S.may_give S.follows self.old self.new }
    {
        self.keeping.desk.take_back()?;
        self.keeping.desk.note_asked();
        su_files::list(&mut self.keeping.desk, file)
    }

    /// Reads all bytes of a file. `NoFile` where the file has no body, `WrongKind` where its body is a
    /// directory; or as a load is refused.
    pub fn contents(&mut self, file: FileId) -> Result<Vec<u8>, Refusal>
        ensures ok { let v = self.old.holding in IsClear S.may_give self.new
            → IfOk result (λ bytes. contents (tree_of_list v) file ≡ Ok bytes.items) }
        ensures refused { let v = self.old.holding in IsClear S.may_give self.new
            → IfErr result (λ e. IsLoadRefusal e ⊎ (contents (tree_of_list v) file ≡ Err e)) }
        ensures holding { self.new.holding ≡ self.old.holding }
        ensures asks { AsksOn S.may_give S.follows self.old self.new }
    {
        self.keeping.desk.take_back()?;
        self.keeping.desk.note_asked();
        su_files::read(&mut self.keeping.desk, file)
    }

    /// Reads the bytes of a file within a range, which may reach past its end. `NoFile` where the
    /// file has no body, `WrongKind` where its body is a directory; or as a load is refused.
    pub fn read_at(&mut self, file: FileId, off: u64, len: u64) -> Result<Vec<u8>, Refusal>
        ensures ok { let v = self.old.holding in IsClear S.may_give self.new
            → IfOk result (λ bytes. contents_within (tree_of_list v) file off len
            ≡ Ok bytes.items) }
        ensures refused { let v = self.old.holding in IsClear S.may_give self.new
            → IfErr result (λ e. IsLoadRefusal e
            ⊎ (contents_within (tree_of_list v) file off len ≡ Err e)) }
        ensures holding { self.new.holding ≡ self.old.holding }
        ensures asks { AsksOn S.may_give S.follows self.old self.new }
    {
        self.keeping.desk.take_back()?;
        self.keeping.desk.note_asked();
        su_files::read_at(&mut self.keeping.desk, file, off, len)
    }

    /// Plans a command of the view's user on paths: returns operations that carry it out, each of
    /// which is accepted in the newest format after those before it, where no other commit comes
    /// between. The refusals are those of `su_stored_plan::plan`.
    pub fn plan(&mut self, command: &Command) -> Result<Vec<Op>, Refusal>
        ensures planned { let v = self.old.holding in IsClear S.may_give self.new
            → IfOk result (λ operations.
            plan v.roster (tree_of_list v) v.user command.now ≡ Ok operations.items) }
        ensures accepted { let v = self.old.holding in IsClear S.may_give self.new
            → IfOk result (λ operations.
            first_refusal v.roster (tree_of_list v) v.user NEWEST_FORMAT operations.items
            ≡ None) }
        ensures refused { let v = self.old.holding in IsClear S.may_give self.new
            → IfErr result (λ e. IsLoadRefusal e
            ⊎ (plan v.roster (tree_of_list v) v.user command.now ≡ Err e)) }
        ensures holding { self.new.holding ≡ self.old.holding }
        ensures asks { AsksOn S.may_give S.follows self.old self.new }
    {
        let user = self.keeping.user;
        su_stored_plan::plan(self.alloc, &mut self.keeping.desk, user, command)
    }

    /// Plans commands of the view's user one after another, as one: returns operations that carry
    /// them out, each command planned on the tree that the operations before it leave. Each is
    /// accepted in the newest format after those before it, where no other commit comes between. The
    /// refusals are those of `su_stored_plan::plan_all`.
    pub fn plan_all(&mut self, commands: &[Command]) -> Result<Vec<Op>, Refusal>
        ensures planned { let v = self.old.holding in IsClear S.may_give self.new
            → IfOk result (λ operations.
            plan_all v.roster (tree_of_list v) v.user commands.now ≡ Ok operations.items) }
        ensures refused { let v = self.old.holding in IsClear S.may_give self.new
            → IfErr result (λ e. IsLoadRefusal e
            ⊎ (plan_all v.roster (tree_of_list v) v.user commands.now ≡ Err e)) }
        ensures holding { self.new.holding ≡ self.old.holding }
        ensures asks { AsksOn S.may_give S.follows self.old self.new }
    {
        let user = self.keeping.user;
        su_stored_plan::plan_all(self.alloc, &mut self.keeping.desk, user, commands)
    }

    /// Finds the file that a path leads to. The refusals are those of `su_stored_plan::find`.
    pub fn find(&mut self, path: &[u8]) -> Result<FileId, Refusal>
        ensures found { let v = self.old.holding in IsClear S.may_give self.new
            → IfOk result (λ file. found (tree_of_list v) path.now ≡ Ok file) }
        ensures refused { let v = self.old.holding in IsClear S.may_give self.new
            → IfErr result (λ e. IsLoadRefusal e
            ⊎ (found (tree_of_list v) path.now ≡ Err e)) }
        ensures holding { self.new.holding ≡ self.old.holding }
        ensures asks { AsksOn S.may_give S.follows self.old self.new }
    {
        su_stored_plan::find(self.alloc, &mut self.keeping.desk, path)
    }

    /// Leaves all of the tree on the source, but for the digests of its i-tables. Refused with
    /// `SourceFailed` where the source could not be asked, and with `NoMemory`; then what wasn't put is
    /// still loaded. Or as a load is refused.
    pub fn shed(&mut self) -> Result<(), Refusal>
        ensures holding { self.new.holding ≡ self.old.holding }
        ensures refused { IsClear S.may_give self.new → IfErr result IsLoadRefusal }
        ensures follows { S.follows self.old.source self.new.source }
        ensures clear { IsClear S.may_give self.new → IsClear S.may_give self.old }
        ensures only { AsksOnly S.may_give self.old self.new }
        // The source may give items of the tree as well from now on, and no other that it might not
        // give before.
        ensures more { let T = tree_of_list self.old.holding in IsClear S.may_give self.new
            → (i : List ℕ) → S.may_give self.new.source i
            → S.may_give self.old.source i ⊎ HashedFor T i }
    {
        self.keeping.desk.take_back()?;
        self.keeping.desk.shed()
    }

    /// Leaves the bytes that are kept of live operations, so that these can be undone, on the source:
    /// of each block its digest stays. Refused with `SourceFailed` where the source could not be asked,
    /// and with `NoMemory`; then what wasn't put stays. Or as a load is refused.
    pub fn leave_kept(&mut self) -> Result<(), Refusal>
        ensures holding { self.new.holding ≡ self.old.holding }
        ensures refused { IsClear S.may_give self.new → IfErr result IsLoadRefusal }
        ensures follows { S.follows self.old.source self.new.source }
        ensures clear { IsClear S.may_give self.new → IsClear S.may_give self.old }
        ensures only { AsksOnly S.may_give self.old self.new }
        // The source may give items of trees that were before the live operations as well from now on,
        // and no other that it might not give before.
        ensures more { IsClear S.may_give self.new → (i : List ℕ) → S.may_give self.new.source i
            → S.may_give self.old.source i ⊎ WasHashed (desk_of self.old).state i }
    {
        self.keeping.desk.take_back()?;
        self.keeping.desk.leave_kept()
    }
}
