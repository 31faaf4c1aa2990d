// What a client asks of the tree of its list, and its list as a log: once it has caught up with the
// server, or of the list as it is held.
ghost use Rattle.std.specs.Prelude.{◌≡◌, ◌⊎◌, ◌↔◌, Ok, Err, IfErr, IfOk, OnOk};
ghost use Rattle.su_client.specs.Link.{Follows};
ghost use Rattle.su_draft.specs.Walk.{found};
ghost use Rattle.su_files.specs.Stat.{stat_in};
ghost use Rattle.su_part_tree.specs.Loading.{IsLoadRefusal};
ghost use Rattle.su_plan.specs.Plan.{plan_all};
ghost use Rattle.su_table.specs.Query.{contents, contents_within, listing};
ghost use Rattle.su_view.specs.Holding.{tree_of_list};
ghost use Rattle.su_view.specs.Viewed.{IsClear as IsClearView};
ghost use Rattle.su_client_work.specs.Member.{IsClear, Lists, OnlyAsks, OnlyTakes, Shows};
ghost use Rattle.su_client_work.specs.Turn.{Comes, HasLooked, Looks};
ghost use Rattle.su_client_work.specs.SavedLog.{saved_log};

use crate::logs::log_behind;
use crate::members::Member;
use crate::sources::LinkSource;
use crate::surroundings::Surroundings;
use std::io::{Read, Write};
use su_block::BlockSource;
use su_bytes::{FileId, Name, Refusal};
use su_files::Stat;
use su_lms::KeyStore;
use su_op::Op;
use su_plan::Command;
use su_view::{View, ViewRefusal};

impl<R: Read + Drop, W: Write + Drop, K: KeyStore + Drop> Member<R, W, K> {
    /// Lists the names of the directory that a path leads to, with the files that they lead to,
    /// ascending, once all commits are taken. The refusals of `begin`; then `BadPath`, `NoName` and
    /// `WrongKind`, as `View::find` and `View::list` answer them, or as a load is refused.
    pub fn list<A: Surroundings<R, W>>(
        &mut self,
        around: &mut A,
        path: &[u8],
    ) -> Result<Vec<(Name, FileId)>, ViewRefusal>
        ensures takes { OnlyTakes self.old self.new }
        ensures link { Comes A.may_connect self.old.link self.new.link }
        ensures looks { OnOk result (HasLooked A.may_connect self.old.link self.new.holding
            self.new.link) }
        ensures lists { IsClear self.new
            → IfOk result (λ names. Lists self.new.holding path.now names.items) }
    {
        self.look(around)?;
        let file = self.find_held(path)?;
        Ok(self.list_held(file)?)
    }

    /// Reads the bytes of the file that a path leads to, from `off` on and at most `len`, once all
    /// commits are taken. The refusals of `begin`; then `BadPath`, `NoName` and `WrongKind`, as
    /// `View::find` and `View::read_at` answer them, or as a load is refused.
    pub fn read<A: Surroundings<R, W>>(
        &mut self,
        around: &mut A,
        path: &[u8],
        off: u64,
        len: u64,
    ) -> Result<Vec<u8>, ViewRefusal>
        ensures takes { OnlyTakes self.old self.new }
        ensures link { Comes A.may_connect self.old.link self.new.link }
        ensures looks { OnOk result (HasLooked A.may_connect self.old.link self.new.holding
            self.new.link) }
        ensures shows { IsClear self.new → IfOk result (λ bytes.
            Shows self.new.holding path.now off len bytes.items) }
    {
        self.look(around)?;
        let file = self.find_held(path)?;
        Ok(self.read_held(file, off, len)?)
    }

    /// Returns the log of all commits, once they are taken: of each its bytes and the item of its
    /// change, each with its length before it. The refusals of `begin`.
    pub fn log<A: Surroundings<R, W>>(&mut self, around: &mut A) -> Result<Vec<u8>, ViewRefusal>
        ensures takes { OnlyTakes self.old self.new }
        ensures link { Comes A.may_connect self.old.link self.new.link }
        ensures looks { OnOk result (Looks A.may_connect self.old.link self.new.holding
            self.new.link) }
        ensures log { IfOk result (λ log. log.items ≡ saved_log self.new.holding.held) }
    {
        self.look(around)?;
        Ok(log_behind(self.alloc, &self.view, 0)?)
    }

    /// Lends what it holds.
    pub fn view(&self) -> &View<LinkSource<R, W>>
        ensures holding { result.now.holding ≡ self.now.holding }
        ensures clear { IsClear self.now
            ↔ IsClearView ⟦<LinkSource<R, W> as BlockSource>⟧.may_give result.now }
    {
        &self.view
    }

    /// Finds the file that a path leads to in the tree of the list that is held. The server is asked
    /// at most for what isn't at hand of that tree. The refusals of `View::find`.
    pub fn find_held(&mut self, path: &[u8]) -> Result<FileId, Refusal>
        ensures found { IsClear self.new → IfOk result (λ file.
            found (tree_of_list self.old.holding) path.now ≡ Ok file) }
        ensures refused { IsClear self.new → IfErr result (λ e. IsLoadRefusal e
            ⊎ (found (tree_of_list self.old.holding) path.now ≡ Err e)) }
        ensures asks { OnlyAsks self.old self.new }
        ensures follows { Follows self.old.link self.new.link }
    {
        self.view.find(path)
    }

    /// Tells what a file is in the tree of the list that is held. The server is asked at most for what
    /// isn't at hand of that tree. The refusals of `View::stat`.
    pub fn stat_held(&mut self, file: FileId) -> Result<Stat, Refusal>
        ensures ok { IsClear self.new → IfOk result (λ stat.
            stat_in (tree_of_list self.old.holding) file ≡ Ok stat) }
        ensures refused { IsClear self.new → IfErr result (λ e. IsLoadRefusal e
            ⊎ (stat_in (tree_of_list self.old.holding) file ≡ Err e)) }
        ensures asks { OnlyAsks self.old self.new }
        ensures follows { Follows self.old.link self.new.link }
    {
        self.view.stat(file)
    }

    /// Lists the names of a directory in the tree of the list that is held. The server is asked at
    /// most for what isn't at hand of that tree. The refusals of `View::list`.
    pub fn list_held(&mut self, file: FileId) -> Result<Vec<(Name, FileId)>, Refusal>
        ensures ok { IsClear self.new → IfOk result (λ names.
            listing (tree_of_list self.old.holding) file ≡ Ok names.items) }
        ensures refused { IsClear self.new → IfErr result (λ e. IsLoadRefusal e
            ⊎ (listing (tree_of_list self.old.holding) file ≡ Err e)) }
        ensures asks { OnlyAsks self.old self.new }
        ensures follows { Follows self.old.link self.new.link }
    {
        self.view.list(file)
    }

    /// Reads all bytes of a file in the tree of the list that is held. The server is asked at most for
    /// what isn't at hand of that tree. The refusals of `View::contents`.
    pub fn contents_held(&mut self, file: FileId) -> Result<Vec<u8>, Refusal>
        ensures ok { IsClear self.new → IfOk result (λ bytes.
            contents (tree_of_list self.old.holding) file ≡ Ok bytes.items) }
        ensures refused { IsClear self.new → IfErr result (λ e. IsLoadRefusal e
            ⊎ (contents (tree_of_list self.old.holding) file ≡ Err e)) }
        ensures asks { OnlyAsks self.old self.new }
        ensures follows { Follows self.old.link self.new.link }
    {
        self.view.contents(file)
    }

    /// Reads the bytes of a file within a range in the tree of the list that is held. The server is
    /// asked at most for what isn't at hand of that tree. The refusals of `View::read_at`.
    fn read_held(&mut self, file: FileId, off: u64, len: u64) -> Result<Vec<u8>, Refusal>
        ensures ok { IsClear self.new → IfOk result (λ bytes.
            contents_within (tree_of_list self.old.holding) file off len ≡ Ok bytes.items) }
        ensures asks { OnlyAsks self.old self.new }
        ensures follows { Follows self.old.link self.new.link }
    {
        self.view.read_at(file, off, len)
    }

    /// Plans commands on paths, as one, on the tree of the list that is held. The server is asked at
    /// most for what isn't at hand of that tree. The refusals of `View::plan_all`.
    pub fn plan_held(&mut self, commands: &[Command]) -> Result<Vec<Op>, Refusal>
        ensures planned { let v = self.old.holding in IsClear self.new
            → IfOk result (λ operations.
            plan_all v.roster (tree_of_list v) v.user commands.now ≡ Ok operations.items) }
        ensures refused { let v = self.old.holding in IsClear self.new
            → IfErr result (λ e. IsLoadRefusal e
            ⊎ (plan_all v.roster (tree_of_list v) v.user commands.now ≡ Err e)) }
        ensures asks { OnlyAsks self.old self.new }
        ensures follows { Follows self.old.link self.new.link }
    {
        self.view.plan_all(commands)
    }

    /// Finds the number of the user's own last commit in the list; none where there is none. It is
    /// for what a user is told, on which nothing rests: so no clause speaks of it.
    pub fn own_last(&self) -> Option<u64> {
        let (count, _) = self.view.head();
        for before in 0..count {
            let index = count - 1 - before;
            if self.is_own(index as usize) {
                return Some(index + 1);
            }
        }
        None
    }

    /// Tells whether the entry at that index of the history is the user's own.
    fn is_own(&self, index: usize) -> bool {
        match self.view.history().get(index) {
            Some(entry) => entry.author() == self.view.user(),
            None => false,
        }
    }
}
