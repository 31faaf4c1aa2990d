// Leaving what is loaded of a forest on a store.
ghost use Rattle.std.specs.Prelude.{◌≡◌, ◌≢◌, ℕ, List, length, OnOk, IfSome};
ghost use Rattle.su_part.specs.Sheds.{HasNothing};
ghost use Rattle.su_part_tree.specs.Part.{HasNone};
ghost use Rattle.su_part_tree.specs.Putting.{Took};
ghost use Rattle.su_part_forest.specs.Forest.{user_part, group_part};
ghost use Rattle.su_part_forest.specs.Sheds.{HasNothingLoaded, IsItemInForest, ShedsForest};

use crate::forests::PartForest;
use su_block::BlockSource;
use su_bytes::Refusal;

impl PartForest {
    /// Leaves all on the store: puts the items of what is loaded of users, then of groups, those
    /// below an item before it, and keeps the digests alone. Refused with `SourceFailed` where the
    /// source could not be asked, and with `NoMemory` where memory is wanting; then the forest
    /// stands for what it stood for, and what wasn't put is still loaded.
    pub fn shed<S: BlockSource>(&mut self, source: &mut S) -> Result<(), Refusal>
        ensures sheds { ShedsForest S.may_give S.failed S.follows S.puts self.old self.new
            source.old source.new result }
        ensures none { OnOk result (HasNothingLoaded self.new) }
        ensures put { OnOk result ((i : List ℕ) → IsItemInForest self.old i
            → Took S.follows S.puts source.old source.new i) }
    {
        self.shed_users(source)?;
        self.shed_groups(source)
    }

    /// Leaves what users have.
    fn shed_users<S: BlockSource>(&mut self, source: &mut S) -> Result<(), Refusal>
        ensures sheds { ShedsForest S.may_give S.failed S.follows S.puts self.old self.new
            source.old source.new result }
        ensures none { OnOk result ((u : ℕ) → IfSome (user_part u self.new) HasNothing) }
    {
        for user in 0..self.users.len() {
            self.shed_user(user, source)?;
        }
        Ok(())
    }

    /// Leaves what one user has.
    fn shed_user<S: BlockSource>(&mut self, user: usize, source: &mut S) -> Result<(), Refusal>
        ensures sheds { ShedsForest S.may_give S.failed S.follows S.puts self.old self.new
            source.old source.new result }
        ensures none { OnOk result (IfSome (user_part user self.new) HasNothing) }
        ensures others { (u : ℕ) → u ≢ user → user_part u self.new ≡ user_part u self.old }
        ensures count { length self.new.users.items ≡ length self.old.users.items }
    {
        match self.users.get_mut(user) {
            Some(part) => part.shed(source),
            None => Ok(()),
        }
    }

    /// Leaves the tables of groups.
    fn shed_groups<S: BlockSource>(&mut self, source: &mut S) -> Result<(), Refusal>
        ensures sheds { ShedsForest S.may_give S.failed S.follows S.puts self.old self.new
            source.old source.new result }
        ensures none { OnOk result ((k : ℕ)
            → IfSome (group_part k self.new) (λ p. HasNone p.table)) }
        ensures users { self.new.users.items ≡ self.old.users.items }
    {
        for group in 0..self.groups.len() {
            self.shed_group(group, source)?;
        }
        Ok(())
    }

    /// Leaves the table of one group.
    fn shed_group<S: BlockSource>(&mut self, group: usize, source: &mut S) -> Result<(), Refusal>
        ensures sheds { ShedsForest S.may_give S.failed S.follows S.puts self.old self.new
            source.old source.new result }
        ensures none { OnOk result (IfSome (group_part group self.new) (λ p. HasNone p.table)) }
        ensures others { (k : ℕ) → k ≢ group → group_part k self.new ≡ group_part k self.old }
        ensures count { length self.new.groups.items ≡ length self.old.groups.items }
        ensures users { self.new.users.items ≡ self.old.users.items }
    {
        match self.groups.get_mut(group) {
            Some(part) => part.shed(source),
            None => Ok(()),
        }
    }
}
