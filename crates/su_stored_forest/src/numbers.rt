// Free and taken numbers.
ghost use Rattle.std.specs.Prelude.{◌≡◌, ◌≤◌, false, IfOk, IfSome, option_copied, slice_get};
ghost use Rattle.su_bytes.specs.declared.file_ids.FileId.TheVariants.{Group as GroupFileId};
ghost use Rattle.su_fronts.specs.Front.{AreTaken};
ghost use Rattle.su_reading.specs.Reading.{Finds};
ghost use Rattle.su_stored_forest.specs.Shows.{Shows, Fails, Follows};
ghost use Rattle.su_table.specs.Free.{IsLeastFree, IsLeastTaken};
ghost use Rattle.su_table.specs.Query.{is_free_at, is_pointer_free};
ghost use Rattle.su_table.specs.Tree.{Tree};

use crate::stored::StoredForest;
use su_block::BlockSource;
use su_bytes::{FileId, Group, Inum, Refusal, User};
use su_fronts::Fronts;

impl<S: BlockSource> StoredForest<S> {
    /// Finds the least number from a number on at which the user has no inode; none where each one
    /// from there to the last is taken. Numbers that are known to be taken are passed by, 1,024 at a
    /// time.
    pub(crate) fn least_free(&mut self, user: User, from_: Inum) -> Result<Option<Inum>, Refusal>
        ensures finds { Finds (Shows S.may_give) (Fails S.failed) (Follows S.may_give S.follows)
            self.old self.new result (λ T n. IsLeastFree (λ i. is_free_at T (user, i)) from_ n) }
    {
        let mut number = from_.number();
        while let Ok(at) = Inum::new(u64::from(number)) {
            let past = self.past_user(user, at);
            if past > number {
                number = past;
            } else if self.is_free_number(user, at)? {
                return Ok(Some(at));
            } else {
                number += 1;
            }
        }
        Ok(None)
    }

    /// Returns what is known of a user's table.
    fn user_fronts(&self, user: User) -> Option<&Fronts>
        ensures { option_copied result ≡ slice_get self.now.users.items user }
    {
        self.users.get(usize::from(user.number()))
    }

    /// Passes by numbers of a user's table from a number on that are known to be taken.
    fn past_user(&self, user: User, number: Inum) -> u32
        ensures taken { (T : Tree) → Shows S.may_give self.now T
            → AreTaken (λ i. is_free_at T (user, i)) number result }
        ensures from_ { number ≤ result }
    {
        match self.user_fronts(user) {
            Some(fronts) => fronts.past(number.number()),
            None => number.number(),
        }
    }

    /// Tells whether a number of a user's table is free. That it isn't is noted.
    fn is_free_number(&mut self, user: User, number: Inum) -> Result<bool, Refusal>
        ensures finds { Finds (Shows S.may_give) (Fails S.failed) (Follows S.may_give S.follows)
            self.old self.new result (λ T free. free ≡ is_free_at T (user, number)) }
    {
        let is_free = self.forest.is_free_at((user, number), &mut self.source)?;
        if !is_free {
            self.note_user(user, number);
        }
        Ok(is_free)
    }

    /// Notes that a number of a user's table is taken.
    fn note_user(&mut self, user: User, number: Inum)
        ensures shows { (T : Tree) → Shows S.may_give self.old T
            → is_free_at T (user, number) ≡ false → Shows S.may_give self.new T }
        ensures forest { self.new.forest ≡ self.old.forest }
        ensures source { self.new.source ≡ self.old.source }
    {
        match self.users.get_mut(usize::from(user.number())) {
            Some(fronts) => fronts.note_taken(number),
            None => {}
        }
    }
}

impl<S: BlockSource> StoredForest<S> {
    /// Finds the least number from a number on at which the group has no file, as `least_free` does
    /// for a user.
    pub(crate) fn least_free_in_group(
        &mut self,
        group: Group,
        from_: Inum,
    ) -> Result<Option<Inum>, Refusal>
        ensures finds { Finds (Shows S.may_give) (Fails S.failed) (Follows S.may_give S.follows)
            self.old self.new result
            (λ T n. IsLeastFree (λ k. is_pointer_free T (GroupFileId group k)) from_ n) }
    {
        let mut number = from_.number();
        while let Ok(at) = Inum::new(u64::from(number)) {
            let past = self.past_group(group, at);
            if past > number {
                number = past;
            } else if self.is_free_pointer(group, at)? {
                return Ok(Some(at));
            } else {
                number += 1;
            }
        }
        Ok(None)
    }

    /// Returns what is known of a group's table.
    fn group_fronts(&self, group: Group) -> Option<&Fronts>
        ensures { option_copied result ≡ slice_get self.now.groups.items group }
    {
        self.groups.get(usize::from(group.number()))
    }

    /// Passes by numbers of a group's table from a number on that are known to be taken.
    fn past_group(&self, group: Group, number: Inum) -> u32
        ensures taken { (T : Tree) → Shows S.may_give self.now T
            → AreTaken (λ k. is_pointer_free T (GroupFileId group k)) number result }
        ensures from_ { number ≤ result }
    {
        match self.group_fronts(group) {
            Some(fronts) => fronts.past(number.number()),
            None => number.number(),
        }
    }

    /// Tells whether a number of a group's table is free. That it isn't is noted.
    fn is_free_pointer(&mut self, group: Group, number: Inum) -> Result<bool, Refusal>
        ensures finds { Finds (Shows S.may_give) (Fails S.failed) (Follows S.may_give S.follows)
            self.old self.new result
            (λ T free. free ≡ is_pointer_free T (GroupFileId group number)) }
    {
        let file = FileId::Group(group, number);
        let is_free = self.forest.is_pointer_free_at(file, &mut self.source)?;
        if !is_free {
            self.note_group(group, number);
        }
        Ok(is_free)
    }

    /// Notes that a number of a group's table is taken.
    fn note_group(&mut self, group: Group, number: Inum)
        ensures shows { (T : Tree) → Shows S.may_give self.old T
            → is_pointer_free T (GroupFileId group number) ≡ false
            → Shows S.may_give self.new T }
        ensures forest { self.new.forest ≡ self.old.forest }
        ensures source { self.new.source ≡ self.old.source }
    {
        match self.groups.get_mut(usize::from(group.number())) {
            Some(fronts) => fronts.note_taken(number),
            None => {}
        }
    }
}

impl<S: BlockSource> StoredForest<S> {
    /// Finds the least number from a number on at which an inode of the user's stands; none where
    /// none does from there to the last. It looks at each number between.
    pub(crate) fn least_taken(&mut self, user: User, from_: Inum) -> Result<Option<Inum>, Refusal>
        ensures finds { Finds (Shows S.may_give) (Fails S.failed) (Follows S.may_give S.follows)
            self.old self.new result (λ T n. IsLeastTaken (λ i. is_free_at T (user, i)) from_ n) }
        ensures from_ { IfOk result (λ n. IfSome n (λ m. from_ ≤ m)) }
    {
        let mut number = from_.number();
        while let Ok(at) = Inum::new(u64::from(number)) {
            if !self.forest.is_free_at((user, at), &mut self.source)? {
                return Ok(Some(at));
            }
            number += 1;
        }
        Ok(None)
    }
}
