// Who can be asked about a tree.
ghost use Rattle.std.specs.Prelude.{◌≡◌, ◌≤◌, IfOk, IfSome};
ghost use Rattle.std.specs.FinMap.{get};
ghost use Rattle.std.specs.Option.{option_map};
ghost use Rattle.su_bytes.specs.declared.file_ids.FileId.TheVariants.{Group as GroupFileId};
ghost use Rattle.su_bytes.specs.declared.refusals.Refusal.{Refusal as TheRefusal};
ghost use Rattle.su_node.specs.Field.{Field.NameOf, file_value};
ghost use Rattle.su_node.specs.Inode.{bytes_of, names_of, within};
ghost use Rattle.su_table.specs.Cell.{Cell.At, val};
ghost use Rattle.su_table.specs.Free.{IsLeastFree, IsLeastTaken};
ghost use Rattle.su_table.specs.Query.{body, is_free_at, is_pointer_free};
ghost use Rattle.su_table.specs.Tree.{Tree};
ghost use Rattle.su_reading.specs.Reading.{Finds, head_of};

use crate::heads::InodeHead;
use su_bytes::{FileId, Group, Inum, Name, Place, Refusal, User};

/// A tree that can be asked about, and may fail to answer: parts of it may lie on a store that isn't
/// trusted. What it answers is so in each tree that it shows.
pub trait TreeReader {
    // The trees that it shows.
    ghost shows: { Self → Tree → Type 0 };

    // How it may fail when it shows this tree.
    ghost fails: { Tree → Self → TheRefusal → Type 0 };

    // What may have become of it by some questions, one after another.
    ghost follows: { Self → Self → Type 0 };

    /// Returns where the body of a file stands, if it has one.
    fn body(&mut self, file: FileId) -> Result<Option<Place>, Refusal>
        ensures finds { Finds shows fails follows self.old self.new result
            (λ T place. place ≡ body T file) };

    /// Returns what is told of the inode at `place` beside its content, if one stands there.
    fn head(&mut self, place: Place) -> Result<Option<InodeHead>, Refusal>
        ensures finds { Finds shows fails follows self.old self.new result
            (λ T head. head ≡ option_map head_of (get T.inodes place)) };

    /// Returns the file that a name of the directory at `place` leads to, if it is there.
    fn led_to(&mut self, place: Place, name: &Name) -> Result<Option<FileId>, Refusal>
        ensures finds { Finds shows fails follows self.old self.new result
            (λ T file. file_value file ≡ val T (At place (NameOf name.now))) };

    /// Lists the names of the directory at `place` with the files that they lead to, ascending, if a
    /// directory stands there.
    fn names(&mut self, place: Place) -> Result<Option<Vec<(Name, FileId)>>, Refusal>
        ensures finds { Finds shows fails follows self.old self.new result
            (λ T names. option_map (λ v. v.items) names ≡ names_of (get T.inodes place)) };

    /// Reads the bytes of the file at `place` within a range, which may reach past its end, if a file
    /// stands there.
    fn bytes(&mut self, place: Place, off: u64, len: u64) -> Result<Option<Vec<u8>>, Refusal>
        ensures finds { Finds shows fails follows self.old self.new result
            (λ T bytes. option_map (λ v. v.items) bytes
            ≡ option_map (within off len) (bytes_of (get T.inodes place))) };

    /// Finds the least number from a number on at which the user has no inode; none where each one
    /// from there to the last is taken.
    fn free_number(&mut self, user: User, from_: Inum) -> Result<Option<Inum>, Refusal>
        ensures finds { Finds shows fails follows self.old self.new result
            (λ T n. IsLeastFree (λ i. is_free_at T (user, i)) from_ n) };

    /// Finds the least number from a number on at which the group has no file, as `free_number` does
    /// for a user.
    fn free_group_number(&mut self, group: Group, from_: Inum) -> Result<Option<Inum>, Refusal>
        ensures finds { Finds shows fails follows self.old self.new result
            (λ T n. IsLeastFree (λ k. is_pointer_free T (GroupFileId group k)) from_ n) };

    /// Finds the least number from a number on at which an inode of the user's stands; none where
    /// none does from there to the last.
    fn next_inode(&mut self, user: User, from_: Inum) -> Result<Option<Inum>, Refusal>
        ensures finds { Finds shows fails follows self.old self.new result
            (λ T n. IsLeastTaken (λ i. is_free_at T (user, i)) from_ n) }
        // whatever it shows
        ensures from_ { IfOk result (λ n. IfSome n (λ m. from_ ≤ m)) };

    // No question is as well as some, and questions may come behind questions.
    ghost follows_itself: { (r : Self) → follows r r };

    ghost follows_on: { (a b c : Self) → follows a b → follows b c → follows a c };
}
