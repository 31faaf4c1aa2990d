// Looks at what is loaded of an inode, and of a user's part.
ghost use Rattle.std.specs.Prelude.{◌≡◌, Some, option_copied};
ghost use Rattle.su_node.specs.Inode.{Inode, has_no_names};
ghost use Rattle.su_node.specs.Field.{Field.NameOf, file_value, field_value};
ghost use Rattle.su_part.specs.Part.{StandsInode, at_number};
ghost use Rattle.su_part.specs.Seen.{seen_inode, loaded_inodes};

use crate::inodes::{PartContent, PartInode};
use crate::users::UserPart;
use su_bytes::{FileId, Inum, Name};
use su_tree::{TreeKey, TreeValue};

impl PartInode {
    /// Returns the file that a name of a directory leads to, if the name is loaded; none for a
    /// file.
    pub fn name_find(&self, name: &Name) -> Option<FileId>
        ensures { (i : Inode) → StandsInode self.now i
            → file_value result ≡ field_value (Some (seen_inode self.now)) (NameOf name.now) }
    {
        // names the key for the prover (docs/ARCHITECTURE.md, "Forms the kit wants")
        let _bytes = name.byte_count();
        match &self.content {
            PartContent::Bytes(_) => None,
            PartContent::Names(names) => names.find(name).copied(),
        }
    }

    /// Tells whether no name is loaded; a file has none.
    pub fn shows_no_names(&self) -> bool
        ensures { (i : Inode) → StandsInode self.now i
            → result ≡ has_no_names (Some (seen_inode self.now)) }
    {
        match &self.content {
            PartContent::Bytes(_) => true,
            PartContent::Names(names) => names.lists_none(),
        }
    }
}

impl UserPart {
    /// Returns the inode of a number, if it is loaded.
    pub fn find(&self, number: Inum) -> Option<&PartInode>
        ensures { option_copied result ≡ at_number (loaded_inodes self.now) number }
    {
        self.inodes.get(&number.number())
    }
}
