// Whether enough is loaded to read what stands at a place.
ghost use Rattle.std.specs.Prelude.{◌↔◌, IsTrue};
ghost use Rattle.su_table.specs.Tree.{Tree};
ghost use Rattle.su_part_forest.specs.Forest.{Stands, HasInodeAt, HasNameAt, HasPointerAt};

use crate::forests::PartForest;
use su_bytes::{GroupFile, Name, Place};

impl PartForest {
    /// Tells whether the inode at `place` is loaded, or it is known that none stands there.
    pub fn has_inode(&self, place: Place) -> bool
        ensures found { IsTrue result → HasInodeAt place self.now }
        ensures told { (T : Tree) → Stands self.now T → HasInodeAt place self.now
            → IsTrue result }
    {
        let (user, number) = place;
        match self.user_part(user) {
            Some(part) => part.has_inode(number),
            None => true,
        }
    }

    /// Tells so, and whether the path of a name of it is loaded.
    pub fn has_name(&self, place: Place, name: &Name) -> bool
        ensures found { IsTrue result → HasNameAt place name.now self.now }
        ensures told { (T : Tree) → Stands self.now T → HasNameAt place name.now self.now
            → IsTrue result }
    {
        let (user, number) = place;
        match self.user_part(user) {
            Some(part) => part.has_name(number, name),
            None => true,
        }
    }

    /// Tells whether the path of a group file's pointer is loaded.
    pub fn has_pointer(&self, file: GroupFile) -> bool
        ensures { IsTrue result ↔ HasPointerAt file self.now }
    {
        let (group, number) = file;
        match self.group_part(group) {
            Some(part) => part.has_pointer(number),
            None => true,
        }
    }
}
