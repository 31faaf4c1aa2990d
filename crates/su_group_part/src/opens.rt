// Whether what an edit needs of a pointer is loaded.
ghost use Rattle.std.specs.Prelude.{◌↔◌, IsTrue};
ghost use Rattle.su_group_part.specs.Part.{HasPointer};

use crate::groups::GroupPart;
use su_bytes::Inum;

impl GroupPart {
    /// Tells whether the path of a number is loaded.
    pub fn has_pointer(&self, number: Inum) -> bool
        ensures { IsTrue result ↔ HasPointer number self.now }
    {
        self.table.reaches(&number.number())
    }
}
