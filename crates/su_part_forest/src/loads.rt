// Parts of a forest that are loaded.
ghost use Rattle.std.specs.Prelude.{◌≡◌, true, OnOk};
ghost use Rattle.su_part_forest.specs.Forest.{HasPointerAt};
ghost use Rattle.su_part_forest.specs.Loading.{HasAt, LoadsForest};

use crate::forests::PartForest;
use su_block::BlockSource;
use su_bytes::{GroupFile, Place, Refusal};
use su_part::Wanted;

impl PartForest {
    /// Loads what stands at `place`, and what is wanted of it. Refused with `MissingBlock`,
    /// `WrongBlock` or `SourceFailed` where the source fails, with `NoMemory` where memory is
    /// wanting, and with `Malformed(0)` where an item spells nothing that belongs there; then the
    /// forest stands for what it stood for, and a part of what is wanted may be loaded.
    pub fn fetch<S: BlockSource>(
        &mut self,
        place: Place,
        wanted: &Wanted,
        source: &mut S,
    ) -> Result<(), Refusal>
        requires { S.is_checked ≡ true }
        ensures loads { LoadsForest S.may_give S.failed S.follows self.old self.new
            source.old source.new result }
        ensures has { OnOk result (HasAt place wanted.now self.new) }
    {
        let (user, number) = place;
        match self.users.get_mut(usize::from(user.number())) {
            Some(part) => part.fetch(number, wanted, source),
            None => Ok(()),
        }
    }

    /// Loads where the pointer of a group file leads. Refused as `fetch` is.
    pub fn fetch_pointer<S: BlockSource>(
        &mut self,
        file: GroupFile,
        source: &mut S,
    ) -> Result<(), Refusal>
        requires { S.is_checked ≡ true }
        ensures loads { LoadsForest S.may_give S.failed S.follows self.old self.new
            source.old source.new result }
        ensures has { OnOk result (HasPointerAt file self.new) }
    {
        let (group, number) = file;
        match self.groups.get_mut(usize::from(group.number())) {
            Some(part) => part.fetch_pointer(number, source),
            None => Ok(()),
        }
    }
}
