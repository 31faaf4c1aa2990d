// What was kept is put back.
ghost use Rattle.std.specs.Prelude.{◌≡◌, ℕ, List, IfErr, OnErr, OnOk};
ghost use Rattle.su_part_inverse.specs.Kept.{IsPutBack};
ghost use Rattle.su_table.specs.Tree.{Tree};

use crate::stored::StoredForest;
use std::alloc::Global;
use su_block::BlockSource;
use su_bytes::Refusal;
use su_part_inverse::Inverse;

impl<S: BlockSource> StoredForest<S> {
    ghost use Rattle.su_stored_forest.specs.Shows.{Holds, Shows, Fails};

    /// Puts the kept values back, and leaves all other cells: loads what stands in their areas, and
    /// notes which numbers may be free then. Refused as a load is; then it shows what it showed.
    pub fn undo(&mut self, alloc: Global, inverse: &Inverse) -> Result<(), Refusal>
        ensures done { (F T : Tree) → Shows S.may_give self.old F → IsPutBack inverse.now F T
            → OnOk result (Holds self.new T) }
        ensures err { (F T : Tree) → Shows S.may_give self.old F → IsPutBack inverse.now F T
            → OnErr result (Shows S.may_give self.new F) }
        ensures refused { (F T : Tree) → Shows S.may_give self.old F → IsPutBack inverse.now F T
            → IfErr result (Fails S.failed F self.new) }
        ensures no_more { (i : List ℕ) → S.may_give self.new.source i
            → S.may_give self.old.source i }
        ensures follows { S.follows self.old.source self.new.source }
    {
        let areas = inverse.areas(alloc)?;
        self.load(areas.as_slice())?;
        inverse.undo_on(&mut self.forest)?;
        self.note_freed(areas.as_slice());
        Ok(())
    }
}
