// Numbers that may have become free.
ghost use Rattle.std.specs.Prelude.{◌≡◌, ◌++◌, [], ◌∷◌, ℕ, Bool, List};
ghost use Rattle.su_op.specs.declared.areas.Area.{Area as TheArea};
ghost use Rattle.su_stored_forest.specs.Fronts.{AreAllFronts, IsNoFreerBeside};
ghost use Rattle.su_table.specs.Tree.{Tree};

use crate::stored::StoredForest;
use su_block::BlockSource;
use su_bytes::Inum;
use su_fronts::Fronts;
use su_op::{Area, Part};

impl<S: BlockSource> StoredForest<S> {
    ghost use Rattle.su_stored_forest.specs.Freed.{AgreeBeside, KnowsTakenBeside};
    ghost use Rattle.su_stored_forest.specs.Shows.{KnowsTaken};

    /// Notes that numbers may be free whose kinds or pointers are in the areas.
    pub(crate) fn note_freed(&mut self, areas: &[Area])
        ensures taken { (T V : Tree) → KnowsTaken T self.old → AgreeBeside areas.now T V
            → KnowsTaken V self.new }
        ensures forest { self.new.forest ≡ self.old.forest }
        ensures source { self.new.source ≡ self.old.source }
    {
        for area in areas {
            self.note_area(area);
        }
    }

    /// Notes that a number may be free whose kind or pointer is in the area.
    fn note_area(&mut self, area: &Area)
        ensures taken { (T : Tree) (before : List TheArea) → KnowsTakenBeside before T self.old
            → KnowsTakenBeside (before ++ area.now ∷ []) T self.new }
        ensures forest { self.new.forest ≡ self.old.forest }
        ensures source { self.new.source ≡ self.old.source }
    {
        match area {
            Area::Inode(place, Part::Kind | Part::Whole) => {
                note_free(&mut self.users, usize::from(place.0.number()), place.1);
            }
            Area::Inode(_, Part::Links | Part::Size | Part::Name(_) | Part::Blocks(_)) => {}
            Area::Pointer(file) => {
                note_free(&mut self.groups, usize::from(file.0.number()), file.1);
            }
        }
    }
}

/// Notes that a number of a principal's table may be free.
fn note_free(fronts: &mut Vec<Fronts>, principal: usize, number: Inum)
    ensures { (free now : ℕ → ℕ → Bool) → AreAllFronts free fronts.old.items
        → IsNoFreerBeside (principal, number) free now → AreAllFronts now fronts.new.items }
{
    match fronts.get_mut(principal) {
        Some(known) => known.note_free(number),
        None => {}
    }
}
