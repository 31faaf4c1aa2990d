// What is restored without memory.
ghost use Rattle.std.specs.Prelude.{◌≡◌};
ghost use Rattle.su_table.specs.Edit.{edits};
ghost use Rattle.su_table.specs.Tree.{Tree};
ghost use Rattle.su_part_forest.specs.Forest.{Stands};
ghost use Rattle.su_part_forest.specs.Known.{StaysKnown};
ghost use Rattle.su_inverse.specs.Kept.{reset_area, reset_edits, nothing_edits};
ghost use Rattle.su_part_inverse.specs.Ready.{KnowsArea};

use su_inverse::Reset;
use su_op::{Area, Part};
use su_part_forest::PartForest;
use su_tree::TreeKey;

/// Restores links, or an absence, which is known. Takes no memory.
pub(crate) fn set(reset: &Reset, forest: &mut PartForest)
    ensures stands { (F : Tree) → Stands forest.old F
        → KnowsArea F forest.old (reset_area reset.now)
        → Stands forest.new (edits F (reset_edits reset.now)) }
    ensures known { (F : Tree) → Stands forest.old F
        → KnowsArea F forest.old (reset_area reset.now)
        → StaysKnown F (edits F (reset_edits reset.now)) forest.old forest.new }
{
    match reset {
        Reset::Nothing(area) => clear(area, forest),
        Reset::Links(place, links) => {
            // names the number's range for the prover (docs/ARCHITECTURE.md, "Forms the kit wants")
            let _number = place.1.number();
            forest.set_links(*place, *links);
        }
    }
}

/// Removes what is in the area, which is known. Links, a size and blocks go with their inode. Takes
/// no memory.
fn clear(area: &Area, forest: &mut PartForest)
    ensures stands { (F : Tree) → Stands forest.old F → KnowsArea F forest.old area.now
        → Stands forest.new (edits F (nothing_edits area.now)) }
    ensures known { (F : Tree) → Stands forest.old F → KnowsArea F forest.old area.now
        → StaysKnown F (edits F (nothing_edits area.now)) forest.old forest.new }
{
    match area {
        Area::Pointer(file) => forest.remove_pointer(*file),
        Area::Inode(place, part) => {
            // names the number's range for the prover (docs/ARCHITECTURE.md, "Forms the kit wants")
            let _number = place.1.number();
            match part {
                Part::Kind | Part::Whole => forest.remove_inode(*place),
                Part::Name(name) => {
                    // so it is known to be a name
                    let _bytes = name.byte_count();
                    forest.remove_name(*place, name);
                }
                Part::Links | Part::Size | Part::Blocks(_) => {}
            }
        }
    }
}
