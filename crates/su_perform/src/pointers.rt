// The pointers of group files.
ghost use Rattle.std.specs.Prelude.{◌≡◌, ◌⊎◌, Some, None, IfErr, OnOk, OnErr};
ghost use Rattle.su_bytes.specs.declared.refusals.Refusal.TheVariants.{MissingBlock, NoMemory};
ghost use Rattle.su_table.specs.Edit.{edits};
ghost use Rattle.su_table.specs.Tree.{Tree};
ghost use Rattle.su_op.specs.Footprint.{edits_areas};
ghost use Rattle.su_op.specs.Rule.{pointer_edits};
ghost use Rattle.su_part_forest.specs.Forest.{Stands};
ghost use Rattle.su_part_forest.specs.Known.{StaysKnown};
ghost use Rattle.su_perform.specs.Loaded.{HasAreas};
ghost use Rattle.su_perform.specs.Performed.{KnowsPointerOf};

use su_bytes::{FileId, Place, Refusal};
use su_part_forest::PartForest;

/// Sets a group file's pointer to `place`; a user's file has none. Refused with `MissingBlock`
/// where the pointer isn't loaded, and with `NoMemory` where memory is wanting; then the forest
/// stands for what it stood for, and what was known stays known.
pub(crate) fn set_pointer(
    forest: &mut PartForest,
    file: FileId,
    place: Place,
) -> Result<(), Refusal>
    ensures ok { (T : Tree) → Stands forest.old T
        → OnOk result (Stands forest.new (edits T (pointer_edits file (Some place)))) }
    ensures refused { IfErr result (λ e. (e ≡ NoMemory) ⊎ (e ≡ MissingBlock)) }
    ensures loaded { (T : Tree)
        → HasAreas T forest.old (edits_areas (pointer_edits file (Some place)))
        → IfErr result (λ e. e ≡ NoMemory) }
    ensures err { (T : Tree) → Stands forest.old T → OnErr result (Stands forest.new T) }
    ensures err_known { (T : Tree) → Stands forest.old T
        → OnErr result (StaysKnown T T forest.old forest.new) }
{
    match file {
        FileId::User(..) => Ok(()),
        FileId::Group(group, number) => forest.put_pointer((group, number), place),
    }
}

/// Removes a group file's pointer, which is known; a user's file has none. What was known stays
/// known.
pub(crate) fn remove_pointer(forest: &mut PartForest, file: FileId)
    ensures stands { (T : Tree) → Stands forest.old T → KnowsPointerOf T file forest.old
        → Stands forest.new (edits T (pointer_edits file None)) }
    ensures known { (T : Tree) → Stands forest.old T → KnowsPointerOf T file forest.old
        → StaysKnown T (edits T (pointer_edits file None)) forest.old forest.new }
{
    match file {
        FileId::User(..) => {}
        FileId::Group(group, number) => forest.remove_pointer((group, number)),
    }
}
