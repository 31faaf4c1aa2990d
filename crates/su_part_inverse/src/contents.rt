// The sizes and the bytes of files.
ghost use Rattle.std.specs.Prelude.{◌≡◌, ◌⊎◌, ◌<◌, [], IfErr, OnOk, OnErr};
ghost use Rattle.su_bytes.specs.declared.refusals.Refusal.TheVariants.{MissingBlock, NoMemory};
ghost use Rattle.su_table.specs.Query.{size_at};
ghost use Rattle.su_table.specs.Tree.{Tree};
ghost use Rattle.su_part_forest.specs.Forest.{Stands};
ghost use Rattle.su_part_forest.specs.Known.{StaysKnown};
ghost use Rattle.su_part_forest.specs.Loading.{KeepsBeside};
ghost use Rattle.su_inverse.specs.Kept.{size_area};
ghost use Rattle.su_undone.specs.Undone.{cut_to, grown_to, written_to};
ghost use Rattle.su_part_inverse.specs.Open.{SizeIsOpen};
ghost use Rattle.su_part_inverse.specs.Ready.{BlocksAreReady, KnowsArea, KnowsEnd};

use su_bytes::Refusal;
use su_inverse::{KeptBlocks, KeptSize};
use su_node::BLOCK_SIZE;
use su_part_forest::PartForest;

/// Lengthens the file to the kept size, if it has fewer bytes. The inode is known. Refused with
/// `MissingBlock` where what that needs isn't loaded, and with `NoMemory` where memory is wanting;
/// then the forest stands for what it stood for.
pub(crate) fn grow(kept: &KeptSize, forest: &mut PartForest) -> Result<(), Refusal>
    ensures ok { (F : Tree) → Stands forest.old F
        → KnowsArea F forest.old (size_area kept.now)
        → OnOk result (Stands forest.new (grown_to kept.now F)) }
    ensures known { (F : Tree) → Stands forest.old F
        → KnowsArea F forest.old (size_area kept.now)
        → OnOk result (StaysKnown F (grown_to kept.now F) forest.old forest.new) }
    ensures cuts { (F : Tree) → Stands forest.old F
        → KnowsArea F forest.old (size_area kept.now)
        → size_at F kept.now.place < size_at (grown_to kept.now F) kept.now.place
        → OnOk result (KnowsEnd (grown_to kept.now F) forest.new kept.now.place
        (size_at F kept.now.place)) }
    ensures beside { OnOk result (KeepsBeside kept.now.place forest.old forest.new) }
    ensures refused { IfErr result (λ e. (e ≡ NoMemory) ⊎ (e ≡ MissingBlock)) }
    ensures loaded { (F : Tree) → Stands forest.old F
        → KnowsArea F forest.old (size_area kept.now) → SizeIsOpen [] F forest.old kept.now
        → IfErr result (λ e. e ≡ NoMemory) }
    ensures err { (F : Tree) → Stands forest.old F → OnErr result (Stands forest.new F) }
    ensures err_known { (F : Tree) → Stands forest.old F
        → OnErr result (StaysKnown F F forest.old forest.new) }
{
    // names the ranges for the prover (docs/ARCHITECTURE.md, "Forms the kit wants")
    let _number = kept.place.1.number();
    let _size = size_range(kept.size);
    if forest.size(kept.place) < kept.size {
        forest.grow(kept.place, kept.size)
    } else {
        Ok(())
    }
}

/// Cuts the file to the kept size, if it has more bytes. What that needs is known. Takes no memory.
pub(crate) fn cut(kept: &KeptSize, forest: &mut PartForest)
    ensures stands { (F : Tree) → Stands forest.old F
        → KnowsArea F forest.old (size_area kept.now)
        → (kept.now.size < size_at F kept.now.place
        → KnowsEnd F forest.old kept.now.place kept.now.size)
        → Stands forest.new (cut_to kept.now F) }
    ensures known { (F : Tree) → Stands forest.old F
        → KnowsArea F forest.old (size_area kept.now)
        → (kept.now.size < size_at F kept.now.place
        → KnowsEnd F forest.old kept.now.place kept.now.size)
        → StaysKnown F (cut_to kept.now F) forest.old forest.new }
{
    // names the number's range for the prover (docs/ARCHITECTURE.md, "Forms the kit wants")
    let _number = kept.place.1.number();
    if kept.size < forest.size(kept.place) {
        forest.cut(kept.place, kept.size);
    }
}

/// Writes the bytes into the file, if it is long enough. What that needs is known, or the file has
/// them. Takes no memory.
pub(crate) fn write(kept: &KeptBlocks, forest: &mut PartForest)
    ensures stands { (F T : Tree) → Stands forest.old F
        → BlocksAreReady F T forest.old kept.now → Stands forest.new (written_to kept.now F) }
    ensures known { (F T : Tree) → Stands forest.old F
        → BlocksAreReady F T forest.old kept.now
        → StaysKnown F (written_to kept.now F) forest.old forest.new }
{
    // names the number's range for the prover (docs/ARCHITECTURE.md, "Forms the kit wants")
    let _number = kept.place.1.number();
    let off = BLOCK_SIZE as u64 * kept.run.first as u64;
    let end_ = off + kept.bytes.len() as u64;
    let size = forest.size(kept.place);
    if !kept.bytes.is_empty() && end_ <= size as u64 {
        // within the size, so without memory; where it isn't loaded, the file has these bytes
        let _done = forest.write_at(kept.place, off as u32, kept.bytes.as_slice());
    }
}

/// Returns the size: it names its range for the prover (docs/ARCHITECTURE.md, "Forms the kit
/// wants").
fn size_range(size: u32) -> u32
    ensures { result ≡ size }
{
    size
}
