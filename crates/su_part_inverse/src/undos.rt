// Inverses that are put back: first what may take memory, which is rolled back where a later step
// is refused; then what takes none.
ghost use Rattle.std.specs.Prelude.{◌≡◌, ◌⊎◌, [], IfErr, OnOk, OnErr};
ghost use Rattle.std.specs.List.{AllByRecursion};
ghost use Rattle.su_bytes.specs.declared.refusals.Refusal.TheVariants.{MissingBlock, NoMemory};
ghost use Rattle.su_table.specs.Tree.{Tree};
ghost use Rattle.su_part_forest.specs.Forest.{Stands};
ghost use Rattle.su_part_forest.specs.Known.{StaysKnown};
ghost use Rattle.su_perform.specs.Loaded.{HasAreas};
ghost use Rattle.su_undone.specs.Undone.{brought_back, grown, written, reset};
ghost use Rattle.su_part_inverse.specs.Kept.{HoldsInode, IsPutBack, inverse_areas, runs};
ghost use Rattle.su_part_inverse.specs.Open.{AreOpen, SizeIsOpen};
ghost use Rattle.su_part_inverse.specs.Ready.{AreReady, IsReady, InodesStayKnown, ReturnsAreReady, SizeIsReady};
ghost use Rattle.su_part_inverse.specs.Steps.{finished, lengthened, restored, returned};

use crate::contents::{cut, grow, write};
use crate::inverses::Inverse;
use crate::lefts::put_back_left;
use crate::resets::set;
use crate::returns::{KeptInode, Return, give_back_inode};
use su_bytes::Refusal;
use su_inverse::KeptSize;
use su_part_forest::PartForest;

impl Inverse {
    /// Puts the kept values back, and leaves all other cells. What the forest has in the areas is
    /// loaded. Refused with `NoMemory` where memory is wanting, and with `MissingBlock` only where
    /// an area isn't loaded; then the forest stands for what it stood for.
    pub fn undo_on(&self, forest: &mut PartForest) -> Result<(), Refusal>
        ensures ok { (F T : Tree) → Stands forest.old F
            → HasAreas F forest.old (inverse_areas self.now) → IsPutBack self.now F T
            → OnOk result (Stands forest.new T) }
        ensures refused { IfErr result (λ e. (e ≡ NoMemory) ⊎ (e ≡ MissingBlock)) }
        ensures loaded { (F T : Tree) → Stands forest.old F
            → HasAreas F forest.old (inverse_areas self.now) → IsPutBack self.now F T
            → IfErr result (λ e. e ≡ NoMemory) }
        ensures err { (F T : Tree) → Stands forest.old F
            → HasAreas F forest.old (inverse_areas self.now) → IsPutBack self.now F T
            → OnErr result (Stands forest.new F) }
    {
        restore(self.inodes.as_slice(), self, forest)
    }

    /// Cuts files to their sizes, and restores links, absences and blocks. Takes no memory, once
    /// each file is long enough.
    fn finish(&self, forest: &mut PartForest)
        ensures { (F T : Tree) → Stands forest.old F → IsReady [] self.now F T forest.old
            → finished self.now F ≡ T → Stands forest.new T }
    {
        for kept in &self.sizes {
            cut(kept, forest);
        }
        self.set(forest);
    }

    /// Restores links and absences, and then blocks. Takes no memory.
    fn set(&self, forest: &mut PartForest)
        ensures { (F T : Tree) → Stands forest.old F
            → AreReady [] [] self.now.resets.items (runs self.now) F T forest.old
            → written (runs self.now) (reset self.now.resets.items F) ≡ T
            → Stands forest.new T }
    {
        for reset in &self.resets {
            set(reset, forest);
        }
        match &self.left {
            None => self.write(forest),
            Some(left) => put_back_left(left.as_slice(), forest),
        }
    }

    /// Restores blocks that are at hand. Takes no memory.
    fn write(&self, forest: &mut PartForest)
        ensures { (F T : Tree) → Stands forest.old F
            → AreReady [] [] [] self.now.blocks.items F T forest.old
            → written self.now.blocks.items F ≡ T → Stands forest.new T }
    {
        for kept in &self.blocks {
            write(kept, forest);
        }
    }
}

/// Brings these inodes back, and then restores the rest. Refused as `undo_on` is, and then takes
/// back what it brought back.
fn restore(inodes: &[KeptInode], inverse: &Inverse, forest: &mut PartForest) -> Result<(), Refusal>
    ensures ok { (F T : Tree) → Stands forest.old F → AllByRecursion (HoldsInode T) inodes.now
        → ReturnsAreReady inodes.now inverse.now.inodes.items inverse.now.returns.items F T
        → IsReady inodes.now inverse.now F T forest.old
        → restored T inodes.now inverse.now F ≡ T → OnOk result (Stands forest.new T) }
    ensures refused { IfErr result (λ e. (e ≡ NoMemory) ⊎ (e ≡ MissingBlock)) }
    ensures loaded { (F T : Tree) → Stands forest.old F → AllByRecursion (HoldsInode T) inodes.now
        → IsReady inodes.now inverse.now F T forest.old
        → AreOpen inodes.now inverse.now.inodes.items inverse.now.returns.items
        inverse.now.sizes.items F forest.old
        → IfErr result (λ e. e ≡ NoMemory) }
    ensures err { (F T : Tree) → Stands forest.old F → AllByRecursion (HoldsInode T) inodes.now
        → ReturnsAreReady inodes.now inverse.now.inodes.items inverse.now.returns.items F T
        → IsReady inodes.now inverse.now F T forest.old
        → OnErr result (Stands forest.new F) }
    ensures err_known { (F T : Tree) → Stands forest.old F
        → AllByRecursion (HoldsInode T) inodes.now
        → ReturnsAreReady inodes.now inverse.now.inodes.items inverse.now.returns.items F T
        → IsReady inodes.now inverse.now F T forest.old
        → OnErr result (InodesStayKnown F F forest.old forest.new) }
{
    match inodes.split_first() {
        None => put_back(inverse.returns.as_slice(), inverse, forest),
        Some((first, rest)) => {
            let was = first.bring_back(forest)?;
            if let Err(refusal) = restore(rest, inverse, forest) {
                give_back_inode(forest, first.place, was);
                return Err(refusal);
            }
            Ok(())
        }
    }
}

/// Brings these names and pointers back, but for names that came back with an inode, and then
/// restores the rest. Refused as `undo_on` is, and then takes back what it brought back.
fn put_back(returns: &[Return], inverse: &Inverse, forest: &mut PartForest) -> Result<(), Refusal>
    ensures ok { (F T : Tree) → Stands forest.old F
        → ReturnsAreReady [] inverse.now.inodes.items returns.now F T
        → IsReady [] inverse.now F T forest.old
        → returned returns.now inverse.now F ≡ T → OnOk result (Stands forest.new T) }
    ensures refused { IfErr result (λ e. (e ≡ NoMemory) ⊎ (e ≡ MissingBlock)) }
    ensures loaded { (F T : Tree) → Stands forest.old F → IsReady [] inverse.now F T forest.old
        → AreOpen [] inverse.now.inodes.items returns.now inverse.now.sizes.items F forest.old
        → IfErr result (λ e. e ≡ NoMemory) }
    ensures err { (F T : Tree) → Stands forest.old F
        → ReturnsAreReady [] inverse.now.inodes.items returns.now F T
        → IsReady [] inverse.now F T forest.old
        → OnErr result (Stands forest.new F) }
    ensures err_known { (F T : Tree) → Stands forest.old F
        → ReturnsAreReady [] inverse.now.inodes.items returns.now F T
        → IsReady [] inverse.now F T forest.old
        → OnErr result (StaysKnown F F forest.old forest.new) }
{
    match returns.split_first() {
        None => lengthen(inverse.sizes.as_slice(), inverse, forest),
        Some((first, rest)) => {
            if first.comes_with(inverse.inodes.as_slice()) {
                return put_back(rest, inverse, forest);
            }
            let overwritten = first.bring_back(forest)?;
            if let Err(refusal) = put_back(rest, inverse, forest) {
                overwritten.take_back(forest);
                return Err(refusal);
            }
            Ok(())
        }
    }
}

/// Lengthens these files to their sizes, and then restores the rest. Refused as `undo_on` is, and
/// then cuts them again.
fn lengthen(sizes: &[KeptSize], inverse: &Inverse, forest: &mut PartForest) -> Result<(), Refusal>
    ensures ok { (F T : Tree) → Stands forest.old F
        → AllByRecursion (SizeIsReady [] F T forest.old) sizes.now
        → IsReady [] inverse.now F T forest.old
        → finished inverse.now (grown sizes.now F) ≡ T → OnOk result (Stands forest.new T) }
    ensures refused { IfErr result (λ e. (e ≡ NoMemory) ⊎ (e ≡ MissingBlock)) }
    ensures loaded { (F T : Tree) → Stands forest.old F
        → AllByRecursion (SizeIsReady [] F T forest.old) sizes.now
        → AllByRecursion (SizeIsOpen [] F forest.old) sizes.now
        → IfErr result (λ e. e ≡ NoMemory) }
    ensures err { (F T : Tree) → Stands forest.old F
        → AllByRecursion (SizeIsReady [] F T forest.old) sizes.now
        → IsReady [] inverse.now F T forest.old
        → OnErr result (Stands forest.new F) }
    ensures err_known { (F T : Tree) → Stands forest.old F
        → AllByRecursion (SizeIsReady [] F T forest.old) sizes.now
        → IsReady [] inverse.now F T forest.old
        → OnErr result (StaysKnown F F forest.old forest.new) }
{
    match sizes.split_first() {
        None => {
            inverse.finish(forest);
            Ok(())
        }
        Some((first, rest)) => {
            // names the number's range for the prover (docs/ARCHITECTURE.md, "Forms the kit wants")
            let _number = first.place.1.number();
            let was = forest.size(first.place);
            grow(first, forest)?;
            if let Err(refusal) = lengthen(rest, inverse, forest) {
                let before = KeptSize {
                    place: first.place,
                    size: was,
                };
                cut(&before, forest);
                return Err(refusal);
            }
            Ok(())
        }
    }
}
