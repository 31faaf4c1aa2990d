// Runs of blocks that are left on a store: they are left there, and put back as they are.
ghost use Rattle.std.specs.Prelude.{◌≡◌, ◌⊎◌, ℕ, List, IfErr, IfOk};
ghost use Rattle.std.specs.List.{AllByRecursion};
ghost use Rattle.su_bytes.specs.declared.refusals.Refusal.TheVariants.{NoMemory, SourceFailed};
ghost use Rattle.su_table.specs.Tree.{Tree};
ghost use Rattle.su_part_forest.specs.Forest.{Stands};
ghost use Rattle.su_undone.specs.Undone.{written, written_to};
ghost use Rattle.su_part_inverse.specs.Lefts.{IsItemOfOne, Leaves, LeftIsReady, PathsStayKnown};

use crate::inverses::Inverse;
use std::alloc::Global;
use su_block::BlockSource;
use su_bytes::Refusal;
use su_inverse::KeptBlocks;
use su_left_blocks::{LeftBlocks, put_blocks};
use su_part_forest::PartForest;

impl Inverse {
    /// Leaves what has bytes on the store: first the inodes, in their order, of which the digests of
    /// their contents stay, and then the blocks, all of them or none, of each of which its digest stays.
    /// What is left already stays so. Refused with `SourceFailed` where the store could not be asked,
    /// and with `NoMemory` where memory is wanting; then what wasn't put is still at hand.
    pub fn leave<S: BlockSource>(&mut self, alloc: Global, source: &mut S) -> Result<(), Refusal>
        ensures leaves { Leaves S.may_give S.follows self.old self.new source.old source.new
            result }
    {
        self.leave_inodes(alloc, source)?;
        self.leave_blocks(alloc, source)
    }

    /// Leaves the inodes. Refused as `leave` is.
    fn leave_inodes<S: BlockSource>(&mut self, alloc: Global, source: &mut S) -> Result<(), Refusal>
        ensures leaves { Leaves S.may_give S.follows self.old self.new source.old source.new
            result }
    {
        for at in 0..self.inodes.len() {
            self.leave_inode(at, alloc, source)?;
        }
        Ok(())
    }

    /// Leaves one inode. Refused as `leave` is.
    fn leave_inode<S: BlockSource>(
        &mut self,
        at: usize,
        alloc: Global,
        source: &mut S,
    ) -> Result<(), Refusal>
        ensures leaves { Leaves S.may_give S.follows self.old self.new source.old source.new
            result }
    {
        match self.inodes.get_mut(at) {
            Some(kept) => kept.inode.shed(alloc, source),
            None => Ok(()),
        }
    }

    /// Leaves the blocks, all of them or none. Refused as `leave` is.
    fn leave_blocks<S: BlockSource>(&mut self, alloc: Global, source: &mut S) -> Result<(), Refusal>
        ensures leaves { Leaves S.may_give S.follows self.old self.new source.old source.new
            result }
    {
        if self.left.is_none() && !self.blocks.is_empty() {
            let left = leave_all(alloc, self.blocks.as_slice(), source)?;
            self.left = Some(left);
            self.blocks = Vec::new(alloc);
        }
        Ok(())
    }
}

/// Leaves these runs of blocks on the store, in their order. Refused as `Inverse::leave` is.
fn leave_all<S: BlockSource>(
    alloc: Global,
    kept: &[KeptBlocks],
    source: &mut S,
) -> Result<Vec<LeftBlocks>, Refusal>
    ensures value { IfOk result (λ left. left.items ≡ kept.now) }
    ensures more { (i : List ℕ) → S.may_give source.new i
        → S.may_give source.old i ⊎ IsItemOfOne kept.now i }
    ensures refused { IfErr result (λ e. (e ≡ SourceFailed) ⊎ (e ≡ NoMemory)) }
    ensures follows { S.follows source.old source.new }
{
    let mut all = Vec::with_capacity(alloc, kept.len())?;
    for run in kept {
        let digests = put_blocks(alloc, run.bytes.as_slice(), source)?;
        all.push(LeftBlocks::new(alloc, run, digests))?;
    }
    Ok(all)
}

/// Puts these runs of blocks back into their files as they are left. What that needs is known, or
/// the files have them. Takes no memory.
pub(crate) fn put_back_left(left: &[LeftBlocks], forest: &mut PartForest)
    ensures { (F T : Tree) → Stands forest.old F
        → AllByRecursion (LeftIsReady F T forest.old) left.now → written left.now F ≡ T
        → Stands forest.new T }
{
    for kept in left {
        put_left(kept, forest);
    }
}

/// Puts a run of blocks back into its file as it is left, if the file is long enough: of each block
/// its digest. What that needs is known, or the file has them. Takes no memory.
fn put_left(kept: &LeftBlocks, forest: &mut PartForest)
    ensures stands { (F T : Tree) → Stands forest.old F → LeftIsReady F T forest.old kept.now
        → Stands forest.new (written_to kept.now F) }
    ensures known { (F T : Tree) → Stands forest.old F → LeftIsReady F T forest.old kept.now
        → PathsStayKnown F (written_to kept.now F) forest.old forest.new }
{
    let place = kept.place();
    // names the number's range for the prover (docs/ARCHITECTURE.md, "Forms the kit wants")
    let _number = place.1.number();
    let first = kept.run().first;
    let digests = kept.digests();
    let end_ = u64::from(first) + digests.len() as u64;
    if !digests.is_empty() && end_ <= u64::from(u32::MAX) {
        // within the size, so it is done; where a path isn't loaded, the file has these bytes
        let _done = forest.put_left(place, first, digests);
    }
}
