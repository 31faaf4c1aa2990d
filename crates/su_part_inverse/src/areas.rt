// The areas of which an inverse keeps something.
ghost use Rattle.std.specs.Prelude.{◌≡◌, ◌++◌, map, IfOk, IfErr, OnOk};
ghost use Rattle.su_bytes.specs.declared.refusals.Refusal.TheVariants.{NoMemory};
ghost use Rattle.su_inverse.specs.Kept.{blocks_area, reset_area, size_area};
ghost use Rattle.su_part_inverse.specs.Kept.{inode_area, inverse_areas, return_area};

use crate::inverses::Inverse;
use crate::returns::{KeptInode, Return};
use std::alloc::Global;
use su_bytes::Refusal;
use su_inverse::{KeptBlocks, KeptSize, Reset};
use su_left_blocks::LeftBlocks;
use su_op::{Area, Part};

impl Inverse {
    /// Returns the areas of which something is kept. Fails only with `NoMemory`.
    pub fn areas(&self, alloc: Global) -> Result<Vec<Area>, Refusal>
        ensures value { IfOk result (λ areas. areas.items ≡ inverse_areas self.now) }
        ensures refused { IfErr result (λ e. e ≡ NoMemory) }
    {
        let mut areas = Vec::new(alloc);
        add_areas(self.inodes.as_slice(), &mut areas)?;
        add_areas(self.returns.as_slice(), &mut areas)?;
        add_areas(self.sizes.as_slice(), &mut areas)?;
        add_areas(self.resets.as_slice(), &mut areas)?;
        match &self.left {
            None => add_areas(self.blocks.as_slice(), &mut areas)?,
            Some(left) => add_areas(left.as_slice(), &mut areas)?,
        }
        Ok(areas)
    }
}

/// What is kept of one area.
pub(crate) trait OfArea {
    ghost use Rattle.std.specs.Prelude.{◌≡◌, IfOk, IfErr};
    ghost use Rattle.su_bytes.specs.declared.refusals.Refusal.TheVariants.{NoMemory};
    ghost use Rattle.su_op.specs.declared.areas.Area.{Area};

    // the area
    ghost stood_in: { Self → Area };

    /// Returns the area. Fails only with `NoMemory`.
    fn area(&self) -> Result<Area, Refusal>
        ensures value { IfOk result (λ area. area ≡ stood_in self.now) }
        ensures refused { IfErr result (λ e. e ≡ NoMemory) };
}

impl OfArea for KeptInode {
    ghost stood_in = { inode_area };

    fn area(&self) -> Result<Area, Refusal> {
        Ok(Area::Inode(self.place, Part::Whole))
    }
}

impl OfArea for Return {
    ghost stood_in = { return_area };

    fn area(&self) -> Result<Area, Refusal> {
        match self {
            Return::Name(place, name, _) => Ok(Area::Inode(*place, Part::Name(name.clone()?))),
            Return::Pointer(file, _) => Ok(Area::Pointer(*file)),
        }
    }
}

impl OfArea for KeptSize {
    ghost stood_in = { size_area };

    fn area(&self) -> Result<Area, Refusal> {
        Ok(Area::Inode(self.place, Part::Size))
    }
}

impl OfArea for Reset {
    ghost stood_in = { reset_area };

    fn area(&self) -> Result<Area, Refusal> {
        match self {
            Reset::Nothing(area) => Ok(area.clone()?),
            Reset::Links(place, _) => Ok(Area::Inode(*place, Part::Links)),
        }
    }
}

impl OfArea for KeptBlocks {
    ghost stood_in = { blocks_area };

    fn area(&self) -> Result<Area, Refusal> {
        Ok(Area::Inode(self.place, Part::Blocks(self.run)))
    }
}

impl OfArea for LeftBlocks {
    ghost stood_in = { blocks_area };

    fn area(&self) -> Result<Area, Refusal> {
        Ok(Area::Inode(self.place(), Part::Blocks(self.run())))
    }
}

/// Adds the areas of these. Fails only with `NoMemory`.
fn add_areas<K: OfArea>(all: &[K], areas: &mut Vec<Area>) -> Result<(), Refusal>
    ensures items { OnOk result (areas.new.items ≡ areas.old.items ++ map K.stood_in all.now) }
    ensures refused { IfErr result (λ e. e ≡ NoMemory) }
{
    for kept in all {
        areas.push(kept.area()?)?;
    }
    Ok(())
}
