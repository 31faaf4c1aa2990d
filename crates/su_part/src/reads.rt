// Whether the bytes of a file that are to be read are loaded.
ghost use Rattle.std.specs.Prelude.{◌↔◌, IsTrue};
ghost use Rattle.su_part.specs.Bytes.{HasBytes};
ghost use Rattle.su_part.specs.Part.{HasBytesIn};

use crate::blocks::{PartBytes, count_for};
use crate::inodes::{PartContent, PartInode};
use su_node::BLOCK_SIZE;

impl PartBytes {
    /// Tells whether each block with a byte of the file in a range, which may reach past the end,
    /// is loaded.
    fn has_bytes(&self, off: u64, len: u64) -> bool
        ensures { IsTrue result ↔ HasBytes off len self.now }
    {
        let end_ = off.saturating_add(len).min(u64::from(self.size));
        let first = off as usize / BLOCK_SIZE;
        for number in first..count_for(end_ as usize) {
            if !self.blocks.contains_key(&(number as u32)) {
                return false;
            }
        }
        true
    }
}

impl PartInode {
    /// Tells whether the bytes of a file within a range, which may reach past the end, are loaded;
    /// a directory has none.
    pub fn has_bytes(&self, off: u64, len: u64) -> bool
        ensures { IsTrue result ↔ HasBytesIn off len self.now.content }
    {
        match &self.content {
            PartContent::Bytes(bytes) => bytes.has_bytes(off, len),
            PartContent::Names(_) => true,
        }
    }
}
