// What is read ahead of a past file.
use std::alloc::{AllocError, Global};
use std::sync::Wait;
use su_shared_items::SharedBlocks;

/// How many records come along, at most, that lie behind one that is read from a past file. At most
/// one such file is open, and it is opened whole: clients that read old records side by side would
/// have it opened for each record and each item.
pub(crate) const AHEAD: u32 = 256;

/// With how many bytes of records and items no more come along: 4 MiB (4,194,304 bytes).
const AHEAD_BYTES: usize = 4 << 20;

/// Records and their items, in the order in which who reads a file would ask for them.
#[derive(Drop)]
pub(crate) struct Ahead {
    items: Vec<Vec<u8>>,
    bytes: usize,
}

impl Ahead {
    /// Begins with none.
    pub(crate) fn new(alloc: Global) -> Ahead {
        Ahead {
            items: Vec::new(alloc),
            bytes: 0,
        }
    }

    /// Puts a record or an item behind the others.
    pub(crate) fn push(&mut self, item: Vec<u8>) -> Result<(), AllocError> {
        self.bytes = self.bytes.saturating_add(item.len());
        self.items.push(item)?;
        Ok(())
    }

    /// Whether no more come along.
    pub(crate) fn is_enough(&self) -> bool {
        AHEAD_BYTES <= self.bytes
    }

    /// Shares them, the last one first: where there isn't room for all, those stay that would be
    /// asked for next. What cannot be shared is left out.
    pub(crate) fn share<R: Wait>(&self, rt: &R, alloc: Global, blocks: &SharedBlocks) {
        for item in self.items.iter().rev() {
            let _shared = blocks.share(rt, alloc, item.as_slice());
        }
    }
}
