// In which file of an archive the record of a number lies.
use std::alloc::{AllocError, Global};

/// How many records stand in the book, and how many of them lie before each file but the first.
#[derive(Drop)]
pub(crate) struct Numbers {
    before: Vec<u64>,
    count: u64,
}

impl Numbers {
    /// Begins with the first file, and no record.
    pub(crate) fn new(alloc: Global) -> Numbers {
        Numbers {
            before: Vec::new(alloc),
            count: 0,
        }
    }

    /// Turns to the next file, if this is its number: the records that are counted from then on lie
    /// in it.
    pub(crate) fn turn_to(&mut self, number: usize) -> Result<(), AllocError> {
        if self.before.len() < number {
            self.before.push(self.count)?;
        }
        Ok(())
    }

    /// Counts one more record.
    pub(crate) fn count_one(&mut self) {
        self.count = self.count.saturating_add(1);
    }

    /// Finds the number of the file in which the record of a number, from 1, lies, and its index
    /// there, both from 0. `None` where no record that was counted has this number.
    pub(crate) fn find(&self, number: u64) -> Option<(usize, u32)> {
        if self.count < number {
            return None;
        }
        let file = self.before.partition_point(|before| *before < number);
        let before = match file.checked_sub(1) {
            Some(last) => *self.before.get(last)?,
            None => 0,
        };
        let index = number.checked_sub(before)?.checked_sub(1)?;
        Some((file, u32::try_from(index).ok()?))
    }
}
