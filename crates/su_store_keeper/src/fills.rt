// When a file of an archive is full.

/// How many bytes the current file has, of the records that stand in the book and their items, and
/// with how many it is full.
#[derive(Clone, Copy, Debug)]
pub(crate) struct Fill {
    number: usize,
    bytes: usize,
    found: usize,
    limit: usize,
}

impl Fill {
    /// Begins with the first file.
    pub(crate) fn new(limit: usize) -> Fill {
        Fill {
            number: 0,
            bytes: 0,
            found: 0,
            limit,
        }
    }

    /// Turns to the file of a number, none of whose records stands in the book, if it is another.
    pub(crate) fn turn_to(&mut self, number: usize) {
        if self.number != number {
            self.number = number;
            self.bytes = 0;
            self.found = 0;
        }
    }

    /// Notes how many bytes the next record has, with its item.
    pub(crate) fn find(&mut self, bytes: usize) {
        self.found = bytes;
    }

    /// Counts the record that was found.
    pub(crate) fn count_found(&mut self) {
        self.bytes = self.bytes.saturating_add(self.found);
        self.found = 0;
    }

    /// Counts a record, or an item, of so many bytes.
    pub(crate) fn count(&mut self, bytes: usize) {
        self.bytes = self.bytes.saturating_add(bytes);
    }

    /// Whether the file has as many bytes as it takes.
    pub(crate) fn is_full(&self) -> bool {
        self.limit <= self.bytes
    }
}
