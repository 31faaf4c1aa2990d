// Where a count of records is noted.

/// Notes how many records were kept, so that a later process finds it.
pub trait Notebook: Drop {
    /// Notes that so many records were kept. What can't be noted is lost, and what was noted before
    /// stays: then a later process misses fewer.
    fn note(&mut self, count: u64);
}
