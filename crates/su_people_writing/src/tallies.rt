// What became of a put, and the line that tells it.
use std::alloc::{AllocError, Global};
use su_people_session::{Amount, counted};

/// What became of a put.
#[derive(Debug, Drop)]
pub(crate) struct Tally {
    /// What was written, or would be.
    written: Amount,
    /// How many files were there already, as they are.
    same: u64,
    /// How many operations would be committed.
    planned: u64,
    /// Whether something isn't put, which was told.
    pub(crate) is_partly: bool,
}

impl Tally {
    /// Returns that of a put of which nothing is done yet.
    pub(crate) fn new(is_partly: bool) -> Tally {
        Tally {
            written: Amount::none(),
            same: 0,
            planned: 0,
            is_partly,
        }
    }

    /// Counts a file of so many bytes, which was written, or was there already.
    pub(crate) fn count(&mut self, bytes: u64, is_written: bool) {
        if is_written {
            self.written.add(bytes);
        } else {
            self.same = self.same.saturating_add(1);
        }
    }

    /// Counts so many operations that would be committed.
    pub(crate) fn plan(&mut self, operations: u64) {
        self.planned = self.planned.saturating_add(operations);
    }
}

/// Returns the line that tells what would be put.
pub(crate) fn plan_text(alloc: Global, path: &[u8], tally: &Tally) -> Result<String, AllocError> {
    let path = su_spelling::shown(alloc, path)?;
    let Amount { files, bytes } = tally.written;
    let files = counted(alloc, files, "file")?;
    let bytes = counted(alloc, bytes, "byte")?;
    let planned = counted(alloc, tally.planned, "operation")?;
    let same = counted(alloc, tally.same, "file")?;
    format!(in alloc;
        "would put {path}: {files}, {bytes}, {planned} and what takes over; {same} there already\n"
    )
}

/// Returns the line that tells what was put, with the commits of these numbers.
pub(crate) fn summary(
    alloc: Global,
    path: &[u8],
    tally: &Tally,
    numbers: &[u64],
) -> Result<String, AllocError> {
    let path = su_spelling::shown(alloc, path)?;
    let Amount { files, bytes } = tally.written;
    let files = counted(alloc, files, "file")?;
    let bytes = counted(alloc, bytes, "byte")?;
    let same = counted(alloc, tally.same, "file")?;
    match commits_text(alloc, numbers)? {
        Some(commits) => format!(in alloc;
            "put {path}: {files}, {bytes}, {commits}; {same} there already\n"
        ),
        _ if tally.same == 0 => format!(in alloc; "{path}: nothing is put\n"),
        _ => format!(in alloc; "{path}: {same} there already\n"),
    }
}

/// Spells which commits these are, if there are any.
fn commits_text(alloc: Global, numbers: &[u64]) -> Result<Option<String>, AllocError> {
    let (Some(first), Some(last)) = (numbers.first(), numbers.last()) else {
        return Ok(None);
    };
    if numbers.len() == 1 {
        return Ok(Some(format!(in alloc; "commit {first}")?));
    }
    let commits = counted(alloc, numbers.len() as u64, "commit")?;
    Ok(Some(format!(in alloc; "{commits} ({first} to {last})")?))
}
