// The file `seen`, in which lines are appended, and the map that they tell.
use crate::appended::Appended;
use crate::faults::{FolderFault, Mistake};
use crate::files::{read_file, replace};
use std::alloc::Global;
use su_seen::{SeenFiles, spelled_line};

/// Most bytes of the file.
const MOST_BYTES: u64 = 64 << 20;

/// Up to which commits files were seen, with the lines that tell it.
#[derive(Drop)]
pub(crate) struct SeenLines {
    files: SeenFiles,
    lines: Appended,
}

impl SeenLines {
    /// Opens the file in a state folder. It is written anew where it has more than twice as many
    /// lines as there are paths, or ends in a part of a line, as a stop leaves it. Faults in order:
    /// those of `read_file`; `Wrong`; `Unwritten`; `Unread`.
    pub(crate) fn open(rt: &HostRuntime, folder: &str) -> Result<SeenLines, FolderFault> {
        let alloc = rt.alloc();
        let path = format!(in alloc; "{folder}/seen")?;
        let text = read_file(rt, path.as_str(), MOST_BYTES)?;
        let whole = whole_lines(&text);
        let Some(files) = SeenFiles::of_text(alloc, whole)? else {
            return Err(FolderFault::wrong(alloc, path.as_str(), Mistake::Seen));
        };
        if whole.len() < text.len() || is_long(whole, files.count()) {
            let spelled = files.spelled(alloc)?;
            replace(rt, folder, "seen", &spelled)?;
        }
        let lines = Appended::open(rt, path)?;
        Ok(SeenLines { files, lines })
    }

    /// Returns up to which commit a file was seen.
    pub(crate) fn number_of(&self, path: &[u8]) -> Option<u64> {
        self.files.number_of(path)
    }

    /// Notes that a file was seen up to a commit, and appends the line that tells it. `TooLong`
    /// where the file would have more bytes than a start reads.
    pub(crate) fn note(
        &mut self,
        alloc: Global,
        number: u64,
        path: &[u8],
    ) -> Result<(), FolderFault> {
        let mut line = spelled_line(alloc, number, path)?;
        line.push('\n')?;
        if MOST_BYTES.saturating_sub(self.lines.length()) < line.len() as u64 {
            return Err(FolderFault::TooLong {
                path: String::from_str(alloc, self.lines.path())?,
                most: MOST_BYTES,
            });
        }
        self.lines.append(alloc, line.as_bytes())?;
        self.files.note(number, path)?;
        Ok(())
    }

    /// Waits until the disk has the lines.
    pub(crate) fn sync(&self, alloc: Global) -> Result<(), FolderFault> {
        self.lines.sync(alloc)
    }
}

/// Returns the lines that end with a line feed.
fn whole_lines(text: &[u8]) -> &[u8] {
    match text.iter().rposition(|byte| *byte == b'\n') {
        Some(place) => &text[..place + 1],
        None => &[],
    }
}

/// Whether there are more than twice as many lines as paths.
fn is_long(lines: &[u8], paths: usize) -> bool {
    let count = lines.iter().filter(|byte| **byte == b'\n').count();
    paths.saturating_mul(2) < count
}
