// Local files and folders that are read, to be put to the store together.
use crate::items::Item;
use std::alloc::{AllocError, Global};
use su_bytes::{NEWEST_FORMAT, Refusal};
use su_local::{LocalKind, read_whole};
use su_op::largest_file;
use su_people_line::PutArgs;
use su_people_session::{Helper, Trouble};
use su_person::Fault;

/// How many folders and files a group has at most: a new file takes two operations, mostly, of the
/// 256 that one commit has room for.
const MOST_PLACED: usize = 120;

/// How many bytes the paths and the contents in a group have at most, unless it has one file alone:
/// those of some fifteen commits, each of which is filled but the last.
const MOST_BYTES: usize = 1_000_000;

/// What is put at a path.
#[derive(Debug, Drop)]
pub(crate) enum Contents {
    Folder,
    File { bytes: Vec<u8> },
}

/// A folder or a file, and the path of the store to which it is put.
#[derive(Debug, Drop)]
pub(crate) struct Placed {
    pub(crate) path: Vec<u8>,
    pub(crate) contents: Contents,
    /// Whether it was lacking before it was put together with others.
    pub(crate) was_lacking: bool,
}

/// Folders and files that are put together, each folder before what it has, with no path twice.
#[derive(Debug, Drop)]
pub(crate) struct Group {
    pub(crate) placed: Vec<Placed>,
    /// How many bytes their paths and contents have.
    pub(crate) bytes: usize,
    /// How many there are at most.
    most: usize,
}

impl Group {
    /// Returns an empty group, for a put that was asked for so: of one folder or file where each is
    /// to be put by itself, or nothing is to be put.
    pub(crate) fn new(alloc: Global, args: &PutArgs) -> Group {
        let is_for_one = args.each || args.dry_run;
        Group {
            placed: Vec::new(alloc),
            bytes: 0,
            most: if is_for_one { 1 } else { MOST_PLACED },
        }
    }

    /// Tells whether an item may be put together with those that the group has.
    pub(crate) fn has_room_for(&self, item: &Item) -> bool {
        if self.placed.is_empty() {
            return true;
        }
        let bytes = self.bytes.saturating_add(length_of(item));
        self.placed.len() < self.most && bytes <= MOST_BYTES && !self.has(item.path.as_slice())
    }

    /// Tells whether something is put to a path.
    fn has(&self, path: &[u8]) -> bool {
        self.placed
            .iter()
            .any(|placed| placed.path.as_slice() == path)
    }

    /// Adds a folder or a file. Fails only where memory is refused.
    pub(crate) fn push(&mut self, placed: Placed) -> Result<(), AllocError> {
        self.bytes = self.bytes.saturating_add(placed.length());
        self.placed.push(placed)?;
        Ok(())
    }

    /// Takes all of it away.
    pub(crate) fn clear(&mut self) {
        self.placed.clear();
        self.bytes = 0;
    }
}

impl Placed {
    /// Returns how many bytes its path and its contents have.
    fn length(&self) -> usize {
        let bytes = match &self.contents {
            Contents::Folder => 0,
            Contents::File { bytes } => bytes.len(),
        };
        bytes.saturating_add(self.path.len())
    }
}

/// Returns how many bytes the path and the contents of an item have, as it was when it was found.
fn length_of(item: &Item) -> usize {
    let bytes = match item.kind {
        LocalKind::File { size } => usize::try_from(size).unwrap_or(usize::MAX),
        _ => 0,
    };
    bytes.saturating_add(item.path.len())
}

/// Reads an item. `Local` of a file that can't be read, and `TooBig` of one that has more bytes by
/// now than one can have.
pub(crate) fn placed_of<T>(helper: &Helper<'_, T>, item: &Item) -> Result<Placed, Trouble> {
    let alloc = helper.rt.alloc();
    let path = Vec::from_slice(alloc, item.path.as_slice())?;
    let contents = match item.kind {
        LocalKind::File { .. } => Contents::File {
            bytes: bytes_of(helper, item)?,
        },
        _ => Contents::Folder,
    };
    Ok(Placed {
        path,
        contents,
        was_lacking: false,
    })
}

/// Reads the bytes of a file.
fn bytes_of<T>(helper: &Helper<'_, T>, item: &Item) -> Result<Vec<u8>, Trouble> {
    let alloc = helper.rt.alloc();
    let most = largest_file(NEWEST_FORMAT);
    match read_whole(helper.rt, item.local.as_str(), most) {
        Ok(Some(bytes)) => Ok(bytes),
        Ok(None) => {
            let fault = Fault::from(Refusal::TooBig);
            Err(Trouble::at(item.path.as_slice(), alloc, fault))
        }
        Err(reason) => Err(Trouble::local(item.local.as_str(), alloc, reason)),
    }
}
