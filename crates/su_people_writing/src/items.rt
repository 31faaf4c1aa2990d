// What there is to put: local files and folders, each with the path of the store for it.
use std::alloc::{AllocError, Global};
use su_bytes::{Kind, NEWEST_FORMAT, Refusal};
use su_kept_key::KeptKey;
use su_local::{LocalEntry, LocalKind, entries_of, joined, kind_of, last_name};
use su_op::largest_file;
use su_people_line::PutArgs;
use su_people_session::{
    Amount, Helper, Session, Trouble, found_if_any, is_of_state, named, path_in,
};

/// How many local files and folders a put has at most.
const MOST_ITEMS: u32 = 10_000_000;

const TOO_MANY: &str = "there are more than 10,000,000 files and folders";

/// A local file or folder, and the path of the store to which it is put.
#[derive(Debug, Drop)]
pub(crate) struct Item {
    pub(crate) local: String,
    pub(crate) path: Vec<u8>,
    pub(crate) kind: LocalKind,
}

/// What is to be put: the items, each folder before what it has, and whether some were left out,
/// which is told.
#[derive(Debug, Drop)]
pub(crate) struct Items {
    pub(crate) all: Vec<Item>,
    pub(crate) left_out: bool,
}

/// Where the local files and folders of a command line are put.
#[derive(Clone, Copy)]
struct Target<'a> {
    path: &'a [u8],
    /// Whether a folder stands there.
    is_folder: bool,
    /// Whether all are put into it.
    is_into: bool,
}

impl Target<'_> {
    /// Returns the path for a local file or folder: below it, under its own name, where that is
    /// asked for, or a file is put where a folder stands; else it.
    fn path_for(&self, alloc: Global, local: &str, kind: LocalKind) -> Result<Vec<u8>, AllocError> {
        let is_into = self.is_into || self.is_folder && kind != LocalKind::Folder;
        match last_name(local) {
            Some(name) if is_into => path_in(alloc, self.path, name.as_bytes()),
            _ => Vec::from_slice(alloc, self.path),
        }
    }
}

/// Returns what there is to put: `TooBig` before anything is put where a file has more bytes than
/// one can have. `is_into` tells whether the path is that of a folder into which all is put; so it
/// is too where there are several.
pub(crate) fn items_of<'a, T>(
    session: &mut Session<'a, T, KeptKey<'a>>,
    args: &PutArgs,
    path: &[u8],
    is_into: bool,
) -> Result<Items, Trouble> {
    let alloc = session.helper.rt.alloc();
    let is_folder = match named(alloc, path, found_if_any(alloc, &mut session.member, path))? {
        Some(found) => found.stat.kind == Kind::Dir,
        None => false,
    };
    let target = Target {
        path,
        is_folder,
        is_into: is_into || 1 < args.locals.len(),
    };
    let mut items = Items {
        all: Vec::new(alloc),
        left_out: false,
    };
    for local in &args.locals {
        let item = item_of(&session.helper, local.as_str(), &target, args.recursive)?;
        items.all.push(item)?;
    }
    grow(&session.helper, &mut items)?;
    refuse_big(&session.helper, &items)?;
    Ok(items)
}

/// Returns how much there is to put.
pub(crate) fn amount_of(items: &Items) -> Amount {
    let mut amount = Amount::none();
    for item in &items.all {
        if let LocalKind::File { size } = item.kind {
            amount.add(size);
        }
    }
    amount
}

/// Returns a local file or folder that the command line names. Refuses what isn't there, what is
/// neither, a folder where folders aren't asked for, and what is of a state folder.
fn item_of<T>(
    helper: &Helper<'_, T>,
    local: &str,
    target: &Target<'_>,
    is_recursive: bool,
) -> Result<Item, Trouble> {
    let alloc = helper.rt.alloc();
    if is_of_state(local.as_bytes()) {
        return Err(Trouble::told(format!(in alloc; "{local}: it is of a state folder")));
    }
    let kind = match kind_of(helper.rt, local) {
        Ok(Some(kind)) => kind,
        Ok(None) => return Err(Trouble::told(format!(in alloc; "{local}: there is no such file"))),
        Err(reason) => return Err(Trouble::local(local, alloc, reason)),
    };
    if kind == LocalKind::Folder && !is_recursive {
        return Err(Trouble::told(format!(in alloc; "{local}: it is a folder: put -r puts it")));
    }
    if kind == LocalKind::Other {
        return Err(Trouble::told(format!(in alloc; "{local}: it is no file and no folder")));
    }
    let path = target.path_for(alloc, local, kind)?;
    let local = String::from_str(alloc, local)?;
    Ok(Item { local, path, kind })
}

/// Adds what is in the folders among the items, and in those that are added.
fn grow<T>(helper: &Helper<'_, T>, items: &mut Items) -> Result<(), Trouble> {
    let mut next = 0;
    for _ in 0..MOST_ITEMS {
        if items.all.len() <= next {
            return Ok(());
        }
        if items.all[next].kind == LocalKind::Folder {
            add_entries(helper, items, next)?;
        }
        next += 1;
    }
    Err(Trouble::told(String::from_str(helper.rt.alloc(), TOO_MANY)))
}

/// Adds what is in the folder among the items at that place. A folder that can't be read is told
/// and left out.
fn add_entries<T>(helper: &Helper<'_, T>, items: &mut Items, place: usize) -> Result<(), Trouble> {
    let alloc = helper.rt.alloc();
    let Some(folder) = items.all.get(place) else {
        return Ok(());
    };
    let local = String::from_str(alloc, folder.local.as_str())?;
    let path = Vec::from_slice(alloc, folder.path.as_slice())?;
    let listing = match entries_of(helper.rt, local.as_str()) {
        Ok(listing) => listing,
        Err(reason) => {
            items.left_out = true;
            helper.tell(&Trouble::local(local.as_str(), alloc, reason));
            return Ok(());
        }
    };
    if 0 < listing.unreadable {
        items.left_out = true;
        let folder = local.as_str();
        let text = format!(in alloc;
            "{folder}: it has names that are no text, which are left out"
        )?;
        helper.warn(text.as_str());
    }
    for entry in &listing.entries {
        add_entry(helper, items, local.as_str(), path.as_slice(), entry)?;
    }
    Ok(())
}

/// Adds an entry of a folder. A link, a pipe or a device is told and left out, and a state folder
/// is left out.
fn add_entry<T>(
    helper: &Helper<'_, T>,
    items: &mut Items,
    folder: &str,
    path: &[u8],
    entry: &LocalEntry,
) -> Result<(), Trouble> {
    let alloc = helper.rt.alloc();
    let name = entry.name.as_str();
    if is_of_state(name.as_bytes()) {
        return Ok(());
    }
    let local = joined(alloc, folder, name)?;
    if entry.kind == LocalKind::Other {
        items.left_out = true;
        let text = format!(in alloc; "{local}: it is no file and no folder, and is left out")?;
        helper.warn(text.as_str());
        return Ok(());
    }
    let path = path_in(alloc, path, name.as_bytes())?;
    items.all.push(Item {
        local,
        path,
        kind: entry.kind,
    })?;
    Ok(())
}

/// Tells the files that have more bytes than one can have, and refuses them all then.
fn refuse_big<T>(helper: &Helper<'_, T>, items: &Items) -> Result<(), Trouble> {
    let most = u64::from(largest_file(NEWEST_FORMAT));
    let mut has_big = false;
    for item in &items.all {
        if let LocalKind::File { size } = item.kind
            && most < size
        {
            has_big = true;
            let local = item.local.as_str();
            let _ = eprintln!(helper.rt;
                "sundr: {local}: {size} bytes are more than a file can have"
            );
        }
    }
    if has_big {
        return Err(Trouble::from(Refusal::TooBig));
    }
    Ok(())
}
