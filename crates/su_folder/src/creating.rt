// How a state folder is made.
use crate::faults::{FolderFault, Mistake};
use crate::files::{folder_path, is_folder, sync_folder, write_new};
use crate::members::{is_key_path, spelled_me};
use crate::servers::Server;
use std::alloc::Global;
use std::fs::DirBuilder;
use std::io::ErrorKind;
use std::os::unix::fs::DirBuilderExt;
use std::{fs, io};
use su_team::Team;

/// Only the owner may list it or work in it.
const OWN_FOLDER: u32 = 0o700;

/// The names of the files.
const NAMES: [&str; 7] = ["team", "where", "me", "log", "times", "seen", "lock"];

/// What a new state folder is to tell: the team, its server, the name of the user, who has to be in
/// the team, and the path of the user's key file, without a line feed.
#[derive(Drop)]
pub struct NewFolder<'a> {
    pub team: &'a Team,
    pub server: &'a Server,
    pub user: &'a [u8],
    pub key: &'a str,
}

/// The texts of the files that aren't empty at first.
#[derive(Drop)]
struct Texts {
    team: Vec<u8>,
    place: String,
    me: Vec<u8>,
}

/// Makes a directory, if it isn't there, and in it the state folder, with its files, each on the disk
/// when this returns. The state folder is for its owner alone. Faults in order: `Wrong`, where the
/// user isn't in the team, the path can't be that of a key file, or no server is read of what this
/// one is shown as; `Unwritten`, where the directory can't be made; `Exists`, where there is a state
/// folder already; `Unwritten`. `NoMemory` can come at any time. After a fault, what was made is
/// removed again, as far as the system allows it.
pub fn create(rt: &HostRuntime, directory: &str, new: &NewFolder<'_>) -> Result<(), FolderFault> {
    let folder = folder_path(rt.alloc(), directory)?;
    let texts = spelled(rt.alloc(), folder.as_str(), new)?;
    let is_new = make_directory(rt, directory)?;
    let made = make_folder(rt, directory, folder.as_str(), &texts);
    if is_new && made.is_err() {
        let _ = fs::remove_dir(rt, directory);
    }
    made
}

/// Spells the texts of a new folder.
fn spelled(alloc: Global, folder: &str, new: &NewFolder<'_>) -> Result<Texts, FolderFault> {
    let me = format!(in alloc; "{folder}/me")?;
    if new.team.user_of(new.user).is_none() {
        return Err(FolderFault::wrong(alloc, me.as_str(), Mistake::NotInTeam));
    }
    if !is_key_path(new.key) {
        return Err(FolderFault::wrong(alloc, me.as_str(), Mistake::Me));
    }
    Ok(Texts {
        team: new.team.spelled(alloc)?,
        place: spelled_place(alloc, folder, new.server)?,
        me: spelled_me(alloc, new.user, new.key)?,
    })
}

/// Spells the line of a server. `Wrong` where no server is read of it.
pub(crate) fn spelled_place(
    alloc: Global,
    folder: &str,
    server: &Server,
) -> Result<String, FolderFault> {
    let mut text = server.to_string(alloc)?;
    if Server::read(alloc, text.as_str())?.is_none() {
        let path = format!(in alloc; "{folder}/where")?;
        return Err(FolderFault::wrong(alloc, path.as_str(), Mistake::Server));
    }
    text.push('\n')?;
    Ok(text)
}

/// Makes a directory, if it isn't there, and waits until the disk has its name. Says whether it was
/// made.
fn make_directory(rt: &HostRuntime, directory: &str) -> Result<bool, FolderFault> {
    if directory.is_empty() || is_folder(rt, directory) {
        return Ok(false);
    }
    if let Err(reason) = fs::create_dir(rt, directory) {
        return Err(FolderFault::unwritten(rt.alloc(), directory, reason));
    }
    match sync_above(rt, directory) {
        Ok(()) => Ok(true),
        Err(reason) => {
            let _ = fs::remove_dir(rt, directory);
            Err(FolderFault::unwritten(rt.alloc(), directory, reason))
        }
    }
}

/// Waits until the disk has the names in the directory above one.
fn sync_above(rt: &HostRuntime, directory: &str) -> io::Result<()> {
    let above = format!(in rt.alloc(); "{directory}/..")?;
    sync_folder(rt, above.as_str())
}

/// Makes the state folder of a directory, with its files.
fn make_folder(
    rt: &HostRuntime,
    directory: &str,
    folder: &str,
    texts: &Texts,
) -> Result<(), FolderFault> {
    let alloc = rt.alloc();
    match DirBuilder::new().mode(OWN_FOLDER).create(rt, folder) {
        Ok(()) => {}
        Err(reason) if reason.kind() == ErrorKind::AlreadyExists => {
            return Err(FolderFault::Exists {
                path: String::from_str(alloc, folder)?,
            });
        }
        Err(reason) => return Err(FolderFault::unwritten(alloc, folder, reason)),
    }
    let filled = fill(rt, folder, texts).and_then(|()| {
        sync_names(rt, directory, folder).map_err(|reason| FolderFault::unwritten(
            alloc, folder, reason,
        ))
    });
    if filled.is_err() {
        remove_folder(rt, folder);
    }
    filled
}

/// Writes the files of a new state folder.
fn fill(rt: &HostRuntime, folder: &str, texts: &Texts) -> Result<(), FolderFault> {
    let alloc = rt.alloc();
    for name in NAMES {
        let path = format!(in alloc; "{folder}/{name}")?;
        if let Err(reason) = write_new(rt, path.as_str(), text_of(texts, name)) {
            return Err(FolderFault::unwritten(alloc, path.as_str(), reason));
        }
    }
    Ok(())
}

/// Lends what a new file of that name has.
fn text_of<'a>(texts: &'a Texts, name: &str) -> &'a [u8] {
    match name {
        "team" => texts.team.as_slice(),
        "where" => texts.place.as_bytes(),
        "me" => texts.me.as_slice(),
        _ => &[],
    }
}

/// Waits until the disk has the names of the files, and that of the state folder in its directory.
fn sync_names(rt: &HostRuntime, directory: &str, folder: &str) -> io::Result<()> {
    sync_folder(rt, folder)?;
    if directory.is_empty() {
        return sync_folder(rt, ".");
    }
    sync_folder(rt, directory)
}

/// Removes what stands of a new state folder.
fn remove_folder(rt: &HostRuntime, folder: &str) {
    for name in NAMES {
        if let Ok(path) = format!(in rt.alloc(); "{folder}/{name}") {
            let _ = fs::remove_file(rt, path.as_str());
        }
    }
    let _ = fs::remove_dir(rt, folder);
}
