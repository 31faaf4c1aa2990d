// Which directory has the state folder.
use crate::faults::FolderFault;
use crate::files::{folder_path, is_folder};
use std::env;

/// Most directories that are looked at, from where the program runs upwards.
const MOST_STEPS: usize = 64;

/// Returns the path of the directory that has a state folder `.sundr`: the one that is given, or else
/// the nearest one upwards from where the program runs, of 64. `NoFolder` where there is none;
/// `Unread` where the system can't tell where the program runs.
pub fn find(rt: &HostRuntime, given: Option<&str>) -> Result<String, FolderFault> {
    let alloc = rt.alloc();
    let Some(directory) = given else {
        return match env::current_dir(rt) {
            Ok(here) => find_upwards(rt, here.into_string()),
            Err(reason) => Err(FolderFault::unread(alloc, ".", reason)),
        };
    };
    let path = String::from_str(alloc, directory)?;
    if has_folder(rt, directory)? {
        return Ok(path);
    }
    Err(FolderFault::NoFolder { path })
}

/// Returns the nearest directory upwards from this one that has a state folder.
fn find_upwards(rt: &HostRuntime, here: String) -> Result<String, FolderFault> {
    let mut directory = here.as_str();
    for _ in 0..MOST_STEPS {
        if has_folder(rt, directory)? {
            return Ok(String::from_str(rt.alloc(), directory)?);
        }
        match above(directory) {
            Some(above) => directory = above,
            None => break,
        }
    }
    Err(FolderFault::NoFolder { path: here })
}

/// Returns the directory above one. `None` above the root.
fn above(directory: &str) -> Option<&str> {
    match directory.rsplit_once('/') {
        None | Some(("", "")) => None,
        Some(("", _)) => Some("/"),
        Some((above, _)) => Some(above),
    }
}

/// Whether a directory has a state folder.
fn has_folder(rt: &HostRuntime, directory: &str) -> Result<bool, FolderFault> {
    let folder = folder_path(rt.alloc(), directory)?;
    Ok(is_folder(rt, folder.as_str()))
}
