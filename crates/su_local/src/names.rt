// Paths of local files.
use std::alloc::{AllocError, Global};

/// Returns the path of a name in a folder.
pub fn joined(alloc: Global, folder: &str, name: &str) -> Result<String, AllocError> {
    if folder.ends_with('/') {
        return format!(in alloc; "{folder}{name}");
    }
    format!(in alloc; "{folder}/{name}")
}

/// Returns the last name of a path, if it has one that isn't `.` or `..`.
pub fn last_name(path: &str) -> Option<&str> {
    let path = path.trim_end_matches('/');
    let name = match path.rsplit_once('/') {
        Some((_, name)) => name,
        None => path,
    };
    if name.is_empty() || name == "." || name == ".." {
        return None;
    }
    Some(name)
}
