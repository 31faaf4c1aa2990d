// What a user wants done, by paths.
/// A command of a user. Paths are as they are written: `/`, or names with a `/` before each.
#[derive(Debug, Drop)]
pub enum Command {
    /// Makes an empty directory.
    Mkdir {
        path: Vec<u8>,
    },
    /// Makes an empty file.
    Create {
        path: Vec<u8>,
    },
    /// Writes bytes to a file, from an offset on.
    Write {
        path: Vec<u8>,
        off: u32,
        bytes: Vec<u8>,
    },
    /// Cuts a file to a size, or fills it with zeros up to it.
    Truncate {
        path: Vec<u8>,
        size: u32,
    },
    /// Gives a file one more name.
    Link {
        old_: Vec<u8>,
        new_: Vec<u8>,
    },
    /// Gives a file another name; what had that name before loses it.
    Rename {
        old_: Vec<u8>,
        new_: Vec<u8>,
    },
    /// Takes a name away, and the file with its last one.
    Remove {
        path: Vec<u8>,
    },
    /// Takes away each body of the user that no file id leads to any more.
    Tidy,
}
