// What the lines of a client's script say.
use su_bytes::Refusal;
use su_draft::Command;

/// What a line of a client's script asks for. Paths are the words as they are written: whether a
/// word is a path is seen where the command is planned.
#[derive(Drop)]
pub enum ClientCommand {
    /// Carries out a command that is planned as operations.
    Change(Command),
    /// Undoes the operation of that number.
    Undo(u64),
    /// Undoes the last operation that stands.
    UndoLast,
    /// Lists the names of a directory.
    List { path: Vec<u8> },
    /// Shows bytes of a file: those from an offset on, at most so many.
    Read { path: Vec<u8>, off: u64, len: u64 },
    /// Goes on to the key in a key file, which signs from then on.
    Rekey { file: Vec<u8> },
    /// Saves the log of all commits to a file.
    Save { file: Vec<u8> },
}

/// What a line of a client's script says.
#[derive(Drop)]
pub enum ClientLine {
    /// A command.
    Command(ClientCommand),
    /// The form of a command, but with a number outside its range, which is refused so.
    OutOfRange(Refusal),
    /// No command.
    Bad,
}
