// Formats of commits.
ghost use Rattle.std.specs.Prelude.{◌≡◌};
ghost use Rattle.su_bytes.specs.Format.{format_number, is_as_new};

/// The format of a commit, which its first bytes name: how its version structure is spelled, which
/// changes it may have, and how large a file its change may make.
#[derive(Clone, Copy, Debug, PartialEq, Eq)]
pub enum Format {
    /// The first one.
    V1,
    /// The second one: files are larger, and a body that no file id leads to can be dropped.
    V2,
    /// The third one: a user can name the next key.
    V3,
    /// The fourth one: operations can be made together, as one change.
    V4,
}

/// The newest format.
pub const NEWEST_FORMAT: Format = Format::V4;

/// The format in which a list of commits is begun: the next ones are made in it too, until one
/// comes that is newer, or has a change that asks for a newer one.
pub const FIRST_FORMAT: Format = Format::V3;

impl Format {
    /// Its number, from 1 on. A newer format has a greater one.
    pub fn number(self) -> u8
        ensures { result ≡ format_number self }
    {
        match self {
            Format::V1 => 1,
            Format::V2 => 2,
            Format::V3 => 3,
            Format::V4 => 4,
        }
    }

    /// Whether it is the other one, or newer.
    pub fn is_as_new(self, other: Format) -> bool
        ensures { result ≡ is_as_new self other }
    {
        other.number() <= self.number()
    }
}
