// Paths, as they are written.
ghost use Rattle.std.specs.Prelude.{◌≡◌, map, IfOk};
ghost use Rattle.su_draft.specs.Refusable.{Gives};
ghost use Rattle.su_draft.specs.Path.{path_names, all_names, pieces_of, named_path, with_name};
ghost use Rattle.su_read_draft.specs.Seen.{seen_path};

use std::alloc::{AllocError, Global};
use su_bytes::{Name, Refusal};

/// The last name of a path, and the names of its directory.
#[derive(Drop)]
pub(crate) struct NamedPath {
    pub(crate) directory: Vec<Name>,
    pub(crate) name: Name,
}

impl NamedPath {
    /// Reads a path that has a name. `BadPath` where the bytes spell none.
    #[tactic(auto, unfolding(su_draft::specs::Path::named_path))]
    pub(crate) fn new(alloc: Global, bytes: &[u8]) -> Result<NamedPath, Refusal>
        ensures { Gives seen_path result (named_path bytes.now) }
    {
        let names = read_path(alloc, bytes)?;
        last_name(names)
    }
}

/// Takes the last name off; `BadPath` where there is none.
fn last_name(mut names: Vec<Name>) -> Result<NamedPath, Refusal>
    ensures { Gives seen_path result (with_name names.items) }
{
    match names.pop() {
        Some(name) => Ok(NamedPath {
            directory: names,
            name,
        }),
        None => Err(Refusal::BadPath),
    }
}

/// Reads the names of a path, which are none for the root. `BadPath` where the bytes spell none.
#[tactic(auto, unfolding(su_draft::specs::Path::path_names))]
pub(crate) fn read_path(alloc: Global, bytes: &[u8]) -> Result<Vec<Name>, Refusal>
    ensures { Gives (λ names. names.items) result (path_names bytes.now) }
{
    match bytes {
        [b'/'] => Ok(Vec::new(alloc)),
        [b'/', rest @ ..] => {
            let pieces = pieces_of(alloc, rest)?;
            read_names(alloc, pieces.as_slice())
        }
        _ => Err(Refusal::BadPath),
    }
}

/// Cuts bytes at each `/`.
fn pieces_of<'a>(alloc: Global, bytes: &'a [u8]) -> Result<Vec<&'a [u8]>, AllocError>
    ensures { IfOk result (λ pieces.
        map (λ piece. piece.now) pieces.items ≡ pieces_of bytes.now) }
{
    bytes.split(|byte| *byte == b'/').collect(alloc)
}

/// Reads pieces, each of which is a name. `BadPath` where one isn't.
fn read_names(alloc: Global, pieces: &[&[u8]]) -> Result<Vec<Name>, Refusal>
    ensures { Gives (λ names. names.items) result
        (all_names (map (λ piece. piece.now) pieces.now)) }
{
    let mut names = Vec::new(alloc);
    for piece in pieces {
        match Name::new(alloc, piece) {
            Ok(name) => names.push(name)?,
            Err(Refusal::BadName) => return Err(Refusal::BadPath),
            Err(refusal) => return Err(refusal),
        }
    }
    Ok(names)
}
