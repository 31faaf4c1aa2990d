// Refusals in sentences, with their number and name behind. Nothing rests on these words but
// whether one tells of a lie, and no clause speaks of them.
ghost use Rattle.std.specs.Prelude.{◌≡◌};
ghost use Rattle.su_people_session.specs.Lie.{is_lie, is_of_server};

use crate::troubles::Trouble;
use std::alloc::{AllocError, Global};
use su_bytes::{Refusal, User};
use su_team::Team;
use su_view::ViewRefusal;

/// Tells whether a refusal is of something that the server showed, which may not be: of a change
/// only where commits of others were being taken, and of what the server lacks only where none were,
/// as it was given that before.
pub fn is_lie(takes: bool, refusal: &ViewRefusal) -> bool
    ensures { result ≡ is_lie takes refusal.now }
{
    match refusal {
        ViewRefusal::Plain(refusal) => is_of_server(takes, refusal),
        ViewRefusal::Change(_) => takes,
        ViewRefusal::WrongHandle(_) | ViewRefusal::OwnMissing => true,
    }
}

/// Tells whether a refusal is of a commit or an item that may not be.
fn is_of_server(takes: bool, refusal: &Refusal) -> bool
    ensures { result ≡ is_of_server takes refusal.now }
{
    match refusal {
        Refusal::MissingBlock => !takes,
        Refusal::Malformed(_)
        | Refusal::WrongBlock
        | Refusal::NotOrdered(_, _)
        | Refusal::BadSignature
        | Refusal::WrongPrev(_)
        | Refusal::WrongVector
        | Refusal::KeyReuse
        | Refusal::OldFormat
        | Refusal::WrongKey => true,
        _ => false,
    }
}

/// Returns the sentence of a refusal, with its number and name behind, where others' commits were
/// being taken or not.
fn sentence_of(
    alloc: Global,
    team: &Team,
    takes: bool,
    refusal: &ViewRefusal,
) -> Result<String, AllocError> {
    if let Some(text) = text_of_given(takes, refusal) {
        return format!(in alloc; "{text} ({refusal})");
    }
    match refusal {
        ViewRefusal::Plain(refusal) | ViewRefusal::Change(refusal) => {
            let text = text_of(alloc, team, refusal)?;
            format!(in alloc; "{text} ({refusal})")
        }
        ViewRefusal::OwnMissing => format!(in alloc; "{OWN_MISSING} ({refusal})"),
        ViewRefusal::WrongHandle(_) => format!(in alloc; "{OTHER_TREE} ({refusal})"),
    }
}

/// Returns the name of a user of the team, or `user 7` of another. Fails only where memory is
/// refused.
pub fn name_of(alloc: Global, team: &Team, user: User) -> Result<String, AllocError> {
    if let Some(name) = team.name_of(user) {
        return su_spelling::shown(alloc, name);
    }
    let number = user.number();
    format!(in alloc; "user {number}")
}

const OWN_MISSING: &str =
    "the server shows a list without your own last commit: it was put back to an \
older state, or it lies to you. Nothing of it is taken";

const OTHER_TREE: &str =
    "the server shows a commit of another tree than its change makes. Nothing of \
it is taken";

/// Returns the sentence of a refusal that names something of the team, or has a text of its own.
fn text_of(alloc: Global, team: &Team, refusal: &Refusal) -> Result<String, AllocError> {
    match refusal {
        Refusal::NotHolder(user) => {
            let name = name_of(alloc, team, *user)?;
            format!(in alloc; "it is {name}'s alone")
        }
        Refusal::NotAuthor(user) => {
            let name = name_of(alloc, team, *user)?;
            format!(in alloc; "it is {name}'s, who alone can take it back")
        }
        Refusal::NoOperation(number) => format!(in alloc; "there is no commit {number}"),
        Refusal::NotOperation(number) => {
            format!(in alloc; "commit {number} is an undo or a rekey, which nothing takes back")
        }
        Refusal::AlreadyUndone(number, by) => {
            format!(in alloc; "commit {number} was taken back by commit {by} already")
        }
        Refusal::Blocked(number) => format!(in alloc;
            "commit {number} rests on it: `sundr undo --why` tells what has to be taken back first"
        ),
        Refusal::WrongPrev(0) => String::from_str(alloc, OTHER_TEAM),
        refusal => match plain_text(refusal) {
            Some(text) => String::from_str(alloc, text),
            None => String::from_str(alloc, "it is refused"),
        },
    }
}

const OTHER_TEAM: &str = "the server serves another team, or has its public keys in another order";

/// Returns the text of a refusal that has one, whatever its arguments are.
fn plain_text(refusal: &Refusal) -> Option<&'static str> {
    text_of_paths(refusal)
        .or(text_of_server(refusal))
        .or(text_of_faults(refusal))
}

/// Returns the text of a refusal that is about names and files.
fn text_of_paths(refusal: &Refusal) -> Option<&'static str> {
    Some(match refusal {
        Refusal::BadName | Refusal::BadPath => "it is no path",
        Refusal::NoName => "there is nothing of that name",
        Refusal::NoFile(_) => "its file is gone",
        Refusal::WrongKind(_) => "it is a folder where a file is needed, or the other way round",
        Refusal::Exists => "the name is there already",
        Refusal::NotEmpty => "the folder has names: -r takes these away too",
        Refusal::DirMove => "a folder stays in the folder that it is in",
        Refusal::TooBig => "a file has at most 16,777,216 bytes",
        Refusal::TooManyLinks => "a file has at most 255 names",
        Refusal::Held => "it is in use",
        Refusal::NotMember(_) => "you are not in its group",
        _ => return None,
    })
}

/// Returns the text of a refusal that is about what the server shows.
fn text_of_server(refusal: &Refusal) -> Option<&'static str> {
    Some(match refusal {
        Refusal::NotOrdered(_, _) => {
            "the server shows two users' last commits of which none comes behind the other: it \
has shown them different lists. Nothing of it is taken"
        }
        Refusal::BadSignature => {
            "the server shows a commit that its author did not sign. Nothing of it is taken"
        }
        Refusal::WrongPrev(_) => {
            "the server shows another list than before: it hides or exchanges commits, or was put \
back. Nothing of it is taken"
        }
        Refusal::WrongVector | Refusal::KeyReuse | Refusal::WrongKey | Refusal::OldFormat => {
            "the server shows a commit that may not come next. Nothing of it is taken"
        }
        Refusal::WrongBlock => "the server gave another item than it was asked for",
        Refusal::Malformed(_) => "what the server shows is no commit. Nothing of it is taken",
        Refusal::MissingBlock => "the server lacks an item",
        Refusal::BookFull => "the server keeps no more commits",
        Refusal::Busy(_) => {
            "somebody else is at work there: the same command again may go through"
        }
        _ => return None,
    })
}

const LOST: &str =
    "the server lacks what this client gave it: it lost that, or holds it back. The same \
command again gives it anew, from .sundr/log";

const EXCHANGED: &str =
    "the server gave other bytes than those that this client gave it. The same command \
again gives it anew, from .sundr/log";

/// Returns the text of a refusal that is about what the server was given, if no commits of others were
/// being taken.
fn text_of_given(takes: bool, refusal: &ViewRefusal) -> Option<&'static str> {
    match refusal {
        ViewRefusal::Plain(Refusal::MissingBlock) if !takes => Some(LOST),
        ViewRefusal::Plain(Refusal::WrongBlock) if !takes => Some(EXCHANGED),
        _ => None,
    }
}

/// Returns the text of a refusal that is about the link, the key or memory.
fn text_of_faults(refusal: &Refusal) -> Option<&'static str> {
    Some(match refusal {
        Refusal::LinkFailed | Refusal::SourceFailed => {
            "the link to the server failed, and whether the last step was stored isn't known: `sundr \
history -n 1` tells; a put goes on by the same command"
        }
        Refusal::KeySpent => "each leaf of your key has signed: `sundr rekey` needs one more",
        Refusal::KeyFileFault => "the key file can't be read or written",
        Refusal::NoMemory => "memory was refused",
        _ => return None,
    })
}

/// Tells whether a refusal is about one path, so that others may go through.
pub fn is_of_path(refusal: &ViewRefusal) -> bool {
    match refusal {
        ViewRefusal::Plain(refusal) | ViewRefusal::Change(refusal) => {
            matches!(refusal, Refusal::NotHolder(_)) || text_of_paths(refusal).is_some()
        }
        _ => false,
    }
}

/// Tells on standard error why something isn't done, in a line of its own; nothing where all was
/// told before. The team's users are called by their names, where it is known.
pub fn tell(rt: &HostRuntime, team: Option<&Team>, trouble: &Trouble) {
    if matches!(trouble, Trouble::Partly) {
        return;
    }
    let _ = match line_of(rt.alloc(), team, trouble) {
        Ok(line) => eprintln!(rt; "sundr: {line}"),
        Err(_) => eprintln!(rt; "sundr: out of memory"),
    };
}

/// Returns the line that tells why something isn't done.
fn line_of(alloc: Global, team: Option<&Team>, trouble: &Trouble) -> Result<String, AllocError> {
    let Some(team) = team else {
        return line_without_names(alloc, trouble);
    };
    match trouble {
        Trouble::Refused {
            path: Some(path),
            refusal,
            takes,
        } => {
            let path = su_spelling::shown(alloc, path)?;
            let sentence = sentence_of(alloc, team, *takes, refusal)?;
            format!(in alloc; "{path}: {sentence}")
        }
        Trouble::Refused { refusal, takes, .. } => sentence_of(alloc, team, *takes, refusal),
        Trouble::Changed {
            path,
            number,
            author,
        } => {
            let path = su_spelling::shown(alloc, path)?;
            let name = name_of(alloc, team, *author)?;
            format!(in alloc;
                "{path}: {name} changed it with commit {number}, which you have not seen: get it \
first, or put --over"
            )
        }
        trouble => format!(in alloc; "{trouble}"),
    }
}

/// Returns the line that tells why something isn't done, where the team's names aren't at hand.
fn line_without_names(alloc: Global, trouble: &Trouble) -> Result<String, AllocError> {
    let Trouble::Refused { refusal, takes, .. } = trouble else {
        return format!(in alloc; "{trouble}");
    };
    match text_of_given(*takes, refusal).or(text_without_names(refusal)) {
        Some(text) => format!(in alloc; "{text} ({refusal})"),
        None => format!(in alloc; "{refusal}"),
    }
}

/// Returns the text of a refusal that has one without names and numbers.
fn text_without_names(refusal: &ViewRefusal) -> Option<&'static str> {
    match refusal {
        ViewRefusal::Plain(Refusal::WrongPrev(0)) => Some(OTHER_TEAM),
        ViewRefusal::Plain(refusal) | ViewRefusal::Change(refusal) => plain_text(refusal),
        ViewRefusal::OwnMissing => Some(OWN_MISSING),
        ViewRefusal::WrongHandle(_) => Some(OTHER_TREE),
    }
}
