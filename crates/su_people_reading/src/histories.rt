// What the history tells: its lines, one commit, the head, and another user's head beside it.
ghost use Rattle.std.specs.Prelude.{IfOk, option_copied};
ghost use Rattle.su_client.specs.Link.{Follows};
ghost use Rattle.su_client_work.specs.Member.{IsClear, OnlyAsks};
ghost use Rattle.su_people_reading.specs.Reading.{AreNewest};

use crate::listings::escaped;
use std::alloc::{AllocError, Global};
use std::io::{Read, Write};
use su_block::BlockSource;
use su_bytes::{Digest, Refusal};
use su_client_work::Member;
use su_compare::{Standing, compare};
use su_desk::KeptEntry;
use su_history::{Line, lines, newest, of_file};
use su_history_json::history_json;
use su_history_text::{FileNames, history_text};
use su_lms::KeyStore;
use su_people_line::CompareArgs;
use su_people_session::{Keyless, Leaves, Session, Trouble, leaves_of, name_of, named, walked};
use su_team::{Team, grouped};
use su_view::View;

/// Returns the text of `history`: of all commits or of those that name a file, the newest first.
/// Refuses a path that leads to nothing; `NoMemory`.
pub fn history<T>(
    session: &mut Session<'_, T, Keyless>,
    count: Option<u64>,
    path: Option<&[u8]>,
    json: bool,
) -> Result<String, Trouble> {
    let alloc = session.helper.rt.alloc();
    let names = names_of(alloc, &mut session.member)?;
    let count = usize::try_from(count.unwrap_or(u64::MAX)).unwrap_or(usize::MAX);
    let all = newest_lines(alloc, &mut session.member, count, path)?;
    let team = session.helper.folder.team();
    if json {
        return Ok(history_json(alloc, &all, team, &names)?);
    }
    Ok(history_text(alloc, &all, team, &names)?)
}

/// Returns the newest lines of the history that is held, so many at most: of all of it, or of those
/// that name the file to which a path leads. Refuses a path that leads to nothing; or as a load is
/// refused; `NoMemory`.
fn newest_lines<R: Read + Drop, W: Write + Drop, K: KeyStore + Drop>(
    alloc: Global,
    member: &mut Member<R, W, K>,
    count: usize,
    path: Option<&[u8]>,
) -> Result<Vec<Line>, Trouble>
    ensures asks { OnlyAsks member.old member.new }
    ensures follows { Follows member.old.link member.new.link }
    ensures newest { IfOk result (λ all. AreNewest (IsClear member.new) member.old.holding count
        (option_copied path.entry) all.items) }
{
    let mut all = lines(alloc, member.view().history())?;
    if let Some(path) = path {
        let file = named(alloc, path, member.find_held(path))?;
        all = of_file(all, file);
    }
    Ok(newest(all, count))
}

/// Returns how the files of the tree are called.
pub(crate) fn names_of<R: Read + Drop, W: Write + Drop, K: KeyStore + Drop>(
    alloc: Global,
    member: &mut Member<R, W, K>,
) -> Result<FileNames, Trouble> {
    let mut names = FileNames::new(alloc);
    for found in &walked(alloc, member, b"/")? {
        names.put(found.file, found.path.as_slice())?;
    }
    Ok(names)
}

/// Returns the line that has that number, alone.
pub(crate) fn line_of(mut all: Vec<Line>, number: u64) -> Vec<Line> {
    all.retain(|line| line.first <= number && number <= line.last);
    all
}

/// Returns the text of `status`: the server, the head, the user's own last commit, and how many
/// leaves of the user's key are left. Fails only where memory is refused.
pub fn status<T>(session: &mut Session<'_, T, Keyless>, json: bool) -> Result<String, Trouble> {
    let alloc = session.helper.rt.alloc();
    let leaves = leaves_of(session);
    let view = session.member.view();
    let (count, digest) = view.head();
    let groups = grouped(alloc, &digest)?;
    let folder = &session.helper.folder;
    let server = folder.server();
    let name = su_spelling::shown(alloc, folder.user_name())?;
    let last = author_name(alloc, folder.team(), view.history(), count)?;
    let own = session.member.own_last().unwrap_or(0);
    if json {
        let name = escaped(alloc, name.as_str())?;
        let left = left_json(alloc, leaves)?;
        return Ok(format!(in alloc;
            "{{\"server\":\"{server}\",\"user\":\"{name}\",\"head\":{count},\
\"digest\":\"{groups}\",\"own_last\":{own},\"leaves_left\":{left}}}\n"
        )?);
    }
    let key = key_text(alloc, leaves)?;
    Ok(format!(in alloc;
        "server   {server}\nuser     {name}, whose last commit is {own}\nkey      {key}\n\
head     {count}, by {last}\ndigest   {groups}\n\
A colleague's `sundr compare {count} \"{groups}\"` tells whether both see the same.\n"
    )?)
}

/// Returns how many leaves of a key are left as a JSON number, or `null`.
fn left_json(alloc: Global, leaves: Option<Leaves>) -> Result<String, AllocError> {
    match leaves {
        Some(Leaves { left, .. }) => format!(in alloc; "{left}"),
        None => String::from_str(alloc, "null"),
    }
}

/// Tells how many leaves of a key are left.
fn key_text(alloc: Global, leaves: Option<Leaves>) -> Result<String, AllocError> {
    match leaves {
        Some(Leaves { all, left }) => format!(in alloc; "{left} of {all} leaves are left"),
        None => String::from_str(alloc, "its file can't be read, or is in use"),
    }
}

/// Returns the name of the author of the entry of that number.
fn author_name(
    alloc: Global,
    team: &Team,
    entries: &[KeptEntry],
    number: u64,
) -> Result<String, AllocError> {
    let place = (number as usize).saturating_sub(1);
    match entries.get(place) {
        Some(entry) => name_of(alloc, team, entry.author()),
        None => String::from_str(alloc, "?"),
    }
}

/// Returns the text of `compare`: how another user's head stands to the list. Refuses with a
/// sentence where the list never had that head; `NoMemory`.
pub fn compare_heads<T>(
    session: &mut Session<'_, T, Keyless>,
    args: &CompareArgs,
) -> Result<String, Trouble> {
    let alloc = session.helper.rt.alloc();
    let view = session.member.view();
    let (count, _) = view.head();
    let number = args.number;
    Ok(match standing_of(view, args) {
        Standing::Same => format!(in alloc; "the same: both hold the same {count} commits\n")?,
        Standing::Behind => format!(in alloc;
            "behind: you hold the {number} commits that the other holds, and {count} in all\n"
        )?,
        Standing::Ahead => format!(in alloc;
            "ahead: the other holds {number} commits and you {count}: have the other compare your \
head, which `sundr status` tells\n"
        )?,
        Standing::Forked => {
            return Err(Trouble::told(format!(in alloc;
                "forked: your list never had that head at {number}. The server has shown you \
different lists, or the head was told wrongly: tell all of the team, and put nothing until it is \
clear"
            )));
        }
    })
}

/// Compares the front of a head's digest with the list of a view.
fn standing_of<S: BlockSource + Drop>(view: &View<S>, args: &CompareArgs) -> Standing {
    let (count, _) = view.head();
    let digest = digest_at(view, args.number);
    if count < args.number || digest.as_bytes().starts_with(args.front.as_slice()) {
        return compare(view, args.number, digest);
    }
    Standing::Forked
}

/// Returns the digest of the head that a view's list had when it had so many commits; of the
/// roster where it never had.
fn digest_at<S: BlockSource + Drop>(view: &View<S>, number: u64) -> Digest {
    match view.digest(number) {
        Some(digest) => digest,
        None => view.roster().digest(),
    }
}
