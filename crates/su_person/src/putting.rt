// How new contents are put at a path.
ghost use Rattle.std.specs.Prelude.{◌≡◌, ◌<◌, ◌≤◌, ◌⊎◌, ◌++◌, ◌↔◌, ℕ, List, true, Err, length, IfErr, IfOk, IsTrue, OnOk};
ghost use Rattle.su_bytes.specs.declared.formats.TheConstants.{NEWEST_FORMAT};
ghost use Rattle.su_bytes.specs.declared.refusals.Refusal.TheVariants.{NoMemory, TooBig};
ghost use Rattle.su_draft.specs.declared.commands.Command.{Command as Command_};
ghost use Rattle.su_op.specs.Limits.{largest_file};
ghost use Rattle.su_view.specs.declared.refusals.ViewRefusal.TheVariants.{Plain};
ghost use Rattle.su_client_work.specs.Member.{IsClear, OnlyAsks};
ghost use Rattle.su_client_work.specs.Work.{Works};
ghost use Rattle.su_person.specs.LastChange.{last_change};
ghost use Rattle.su_person.specs.Putting.{HasBytes, HasThere, IsFileWith, IsStanding, KnowsBytes, MayWrite, PutsAll, PutsByRounds, PutsOne, PutsOver, RoundTogether, TellsUnseen, TellsWhy};
ghost use Rattle.su_person.specs.declared.faults.Fault.TheVariants.{Refused};

use crate::carrying::{Others, carry, kept};
use crate::changes::last_change;
use crate::faults::Fault;
use crate::persons::Person;
use std::alloc::Global;
use std::io::{Read, Write};
use su_bytes::{FileId, NEWEST_FORMAT, Refusal, User};
use su_client_work::Member;
use su_desk::KeptEntry;
use su_lms::KeyStore;
use su_op::largest_file;
use su_pieces::put_commands;
use su_plan::Command;

/// How often what differs is looked for again, as others write to the file or take it over.
const MOST_ROUNDS: u32 = 64;

/// The seat that is told where others come in between again and again.
const ANY_SEAT: u16 = 0;

/// New contents of a file, and what their author knows of the old ones.
#[derive(Clone, Copy, Debug)]
pub struct NewContents<'a> {
    pub path: &'a [u8],
    pub bytes: &'a [u8],
    /// The number of the commit up to which the author has seen the file, if so.
    pub seen: Option<u64>,
    /// Whether they are to be written over what the author hasn't seen.
    pub over: bool,
}

/// What stands at a path.
#[derive(Debug, Drop)]
enum Standing {
    Nothing,
    File { file: FileId, bytes: Vec<u8> },
}

/// Puts new contents at a path, and appends the numbers of the commits to `numbers`. A file that is there
/// stays the same file, and only the blocks that differ are written; where it has the contents already,
/// nothing is committed. `Changed` where another user changed the file's bytes last, which the author
/// hasn't seen, unless they are to be written over. `TooBig` where they have more bytes than a file can
/// have; `WrongKind` of a directory; the refusals of `carry_out`. What is committed before stays, and the
/// same call again goes on from there.
pub fn put<P, R, W, K>(
    person: &mut P,
    alloc: Global,
    member: &mut Member<R, W, K>,
    new: &NewContents<'_>,
    numbers: &mut Vec<u64>,
) -> Result<(), Fault>
where
    P: Person<R, W, K>,
    R: Read + Drop,
    W: Write + Drop,
    K: KeyStore + Drop,
    ensures works { Works member.old member.new }
    ensures there { IsClear member.new → OnOk result
        (HasThere member.new.holding new.now.path.now new.now.bytes.now) }
    // It commits nothing else than commands of puts, each where the author may write by what the
    // client holds then.
    ensures rounds { (ns : List ℕ) × (numbers.new.items ≡ numbers.old.items ++ ns)
        × PutsByRounds new.now.seen new.now.over new.now.path.now new.now.bytes.now
        member.old ns member.new }
    ensures kept { OnOk result (length member.new.holding.held ≤ P.kept person.new) }
    ensures too_big { largest_file NEWEST_FORMAT < length new.now.bytes.now
        → result ≡ Err (Refused (Plain TooBig)) }
    ensures changed { IsClear member.new → IfErr result
        (TellsWhy new.now.seen new.now.over new.now.path.now member.new.holding) }
{
    if is_too_big(new.bytes) {
        return Err(Fault::from(Refusal::TooBig));
    }
    for _ in 0..MOST_ROUNDS {
        let standing = standing_at(member, new.path)?;
        if standing.has(new.bytes) {
            return kept(person, member);
        }
        let commands = commands_for(alloc, member, new, &standing)?;
        carry(
            person,
            member,
            commands.as_slice(),
            Others::Unwelcome,
            numbers,
        )?;
    }
    Err(Fault::from(Refusal::Busy(ANY_SEAT)))
}

/// Carries out commands, and behind them puts new contents at several paths, in as few commits as their
/// items have room for, and appends the numbers of the commits to `numbers`. What stands at the paths is
/// looked at once, before: where others commit something in between, or the client goes on to another
/// key, it ends there. So `put` of each is to follow, which finds what came of it. The refusals are
/// those of `put`, by the first of the paths that meets one, before anything is committed; and then
/// those of `carry_out`.
pub fn put_together<P, R, W, K>(
    person: &mut P,
    alloc: Global,
    member: &mut Member<R, W, K>,
    first: Vec<Command>,
    files: &[NewContents<'_>],
    numbers: &mut Vec<u64>,
) -> Result<(), Fault>
where
    P: Person<R, W, K>,
    R: Read + Drop,
    W: Write + Drop,
    K: KeyStore + Drop,
    ensures works { Works member.old member.new }
    // It commits nothing else than these commands, and those of puts, each where the author may write
    // by what the client holds before.
    ensures round { (ns : List ℕ) × (numbers.new.items ≡ numbers.old.items ++ ns)
        × RoundTogether first.items files.now member.old ns member.new }
{
    let commands = commands_for_all(alloc, member, first, files)?;
    carry(
        person,
        member,
        commands.as_slice(),
        Others::Unwelcome,
        numbers,
    )?;
    Ok(())
}

/// Returns commands, and behind them those that put new contents at several paths, one file after
/// another, where they aren't there yet. Refused as `put` is.
fn commands_for_all<R, W, K>(
    alloc: Global,
    member: &mut Member<R, W, K>,
    first: Vec<Command>,
    files: &[NewContents<'_>],
) -> Result<Vec<Command>, Fault>
where
    R: Read + Drop,
    W: Write + Drop,
    K: KeyStore + Drop,
    ensures asks { OnlyAsks member.old member.new }
    ensures puts { IfOk result (λ commands. (more : List Command_)
        × (commands.items ≡ first.items ++ more)
        × (IsClear member.new → PutsAll member.old.holding files.now more)) }
{
    let mut commands = first;
    for new in files {
        let mut next = commands_if_lacking(alloc, member, new)?;
        commands.append(&mut next)?;
    }
    Ok(commands)
}

/// Returns the commands that put new contents at a path; none where they are there. Refused as `put`
/// is.
fn commands_if_lacking<R, W, K>(
    alloc: Global,
    member: &mut Member<R, W, K>,
    new: &NewContents<'_>,
) -> Result<Vec<Command>, Fault>
where
    R: Read + Drop,
    W: Write + Drop,
    K: KeyStore + Drop,
    ensures asks { OnlyAsks member.old member.new }
    ensures puts { IsClear member.new → IfOk result (λ commands.
        PutsOne member.old.holding new.now commands.items) }
{
    if is_too_big(new.bytes) {
        return Err(Fault::from(Refusal::TooBig));
    }
    let standing = standing_at(member, new.path)?;
    if standing.has(new.bytes) {
        return Ok(Vec::new(alloc));
    }
    commands_for(alloc, member, new, &standing)
}

/// Tells whether so many bytes are more than a file can have.
fn is_too_big(bytes: &[u8]) -> bool
    ensures { IsTrue result ↔ largest_file NEWEST_FORMAT < length bytes.now }
{
    (largest_file(NEWEST_FORMAT) as usize) < bytes.len()
}

impl Standing {
    /// Tells whether it is a file with these bytes.
    fn has(&self, bytes: &[u8]) -> bool
        ensures { IsTrue result → HasBytes self.now bytes.now }
    {
        match self {
            Standing::Nothing => false,
            Standing::File { bytes: held, .. } => held.as_slice() == bytes,
        }
    }
}

/// Finds what stands at a path in the tree of the list that is held. The refusals of `View::find` and
/// `View::contents`, but `NoName`.
fn standing_at<R, W, K>(member: &mut Member<R, W, K>, path: &[u8]) -> Result<Standing, Refusal>
where
    R: Read + Drop,
    W: Write + Drop,
    K: KeyStore + Drop,
    ensures asks { OnlyAsks member.old member.new }
    ensures standing { IsClear member.new
        → IfOk result (IsStanding member.old.holding path.now) }
{
    match member.find_held(path) {
        Ok(file) => file_at(member, &file),
        Err(Refusal::NoName) => Ok(Standing::Nothing),
        Err(refusal) => Err(refusal),
    }
}

/// Returns a file with its bytes, in the tree of the list that is held. The refusals of `View::contents`.
fn file_at<R, W, K>(member: &mut Member<R, W, K>, file: &FileId) -> Result<Standing, Refusal>
where
    R: Read + Drop,
    W: Write + Drop,
    K: KeyStore + Drop,
    ensures asks { OnlyAsks member.old member.new }
    ensures standing { IsClear member.new
        → IfOk result (IsFileWith member.old.holding file.now) }
{
    let bytes = member.contents_held(*file)?;
    Ok(Standing::File { file: *file, bytes })
}

/// Returns the commands that put the new contents in the place of what stands there. `Changed` as `put`
/// says; else only `NoMemory`.
fn commands_for<R, W, K>(
    alloc: Global,
    member: &Member<R, W, K>,
    new: &NewContents<'_>,
    standing: &Standing,
) -> Result<Vec<Command>, Fault>
where
    R: Read + Drop,
    W: Write + Drop,
    K: KeyStore + Drop,
    requires { length new.now.bytes.now ≤ largest_file NEWEST_FORMAT }
    ensures may { IsStanding member.now.holding new.now.path.now standing.now → OnOk result
        (MayWrite new.now.seen new.now.over new.now.path.now member.now.holding) }
    ensures puts { IsStanding member.now.holding new.now.path.now standing.now → IfOk result
        (λ commands. PutsOver member.now.holding new.now.path.now new.now.bytes.now
        commands.items) }
    ensures changed { IsStanding member.now.holding new.now.path.now standing.now → IfErr result
        (TellsWhy new.now.seen new.now.over new.now.path.now member.now.holding) }
{
    let commands = match standing {
        Standing::Nothing => put_commands(alloc, new.path, None, new.bytes),
        Standing::File { file, bytes } => {
            let history = member.view().history();
            check_seen(alloc, history, member.view().user(), file, new)?;
            put_commands(alloc, new.path, Some(bytes.as_slice()), new.bytes)
        }
    };
    match commands {
        Ok(commands) => Ok(commands),
        Err(_) => Err(Fault::from(Refusal::NoMemory)),
    }
}

/// Checks that the user knows the bytes of a file, or that they are to be written over all the same.
/// `Changed` with the number and the author of the change that the user doesn't know; else only
/// `NoMemory`.
fn check_seen(
    alloc: Global,
    entries: &[KeptEntry],
    user: User,
    file: &FileId,
    new: &NewContents<'_>,
) -> Result<(), Fault>
    ensures knows { OnOk result ((new.now.over ≡ true)
        ⊎ KnowsBytes user new.now.seen entries.now file.now) }
    ensures changed { IfErr result (λ e. (e ≡ Refused (Plain NoMemory))
        ⊎ TellsUnseen new.now.seen new.now.over user (last_change entries.now file.now) e) }
{
    if new.over {
        return Ok(());
    }
    let Some((number, author)) = last_change(alloc, entries, file)? else {
        return Ok(());
    };
    let is_seen = match new.seen {
        Some(seen) => number <= seen,
        None => false,
    };
    if author == user || is_seen {
        return Ok(());
    }
    Err(Fault::Changed { number, author })
}
