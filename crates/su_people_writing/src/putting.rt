// Local files and folders are put to the store.
use crate::changing::make_lacking;
use crate::groups::{Contents, Group, Placed, placed_of};
use crate::items::{Item, amount_of, items_of};
use crate::planning::plan_placed;
use crate::tallies::{Tally, plan_text, summary};
use crate::together::{note_lacking, put_group};
use std::net::{Net, TcpListener, TcpStream};
use std::thread::Threads;
use su_kept_key::KeptKey;
use su_people_line::PutArgs;
use su_people_session::{Answer, Helper, Progress, Session, Trouble, is_of_path};
use su_person::{NewContents, put};

/// Puts local files and folders to the store: below the path where `is_into` tells so. What differs
/// alone is written, in as few commits as have room for it, unless each file is to have its own;
/// the numbers of the commits are appended. What can't be put is told, and the others go on.
/// Refuses before anything is put what can't be found or is no file, a folder where folders aren't
/// asked for, and with `TooBig` a file of more bytes than one can have; later what would stop the
/// others too, as a server that can't be reached; `NoMemory`. What was committed before stays.
pub fn put_all<'a, T>(
    session: &mut Session<'a, T, KeptKey<'a>>,
    args: &PutArgs,
    path: &[u8],
    is_into: bool,
    numbers: &mut Vec<u64>,
) -> Result<Answer, Trouble>
where
    T: Net<Listener = TcpListener, Stream = TcpStream> + Threads + Sync,
{
    let alloc = session.helper.rt.alloc();
    let items = items_of(session, args, path, is_into)?;
    let mut tally = Tally::new(items.left_out);
    let mut group = Group::new(alloc, args);
    session.helper.progress = Progress::new(session.helper.rt, "put", amount_of(&items));
    for item in &items.all {
        if !group.has_room_for(item) {
            put_gathered(session, &mut group, args, &mut tally, numbers)?;
        }
        gather(&session.helper, &mut group, item, &mut tally)?;
    }
    put_gathered(session, &mut group, args, &mut tally, numbers)?;
    let text = if args.dry_run {
        plan_text(alloc, path, &tally)?
    } else {
        summary(alloc, path, &tally, numbers)?
    };
    Ok(Answer {
        text,
        is_partly: tally.is_partly,
    })
}

/// Reads an item, and adds it to the group. One that can't be read is told.
fn gather<T>(
    helper: &Helper<'_, T>,
    group: &mut Group,
    item: &Item,
    tally: &mut Tally,
) -> Result<(), Trouble> {
    match placed_of(helper, item) {
        Ok(placed) => group.push(placed)?,
        Err(trouble) => pass_over(helper, trouble, tally)?,
    }
    Ok(())
}

/// Tells why something isn't put, where the others can be all the same; else answers why.
fn pass_over<T>(
    helper: &Helper<'_, T>,
    trouble: Trouble,
    tally: &mut Tally,
) -> Result<(), Trouble> {
    if !is_of_item(&trouble) {
        return Err(trouble);
    }
    helper.tell(&trouble);
    tally.is_partly = true;
    Ok(())
}

/// Tells whether something is wrong with an item, and not with all of them.
fn is_of_item(trouble: &Trouble) -> bool {
    match trouble {
        Trouble::Local { .. } | Trouble::Changed { .. } | Trouble::Told(_) => true,
        Trouble::Refused { refusal, .. } => is_of_path(refusal),
        _ => false,
    }
}

/// Puts what a group has, and takes it out of that: together, where there are several, and then
/// what is left of them one by one; or finds what it would take. What can't be put is told.
fn put_gathered<'a, T>(
    session: &mut Session<'a, T, KeptKey<'a>>,
    group: &mut Group,
    args: &PutArgs,
    tally: &mut Tally,
    numbers: &mut Vec<u64>,
) -> Result<(), Trouble>
where
    T: Net<Listener = TcpListener, Stream = TcpStream> + Threads + Sync,
{
    if 1 < group.placed.len() {
        note_lacking(session, &mut group.placed)?;
        put_group(session, group.placed.as_slice(), args.over, numbers)?;
    }
    for placed in &group.placed {
        if let Err(trouble) = put_placed(session, placed, args, tally, numbers) {
            pass_over(&session.helper, trouble, tally)?;
        }
    }
    let bytes = group.bytes as u64;
    group.clear();
    session.leave_entries();
    session.leave_tree(bytes);
    Ok(())
}

/// Puts a folder or a file, or finds what that would take. What is there already stays.
fn put_placed<'a, T>(
    session: &mut Session<'a, T, KeptKey<'a>>,
    placed: &Placed,
    args: &PutArgs,
    tally: &mut Tally,
    numbers: &mut Vec<u64>,
) -> Result<(), Trouble>
where
    T: Net<Listener = TcpListener, Stream = TcpStream> + Threads + Sync,
{
    if args.dry_run {
        return plan_placed(session, placed, tally);
    }
    let path = placed.path.as_slice();
    match &placed.contents {
        Contents::Folder => make_lacking(session, path, numbers),
        Contents::File { bytes } => {
            let is_written = put_file(session, path, bytes, args.over, numbers)?;
            tally.count(bytes.len() as u64, is_written || placed.was_lacking);
            session.helper.progress.file_done(bytes.len() as u64);
            Ok(())
        }
    }
}

/// Puts the bytes of a file to a path, notes that the person has seen what stands there then, and
/// tells whether something was committed for that.
fn put_file<'a, T>(
    session: &mut Session<'a, T, KeptKey<'a>>,
    path: &[u8],
    bytes: &[u8],
    over: bool,
    numbers: &mut Vec<u64>,
) -> Result<bool, Trouble>
where
    T: Net<Listener = TcpListener, Stream = TcpStream> + Threads + Sync,
{
    let alloc = session.helper.rt.alloc();
    let before = numbers.len();
    let new = NewContents {
        path,
        bytes,
        seen: session.helper.folder.seen_at(path),
        over,
    };
    let done = put(
        &mut session.helper,
        alloc,
        &mut session.member,
        &new,
        numbers,
    );
    if let Err(fault) = done {
        return Err(Trouble::at(path, alloc, fault));
    }
    let (head, _) = session.member.view().head();
    session.helper.folder.note_seen(head, path)?;
    Ok(before < numbers.len())
}
