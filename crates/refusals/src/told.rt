// What is told of a forest of which parts may be left, and of a desk; and what is spelled.
use crate::clients::{create, file, write};
use crate::desks::{is_settled, settled, two_users};
use crate::faults::{Fault, Mistake, check};
use crate::inodes::{root, second};
use crate::seen::{Seen, again};
use std::alloc::Global;
use su_block::{Checked, MemoryBlocks, digest_of};
use su_bytes::{FileId, Format, Group, Kind, Principal, Refusal, User};
use su_change::{digest, encode};
use su_desk::DeskReply;
use su_draft::Command;
use su_format::Reader;
use su_op::{Change, Op};
use su_part_forest::PartForest;
use su_perform::apply;
use su_read_draft::draft;
use su_stored_desk::TrialDesk;
use su_version::{Commit, VersionStructure};
use su_view::ViewRefusal;

/// What may be left is left here.
type Store = Checked<MemoryBlocks>;

/// A file is made and written in a forest, which is left: all that is told of its inode, and by its
/// file id, is loaded; the forest is copied.
pub(crate) fn of_a_forest(alloc: Global, seen: &mut Seen) -> Result<(), Fault> {
    // names the types for the prover (docs/ARCHITECTURE.md, "Forms the kit wants")
    let _none: (Option<FileId>, Option<Refusal>) = (None, None);
    let mut source = Checked::new(MemoryBlocks::new(alloc));
    let mut forest = PartForest::genesis(alloc, &two_users(alloc)?)?;
    performed(
        alloc,
        &mut forest,
        &mut source,
        &create(alloc, b"a", 2)?,
        seen,
    )?;
    performed(
        alloc,
        &mut forest,
        &mut source,
        &write(alloc, 2, b"hello")?,
        seen,
    )?;
    forest.shed(&mut source)?;
    of_its_inode(&mut forest, &mut source, seen)?;
    forest.shed(&mut source)?;
    of_its_file(&mut forest, &mut source, seen)?;
    let handle = forest.i_handle(User::FIRST);
    let copy = again!(seen, forest.i_handle(User::FIRST) == handle, forest.copy())?;
    check(copy.i_handle(User::FIRST) == handle, Mistake::Changed)
}

// Performs the one operation of a change by user 0.
fn performed(
    alloc: Global,
    forest: &mut PartForest,
    source: &mut Store,
    change: &Change,
    seen: &mut Seen,
) -> Result<(), Fault> {
    // names the types for the prover (docs/ARCHITECTURE.md, "Forms the kit wants")
    let _none: (Option<FileId>, Option<Refusal>) = (None, None);
    let roster = two_users(alloc)?;
    let Some(op) = change.operation() else {
        return Err(Fault::Wrong(Mistake::Found));
    };
    let handle = forest.i_handle(User::FIRST);
    again!(
        seen,
        forest.i_handle(User::FIRST) == handle,
        apply(alloc, forest, &roster, User::FIRST, Format::V3, op, source)
    )?;
    Ok(())
}

fn of_its_inode(forest: &mut PartForest, source: &mut Store, seen: &mut Seen) -> Result<(), Fault> {
    // names the types for the prover (docs/ARCHITECTURE.md, "Forms the kit wants")
    let _none: (Option<FileId>, Option<Refusal>) = (None, None);
    let (place, handle) = (second()?, forest.i_handle(User::FIRST));
    let same = Mistake::Found;
    let kind = again!(
        seen,
        forest.i_handle(User::FIRST) == handle,
        forest.kind_at(place, source)
    )?;
    check(kind == Some(Kind::File), same)?;
    let home = again!(
        seen,
        forest.i_handle(User::FIRST) == handle,
        forest.home_at(place, source)
    )?;
    check(home == Some(file(2)?), same)?;
    let size = again!(
        seen,
        forest.i_handle(User::FIRST) == handle,
        forest.size_at(place, source)
    )?;
    check(size == 5, same)?;
    let links = again!(
        seen,
        forest.i_handle(User::FIRST) == handle,
        forest.links_at(place, source)
    )?;
    check(links == 1, same)?;
    let bare = again!(
        seen,
        forest.i_handle(User::FIRST) == handle,
        forest.is_bare_at(root(), source)
    )?;
    check(!bare, same)
}

fn of_its_file(forest: &mut PartForest, source: &mut Store, seen: &mut Seen) -> Result<(), Fault> {
    // names the types for the prover (docs/ARCHITECTURE.md, "Forms the kit wants")
    let _none: (Option<FileId>, Option<Refusal>) = (None, None);
    let (second, handle) = (file(2)?, forest.i_handle(User::FIRST));
    let names = again!(
        seen,
        forest.i_handle(User::FIRST) == handle,
        forest.list(FileId::ROOT, source)
    )?;
    check(names.len() == 1, Mistake::Found)?;
    let read = again!(
        seen,
        forest.i_handle(User::FIRST) == handle,
        forest.read(second, source)
    )?;
    check(read.as_slice() == b"hello".as_slice(), Mistake::Content)?;
    let read = again!(
        seen,
        forest.i_handle(User::FIRST) == handle,
        forest.read_at(second, 1, 3, source)
    )?;
    check(read.as_slice() == b"ell".as_slice(), Mistake::Content)
}

/// A desk carries out two changes in a row, of which one is refused; then a command is drafted on it.
pub(crate) fn of_a_desk(alloc: Global, seen: &mut Seen) -> Result<(), Fault> {
    // names the types for the prover (docs/ARCHITECTURE.md, "Forms the kit wants")
    let _none: (Option<FileId>, Option<Refusal>) = (None, None);
    let source = Checked::new(MemoryBlocks::new(alloc));
    let mut desk = TrialDesk::new(alloc, two_users(alloc)?, source)?;
    let changes = vec![in alloc;
        (User::FIRST, create(alloc, b"a", 2)?),
        (User::FIRST, create(alloc, b"a", 3)?),
    ]?;
    let before = settled(&mut desk)?;
    let replies = again!(
        seen,
        is_settled(&mut desk, &before)?,
        desk.run(changes.as_slice())
    )?;
    are_replies(&mut desk, replies.as_slice(), seen)?;
    drafted(alloc, &mut desk, seen)
}

// One of the changes is made: the first, or the second where memory for the first was refused.
fn are_replies(
    desk: &mut TrialDesk<Store>,
    replies: &[DeskReply],
    seen: &mut Seen,
) -> Result<(), Fault> {
    // names the types for the prover (docs/ARCHITECTURE.md, "Forms the kit wants")
    let _none: (Option<FileId>, Option<Refusal>) = (None, None);
    let is_one = desk.history().len() == 1;
    match replies {
        [DeskReply::Done(1), DeskReply::Refused(Refusal::Exists)] => {
            check(is_one, Mistake::Live)
        }
        [DeskReply::Done(1), DeskReply::Refused(Refusal::NoMemory)]
        | [DeskReply::Refused(Refusal::NoMemory), DeskReply::Done(1)] => seen.note_call(is_one),
        _ => Err(Fault::Wrong(Mistake::Live)),
    }
}

fn drafted(alloc: Global, desk: &mut TrialDesk<Store>, seen: &mut Seen) -> Result<(), Fault> {
    // names the types for the prover (docs/ARCHITECTURE.md, "Forms the kit wants")
    let _none: (Option<FileId>, Option<Refusal>) = (None, None);
    let roster = two_users(alloc)?;
    let command = Command::Truncate {
        path: Vec::from_slice(alloc, b"/a")?,
        size: 9,
    };
    let before = settled(desk)?;
    let ops = again!(
        seen,
        is_settled(desk, &before)?,
        draft(&command, alloc, desk, &roster, User::FIRST)
    )?;
    match ops.as_slice() {
        [Op::Truncate(cut)] => check(cut.size == 9, Mistake::Plan),
        _ => Err(Fault::Wrong(Mistake::Plan)),
    }
}

/// A refusal, and one of a view, are told behind what was told before; a change and a commit have the
/// digest of what spells them; a version structure and a principal are read back.
pub(crate) fn of_bytes(alloc: Global, commit: &Commit, seen: &mut Seen) -> Result<(), Fault> {
    // names the types for the prover (docs/ARCHITECTURE.md, "Forms the kit wants")
    let _none: (Option<FileId>, Option<Principal>) = (None, None);
    refusals_are_told(alloc, seen)?;
    have_digests(alloc, commit, seen)?;
    let bytes = again!(seen, true, commit.version().encode(alloc))?;
    let read = again!(
        seen,
        true,
        VersionStructure::decode(alloc, bytes.as_slice())
    )?;
    check(read.author() == commit.version().author(), Mistake::Commit)?;
    let mut reader = Reader::new(&[1, 0, 7]);
    check(
        reader.take_principal() == Ok(Principal::Group(Group::FIRST)),
        Mistake::Message,
    )?;
    check(reader.take_principal().is_err(), Mistake::Message)?;
    check(reader.place() == 2, Mistake::Message)
}

fn refusals_are_told(alloc: Global, seen: &mut Seen) -> Result<(), Fault> {
    // names the types for the prover (docs/ARCHITECTURE.md, "Forms the kit wants")
    let _none: (Option<FileId>, Option<Refusal>) = (None, None);
    let mut told = Vec::from_slice(alloc, b"no ")?;
    again!(seen, told.len() == 3, Refusal::KeySpent.show(&mut told))?;
    check(
        told.as_slice() == b"no 8 KeySpent".as_slice(),
        Mistake::Reply,
    )?;
    again!(
        seen,
        told.len() == 13,
        ViewRefusal::OwnMissing.show(&mut told)
    )?;
    check(
        told.as_slice() == b"no 8 KeySpent40 OwnMissing".as_slice(),
        Mistake::Reply,
    )
}

fn have_digests(alloc: Global, commit: &Commit, seen: &mut Seen) -> Result<(), Fault> {
    // names the types for the prover (docs/ARCHITECTURE.md, "Forms the kit wants")
    let _none: (Option<FileId>, Option<Refusal>) = (None, None);
    let change = create(alloc, b"a", 2)?;
    let found = again!(seen, true, digest(alloc, &change))?;
    let item = again!(seen, true, encode(alloc, &change))?;
    check(found == digest_of(item.as_slice()), Mistake::Item)?;
    let found = again!(seen, true, commit.digest(alloc))?;
    let bytes = again!(seen, true, commit.encode(alloc))?;
    check(found == digest_of(bytes.as_slice()), Mistake::Commit)
}
