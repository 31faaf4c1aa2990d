// What a desk is asked whose tree is left on its store before each question.
ghost use Rattle.std.specs.Prelude.{◌≡◌, true};

use crate::clients::{create, file, write};
use crate::desks::{applied, is_settled, left, says, two_users};
use crate::faults::{Fault, Mistake, check};
use crate::meets::{Meets, once_more};
use std::alloc::Global;
use su_block::BlockSource;
use su_bytes::{FileId, Group, Inum, Kind, Name, Refusal, User};
use su_files::{Stat, list, read_at, stat};
use su_reading::{InodeHead, TreeReader};
use su_stored_desk::TrialDesk;

/// A file that says `hello` is asked for in each way. Tells how often the store failed.
pub(crate) fn reads<S: BlockSource + Drop>(
    alloc: Global,
    source: S,
    meets: &mut Meets,
) -> Result<u64, Fault>
    requires { S.is_checked ≡ true }
{
    // names the types for the prover (docs/ARCHITECTURE.md, "Forms the kit wants")
    let _none: (Option<FileId>, Option<Refusal>) = (None, None);
    let mut desk = TrialDesk::new(alloc, two_users(alloc)?, source)?;
    say_hello(alloc, &mut desk, meets)?;
    what_it_is(&mut desk, meets)?;
    what_it_says(&mut desk, meets)?;
    where_it_is(alloc, &mut desk, meets)?;
    where_it_stands(&mut desk, meets)?;
    which_are_free(&mut desk, meets)?;
    Ok(desk.source_mut().failures())
}

/// User 0 makes the file 2, which says `hello`.
pub(crate) fn say_hello<S: BlockSource>(
    alloc: Global,
    desk: &mut TrialDesk<S>,
    meets: &mut Meets,
) -> Result<(), Fault> {
    // names the types for the prover (docs/ARCHITECTURE.md, "Forms the kit wants")
    let _none: (Option<FileId>, Option<Refusal>) = (None, None);
    let number = applied(desk, meets, User::FIRST, &create(alloc, b"a", 2)?)?;
    check(number == 1, Mistake::Commit)?;
    let number = applied(desk, meets, User::FIRST, &write(alloc, 2, b"hello")?)?;
    check(number == 2, Mistake::Commit)
}

fn what_it_is<S: BlockSource>(desk: &mut TrialDesk<S>, meets: &mut Meets) -> Result<(), Fault> {
    // names the types for the prover (docs/ARCHITECTURE.md, "Forms the kit wants")
    let _none: (Option<FileId>, Option<Refusal>) = (None, None);
    let asked = file(2)?;
    let before = left(desk, meets)?;
    let told = once_more!(meets, is_settled(desk, &before)?, stat(desk, asked))?;
    let right = Stat {
        holder: User::FIRST,
        kind: Kind::File,
        size: 5,
        links: 1,
    };
    check(told == right, Mistake::Found)
}

fn what_it_says<S: BlockSource>(desk: &mut TrialDesk<S>, meets: &mut Meets) -> Result<(), Fault> {
    // names the types for the prover (docs/ARCHITECTURE.md, "Forms the kit wants")
    let _none: (Option<FileId>, Option<Refusal>) = (None, None);
    let asked = file(2)?;
    let before = left(desk, meets)?;
    let told = once_more!(
        meets,
        is_settled(desk, &before)?,
        read_at(desk, asked, 1, 3)
    )?;
    check(told.as_slice() == b"ell".as_slice(), Mistake::Content)?;
    says(desk, meets, asked, b"hello")
}

fn where_it_is<S: BlockSource>(
    alloc: Global,
    desk: &mut TrialDesk<S>,
    meets: &mut Meets,
) -> Result<(), Fault> {
    // names the types for the prover (docs/ARCHITECTURE.md, "Forms the kit wants")
    let _none: (Option<FileId>, Option<Refusal>) = (None, None);
    let (asked, name, missing) = (file(2)?, Name::new(alloc, b"a")?, Name::new(alloc, b"z")?);
    let root = (User::FIRST, Inum::FIRST);
    let before = left(desk, meets)?;
    let listed = once_more!(meets, is_settled(desk, &before)?, list(desk, FileId::ROOT))?;
    let [(first, led)] = listed.as_slice() else {
        return Err(Fault::Wrong(Mistake::Found));
    };
    check(
        first.as_bytes() == b"a".as_slice() && *led == asked,
        Mistake::Found,
    )?;
    let before = left(desk, meets)?;
    let led = once_more!(meets, is_settled(desk, &before)?, desk.led_to(root, &name))?;
    check(led == Some(asked), Mistake::Found)?;
    let before = left(desk, meets)?;
    let led = once_more!(
        meets,
        is_settled(desk, &before)?,
        desk.led_to(root, &missing)
    )?;
    check(led.is_none(), Mistake::Found)
}

fn where_it_stands<S: BlockSource>(
    desk: &mut TrialDesk<S>,
    meets: &mut Meets,
) -> Result<(), Fault> {
    // names the types for the prover (docs/ARCHITECTURE.md, "Forms the kit wants")
    let _none: (Option<FileId>, Option<Refusal>) = (None, None);
    let (asked, place) = (file(2)?, (User::FIRST, Inum::new(2)?));
    let before = left(desk, meets)?;
    let body = once_more!(meets, is_settled(desk, &before)?, desk.body(asked))?;
    check(body == Some(place), Mistake::Found)?;
    let before = left(desk, meets)?;
    let head = once_more!(meets, is_settled(desk, &before)?, desk.head(place))?;
    let right = InodeHead {
        home: asked,
        kind: Kind::File,
        links: 1,
        size: 5,
    };
    check(head == Some(right), Mistake::Found)
}

fn which_are_free<S: BlockSource>(desk: &mut TrialDesk<S>, meets: &mut Meets) -> Result<(), Fault> {
    // names the types for the prover (docs/ARCHITECTURE.md, "Forms the kit wants")
    let _none: (Option<FileId>, Option<Refusal>) = (None, None);
    let (first, second, third) = (Inum::FIRST, Inum::new(2)?, Inum::new(3)?);
    let before = left(desk, meets)?;
    let free = once_more!(
        meets,
        is_settled(desk, &before)?,
        desk.free_number(User::FIRST, first)
    )?;
    check(free == Some(third), Mistake::Found)?;
    let before = left(desk, meets)?;
    let free = once_more!(
        meets,
        is_settled(desk, &before)?,
        desk.free_group_number(Group::FIRST, first)
    )?;
    check(free == Some(third), Mistake::Found)?;
    let before = left(desk, meets)?;
    let next = once_more!(
        meets,
        is_settled(desk, &before)?,
        desk.next_inode(User::FIRST, second)
    )?;
    check(next == Some(second), Mistake::Found)
}
