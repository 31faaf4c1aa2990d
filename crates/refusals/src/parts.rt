// Parts of a forest by themselves, which are left on a store and loaded again.
ghost use Rattle.std.specs.Prelude.{◌≡◌, true};

use crate::clients::file;
use crate::desks::two_users;
use crate::faults::{Fault, Mistake, check};
use crate::meets::{Meets, once_more};
use std::alloc::Global;
use su_block::BlockSource;
use su_bytes::{Digest, FileId, Inum, Kind, Name, Place, Refusal, User};
use su_left_blocks::put_blocks;
use su_part::{UserPart, Wanted};
use su_part_forest::PartForest;

/// What the file says: two blocks.
const BYTES: [u8; 5_000] = [7; 5_000];

fn root() -> Place {
    (User::FIRST, Inum::FIRST)
}

// Where the file stands.
fn second() -> Result<Place, Refusal> {
    // names the types for the prover (docs/ARCHITECTURE.md, "Forms the kit wants")
    let _none: (Option<FileId>, Option<Refusal>) = (None, None);
    Ok((User::FIRST, Inum::new(2)?))
}

/// A file of two blocks with a name is put into a forest, which is left. The name is looked up in the
/// forest and in the part of its user, and the file's blocks are put as those that are left. Tells
/// how often the store failed.
pub(crate) fn parts<S: BlockSource + Drop>(
    alloc: Global,
    source: S,
    meets: &mut Meets,
) -> Result<u64, Fault>
    requires { S.is_checked ≡ true }
{
    // names the types for the prover (docs/ARCHITECTURE.md, "Forms the kit wants")
    let _none: (Option<FileId>, Option<Refusal>) = (None, None);
    let mut source = source;
    let mut forest = made(alloc, meets)?;
    left(&mut forest, &mut source, meets)?;
    leads_to_it(alloc, &mut forest, &mut source, meets)?;
    let handle = forest.i_handle(User::FIRST);
    leads_to_it_alone(alloc, handle, &mut source, meets)?;
    left(&mut forest, &mut source, meets)?;
    has_left_blocks(alloc, &mut forest, &mut source, meets)?;
    says(&mut forest, &mut source, meets)?;
    Ok(source.failures())
}

fn made(alloc: Global, meets: &mut Meets) -> Result<PartForest, Fault> {
    // names the types for the prover (docs/ARCHITECTURE.md, "Forms the kit wants")
    let _none: (Option<FileId>, Option<Refusal>) = (None, None);
    let (home, place) = (file(2)?, second()?);
    let mut forest = PartForest::genesis(alloc, &two_users(alloc)?)?;
    let handle = forest.i_handle(User::FIRST);
    once_more!(
        meets,
        forest.i_handle(User::FIRST) == handle,
        forest.add_name(root(), Name::new(alloc, b"a")?, home)
    )?;
    let handle = forest.i_handle(User::FIRST);
    once_more!(
        meets,
        forest.i_handle(User::FIRST) == handle,
        forest.make_inode(place, home, Kind::File)
    )?;
    let handle = forest.i_handle(User::FIRST);
    once_more!(
        meets,
        forest.i_handle(User::FIRST) == handle,
        forest.write_at(place, 0, BYTES.as_slice())
    )?;
    Ok(forest)
}

fn left<S: BlockSource>(
    forest: &mut PartForest,
    source: &mut S,
    meets: &mut Meets,
) -> Result<(), Fault> {
    // names the types for the prover (docs/ARCHITECTURE.md, "Forms the kit wants")
    let _none: (Option<FileId>, Option<Refusal>) = (None, None);
    let handle = forest.i_handle(User::FIRST);
    once_more!(
        meets,
        forest.i_handle(User::FIRST) == handle,
        forest.shed(source)
    )?;
    check(forest.i_handle(User::FIRST) == handle, Mistake::Changed)
}

fn leads_to_it<S: BlockSource>(
    alloc: Global,
    forest: &mut PartForest,
    source: &mut S,
    meets: &mut Meets,
) -> Result<(), Fault>
    requires { S.is_checked ≡ true }
{
    // names the types for the prover (docs/ARCHITECTURE.md, "Forms the kit wants")
    let _none: (Option<FileId>, Option<Refusal>) = (None, None);
    let name = Name::new(alloc, b"a")?;
    let handle = forest.i_handle(User::FIRST);
    let led = once_more!(
        meets,
        forest.i_handle(User::FIRST) == handle,
        forest.name_at(root(), &name, source)
    )?;
    check(led == Some(file(2)?), Mistake::Found)
}

fn leads_to_it_alone<S: BlockSource>(
    alloc: Global,
    handle: Digest,
    source: &mut S,
    meets: &mut Meets,
) -> Result<(), Fault>
    requires { S.is_checked ≡ true }
{
    // names the types for the prover (docs/ARCHITECTURE.md, "Forms the kit wants")
    let _none: (Option<FileId>, Option<Refusal>) = (None, None);
    let name = Name::new(alloc, b"a")?;
    let mut part = UserPart::stub(alloc, handle);
    let led = once_more!(
        meets,
        part.i_handle() == handle,
        part.name_at(Inum::FIRST, &name, source)
    )?;
    check(led == Some(file(2)?), Mistake::Found)
}

// The file's own blocks, of which nothing is loaded, are refused; and put once their paths are.
fn has_left_blocks<S: BlockSource>(
    alloc: Global,
    forest: &mut PartForest,
    source: &mut S,
    meets: &mut Meets,
) -> Result<(), Fault>
    requires { S.is_checked ≡ true }
{
    // names the types for the prover (docs/ARCHITECTURE.md, "Forms the kit wants")
    let _none: (Option<FileId>, Option<Refusal>) = (None, None);
    let (place, handle) = (second()?, forest.i_handle(User::FIRST));
    let put = once_more!(
        meets,
        forest.i_handle(User::FIRST) == handle,
        put_blocks(alloc, BYTES.as_slice(), source)
    )?;
    let [first, second] = put.as_slice() else {
        return Err(Fault::Wrong(Mistake::Found));
    };
    let digests = [*first, *second];
    let refused = forest.put_left(place, 0, digests.as_slice());
    check(refused == Err(Refusal::MissingBlock), Mistake::Found)?;
    check(forest.i_handle(User::FIRST) == handle, Mistake::Changed)?;
    let wanted = Wanted::Blocks { first: 0, until: 2 };
    once_more!(
        meets,
        forest.i_handle(User::FIRST) == handle,
        forest.fetch(place, &wanted, source)
    )?;
    forest.put_left(place, 0, digests.as_slice())?;
    check(forest.i_handle(User::FIRST) == handle, Mistake::Changed)
}

fn says<S: BlockSource>(
    forest: &mut PartForest,
    source: &mut S,
    meets: &mut Meets,
) -> Result<(), Fault>
    requires { S.is_checked ≡ true }
{
    // names the types for the prover (docs/ARCHITECTURE.md, "Forms the kit wants")
    let _none: (Option<FileId>, Option<Refusal>) = (None, None);
    let (place, handle) = (second()?, forest.i_handle(User::FIRST));
    let told = once_more!(
        meets,
        forest.i_handle(User::FIRST) == handle,
        forest.bytes_at(place, 0, 9_999, source)
    )?;
    match told {
        Some(bytes) => check(bytes.as_slice() == BYTES.as_slice(), Mistake::Content),
        None => Err(Fault::Wrong(Mistake::Content)),
    }
}
