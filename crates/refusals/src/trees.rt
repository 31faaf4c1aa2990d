// Trees by themselves, which are left on a store and loaded again.
ghost use Rattle.std.specs.Prelude.{◌≡◌, true};

use crate::faults::{Fault, Mistake, check};
use crate::meets::{Meets, once_more};
use std::alloc::Global;
use su_block::BlockSource;
use su_bytes::{Digest, FileId, Refusal};
use su_hash_tree::HashTree;
use su_part_tree::PartTree;

/// The tree of this row.
type Tree = PartTree<u32, Digest>;

/// The keys of its pairs, ascending.
const KEYS: [u32; 5] = [1, 2, 5, 70, 4_000_000_000];

fn value(key: u32) -> Digest {
    Digest::new([(key & 0x7f) as u8; 32])
}

/// Five pairs are put into a tree, which is left, loaded bit by bit and whole, and copied. Tells how
/// often the store failed.
pub(crate) fn trees<S: BlockSource + Drop>(
    alloc: Global,
    source: S,
    meets: &mut Meets,
) -> Result<u64, Fault>
    requires { S.is_checked ≡ true }
{
    let mut source = source;
    let digest = digest_in_memory(alloc, meets)?;
    let mut tree = five_pairs(alloc, meets)?;
    check(tree.digest() == digest, Mistake::Found)?;
    left(&mut tree, &mut source, meets)?;
    root_is_loaded(alloc, digest, &mut source, meets)?;
    each_is_reached(&mut tree, &mut source, meets)?;
    left(&mut tree, &mut source, meets)?;
    all_are_reached(&mut tree, &mut source, meets)?;
    check(tree.digest() == digest, Mistake::Found)?;
    Ok(source.failures())
}

// The digest of the map of these pairs, as a tree in memory has it.
fn digest_in_memory(alloc: Global, meets: &mut Meets) -> Result<Digest, Fault> {
    // names the types for the prover (docs/ARCHITECTURE.md, "Forms the kit wants")
    let _none: (Option<FileId>, Option<Refusal>) = (None, None);
    let mut tree = HashTree::empty(alloc);
    for key in KEYS {
        let (count, digest) = (tree.len(), tree.digest());
        let was = once_more!(
            meets,
            tree.len() == count && tree.digest() == digest,
            inserted(&mut tree, key)
        )?;
        check(was.is_none(), Mistake::Found)?;
    }
    Ok(tree.digest())
}

fn inserted(tree: &mut HashTree<u32, Digest>, key: u32) -> Result<Option<Digest>, Refusal> {
    Ok(tree.insert(key, value(key))?)
}

fn five_pairs(alloc: Global, meets: &mut Meets) -> Result<Tree, Fault> {
    // names the types for the prover (docs/ARCHITECTURE.md, "Forms the kit wants")
    let _none: (Option<FileId>, Option<Refusal>) = (None, None);
    let mut tree = PartTree::empty(alloc);
    for key in KEYS {
        let digest = tree.digest();
        once_more!(meets, tree.digest() == digest, put(&mut tree, key))?;
    }
    Ok(tree)
}

fn put(tree: &mut Tree, key: u32) -> Result<(), Refusal> {
    if !tree.reaches(&key) {
        return Err(Refusal::MissingBlock);
    }
    Ok(tree.put(key, value(key))?)
}

fn left<S: BlockSource>(tree: &mut Tree, source: &mut S, meets: &mut Meets) -> Result<(), Fault> {
    // names the types for the prover (docs/ARCHITECTURE.md, "Forms the kit wants")
    let _none: (Option<FileId>, Option<Refusal>) = (None, None);
    let digest = tree.digest();
    once_more!(meets, tree.digest() == digest, tree.shed(source))?;
    check(!tree.has_root(), Mistake::Found)
}

fn root_is_loaded<S: BlockSource>(
    alloc: Global,
    digest: Digest,
    source: &mut S,
    meets: &mut Meets,
) -> Result<(), Fault>
    requires { S.is_checked ≡ true }
{
    // names the types for the prover (docs/ARCHITECTURE.md, "Forms the kit wants")
    let _none: (Option<FileId>, Option<Refusal>) = (None, None);
    let mut tree: Tree = PartTree::stub(alloc, digest);
    once_more!(
        meets,
        tree.digest() == digest && !tree.has_root(),
        tree.load(source)
    )?;
    check(
        tree.digest() == digest && tree.has_root() && !tree.has_all(),
        Mistake::Found,
    )
}

fn each_is_reached<S: BlockSource>(
    tree: &mut Tree,
    source: &mut S,
    meets: &mut Meets,
) -> Result<(), Fault>
    requires { S.is_checked ≡ true }
{
    // names the types for the prover (docs/ARCHITECTURE.md, "Forms the kit wants")
    let _none: (Option<FileId>, Option<Refusal>) = (None, None);
    let digest = tree.digest();
    for key in KEYS {
        once_more!(meets, tree.digest() == digest, tree.reach(&key, source))?;
        check(found(tree, key)? == Some(value(key)), Mistake::Found)?;
    }
    once_more!(meets, tree.digest() == digest, tree.reach(&3, source))?;
    check(found(tree, 3)?.is_none(), Mistake::Found)
}

// What stands at a key whose path is loaded.
fn found(tree: &Tree, key: u32) -> Result<Option<Digest>, Fault> {
    if tree.reaches(&key) {
        Ok(tree.get(&key).copied())
    } else {
        Err(Fault::Wrong(Mistake::Found))
    }
}

fn all_are_reached<S: BlockSource>(
    tree: &mut Tree,
    source: &mut S,
    meets: &mut Meets,
) -> Result<(), Fault>
    requires { S.is_checked ≡ true }
{
    // names the types for the prover (docs/ARCHITECTURE.md, "Forms the kit wants")
    let _none: (Option<FileId>, Option<Refusal>) = (None, None);
    let digest = tree.digest();
    once_more!(meets, tree.digest() == digest, tree.reach_all(source))?;
    let copy = once_more!(meets, tree.digest() == digest, copied(tree))?;
    let pairs = once_more!(meets, copy.digest() == digest, listed(&copy))?;
    let keys = [pairs_key(&pairs, 0), pairs_key(&pairs, 4)];
    check(
        pairs.len() == 5 && keys == [Some(1), Some(4_000_000_000)],
        Mistake::Found,
    )
}

fn copied(tree: &Tree) -> Result<Tree, Refusal> {
    Ok(tree.copy()?)
}

fn listed(tree: &Tree) -> Result<Vec<(u32, Digest)>, Refusal> {
    if !tree.has_all() {
        return Err(Refusal::MissingBlock);
    }
    Ok(tree.entries()?)
}

fn pairs_key(pairs: &[(u32, Digest)], at: usize) -> Option<u32> {
    let (key, _value) = pairs.get(at)?;
    Some(*key)
}
