// How many hashes a change of a tree makes, which no program shows.
use std::alloc::Global;
use std::test::Fail;
use su_bytes::{Digest, Refusal};
use su_hash_tree::HashTree;

// A tree of the numbers 1 to 10,000.
fn many_numbers(alloc: Global) -> Result<HashTree<u32, Digest>, Refusal> {
    let mut tree = HashTree::empty(alloc);
    for number in 1..10_001u32 {
        tree.insert(number, Digest::new([7; 32]))?;
    }
    Ok(tree)
}

#[test]
fn an_insert_hashes_one_path(rt: HostRuntime) -> Result<(), Fail> {
    let mut tree = many_numbers(rt.alloc())?;
    let before = tree.hashes();
    assert!(rt; tree.insert(10_001, Digest::new([7; 32]))?.is_none());
    assert!(rt; tree.hashes().saturating_sub(before) <= 33);
    Ok(())
}
