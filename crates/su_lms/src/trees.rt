// The tree over the one-time public keys (RFC 8554, Section 5.3).
ghost use Rattle.std.specs.Prelude.{◌≡◌, ◌≤◌, ◌<◌, ◌*◌, ◌+◌, ◌%◌, ◌^◌, ℕ, [], IfOk, IfErr, length, slice_index_or};
ghost use Rattle.su_lms.specs.ParameterSets.{height_of};
ghost use Rattle.su_lms.specs.MerkleTree.{leaf_value, inner_value, parent_value, sibling_of};
ghost use Rattle.su_lms.specs.KeyFile.{private_key_of};
ghost use Rattle.su_lms.specs.NodeTable.{AreLeaves, HasLeaves, IsNodeTable};
ghost use Rattle.su_bytes.specs.declared.refusals.Refusal.TheVariants.{NoMemory};

use crate::key_files::KeyFile;
use crate::one_time::one_time_keys;
use crate::parameters::leaf_count;
use crate::strings::{INNER, LEAF, hasher_of};
use sha2::Digest;
use std::alloc::Global;
use std::thread;
use std::thread::Threads;
use su_bytes::Refusal;

/// The value of leaf node r, from its one-time public key.
#[tactic(auto, unfolding(crate::specs::MerkleTree::leaf_value))]
pub fn leaf_value(id: &[u8; 16], r: u32, key: &[u8; 32]) -> [u8; 32]
    ensures { result ≡ leaf_value id.now r key.now }
{
    let mut hasher = hasher_of(id, r, LEAF);
    hasher.update(key);
    hasher.finalize()
}

/// The value of inner node r, from those of its children.
#[tactic(auto, unfolding(crate::specs::MerkleTree::inner_value))]
pub fn inner_value(id: &[u8; 16], r: u32, left: &[u8; 32], right: &[u8; 32]) -> [u8; 32]
    ensures { result ≡ inner_value id.now r left.now right.now }
{
    let mut hasher = hasher_of(id, r, INNER);
    hasher.update(left);
    hasher.update(right);
    hasher.finalize()
}

/// The value of the parent of node r, from r's and its sibling's (RFC 8554, Section 5.4.2).
#[tactic(auto, unfolding(crate::specs::MerkleTree::parent_value))]
pub fn parent_value(id: &[u8; 16], r: u32, sibling: &[u8; 32], value: &[u8; 32]) -> [u8; 32]
    ensures { result ≡ parent_value id.now r sibling.now value.now }
{
    if r % 2 == 1 {
        inner_value(id, r / 2, sibling, value)
    } else {
        inner_value(id, r / 2, value, sibling)
    }
}

/// The other child of the parent of node r (RFC 8554, Section 5.4.1).
pub fn sibling_of(r: u32) -> u32
    requires { r < 2 ^ 31 }
    ensures { result ≡ sibling_of r }
{
    if r % 2 == 1 { r - 1 } else { r + 1 }
}

/// The tree of a key, node r at place r. Only `NoMemory` can come.
pub fn grow(alloc: Global, file: &KeyFile) -> Result<Vec<[u8; 32]>, Refusal>
    ensures value { IfOk result (λ nodes. IsNodeTable (private_key_of file.now) nodes.items) }
    ensures refused { IfErr result (λ e. e ≡ NoMemory) }
{
    let leaves = leaf_count(file.params.lms);
    let mut nodes = vec![in alloc; [0u8; 32]; 2 * leaves as usize]?;
    set_all_leaves(&mut nodes, file, leaves);
    set_inner_nodes(&mut nodes, file, leaves);
    Ok(nodes)
}

/// The same, with the leaves made on all cores.
pub fn grow_in_threads<R: Threads + Sync>(
    rt: &R,
    alloc: Global,
    file: &KeyFile,
) -> Result<Vec<[u8; 32]>, Refusal>
    ensures value { IfOk result (λ nodes. IsNodeTable (private_key_of file.now) nodes.items) }
    ensures refused { IfErr result (λ e. e ≡ NoMemory) }
{
    let leaves = leaf_count(file.params.lms);
    let mut nodes = vec![in alloc; [0u8; 32]; 2 * leaves as usize]?;
    set_all_leaves_in_threads(rt, &mut nodes, file, leaves);
    set_inner_nodes(&mut nodes, file, leaves);
    Ok(nodes)
}

// Puts the value of each leaf at its place.
fn set_all_leaves(nodes: &mut [[u8; 32]], file: &KeyFile, leaves: u32)
    requires leaves { leaves ≡ 2 ^ height_of file.now.params.lms }
    requires small { leaves ≤ 2 ^ 25 }
    requires size { length nodes.old ≡ 2 * leaves }
    ensures { HasLeaves (private_key_of file.now) nodes.new }
{
    set_leaves(&mut nodes[leaves as usize..], file, leaves, 0);
}

// The same, on all cores: each thread makes the leaves of some groups of eight.
fn set_all_leaves_in_threads<R: Threads + Sync>(
    rt: &R,
    nodes: &mut [[u8; 32]],
    file: &KeyFile,
    leaves: u32,
)
    requires leaves { leaves ≡ 2 ^ height_of file.now.params.lms }
    requires small { leaves ≤ 2 ^ 25 }
    requires size { length nodes.old ≡ 2 * leaves }
    ensures { HasLeaves (private_key_of file.now) nodes.new }
{
    let threads = match thread::available_parallelism(rt) {
        Ok(threads) => threads.get(),
        Err(_) => 1,
    };
    let groups = leaves.div_ceil(8) as usize;
    let size = 8 * groups.div_ceil(threads);
    set_leaves_in_parts(rt, &mut nodes[leaves as usize..], file, leaves, size);
}

// Puts the value of each leaf at its place, those of the next `size` in a thread of their own.
fn set_leaves_in_parts<R: Threads + Sync>(
    rt: &R,
    part: &mut [[u8; 32]],
    file: &KeyFile,
    leaves: u32,
    size: usize,
)
    requires leaves { leaves ≡ 2 ^ height_of file.now.params.lms }
    requires small { leaves ≤ 2 ^ 25 }
    requires all { length part.old ≡ leaves }
    requires size { 0 < size }
    ensures { AreLeaves (private_key_of file.now) 0 part.new }
{
    let set = |q: usize, part: &mut [[u8; 32]]|
        requires { (leaves ≡ 2 ^ height_of file.now.params.lms) × (leaves ≤ 2 ^ 25)
            × (q + length part.now ≤ leaves) }
        ensures { (length part.exit.now ≡ length part.entry.now)
            × AreLeaves (private_key_of file.entry.now) q part.exit.now }
    { set_leaves(part, file, leaves, q as u32) };
    thread::for_each_chunk_mut(rt, part, size, &set);
}

// Puts the values of leaf q and those behind it at their places.
fn set_leaves(part: &mut [[u8; 32]], file: &KeyFile, leaves: u32, q: u32)
    requires leaves { leaves ≡ 2 ^ height_of file.now.params.lms }
    requires small { leaves ≤ 2 ^ 25 }
    requires inside { q + length part.old ≤ leaves }
    ensures { AreLeaves (private_key_of file.now) q part.new }
{
    for group in 0..part.len().div_ceil(8) {
        let first = 8 * group;
        let end = part.len().min(first + 8);
        set_eight_leaves(&mut part[first..end], file, leaves, q + first as u32);
    }
}

// Puts the values of leaf q and at most seven behind it at their places.
fn set_eight_leaves(part: &mut [[u8; 32]], file: &KeyFile, leaves: u32, q: u32)
    requires leaves { leaves ≡ 2 ^ height_of file.now.params.lms }
    requires small { leaves ≤ 2 ^ 25 }
    requires inside { q + length part.old ≤ leaves }
    requires some { q < leaves }
    requires few { length part.old ≤ 8 }
    ensures { AreLeaves (private_key_of file.now) q part.new }
{
    let keys = one_time_keys(file.params.ots, &file.id, &file.seed, q);
    for l in 0..part.len() {
        part[l] = leaf_value(&file.id, leaves + q + l as u32, &keys[l]);
    }
}

// Puts the value of each inner node at its place.
fn set_inner_nodes(nodes: &mut [[u8; 32]], file: &KeyFile, leaves: u32)
    requires leaves { leaves ≡ 2 ^ height_of file.now.params.lms }
    requires small { leaves ≤ 2 ^ 25 }
    requires size { length nodes.old ≡ 2 * leaves }
    requires set { HasLeaves (private_key_of file.now) nodes.old }
    ensures { IsNodeTable (private_key_of file.now) nodes.new }
{
    set_parents(nodes, &file.id, leaves);
}

// The same, from the values of the leaves, the lowest first.
fn set_parents(nodes: &mut [[u8; 32]], id: &[u8; 16], leaves: u32)
    requires small { leaves ≤ 2 ^ 25 }
    requires size { length nodes.old ≡ 2 * leaves }
    ensures leaves { (r : ℕ) → leaves ≤ r
        → slice_index_or nodes.new r [] ≡ slice_index_or nodes.old r [] }
    ensures inner { (r : ℕ) → 1 ≤ r → r < leaves → slice_index_or nodes.new r [] ≡ inner_value id.now r (slice_index_or nodes.new (2 * r) []) (slice_index_or nodes.new (2 * r + 1) []) }
{
    let mut r = leaves;
    while 1 < r {
        r -= 1;
        let place = r as usize;
        nodes[place] = inner_value(id, r, &nodes[2 * place], &nodes[2 * place + 1]);
    }
}
