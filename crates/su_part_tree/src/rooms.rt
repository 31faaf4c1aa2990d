// Pairs that are put into trees with room that was made before.
ghost use Rattle.std.specs.Prelude.{◌≡◌, List, IsTrue};
ghost use Rattle.su_tree.specs.MapKind.{map_kind};
ghost use Rattle.su_tree.specs.Digest.{digest};
ghost use Rattle.su_hash_tree.specs.Sort.{sort};
ghost use Rattle.su_hash_tree.specs.Edits.{with_value, IsAbove, Parts};
ghost use Rattle.su_hash_tree.specs.Stands.{Stands, Loose, IsEnd, reached};

use crate::items::{ReadKey, ReadValue};
use std::alloc::{AllocError, Global};
use std::mem;
use su_bytes::Digest;
use su_hash_tree::{Hashes, Node};
use su_tree::{TreeKey, TreeValue};

/// Room for one pair more in a map: what is put with it takes no memory.
#[derive(Drop)]
pub struct Room<K: TreeKey, V: TreeValue> {
    leaf: Box<Node<K, V>>,
    side: Box<Node<K, V>>,
}

/// Makes the room for one pair. (What its boxes hold is of no account.) Fails where memory is
/// wanting.
pub(crate) fn make_room<K: ReadKey, V: ReadValue>(
    alloc: Global,
    spare: Digest,
) -> Result<Room<K, V>, AllocError> {
    let leaf = Box::new(alloc, Node::Stub(spare))?;
    let side = Box::new(alloc, Node::Stub(spare))?;
    Ok(Room { leaf, side })
}

/// Puts a pair whose key parts at `bit` from the keys that are there. The key's path has no stub.
/// It takes no memory.
pub(crate) fn add_node<K: ReadKey, V: ReadValue>(
    node: &mut Node<K, V>,
    bit: u16,
    key: K,
    value: V,
    room: Room<K, V>,
    hashes: &mut Hashes,
)
    requires { IsTrue (reached K.bits key node.old) }
    ensures stands { let t = sort K.bits K.bytes K.is_key V.bytes V.is_value in
        (m : List (K × V)) → Stands t node.old m → Parts K.bits bit key m
        → Stands t node.new (with_value K.bits key value m) }
    ensures keeps { (k : K) → IsTrue (reached K.bits k node.old)
        → IsTrue (reached K.bits k node.new) }
{
    match node {
        Node::Stub(_) => unreachable!(),
        Node::Empty(_) => fork_node(node, bit, key, value, room, hashes),
        Node::Leaf(_, _, _) => fork_node(node, bit, key, value, room, hashes),
        Node::Split(at, l, r, _) => {
            if *at >= bit {
                fork_node(node, bit, key, value, room, hashes)
            } else if key.bit(*at) {
                add_node(&mut **r, bit, key, value, room, hashes);
                refresh(node, hashes);
            } else {
                add_node(&mut **l, bit, key, value, room, hashes);
                refresh(node, hashes);
            }
        }
    }
}

/// Puts a pair beside the whole tree.
#[inline(never)]
fn fork_node<K: ReadKey, V: ReadValue>(
    node: &mut Node<K, V>,
    bit: u16,
    key: K,
    value: V,
    room: Room<K, V>,
    hashes: &mut Hashes,
)
    ensures stands { let t = sort K.bits K.bytes K.is_key V.bytes V.is_value in
        (m : List (K × V)) → Stands t node.old m → IsAbove K.bits bit key m
        → Stands t node.new (with_value K.bits key value m) }
    ensures keeps { (k : K) → IsTrue (reached K.bits k node.old)
        → IsTrue (reached K.bits k node.new) }
{
    let right = key.bit(bit);
    let digest = hashes.pair(&key, &value);
    let kept = node.kept();
    let Room { leaf, side } = room;
    let mut leaf = leaf;
    let mut side = side;
    *leaf = Node::Leaf(key, value, digest);
    *side = mem::replace(node, Node::Stub(kept));
    if right {
        let whole = hashes.split(bit, &kept, &digest);
        *node = Node::Split(bit, side, leaf, whole);
    } else {
        let whole = hashes.split(bit, &digest, &kept);
        *node = Node::Split(bit, leaf, side, whole);
    }
}

/// Makes the digest anew that a split keeps, from those that its sides keep.
#[inline(never)]
fn refresh<K: ReadKey, V: ReadValue>(node: &mut Node<K, V>, hashes: &mut Hashes)
    ensures stands { let t = sort K.bits K.bytes K.is_key V.bytes V.is_value in
        (m : List (K × V)) → Loose t node.old m → ¬ (IsEnd node.old) → Stands t node.new m }
    ensures reached { (k : K) → reached K.bits k node.new ≡ reached K.bits k node.old }
{
    let digest = digest_of(node, hashes);
    match node {
        Node::Stub(_) => {}
        Node::Empty(_) => {}
        Node::Leaf(_, _, _) => {}
        Node::Split(_, _, _, kept) => *kept = digest,
    }
}

/// Returns the digest of a split, from those that its sides keep.
fn digest_of<K: ReadKey, V: ReadValue>(node: &Node<K, V>, hashes: &mut Hashes) -> Digest
    ensures { let t = sort K.bits K.bytes K.is_key V.bytes V.is_value in
        (m : List (K × V)) → Loose t node.now m → ¬ (IsEnd node.now)
        → result ≡ digest (map_kind K.bits K.bytes V.bytes) m }
{
    match node {
        Node::Stub(kept) => *kept,
        Node::Empty(kept) => *kept,
        Node::Leaf(_, _, kept) => *kept,
        Node::Split(at, l, r, _) => hashes.split(*at, &l.kept(), &r.kept()),
    }
}
