// Pairs that are taken out of trees of which parts are left on a store.
ghost use Rattle.std.specs.Prelude.{◌≡◌, ◌⊎◌, ◌<◌, List, length, IsTrue, None, false};
ghost use Rattle.su_hash_tree.specs.Sort.{sort};
ghost use Rattle.su_hash_tree.specs.Edits.{value_at, without_key};
ghost use Rattle.su_hash_tree.specs.Stands.{Stands, Gaping, IsEmpty, Known, reached};
ghost use Rattle.su_hash_tree.specs.declared.nodes.Node.TheVariants.{Empty};
ghost use Rattle.sha2.specs.Sha256.{sha256};
ghost use Rattle.su_tree.specs.Digest.{empty_item};
ghost use Rattle.su_part_tree.specs.Taking.{OnEmptySide};

use crate::items::{ReadKey, ReadValue};
use std::mem;
use su_hash_tree::{Hashes, Node};
use su_tree::{TreeKey, TreeValue, first_difference};

/// Takes out the pair of a key, where its path has no stub or the map lacks it, and tells whether
/// it was there. It takes no memory.
pub(crate) fn take_node<K: ReadKey, V: ReadValue>(
    node: &mut Node<K, V>,
    key: &K,
    hashes: &mut Hashes,
) -> bool
    ensures none { let t = sort K.bits K.bytes K.is_key V.bytes V.is_value in
        (m : List (K × V)) → Stands t node.old m → Known K.bits key.now node.old m
        → result ≡ false → None ≡ value_at K.bits key.now m }
    ensures stands { let t = sort K.bits K.bytes K.is_key V.bytes V.is_value in
        (m : List (K × V)) → Stands t node.old m → Known K.bits key.now node.old m
        → Stands t node.new (without_key K.bits key.now m) }
    ensures some { let t = sort K.bits K.bytes K.is_key V.bytes V.is_value in
        (m : List (K × V)) → Stands t node.old m → Known K.bits key.now node.old m
        → IsTrue result → IsEmpty node.new ⊎ (0 < length (without_key K.bits key.now m)) }
    ensures stays { let t = sort K.bits K.bytes K.is_key V.bytes V.is_value in
        (m : List (K × V)) → Stands t node.old m → Known K.bits key.now node.old m
        → (k : K) → Known K.bits k node.old m
        → Known K.bits k node.new (without_key K.bits key.now m) }
{
    match node {
        Node::Stub(_) => false,
        Node::Empty(_) => false,
        Node::Leaf(k, _, _) => match first_difference(key, k) {
            Some(_) => false,
            None => {
                clear(node, hashes);
                true
            }
        },
        Node::Split(at, l, r, _) => {
            if key.bit(*at) {
                if take_node(&mut **r, key, hashes) {
                    settle(node, hashes);
                    return true;
                }
                false
            } else {
                if take_node(&mut **l, key, hashes) {
                    settle(node, hashes);
                    return true;
                }
                false
            }
        }
    }
}

/// Leaves no pair.
#[inline(never)]
fn clear<K: ReadKey, V: ReadValue>(node: &mut Node<K, V>, hashes: &mut Hashes)
    ensures { node.new ≡ Empty (sha256 empty_item) }
{
    *node = Node::Empty(hashes.empty());
}

/// Makes a split whole of which a side may have become empty.
#[inline(never)]
fn settle<K: ReadKey, V: ReadValue>(node: &mut Node<K, V>, hashes: &mut Hashes)
    ensures stands { let t = sort K.bits K.bytes K.is_key V.bytes V.is_value in
        (m : List (K × V)) → Gaping t node.old m → Stands t node.new m }
    ensures reached { (k : K) → IsTrue (reached K.bits k node.old)
        → IsTrue (reached K.bits k node.new) ⊎ OnEmptySide K.bits k node.old }
{
    let spare = Node::Stub(node.kept());
    let torn = mem::replace(node, spare);
    *node = settled(torn, hashes);
}

/// Returns a split of which a side may be empty, made whole.
fn settled<K: ReadKey, V: ReadValue>(node: Node<K, V>, hashes: &mut Hashes) -> Node<K, V>
    ensures stands { let t = sort K.bits K.bytes K.is_key V.bytes V.is_value in
        (m : List (K × V)) → Gaping t node m → Stands t result m }
    ensures reached { (k : K) → IsTrue (reached K.bits k node)
        → IsTrue (reached K.bits k result) ⊎ OnEmptySide K.bits k node }
{
    match node {
        Node::Stub(digest) => Node::Stub(digest),
        Node::Empty(digest) => Node::Empty(digest),
        Node::Leaf(key, value, digest) => Node::Leaf(key, value, digest),
        Node::Split(at, l, r, _) => {
            if l.is_empty() {
                return Box::into_inner(r);
            }
            if r.is_empty() {
                return Box::into_inner(l);
            }
            let digest = hashes.split(at, &l.kept(), &r.kept());
            Node::Split(at, l, r, digest)
        }
    }
}
