// Copies of trees of which parts are left on a store.
ghost use Rattle.std.specs.Prelude.{◌≡◌, List, IfOk};
ghost use Rattle.su_hash_tree.specs.Sort.{sort};
ghost use Rattle.su_hash_tree.specs.Clones.{IsExact};
ghost use Rattle.su_hash_tree.specs.Stands.{Stands, IsEnd, IsWhole, reached};
ghost use Rattle.su_hash_tree.specs.declared.nodes.Node.TheViews.{Split};

use crate::items::{ReadKey, ReadValue};
use std::alloc::{AllocError, Global};
use su_bytes::Digest;
use su_hash_tree::Node;

/// Copies a tree; its stubs stay stubs. Fails where memory is wanting.
pub(crate) fn copy_node<K: ReadKey + Clone, V: ReadValue + Clone>(
    node: &Node<K, V>,
    alloc: Global,
) -> Result<Box<Node<K, V>>, AllocError>
    requires keys { IsExact K.is_clone }
    requires values { IsExact V.is_clone }
    ensures stands { let t = sort K.bits K.bytes K.is_key V.bytes V.is_value in
        (m : List (K × V)) → Stands t node.now m → IfOk result (λ copy. Stands t copy.value m) }
    ensures reached { (k : K)
        → IfOk result (λ copy. reached K.bits k copy.value ≡ reached K.bits k node.now) }
    ensures whole { IsWhole node.now → IfOk result (λ copy. IsWhole copy.value) }
{
    match node {
        Node::Stub(_) => copy_end(node, alloc),
        Node::Empty(_) => copy_end(node, alloc),
        Node::Leaf(_, _, _) => copy_end(node, alloc),
        Node::Split(at, l, r, digest) => {
            let left = copy_node(&**l, alloc)?;
            let right = copy_node(&**r, alloc)?;
            join(alloc, *at, left, right, digest)
        }
    }
}

/// Copies what is no split. (It isn't inlined, as `join` isn't, so that a call of `copy_node` takes
/// little of the stack.)
#[inline(never)]
fn copy_end<K: ReadKey + Clone, V: ReadValue + Clone>(
    node: &Node<K, V>,
    alloc: Global,
) -> Result<Box<Node<K, V>>, AllocError>
    requires keys { IsExact K.is_clone }
    requires values { IsExact V.is_clone }
    requires end { IsEnd node.now }
    ensures { IfOk result (λ copy. copy.value ≡ node.now) }
{
    let copy = match node {
        Node::Stub(digest) => Node::Stub(*digest),
        Node::Empty(digest) => Node::Empty(*digest),
        Node::Leaf(key, value, digest) => Node::Leaf(key.clone()?, value.clone()?, *digest),
        Node::Split(_, _, _, _) => unreachable!(),
    };
    Ok(Box::new(alloc, copy)?)
}

/// Makes a split with a digest that is known.
#[inline(never)]
fn join<K: ReadKey, V: ReadValue>(
    alloc: Global,
    at: u16,
    left: Box<Node<K, V>>,
    right: Box<Node<K, V>>,
    digest: &Digest,
) -> Result<Box<Node<K, V>>, AllocError>
    ensures { IfOk result (λ copy. copy.value ≡ Split at left right digest.now) }
{
    Ok(Box::new(alloc, Node::Split(at, left, right, *digest))?)
}
