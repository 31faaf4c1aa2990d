// Leaving trees on a store.
ghost use Rattle.std.specs.Prelude.{◌≡◌, ◌⊎◌, ℕ, List, true, OnOk, IfOk, IfErr};
ghost use Rattle.su_tree.specs.MapKind.{map_kind};
ghost use Rattle.su_tree.specs.Digest.{empty_item, pair_item, split_item};
ghost use Rattle.su_block.specs.Item.{is_item};
ghost use Rattle.su_hash_tree.specs.Sort.{sort};
ghost use Rattle.su_hash_tree.specs.Stands.{Stands, kept};
ghost use Rattle.su_hash_tree.specs.declared.nodes.Node.TheVariants.{Stub};
ghost use Rattle.su_part_tree.specs.Loading.{IsLoaded, FailedAtItem};
ghost use Rattle.su_part_tree.specs.Putting.{IsOwnItem, IsItemOf, Took};
ghost use Rattle.su_bytes.specs.declared.refusals.Refusal.TheVariants.{SourceFailed, NoMemory};

use crate::items::{ReadKey, ReadValue};
use std::alloc::{AllocError, Global};
use su_block::BlockSource;
use su_bytes::{Digest, Refusal};
use su_hash_tree::Node;

/// Puts the item of each loaded node of a tree, those of its sides first; a node becomes a stub
/// once its item was put. Refused with `SourceFailed` where the source could not be asked, and with
/// `NoMemory` where memory is wanting; then only nodes whose items were put have become stubs.
pub(crate) fn shed_node<K: ReadKey, V: ReadValue, S: BlockSource>(
    node: &mut Node<K, V>,
    alloc: Global,
    source: &mut S,
) -> Result<(), Refusal>
    ensures stands { let t = sort K.bits K.bytes K.is_key V.bytes V.is_value in
        (m : List (K × V)) → Stands t node.old m → Stands t node.new m }
    ensures stub { OnOk result (node.new ≡ Stub (kept node.old)) }
    ensures kept { kept node.new ≡ kept node.old }
    ensures put { let t = sort K.bits K.bytes K.is_key V.bytes V.is_value in
        OnOk result ((s : List ℕ) → IsItemOf t node.old s
        → Took S.follows S.puts source.old source.new s) }
    ensures not_lost { let t = sort K.bits K.bytes K.is_key V.bytes V.is_value in
        (s : List ℕ) → IsItemOf t node.old s
        → Took S.follows S.puts source.old source.new s ⊎ IsItemOf t node.new s }
    ensures more { let t = sort K.bits K.bytes K.is_key V.bytes V.is_value in
        (s : List ℕ) → S.may_give source.new s
        → S.may_give source.old s ⊎ IsItemOf t node.old s }
    ensures failed { let t = sort K.bits K.bytes K.is_key V.bytes V.is_value in
        (m : List (K × V)) → Stands t node.old m
        → IfErr result (FailedAtItem t m (S.failed source.new)) }
    ensures refused { IfErr result (λ e. (e ≡ SourceFailed) ⊎ (e ≡ NoMemory)) }
    ensures follows { S.follows source.old source.new }
{
    match node {
        Node::Stub(_) => Ok(()),
        Node::Empty(_) => put_node(node, alloc, source),
        Node::Leaf(_, _, _) => put_node(node, alloc, source),
        Node::Split(_, l, r, _) => {
            shed_node(&mut **l, alloc, source)?;
            shed_node(&mut **r, alloc, source)?;
            put_node(node, alloc, source)
        }
    }
}

/// Puts the item of a node that is loaded; the node becomes a stub. Refused as `shed_node` is, and
/// then the node stays.
#[inline(never)]
fn put_node<K: ReadKey, V: ReadValue, S: BlockSource>(
    node: &mut Node<K, V>,
    alloc: Global,
    source: &mut S,
) -> Result<(), Refusal>
    requires { IsLoaded node.old }
    ensures stands { let t = sort K.bits K.bytes K.is_key V.bytes V.is_value in
        (m : List (K × V)) → Stands t node.old m → Stands t node.new m }
    ensures stub { OnOk result (node.new ≡ Stub (kept node.old)) }
    ensures kept { kept node.new ≡ kept node.old }
    ensures put { let t = sort K.bits K.bytes K.is_key V.bytes V.is_value in
        OnOk result ((s : List ℕ) → IsOwnItem t node.old s
        → Took S.follows S.puts source.old source.new s) }
    ensures not_lost { let t = sort K.bits K.bytes K.is_key V.bytes V.is_value in
        (s : List ℕ) → IsOwnItem t node.old s
        → Took S.follows S.puts source.old source.new s ⊎ IsOwnItem t node.new s }
    ensures more { let t = sort K.bits K.bytes K.is_key V.bytes V.is_value in
        (s : List ℕ) → S.may_give source.new s
        → S.may_give source.old s ⊎ IsOwnItem t node.old s }
    ensures failed { let t = sort K.bits K.bytes K.is_key V.bytes V.is_value in
        (m : List (K × V)) → Stands t node.old m
        → IfErr result (FailedAtItem t m (S.failed source.new)) }
    ensures refused { IfErr result (λ e. (e ≡ SourceFailed) ⊎ (e ≡ NoMemory)) }
    ensures follows { S.follows source.old source.new }
{
    let item = item_of(node, alloc)?;
    source.put(alloc, item.as_slice())?;
    *node = Node::Stub(node.kept());
    Ok(())
}

/// Spells the item of a node that is loaded, 1 to 69,634 bytes. Fails where memory is wanting.
fn item_of<K: ReadKey, V: ReadValue>(
    node: &Node<K, V>,
    alloc: Global,
) -> Result<Vec<u8>, AllocError>
    requires { IsLoaded node.now }
    ensures value { let t = sort K.bits K.bytes K.is_key V.bytes V.is_value in
        IfOk result (λ item. IsOwnItem t node.now item.items) }
    ensures size { IfOk result (λ item. is_item item.items ≡ true) }
{
    match node {
        Node::Stub(_) => unreachable!(),
        Node::Empty(_) => spell_empty(alloc),
        Node::Leaf(key, value, _) => spell_pair(alloc, key, value),
        Node::Split(at, l, r, _) => spell_split(alloc, *at, &l.kept(), &r.kept()),
    }
}

/// Spells the item of no pair.
fn spell_empty(alloc: Global) -> Result<Vec<u8>, AllocError>
    ensures { IfOk result (λ item. item.items ≡ empty_item) }
{
    Vec::from_slice(alloc, &[2])
}

/// Spells the item of one pair.
fn spell_pair<K: ReadKey, V: ReadValue>(
    alloc: Global,
    key: &K,
    value: &V,
) -> Result<Vec<u8>, AllocError>
    ensures value { let kind = map_kind K.bits K.bytes V.bytes in
        IfOk result (λ item. item.items ≡ pair_item kind (key.now, value.now)) }
    ensures size { IfOk result (λ item. is_item item.items ≡ true) }
{
    let mut item = Vec::new(alloc);
    item.push(0)?;
    item.extend_from_slice(&key.byte_count().to_be_bytes())?;
    key.spell(&mut item)?;
    value.spell(&mut item)?;
    Ok(item)
}

/// Spells the item of a split.
fn spell_split(alloc: Global, at: u16, left: &Digest, right: &Digest) -> Result<Vec<u8>, AllocError>
    ensures value { IfOk result (λ item. item.items ≡ split_item at left.now right.now) }
    ensures size { IfOk result (λ item. is_item item.items ≡ true) }
{
    let left: &[u8] = left.as_bytes();
    let right: &[u8] = right.as_bytes();
    let mut item = Vec::new(alloc);
    item.push(1)?;
    item.extend_from_slice(&at.to_be_bytes())?;
    item.extend_from_slice(left)?;
    item.extend_from_slice(right)?;
    Ok(item)
}
