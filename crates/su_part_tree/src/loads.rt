// Loading what was left on a store.
ghost use Rattle.std.specs.Prelude.{◌≡◌, ◌≢◌, ℕ, ◌+◌, ◌++◌, ◌≤◌, ◌<◌, Bool, List, length, true, OnOk, IfOk, IfErr, IsTrue, ◌⊎◌, MatchOption, Err, take, drop};
ghost use Rattle.su_hash_tree.specs.Sort.{sort};
ghost use Rattle.su_part_tree.specs.Items.{Spells, SpellsNone};
ghost use Rattle.su_hash_tree.specs.Stands.{Stands, reached, IsWhole};
ghost use Rattle.su_part_tree.specs.Loading.{NoClash, node_of, IsLoaded, BeginAlike, FailedAtItem, IsLoadRefusal};
ghost use Rattle.su_hash_tree.specs.declared.nodes.Node.TheVariants.{Stub};
ghost use Rattle.su_bytes.specs.declared.refusals.Refusal.TheVariants.{MissingBlock, WrongBlock, SourceFailed, NoMemory, Malformed};

use crate::items::{Item, ReadKey, ReadValue};
use std::alloc::Global;
use su_block::BlockSource;
use su_bytes::{Digest, Refusal};
use su_hash_tree::Node;

/// Loads the node of a stub; what is no stub stays as it is. Refused by the source, by want of
/// memory, or with `Malformed` where the item spells no node; then nothing changes.
pub(crate) fn load_node<K: ReadKey, V: ReadValue, S: BlockSource>(
    node: &mut Node<K, V>,
    alloc: Global,
    source: &mut S,
) -> Result<(), Refusal>
    requires checked { S.is_checked ≡ true }
    ensures stands { let t = sort K.bits K.bytes K.is_key V.bytes V.is_value in
        (m : List (K × V)) → Stands t node.old m → NoClash t m (S.may_give source.old)
        → Stands t node.new m }
    ensures malformed { let t = sort K.bits K.bytes K.is_key V.bytes V.is_value in
        result ≡ Err (Malformed 0) → (m : List (K × V)) → Stands t node.old m
        → NoClash t m (S.may_give source.old) → ⊥ }
    ensures failed { let t = sort K.bits K.bytes K.is_key V.bytes V.is_value in
        (m : List (K × V)) → Stands t node.old m
        → IfErr result (FailedAtItem t m (S.failed source.new)) }
    ensures refused { IfErr result IsLoadRefusal }
    ensures loaded { OnOk result (IsLoaded node.new) }
    ensures keeps { (k : K) → IsTrue (reached K.bits k node.old)
        → IsTrue (reached K.bits k node.new) }
    ensures no_more { (s : List ℕ) → S.may_give source.new s → S.may_give source.old s }
    ensures follows { S.follows source.old source.new }
{
    let Some(kept) = stub(node) else {
        return Ok(());
    };
    let item = source.get(alloc, kept)?;
    let Some(item) = decode(alloc, item.as_slice())? else {
        return Err(Refusal::Malformed(0));
    };
    *node = of_item(alloc, item, kept)?;
    Ok(())
}

/// Returns the node that an item with that digest spells; its sides are stubs. Fails only with
/// `NoMemory`.
fn of_item<K: ReadKey, V: ReadValue>(
    alloc: Global,
    item: Item<K, V>,
    kept: Digest,
) -> Result<Node<K, V>, Refusal>
    ensures value { IfOk result (λ n. node_of item kept n) }
    ensures refused { IfErr result (λ e. e ≡ NoMemory) }
{
    match item {
        Item::Nothing => Ok(Node::Empty(kept)),
        Item::Pair(key, value) => Ok(Node::Leaf(key, value, kept)),
        Item::Sides(at, left, right) => {
            let left = Box::new(alloc, Node::Stub(left))?;
            let right = Box::new(alloc, Node::Stub(right))?;
            Ok(Node::Split(at, left, right, kept))
        }
    }
}

/// Returns the digest of a stub.
fn stub<K: ReadKey, V: ReadValue>(node: &Node<K, V>) -> Option<Digest>
    ensures { MatchOption result (IsLoaded node.now) (λ d. node.now ≡ Stub d) }
{
    match node {
        Node::Stub(digest) => Some(*digest),
        Node::Empty(_) => None,
        Node::Leaf(_, _, _) => None,
        Node::Split(_, _, _, _) => None,
    }
}

/// Loads what the path of a key needs, in a tree that splits at no place before `least`. Refused by
/// the source, by want of memory, or with `Malformed` where an item spells no node, or a split
/// before the one above it.
pub(crate) fn reach_node<K: ReadKey, V: ReadValue, S: BlockSource>(
    node: &mut Node<K, V>,
    alloc: Global,
    key: &K,
    source: &mut S,
    least: u32,
) -> Result<(), Refusal>
    requires checked { S.is_checked ≡ true }
    requires least { least ≤ 65536 }
    ensures stands { let t = sort K.bits K.bytes K.is_key V.bytes V.is_value in
        (m : List (K × V)) → Stands t node.old m → NoClash t m (S.may_give source.old)
        → Stands t node.new m }
    ensures malformed { let t = sort K.bits K.bytes K.is_key V.bytes V.is_value in
        result ≡ Err (Malformed 0) → (m : List (K × V)) → BeginAlike K.bits least m
        → Stands t node.old m → NoClash t m (S.may_give source.old) → ⊥ }
    ensures failed { let t = sort K.bits K.bytes K.is_key V.bytes V.is_value in
        (m : List (K × V)) → Stands t node.old m → NoClash t m (S.may_give source.old)
        → IfErr result (FailedAtItem t m (S.failed source.new)) }
    ensures refused { IfErr result IsLoadRefusal }
    ensures reached { OnOk result (IsTrue (reached K.bits key.now node.new)) }
    ensures keeps { (k : K) → IsTrue (reached K.bits k node.old)
        → IsTrue (reached K.bits k node.new) }
    ensures no_more { (s : List ℕ) → S.may_give source.new s → S.may_give source.old s }
    ensures follows { S.follows source.old source.new }
{
    load_node(node, alloc, source)?;
    match node {
        Node::Stub(_) => unreachable!(),
        Node::Empty(_) => Ok(()),
        Node::Leaf(_, _, _) => Ok(()),
        Node::Split(at, l, r, _) => {
            let bit = u32::from(*at);
            if bit < least {
                return Err(Refusal::Malformed(0));
            }
            if key.bit(*at) {
                reach_node(&mut **r, alloc, key, source, bit + 1)
            } else {
                reach_node(&mut **l, alloc, key, source, bit + 1)
            }
        }
    }
}

/// Loads every node of a tree that splits at no place before `least`. Refused as `reach_node` is.
pub(crate) fn reach_all_nodes<K: ReadKey, V: ReadValue, S: BlockSource>(
    node: &mut Node<K, V>,
    alloc: Global,
    source: &mut S,
    least: u32,
) -> Result<(), Refusal>
    requires checked { S.is_checked ≡ true }
    requires least { least ≤ 65536 }
    ensures stands { let t = sort K.bits K.bytes K.is_key V.bytes V.is_value in
        (m : List (K × V)) → Stands t node.old m → NoClash t m (S.may_give source.old)
        → Stands t node.new m }
    ensures malformed { let t = sort K.bits K.bytes K.is_key V.bytes V.is_value in
        result ≡ Err (Malformed 0) → (m : List (K × V)) → BeginAlike K.bits least m
        → Stands t node.old m → NoClash t m (S.may_give source.old) → ⊥ }
    ensures failed { let t = sort K.bits K.bytes K.is_key V.bytes V.is_value in
        (m : List (K × V)) → Stands t node.old m → NoClash t m (S.may_give source.old)
        → IfErr result (FailedAtItem t m (S.failed source.new)) }
    ensures refused { IfErr result IsLoadRefusal }
    ensures whole { OnOk result (IsWhole node.new) }
    ensures keeps { (k : K) → IsTrue (reached K.bits k node.old)
        → IsTrue (reached K.bits k node.new) }
    ensures no_more { (s : List ℕ) → S.may_give source.new s → S.may_give source.old s }
    ensures follows { S.follows source.old source.new }
{
    load_node(node, alloc, source)?;
    match node {
        Node::Stub(_) => unreachable!(),
        Node::Empty(_) => Ok(()),
        Node::Leaf(_, _, _) => Ok(()),
        Node::Split(at, l, r, _) => {
            let bit = u32::from(*at);
            if bit < least {
                return Err(Refusal::Malformed(0));
            }
            reach_all_nodes(&mut **l, alloc, source, bit + 1)?;
            reach_all_nodes(&mut **r, alloc, source, bit + 1)
        }
    }
}

/// The node that an item spells, if it spells one: each node has one spelling.
fn decode<K: ReadKey, V: ReadValue>(
    alloc: Global,
    item: &[u8],
) -> Result<Option<Item<K, V>>, Refusal>
    ensures node { let t = sort K.bits K.bytes K.is_key V.bytes V.is_value in
        IfOk result (λ o. MatchOption o (SpellsNone t item.now) (Spells t item.now)) }
    ensures refused { IfErr result (λ e. e ≡ NoMemory) }
{
    match item {
        [2] => Ok(Some(Item::Nothing)),
        [0, high, low, rest @ ..] => {
            let count = usize::from(u16::from_be_bytes([*high, *low]));
            if rest.len() < count {
                return Ok(None);
            }
            let Some(key) = K::read(alloc, &rest[..count])? else {
                return Ok(None);
            };
            let Some(value) = V::read(alloc, &rest[count..])? else {
                return Ok(None);
            };
            Ok(Some(Item::Pair(key, value)))
        }
        [1, high, low, rest @ ..] => match sides(rest) {
            None => Ok(None),
            Some((left, right)) => {
                Ok(Some(Item::Sides(u16::from_be_bytes([*high, *low]), left, right)))
            }
        },
        _ => Ok(None),
    }
}

/// The two digests that 64 bytes are.
fn sides(bytes: &[u8]) -> Option<(Digest, Digest)>
    ensures { MatchOption result (length bytes.now ≢ 64)
        (λ d. (bytes.now ≡ d.0 ++ d.1) × (length d.0 ≡ 32) × (length d.1 ≡ 32)) }
{
    if bytes.len() != 64 {
        return None;
    }
    Some((digest_at(bytes, 0), digest_at(bytes, 32)))
}

/// The digest that stands at a place.
pub(crate) fn digest_at(bytes: &[u8], place: usize) -> Digest
    requires { place + 32 ≤ length bytes.now }
    ensures { result ≡ take 32 (drop place bytes.now) }
{
    let mut part = [0u8; 32];
    part.copy_from_slice(&bytes[place..place + 32]);
    Digest::new(part)
}
