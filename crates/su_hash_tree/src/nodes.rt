// The nodes of a hash tree, each with the digest of its part of the map.
ghost use Rattle.std.specs.Prelude.{◌≡◌, ℕ, ◌+◌, ◌≤◌, ◌<◌, Bool, List, [], ◌∷◌, ◌++◌, length, OnOk, OnErr, IfOk, MatchOption, Some, None, Option, IsTrue, ◌⊎◌, ◌↔◌, IfSome};
ghost use Rattle.std.specs.Option.{option_copied};
ghost use Rattle.su_tree.specs.MapKind.{map_kind};
ghost use Rattle.su_tree.specs.Digest.{digest};
ghost use Rattle.su_hash_tree.specs.Sort.{sort};
ghost use Rattle.su_hash_tree.specs.Clones.{IsExact};
ghost use Rattle.su_hash_tree.specs.Edits.{value_at, with_value, without_key, HasKey, Parts, IsAbove, CostsPath};
ghost use Rattle.su_hash_tree.specs.Stands.{Stands, Loose, Gaping, IsEmpty, IsEnd, IsMeant, TakesValue, Known, kept, pairs, reached, IsWhole};
ghost use Rattle.su_hash_tree.specs.declared.nodes.Node.TheViews.{Split};

use crate::counts::Hashes;
use std::alloc::{AllocError, Global};
use std::mem;
use su_bytes::Digest;
use su_tree::{TreeKey, TreeValue, first_difference};

/// The tree of a map: left of a split are the keys that have a 0 at its position, right those that
/// have a 1. Each node keeps the digest of its part of the map. (A call goes down a path by calling
/// itself, so what isn't needed on the way stands in functions of its own, which aren't inlined: a
/// path can have 2,296 nodes.)
#[derive(Drop)]
pub enum Node<K: TreeKey, V: TreeValue> {
    /// A part of which only the digest is known. (A [`HashTree`](crate::HashTree) has none: in it,
    /// it stands in for a node that is being changed.)
    Stub(Digest),
    /// No pair.
    Empty(Digest),
    /// One pair.
    Leaf(K, V, Digest),
    /// Two sides, and the position of the bit in which their keys differ.
    Split(u16, Box<Node<K, V>>, Box<Node<K, V>>, Digest),
}

impl<K: TreeKey + Drop, V: TreeValue + Drop> Node<K, V> {
    /// Returns the digest that it keeps.
    pub fn kept(&self) -> Digest
        ensures { result ≡ kept self.now }
    {
        match self {
            Node::Stub(digest) => *digest,
            Node::Empty(digest) => *digest,
            Node::Leaf(_, _, digest) => *digest,
            Node::Split(_, _, _, digest) => *digest,
        }
    }

    /// Tells whether nothing is there.
    pub fn is_empty(&self) -> bool
        ensures { IsTrue result ↔ IsEmpty self.now }
    {
        match self {
            Node::Stub(_) => false,
            Node::Empty(_) => true,
            Node::Leaf(_, _, _) => false,
            Node::Split(_, _, _, _) => false,
        }
    }

    /// Finds the value at a key. The key's path has no stub.
    pub fn get(&self, key: &K) -> Option<&V>
        requires { IsTrue (reached K.bits key.now self.now) }
        ensures { let t = sort K.bits K.bytes K.is_key V.bytes V.is_value in
            (m : List (K × V)) → Stands t self.now m
            → option_copied result ≡ value_at K.bits key.now m }
    {
        match self {
            Node::Stub(_) => unreachable!(),
            Node::Empty(_) => None,
            Node::Leaf(k, v, _) => match first_difference(key, k) {
                None => Some(v),
                Some(_) => None,
            },
            Node::Split(at, l, r, _) => { if key.bit(*at) { r.get(key) } else { l.get(key) } }
        }
    }

    /// Finds where a key parts from the keys of a map that isn't empty; nowhere where it is one of
    /// them. The key's path has no stub.
    pub fn parting(&self, key: &K) -> Option<u16>
        requires { IsTrue (reached K.bits key.now self.now) }
        ensures { let t = sort K.bits K.bytes K.is_key V.bytes V.is_value in
            (m : List (K × V)) → Stands t self.now m → 0 < length m
            → MatchOption result (HasKey K.bits key.now m) (λ p. Parts K.bits p key.now m) }
    {
        match self {
            Node::Stub(_) => unreachable!(),
            Node::Empty(_) => None,
            Node::Leaf(k, _, _) => first_difference(key, k),
            Node::Split(at, l, r, _) => {
                if key.bit(*at) {
                    r.parting(key)
                } else {
                    l.parting(key)
                }
            }
        }
    }

    // The digest, a split's from those that its sides keep.
    fn digest_anew(&self, hashes: &mut Hashes) -> Digest
        ensures digest { let t = sort K.bits K.bytes K.is_key V.bytes V.is_value in
            (m : List (K × V)) → Loose t self.now m
            → result ≡ digest (map_kind K.bits K.bytes V.bytes) m }
        ensures meant { IsMeant (sort K.bits K.bytes K.is_key V.bytes V.is_value) self.now }
        ensures at_most_one { hashes.new.count ≤ hashes.old.count + 1 }
        ensures not_lower { hashes.old.count ≤ hashes.new.count }
    {
        match self {
            Node::Stub(digest) => *digest,
            Node::Empty(_) => hashes.empty(),
            Node::Leaf(k, v, _) => hashes.pair(k, v),
            Node::Split(at, l, r, _) => hashes.split(*at, &l.kept(), &r.kept()),
        }
    }

    // Makes the root's digest anew.
    #[inline(never)]
    fn refresh(&mut self, hashes: &mut Hashes)
        ensures stands { let t = sort K.bits K.bytes K.is_key V.bytes V.is_value in
            (m : List (K × V)) → Loose t self.old m → Stands t self.new m }
        ensures reached { (k : K) → reached K.bits k self.new ≡ reached K.bits k self.old }
        ensures whole { IsWhole self.old → IsWhole self.new }
        ensures at_most_one { hashes.new.count ≤ hashes.old.count + 1 }
        ensures not_lower { hashes.old.count ≤ hashes.new.count }
    {
        let digest = self.digest_anew(hashes);
        match self {
            Node::Stub(_) => {}
            Node::Empty(kept) => *kept = digest,
            Node::Leaf(_, _, kept) => *kept = digest,
            Node::Split(_, _, _, kept) => *kept = digest,
        }
    }

    /// Puts a value at a key that the map has, and returns the old one. The key's path has no stub.
    pub fn replace(&mut self, key: &K, value: V, hashes: &mut Hashes) -> Option<V>
        requires reached { IsTrue (reached K.bits key.now self.old) }
        ensures old { let t = sort K.bits K.bytes K.is_key V.bytes V.is_value in
            (m : List (K × V)) → Stands t self.old m → HasKey K.bits key.now m
            → result ≡ value_at K.bits key.now m }
        ensures new { let t = sort K.bits K.bytes K.is_key V.bytes V.is_value in
            (m : List (K × V)) → Stands t self.old m → HasKey K.bits key.now m
            → Stands t self.new (with_value K.bits key.now value m) }
        ensures cost { let t = sort K.bits K.bytes K.is_key V.bytes V.is_value in
            (m : List (K × V)) → Stands t self.old m → HasKey K.bits key.now m
            → CostsPath K.bits key.now m hashes.old.count hashes.new.count }
        ensures whole { IsWhole self.old → IsWhole self.new }
        ensures reached { (k : K) → reached K.bits k self.new ≡ reached K.bits k self.old }
    {
        match self {
            Node::Stub(_) => unreachable!(),
            Node::Empty(_) => None,
            Node::Leaf(_, v, _) => {
                let old = mem::replace(v, value);
                self.refresh(hashes);
                Some(old)
            }
            Node::Split(at, l, r, _) => {
                if key.bit(*at) {
                    let old = r.replace(key, value, hashes);
                    self.refresh(hashes);
                    old
                } else {
                    let old = l.replace(key, value, hashes);
                    self.refresh(hashes);
                    old
                }
            }
        }
    }

    // Puts a pair beside the whole tree.
    #[inline(never)]
    fn fork(
        &mut self,
        alloc: Global,
        bit: u16,
        key: K,
        value: V,
        hashes: &mut Hashes,
    ) -> Result<(), AllocError>
        ensures ok { let t = sort K.bits K.bytes K.is_key V.bytes V.is_value in
            (m : List (K × V)) → Stands t self.old m → IsAbove K.bits bit key m
            → OnOk result (Stands t self.new (with_value K.bits key value m)) }
        ensures reached { (k : K) → IsTrue (reached K.bits k self.old)
            → IsTrue (reached K.bits k self.new) }
        ensures whole { IsWhole self.old → IsWhole self.new }
        ensures err { OnErr result (self.new ≡ self.old) }
        ensures at_most_two { hashes.new.count ≤ hashes.old.count + 2 }
        ensures not_lower { hashes.old.count ≤ hashes.new.count }
    {
        let right = key.bit(bit);
        let digest = hashes.pair(&key, &value);
        let kept = self.kept();
        let leaf = Box::new(alloc, Node::Leaf(key, value, digest))?;
        let node = mem::replace(self, Node::Stub(kept));
        match Box::new(alloc, node) {
            Ok(old) => {
                if right {
                    let whole = hashes.split(bit, &kept, &digest);
                    *self = Node::Split(bit, old, leaf, whole);
                    Ok(())
                } else {
                    let whole = hashes.split(bit, &digest, &kept);
                    *self = Node::Split(bit, leaf, old, whole);
                    Ok(())
                }
            }
            Err(refused) => {
                *self = refused.value;
                Err(AllocError)
            }
        }
    }

    /// Puts a pair whose key parts at `bit` from the keys that are there. The key's path has no
    /// stub. Fails where memory is wanting, and then changes nothing.
    pub fn add(
        &mut self,
        alloc: Global,
        bit: u16,
        key: K,
        value: V,
        hashes: &mut Hashes,
    ) -> Result<(), AllocError>
        requires reached { IsTrue (reached K.bits key self.old) }
        ensures ok { let t = sort K.bits K.bytes K.is_key V.bytes V.is_value in
            (m : List (K × V)) → Stands t self.old m → Parts K.bits bit key m
            → OnOk result (Stands t self.new (with_value K.bits key value m)) }
        ensures cost { let t = sort K.bits K.bytes K.is_key V.bytes V.is_value in
            (m : List (K × V)) → Stands t self.old m → Parts K.bits bit key m
            → OnOk result (CostsPath K.bits key m hashes.old.count hashes.new.count) }
        ensures reached { (k : K) → IsTrue (reached K.bits k self.old)
            → IsTrue (reached K.bits k self.new) }
        ensures whole { IsWhole self.old → IsWhole self.new }
        ensures err { OnErr result (self.new ≡ self.old) }
    {
        match self {
            Node::Stub(_) => unreachable!(),
            Node::Empty(_) => self.fork(alloc, bit, key, value, hashes),
            Node::Leaf(_, _, _) => self.fork(alloc, bit, key, value, hashes),
            Node::Split(at, l, r, _) => {
                if *at >= bit {
                    self.fork(alloc, bit, key, value, hashes)
                } else if key.bit(*at) {
                    r.add(alloc, bit, key, value, hashes)?;
                    self.refresh(hashes);
                    Ok(())
                } else {
                    l.add(alloc, bit, key, value, hashes)?;
                    self.refresh(hashes);
                    Ok(())
                }
            }
        }
    }

    // A split of which a side may be empty.
    fn settled(self, hashes: &mut Hashes) -> Node<K, V>
        ensures stands { let t = sort K.bits K.bytes K.is_key V.bytes V.is_value in
            (m : List (K × V)) → Gaping t self m → Stands t result m }
        ensures whole { IsWhole self → IsWhole result }
        ensures at_most_one { hashes.new.count ≤ hashes.old.count + 1 }
        ensures not_lower { hashes.old.count ≤ hashes.new.count }
    {
        match self {
            Node::Stub(digest) => Node::Stub(digest),
            Node::Empty(digest) => Node::Empty(digest),
            Node::Leaf(key, value, digest) => Node::Leaf(key, value, digest),
            Node::Split(at, l, r, _) => {
                if l.is_empty() {
                    return Box::into_inner(r);
                }
                if r.is_empty() {
                    return Box::into_inner(l);
                }
                let digest = hashes.split(at, &l.kept(), &r.kept());
                Node::Split(at, l, r, digest)
            }
        }
    }

    // Makes a split whole of which a side may have become empty.
    #[inline(never)]
    fn settle(&mut self, hashes: &mut Hashes)
        ensures stands { let t = sort K.bits K.bytes K.is_key V.bytes V.is_value in
            (m : List (K × V)) → Gaping t self.old m → Stands t self.new m }
        ensures whole { IsWhole self.old → IsWhole self.new }
        ensures at_most_one { hashes.new.count ≤ hashes.old.count + 1 }
        ensures not_lower { hashes.old.count ≤ hashes.new.count }
    {
        let spare = Node::Stub(self.kept());
        let node = mem::replace(self, spare);
        *self = node.settled(hashes);
    }

    // Takes the value out of a leaf.
    #[inline(never)]
    fn take_value(&mut self, hashes: &mut Hashes) -> Option<V>
        ensures value { TakesValue self.old result self.new }
        ensures at_most_one { hashes.new.count ≤ hashes.old.count + 1 }
        ensures not_lower { hashes.old.count ≤ hashes.new.count }
    {
        let digest = hashes.empty();
        match mem::replace(self, Node::Empty(digest)) {
            Node::Leaf(_, value, _) => Some(value),
            _ => None,
        }
    }

    /// Takes out the pair of a key and returns its value, where its path has no stub or the map
    /// doesn't have it. It takes no memory.
    pub fn remove(&mut self, key: &K, hashes: &mut Hashes) -> Option<V>
        ensures old { let t = sort K.bits K.bytes K.is_key V.bytes V.is_value in
            (m : List (K × V)) → Stands t self.old m → Known K.bits key.now self.old m
            → result ≡ value_at K.bits key.now m }
        ensures new { let t = sort K.bits K.bytes K.is_key V.bytes V.is_value in
            (m : List (K × V)) → Stands t self.old m → Known K.bits key.now self.old m
            → Stands t self.new (without_key K.bits key.now m) }
        ensures some { let t = sort K.bits K.bytes K.is_key V.bytes V.is_value in
            (m : List (K × V)) → Stands t self.old m → Known K.bits key.now self.old m
            → IfSome result (λ _.
            IsEmpty self.new ⊎ (0 < length (without_key K.bits key.now m))) }
        ensures whole { IsWhole self.old → IsWhole self.new }
        ensures cost { let t = sort K.bits K.bytes K.is_key V.bytes V.is_value in
            (m : List (K × V)) → Stands t self.old m → Known K.bits key.now self.old m
            → MatchOption result (hashes.new.count ≡ hashes.old.count)
            (λ _. CostsPath K.bits key.now m hashes.old.count hashes.new.count) }
    {
        match self {
            Node::Stub(_) => None,
            Node::Empty(_) => None,
            Node::Leaf(k, _, _) => match first_difference(key, k) {
                Some(_) => None,
                None => self.take_value(hashes),
            },
            Node::Split(at, l, r, _) => {
                if key.bit(*at) {
                    match r.remove(key, hashes) {
                        None => None,
                        Some(old) => {
                            self.settle(hashes);
                            Some(old)
                        }
                    }
                } else {
                    match l.remove(key, hashes) {
                        None => None,
                        Some(old) => {
                            self.settle(hashes);
                            Some(old)
                        }
                    }
                }
            }
        }
    }
}

impl<K: TreeKey + Clone + Drop, V: TreeValue + Clone + Drop> Node<K, V> {
    /// Copies the tree. Fails where memory is wanting.
    pub fn copy(&self, alloc: Global) -> Result<Box<Node<K, V>>, AllocError>
        requires keys { IsExact K.is_clone }
        requires values { IsExact V.is_clone }
        ensures stands { let t = sort K.bits K.bytes K.is_key V.bytes V.is_value in
            (m : List (K × V)) → Stands t self.now m
            → IfOk result (λ copy. Stands t copy.value m) }
        ensures whole { IsWhole self.now → IfOk result (λ copy. IsWhole copy.value) }
    {
        match self {
            Node::Stub(_) => self.copy_end(alloc),
            Node::Empty(_) => self.copy_end(alloc),
            Node::Leaf(_, _, _) => self.copy_end(alloc),
            Node::Split(at, l, r, digest) => {
                let left = l.copy(alloc)?;
                let right = r.copy(alloc)?;
                Node::join(alloc, *at, left, right, digest)
            }
        }
    }

    // Copies what is no split.
    #[inline(never)]
    fn copy_end(&self, alloc: Global) -> Result<Box<Node<K, V>>, AllocError>
        requires keys { IsExact K.is_clone }
        requires values { IsExact V.is_clone }
        requires end { IsEnd self.now }
        ensures { IfOk result (λ copy. copy.value ≡ self.now) }
    {
        let node = match self {
            Node::Stub(digest) => Node::Stub(*digest),
            Node::Empty(digest) => Node::Empty(*digest),
            Node::Leaf(key, value, digest) => Node::Leaf(key.clone()?, value.clone()?, *digest),
            Node::Split(_, _, _, _) => unreachable!(),
        };
        Ok(Box::new(alloc, node)?)
    }

    // A split with a digest that is known.
    #[inline(never)]
    fn join(
        alloc: Global,
        at: u16,
        left: Box<Node<K, V>>,
        right: Box<Node<K, V>>,
        digest: &Digest,
    ) -> Result<Box<Node<K, V>>, AllocError>
        ensures { IfOk result (λ copy. copy.value ≡ Split at left right digest.now) }
    {
        Ok(Box::new(alloc, Node::Split(at, left, right, *digest))?)
    }

    /// Appends copies of the pairs of the nodes that are no stubs, from left to right, to a list.
    /// Fails where memory is wanting.
    pub fn list(&self, list: &mut Vec<(K, V)>) -> Result<(), AllocError>
        requires keys { IsExact K.is_clone }
        requires values { IsExact V.is_clone }
        ensures { OnOk result (list.new.items ≡ list.old.items ++ pairs self.now) }
    {
        match self {
            Node::Stub(_) => Ok(()),
            Node::Empty(_) => Ok(()),
            Node::Leaf(key, value, _) => {
                list.push((key.clone()?, value.clone()?))?;
                Ok(())
            }
            Node::Split(_, l, r, _) => {
                l.list(list)?;
                r.list(list)
            }
        }
    }
}
