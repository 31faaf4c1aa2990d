// Finite maps of which parts may be left on a store.
ghost use Rattle.std.specs.Prelude.{◌≡◌, ◌⊎◌, ◌↔◌, ℕ, List, [], Contains, IsTrue, true, Err, OnOk, OnErr, IfErr, IfOk, None};
ghost use Rattle.std.specs.Option.{option_copied};
ghost use Rattle.su_tree.specs.MapKind.{map_kind};
ghost use Rattle.sha2.specs.Sha256.{sha256};
ghost use Rattle.su_tree.specs.Digest.{digest};
ghost use Rattle.su_tree.specs.Collision.{encodings};
ghost use Rattle.su_hash_tree.specs.Clones.{IsExact};
ghost use Rattle.su_hash_tree.specs.Sort.{sort};
ghost use Rattle.su_hash_tree.specs.Edits.{value_at, with_value, without_key};
ghost use Rattle.su_hash_tree.specs.Stands.{IsMap, kept};
ghost use Rattle.su_part_tree.specs.Loading.{NoClash, FailedAtItem, IsLoadRefusal};
ghost use Rattle.su_part_tree.specs.Part.{StandsFor, reaches, IsKnown, HasRoot, HasAll, HasNone, IsItemIn};
ghost use Rattle.su_part_tree.specs.Putting.{Took};
ghost use Rattle.su_bytes.specs.declared.refusals.Refusal.TheVariants.{SourceFailed, NoMemory, Malformed};

use crate::copies::copy_node;
use crate::items::{ReadKey, ReadValue};
use crate::loads::{load_node, reach_all_nodes, reach_node};
use crate::rooms::{Room, add_node, make_room};
use crate::sheds::shed_node;
use crate::takes::take_node;
use std::alloc::{AllocError, Global};
use su_block::BlockSource;
use su_bytes::{Digest, Refusal};
use su_hash_tree::{Hashes, Node};
use su_tree::{TreeKey, TreeValue};

/// A finite map of which parts may be left on a store, with its digest. It stands for each map that
/// agrees with what is loaded and has the digests of its stubs.
pub struct PartTree<K: TreeKey, V: TreeValue> {
    pub(crate) root: Node<K, V>,
    made: Hashes,
    alloc: Global,
}

impl<K: TreeKey + Drop, V: TreeValue + Drop> Drop for PartTree<K, V> {
    fn drop(self) {
        let PartTree {
            root: _root,
            made: _made,
            alloc: _,
        } = self;
    }
}

impl<K: ReadKey, V: ReadValue> PartTree<K, V> {
    /// A map of which only the digest is known.
    pub fn stub(alloc: Global, digest: Digest) -> PartTree<K, V>
        ensures { let t = sort K.bits K.bytes K.is_key V.bytes V.is_value in
            (m : List (K × V)) → IsMap t digest m → StandsFor t result m }
    {
        PartTree {
            root: Node::Stub(digest),
            made: Hashes { count: 0 },
            alloc,
        }
    }

    /// The map with no pairs, all of it loaded.
    pub fn empty(alloc: Global) -> PartTree<K, V>
        ensures stands { let t = sort K.bits K.bytes K.is_key V.bytes V.is_value in
            StandsFor t result [] }
        ensures reached { (k : K) → IsTrue (reaches K.bits k result) }
        ensures all { HasAll result }
    {
        let mut made = Hashes { count: 0 };
        let digest = made.empty();
        PartTree {
            root: Node::Empty(digest),
            made,
            alloc,
        }
    }

    /// Tells whether the map has no pairs. The root's node is loaded.
    pub fn is_empty(&self) -> bool
        requires { HasRoot self.now }
        ensures { let t = sort K.bits K.bytes K.is_key V.bytes V.is_value in
            (m : List (K × V)) → StandsFor t self.now m → IsTrue result ↔ (m ≡ []) }
    {
        self.root.is_empty()
    }

    /// Loads the root's node, where it is a stub. Refused with `MissingBlock`, `WrongBlock` or
    /// `SourceFailed` where the source fails, with `NoMemory` where memory is wanting, and with
    /// `Malformed(0)` where the item spells no node; then it stands for what it stood for.
    pub fn load<S: BlockSource>(&mut self, source: &mut S) -> Result<(), Refusal>
        requires { S.is_checked ≡ true }
        ensures stands { let t = sort K.bits K.bytes K.is_key V.bytes V.is_value in
            (m : List (K × V)) → StandsFor t self.old m → NoClash t m (S.may_give source.old)
            → StandsFor t self.new m }
        ensures malformed { let t = sort K.bits K.bytes K.is_key V.bytes V.is_value in
            result ≡ Err (Malformed 0) → (m : List (K × V)) → StandsFor t self.old m
            → NoClash t m (S.may_give source.old) → ⊥ }
        ensures failed { let t = sort K.bits K.bytes K.is_key V.bytes V.is_value in
            (m : List (K × V)) → StandsFor t self.old m
            → IfErr result (FailedAtItem t m (S.failed source.new)) }
        ensures refused { IfErr result IsLoadRefusal }
        ensures loaded { OnOk result (HasRoot self.new) }
        ensures keeps { (k : K) → IsTrue (reaches K.bits k self.old)
            → IsTrue (reaches K.bits k self.new) }
        ensures no_more { (s : List ℕ) → S.may_give source.new s → S.may_give source.old s }
        ensures follows { S.follows source.old source.new }
    {
        load_node(&mut self.root, self.alloc, source)
    }

    /// Loads what the path of a key needs, which is at most 2,296 nodes. Refused as `load` is, with
    /// `Malformed(0)` also where a split is at no later bit than the one above it. Then it stands
    /// for what it stood for, and a part of the path may be loaded.
    pub fn reach<S: BlockSource>(&mut self, key: &K, source: &mut S) -> Result<(), Refusal>
        requires { S.is_checked ≡ true }
        ensures stands { let t = sort K.bits K.bytes K.is_key V.bytes V.is_value in
            (m : List (K × V)) → StandsFor t self.old m → NoClash t m (S.may_give source.old)
            → StandsFor t self.new m }
        ensures malformed { let t = sort K.bits K.bytes K.is_key V.bytes V.is_value in
            result ≡ Err (Malformed 0) → (m : List (K × V)) → StandsFor t self.old m
            → NoClash t m (S.may_give source.old) → ⊥ }
        ensures failed { let t = sort K.bits K.bytes K.is_key V.bytes V.is_value in
            (m : List (K × V)) → StandsFor t self.old m → NoClash t m (S.may_give source.old)
            → IfErr result (FailedAtItem t m (S.failed source.new)) }
        ensures refused { IfErr result IsLoadRefusal }
        ensures reached { OnOk result (IsTrue (reaches K.bits key.now self.new)) }
        ensures keeps { (k : K) → IsTrue (reaches K.bits k self.old)
            → IsTrue (reaches K.bits k self.new) }
        ensures no_more { (s : List ℕ) → S.may_give source.new s → S.may_give source.old s }
        ensures follows { S.follows source.old source.new }
    {
        reach_node(&mut self.root, self.alloc, key, source, 0)
    }

    /// Loads all nodes. Refused as `reach` is; then it stands for what it stood for, and some of the
    /// nodes may be loaded.
    pub fn reach_all<S: BlockSource>(&mut self, source: &mut S) -> Result<(), Refusal>
        requires { S.is_checked ≡ true }
        ensures stands { let t = sort K.bits K.bytes K.is_key V.bytes V.is_value in
            (m : List (K × V)) → StandsFor t self.old m → NoClash t m (S.may_give source.old)
            → StandsFor t self.new m }
        ensures malformed { let t = sort K.bits K.bytes K.is_key V.bytes V.is_value in
            result ≡ Err (Malformed 0) → (m : List (K × V)) → StandsFor t self.old m
            → NoClash t m (S.may_give source.old) → ⊥ }
        ensures failed { let t = sort K.bits K.bytes K.is_key V.bytes V.is_value in
            (m : List (K × V)) → StandsFor t self.old m → NoClash t m (S.may_give source.old)
            → IfErr result (FailedAtItem t m (S.failed source.new)) }
        ensures refused { IfErr result IsLoadRefusal }
        ensures all { OnOk result (HasAll self.new) }
        ensures keeps { (k : K) → IsTrue (reaches K.bits k self.old)
            → IsTrue (reaches K.bits k self.new) }
        ensures no_more { (s : List ℕ) → S.may_give source.new s → S.may_give source.old s }
        ensures follows { S.follows source.old source.new }
    {
        reach_all_nodes(&mut self.root, self.alloc, source, 0)
    }

    /// Finds the value at a key whose path is loaded.
    pub fn get(&self, key: &K) -> Option<&V>
        requires { IsTrue (reaches K.bits key.now self.now) }
        ensures { let t = sort K.bits K.bytes K.is_key V.bytes V.is_value in
            (m : List (K × V)) → StandsFor t self.now m
            → option_copied result ≡ value_at K.bits key.now m }
    {
        self.root.get(key)
    }

    /// Puts a value at a key whose path is loaded. Takes memory only for a key that isn't there;
    /// fails where it is wanting, and then changes nothing.
    pub fn put(&mut self, key: K, value: V) -> Result<(), AllocError>
        requires { IsTrue (reaches K.bits key self.old) }
        ensures ok { let t = sort K.bits K.bytes K.is_key V.bytes V.is_value in
            (m : List (K × V)) → StandsFor t self.old m
            → OnOk result (StandsFor t self.new (with_value K.bits key value m)) }
        ensures absent { let t = sort K.bits K.bytes K.is_key V.bytes V.is_value in
            (m : List (K × V)) → StandsFor t self.old m
            → OnErr result (value_at K.bits key m ≡ None) }
        ensures keeps { (k : K) → IsTrue (reaches K.bits k self.old)
            → IsTrue (reaches K.bits k self.new) }
        ensures err { OnErr result (self.new ≡ self.old) }
    {
        if self.root.is_empty() {
            let digest = self.made.pair(&key, &value);
            self.root = Node::Leaf(key, value, digest);
            return Ok(());
        }
        match self.root.parting(&key) {
            None => {
                self.root.replace(&key, value, &mut self.made);
                Ok(())
            }
            Some(bit) => {
                let before = self.made.count;
                match self.root.add(self.alloc, bit, key, value, &mut self.made) {
                    Ok(()) => Ok(()),
                    Err(refused) => {
                        self.made.count = before;
                        Err(refused)
                    }
                }
            }
        }
    }

    /// Makes room for one pair more, with which `put_in` puts it. Fails where memory is wanting.
    pub fn room(&self) -> Result<Room<K, V>, AllocError> {
        make_room(self.alloc, self.root.kept())
    }

    /// Puts a value at a key whose path is loaded. It takes no memory but that of the room.
    pub fn put_in(&mut self, key: K, value: V, room: Room<K, V>)
        requires { IsTrue (reaches K.bits key self.old) }
        ensures stands { let t = sort K.bits K.bytes K.is_key V.bytes V.is_value in
            (m : List (K × V)) → StandsFor t self.old m
            → StandsFor t self.new (with_value K.bits key value m) }
        ensures keeps { (k : K) → IsTrue (reaches K.bits k self.old)
            → IsTrue (reaches K.bits k self.new) }
    {
        if self.root.is_empty() {
            let digest = self.made.pair(&key, &value);
            self.root = Node::Leaf(key, value, digest);
            return;
        }
        match self.root.parting(&key) {
            None => {
                let made = &mut self.made;
                self.root.replace(&key, value, made);
            }
            Some(bit) => add_node(&mut self.root, bit, key, value, room, &mut self.made),
        }
    }

    /// Takes out the pair of a key, if it is there; where the key's path isn't loaded, the map
    /// lacks it. What is known of the other keys stays known. It takes no memory.
    pub fn take(&mut self, key: &K)
        ensures stands { let t = sort K.bits K.bytes K.is_key V.bytes V.is_value in
            (m : List (K × V)) → StandsFor t self.old m → IsKnown K.bits key.now self.old m
            → StandsFor t self.new (without_key K.bits key.now m) }
        ensures stays { let t = sort K.bits K.bytes K.is_key V.bytes V.is_value in
            (m : List (K × V)) → StandsFor t self.old m → IsKnown K.bits key.now self.old m
            → (k : K) → IsKnown K.bits k self.old m
            → IsKnown K.bits k self.new (without_key K.bits key.now m) }
    {
        take_node(&mut self.root, key, &mut self.made);
    }

    /// Returns the digest of the map. It makes no hash.
    pub fn digest(&self) -> Digest
        ensures value { let t = sort K.bits K.bytes K.is_key V.bytes V.is_value in
            (m : List (K × V)) → StandsFor t self.now m
            → result ≡ digest (map_kind K.bits K.bytes V.bytes) m }
        ensures kept { result ≡ kept self.now.root }
    {
        self.root.kept()
    }

    /// Leaves the map on the store: only its digest stays.
    pub fn forget(&mut self)
        ensures { let t = sort K.bits K.bytes K.is_key V.bytes V.is_value in
            (m : List (K × V)) → StandsFor t self.old m → StandsFor t self.new m }
    {
        self.root = Node::Stub(self.root.kept());
    }

    /// Leaves the map on the store: puts the item of each loaded node, those of its sides first,
    /// and keeps the digest alone once it was put. What is put is what is hashed for the map.
    /// Refused with `SourceFailed` where the source could not be asked, and with `NoMemory` where
    /// memory is wanting; then what wasn't put is still loaded.
    pub fn shed<S: BlockSource>(&mut self, source: &mut S) -> Result<(), Refusal>
        ensures stands { let t = sort K.bits K.bytes K.is_key V.bytes V.is_value in
            (m : List (K × V)) → StandsFor t self.old m → StandsFor t self.new m }
        ensures none { OnOk result (HasNone self.new) }
        ensures kept { kept self.new.root ≡ kept self.old.root }
        ensures put { let t = sort K.bits K.bytes K.is_key V.bytes V.is_value in
            OnOk result ((s : List ℕ) → IsItemIn t self.old s
            → Took S.follows S.puts source.old source.new s) }
        ensures not_lost { let t = sort K.bits K.bytes K.is_key V.bytes V.is_value in
            (s : List ℕ) → IsItemIn t self.old s
            → Took S.follows S.puts source.old source.new s ⊎ IsItemIn t self.new s }
        ensures more { let t = sort K.bits K.bytes K.is_key V.bytes V.is_value in
            (s : List ℕ) → S.may_give source.new s
            → S.may_give source.old s ⊎ IsItemIn t self.old s }
        ensures hashed { let t = sort K.bits K.bytes K.is_key V.bytes V.is_value in
            (m : List (K × V)) → StandsFor t self.old m → (s : List ℕ) → IsItemIn t self.old s
            → Contains (encodings t.kind m) s }
        ensures all { let t = sort K.bits K.bytes K.is_key V.bytes V.is_value in
            (m : List (K × V)) → StandsFor t self.old m → HasAll self.old
            → (s : List ℕ) → Contains (encodings t.kind m) s → IsItemIn t self.old s }
        ensures root { let t = sort K.bits K.bytes K.is_key V.bytes V.is_value in
            (m : List (K × V)) → StandsFor t self.old m → HasRoot self.old
            → (s : List ℕ) × IsItemIn t self.old s × (sha256 s ≡ digest t.kind m) }
        ensures failed { let t = sort K.bits K.bytes K.is_key V.bytes V.is_value in
            (m : List (K × V)) → StandsFor t self.old m
            → IfErr result (FailedAtItem t m (S.failed source.new)) }
        ensures refused { IfErr result (λ e. (e ≡ SourceFailed) ⊎ (e ≡ NoMemory)) }
        ensures follows { S.follows source.old source.new }
    {
        shed_node(&mut self.root, self.alloc, source)
    }
}

impl<K: ReadKey + Clone, V: ReadValue + Clone> PartTree<K, V> {
    /// Copies the pairs in the order of their keys' bits. All nodes are loaded. Fails where memory
    /// is wanting.
    pub fn entries(&self) -> Result<Vec<(K, V)>, AllocError>
        requires keys { IsExact K.is_clone }
        requires values { IsExact V.is_clone }
        requires all { HasAll self.now }
        ensures { let t = sort K.bits K.bytes K.is_key V.bytes V.is_value in
            (m : List (K × V)) → StandsFor t self.now m
            → IfOk result (λ list. list.items ≡ m) }
    {
        let mut list = Vec::new(self.alloc);
        self.root.list(&mut list)?;
        Ok(list)
    }

    /// Copies the map; what is left on the store is left there in the copy. Fails where memory is
    /// wanting.
    pub fn copy(&self) -> Result<PartTree<K, V>, AllocError>
        requires keys { IsExact K.is_clone }
        requires values { IsExact V.is_clone }
        ensures stands { let t = sort K.bits K.bytes K.is_key V.bytes V.is_value in
            (m : List (K × V)) → StandsFor t self.now m
            → IfOk result (λ copy. StandsFor t copy m) }
        ensures reached { (k : K)
            → IfOk result (λ copy. reaches K.bits k copy ≡ reaches K.bits k self.now) }
        ensures all { HasAll self.now → IfOk result HasAll }
    {
        let root = copy_node(&self.root, self.alloc)?;
        Ok(PartTree {
            root: Box::into_inner(root),
            made: Hashes {
                count: self.made.count,
            },
            alloc: self.alloc,
        })
    }
}
