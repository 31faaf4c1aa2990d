// Looks at what is loaded of a tree.
ghost use Rattle.std.specs.Prelude.{◌≡◌, ◌↔◌, List, [], IsTrue};
ghost use Rattle.std.specs.Option.{option_copied};
ghost use Rattle.su_hash_tree.specs.Sort.{sort};
ghost use Rattle.su_hash_tree.specs.Edits.{value_at};
ghost use Rattle.su_hash_tree.specs.Stands.{Stands, pairs};
ghost use Rattle.su_part_tree.specs.Part.{StandsFor, loaded, reaches};

use crate::items::{ReadKey, ReadValue};
use crate::parts::PartTree;
use su_hash_tree::Node;
use su_tree::{TreeKey, TreeValue, first_difference};

/// Finds the value at a key among the pairs that are loaded.
fn find_node<'a, K: ReadKey, V: ReadValue>(node: &'a Node<K, V>, key: &K) -> Option<&'a V>
    ensures { let t = sort K.bits K.bytes K.is_key V.bytes V.is_value in
        (m : List (K × V)) → Stands t node.now m
        → option_copied result ≡ value_at K.bits key.now (pairs node.now) }
{
    match node {
        Node::Stub(_) => None,
        Node::Empty(_) => None,
        Node::Leaf(k, v, _) => match first_difference(key, k) {
            None => Some(v),
            Some(_) => None,
        },
        Node::Split(at, l, r, _) => {
            if key.bit(*at) {
                find_node(&**r, key)
            } else {
                find_node(&**l, key)
            }
        }
    }
}

/// Tells whether no pair is loaded.
fn lists_no_pair<K: ReadKey, V: ReadValue>(node: &Node<K, V>) -> bool
    ensures { IsTrue result ↔ (pairs node.now ≡ []) }
{
    match node {
        Node::Stub(_) => true,
        Node::Empty(_) => true,
        Node::Leaf(_, _, _) => false,
        Node::Split(_, l, r, _) => {
            if lists_no_pair(&**l) {
                lists_no_pair(&**r)
            } else {
                false
            }
        }
    }
}

impl<K: ReadKey, V: ReadValue> PartTree<K, V> {
    /// Finds the value at a key among the pairs that are loaded. Where the key's path is loaded, it
    /// is the map's.
    pub fn find(&self, key: &K) -> Option<&V>
        ensures value { let t = sort K.bits K.bytes K.is_key V.bytes V.is_value in
            (m : List (K × V)) → StandsFor t self.now m
            → option_copied result ≡ value_at K.bits key.now (loaded self.now) }
        ensures there { let t = sort K.bits K.bytes K.is_key V.bytes V.is_value in
            (m : List (K × V)) → StandsFor t self.now m → IsTrue (reaches K.bits key.now self.now)
            → option_copied result ≡ value_at K.bits key.now m }
    {
        find_node(&self.root, key)
    }

    /// Tells whether no pair is loaded.
    pub fn lists_none(&self) -> bool
        ensures { IsTrue result ↔ (loaded self.now ≡ []) }
    {
        lists_no_pair(&self.root)
    }
}
