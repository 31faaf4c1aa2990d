// Values that are put in the place of others.
ghost use Rattle.std.specs.Prelude.{◌≡◌, ◌≢◌, List, IsTrue, None};
ghost use Rattle.su_hash_tree.specs.Sort.{sort};
ghost use Rattle.su_hash_tree.specs.Edits.{value_at, with_value};
ghost use Rattle.su_hash_tree.specs.Stands.{reached};
ghost use Rattle.su_part_tree.specs.Part.{StandsFor, IsKnown, reaches};

use crate::items::{ReadKey, ReadValue};
use crate::parts::PartTree;
use su_hash_tree::Node;
use su_tree::{TreeKey, TreeValue};

/// Tells whether no stub stands on a key's path.
fn is_reached<K: ReadKey, V: ReadValue>(node: &Node<K, V>, key: &K) -> bool
    ensures { result ≡ reached K.bits key.now node.now }
{
    match node {
        Node::Stub(_) => false,
        Node::Empty(_) => true,
        Node::Leaf(_, _, _) => true,
        Node::Split(at, l, r, _) => {
            if key.bit(*at) {
                is_reached(&**r, key)
            } else {
                is_reached(&**l, key)
            }
        }
    }
}

impl<K: ReadKey, V: ReadValue> PartTree<K, V> {
    /// Puts a value in the place of the one that a known key has; does nothing where the key's path
    /// isn't loaded. It takes no memory.
    pub fn set(&mut self, key: K, value: V)
        ensures stands { let t = sort K.bits K.bytes K.is_key V.bytes V.is_value in
            (m : List (K × V)) → StandsFor t self.old m → IsKnown K.bits key self.old m
            → value_at K.bits key m ≢ None
            → StandsFor t self.new (with_value K.bits key value m) }
        ensures keeps { (k : K) → IsTrue (reaches K.bits k self.old)
            → IsTrue (reaches K.bits k self.new) }
    {
        if !is_reached(&self.root, &key) {
            return;
        }
        // the key is there, so without memory
        let _done = self.put(key, value);
    }
}
