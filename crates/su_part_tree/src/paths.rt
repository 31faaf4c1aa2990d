// Which paths are loaded.
ghost use Rattle.std.specs.Prelude.{◌≡◌, ◌↔◌, IsTrue};
ghost use Rattle.su_hash_tree.specs.Stands.{IsWhole, reached};
ghost use Rattle.su_part_tree.specs.Part.{HasAll, HasRoot, reaches};

use crate::items::{ReadKey, ReadValue};
use crate::parts::PartTree;
use su_hash_tree::Node;
use su_tree::TreeKey;

/// Tells whether no stub stands on the key's path.
fn reaches_node<K: ReadKey, V: ReadValue>(node: &Node<K, V>, key: &K) -> bool
    ensures { result ≡ reached K.bits key.now node.now }
{
    match node {
        Node::Stub(_) => false,
        Node::Empty(_) | Node::Leaf(_, _, _) => true,
        Node::Split(at, l, r, _) => {
            if key.bit(*at) {
                reaches_node(&**r, key)
            } else {
                reaches_node(&**l, key)
            }
        }
    }
}

/// Tells whether no stub stands anywhere.
fn is_whole<K: ReadKey, V: ReadValue>(node: &Node<K, V>) -> bool
    ensures { IsTrue result ↔ IsWhole node.now }
{
    match node {
        Node::Stub(_) => false,
        Node::Empty(_) | Node::Leaf(_, _, _) => true,
        Node::Split(_, l, r, _) => is_whole(&**l) && is_whole(&**r),
    }
}

impl<K: ReadKey, V: ReadValue> PartTree<K, V> {
    /// Tells whether what the path of a key needs is loaded. It takes no memory.
    pub fn reaches(&self, key: &K) -> bool
        ensures { result ≡ reaches K.bits key.now self.now }
    {
        reaches_node(&self.root, key)
    }

    /// Tells whether the root's node is loaded. It takes no memory.
    pub fn has_root(&self) -> bool
        ensures { IsTrue result ↔ HasRoot self.now }
    {
        match self.root {
            Node::Stub(_) => false,
            _ => true,
        }
    }

    /// Tells whether all nodes are loaded. It takes no memory.
    pub fn has_all(&self) -> bool
        ensures { IsTrue result ↔ HasAll self.now }
    {
        is_whole(&self.root)
    }
}
