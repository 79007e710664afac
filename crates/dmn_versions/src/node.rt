//! Nodes, and the trees that they name.

/// A pair, and the roots of two trees of lower numbers: `left` with lower keys and `right` with higher ones. `height` and
/// `size` are the levels and the pairs of the tree that the node is the top of.
#[derive(Clone, Copy)]
pub struct Node<K, V> {
    pub key: K,
    pub value: V,
    pub left: u64,
    pub right: u64,
    pub height: u8,
    pub size: u64,
}

/// The name of a tree in an arena: 0 is the empty tree, and n has node n - 1 as its top.
#[derive(Clone, Copy, Debug, PartialEq, Eq)]
pub struct Root(pub u64);
