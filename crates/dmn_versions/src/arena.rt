//! An arena of nodes, with a tree for each root.

ghost use Rattle.std.specs.Prelude.{◌≡◌, ℕ, ◌+◌, ◌-◌, ◌*◌, ◌^◌, ◌<◌, ◌≤◌, max, [], ◌∷◌, ◌++◌, length, take, slice_get, option_copied, None, OnOk};
ghost use Rattle.std.specs.Option.{option_map};
ghost use Rattle.std.specs.FinMap.{find, put};
ghost use Rattle.dmn_versions.specs.Trees.{tree_at, pairs, height_of, IsSound, Opens, Grows, Joins, Makes, IsHeightAfterRebalance, Meets, Cuts, reads, height_in, spare, without};

use crate::key::Key;
use crate::node::{Node, Root};
use dmn_bytes::Memory;
use std::alloc::Global;
use std::cmp::Ordering;

/// The nodes of all versions of a map from keys to values. Nodes are only added, or cut off at the end, so a root that is
/// kept reads as before. Each call that takes a root asks that it is sound (`IsSound`), and what it gives is so again.
#[derive(Drop)]
pub struct Arena<K, V> {
    pub nodes: Vec<Node<K, V>>,
}

// The first pair of a tree, and the tree of the others.
#[derive(Clone, Copy)]
struct First<K, V> {
    key: K,
    value: V,
    rest: Root,
}

impl<K: Key, V: Copy> Arena<K, V> {
    /// No nodes, which takes no memory.
    pub fn new(alloc: Global) -> Self
        ensures { result.nodes.items ≡ [] }
    {
        Arena {
            nodes: Vec::new(alloc),
        }
    }

    /// The node of a tree that is not empty.
    pub fn node(&self, root: Root) -> &Node<K, V>
        requires sound { IsSound K.cmp self.now.nodes.items root.0 }
        requires some { 0 < root.0 }
        ensures { Opens K.cmp self.now.nodes.items root.0 result.now }
    {
        &self.nodes[(root.0 - 1) as usize]
    }

    /// The value under a key, where there is one.
    pub fn get(&self, root: Root, key: &K) -> Option<&V>
        requires { IsSound K.cmp self.now.nodes.items root.0 }
        ensures { option_copied result ≡ find K.cmp key.now (reads self.now root) }
    {
        if root.0 == 0 {
            return None;
        }
        let node = self.node(root);
        match key.compare(&node.key) {
            Ordering::Less => self.get(Root(node.left), key),
            Ordering::Equal => Some(&node.value),
            Ordering::Greater => self.get(Root(node.right), key),
        }
    }

    /// The pair at a place of the order, counted from 0. None exactly at or past the size.
    pub fn at_rank(&self, root: Root, rank: u32) -> Option<(&K, &V)>
        requires { IsSound K.cmp self.now.nodes.items root.0 }
        ensures { option_map (λ p. (p.0.now, p.1.now)) result ≡ slice_get (reads self.now root) rank }
    {
        self.pair_at(root, u64::from(rank))
    }

    /// The same for each place that a tree may have, as a tree has no limit of 2^32 pairs.
    pub fn pair_at(&self, root: Root, rank: u64) -> Option<(&K, &V)>
        requires { IsSound K.cmp self.now.nodes.items root.0 }
        ensures { option_map (λ p. (p.0.now, p.1.now)) result ≡ slice_get (reads self.now root) rank }
    {
        if root.0 == 0 {
            return None;
        }
        let node = self.node(root);
        let before = self.size(Root(node.left));
        if rank < before {
            self.pair_at(Root(node.left), rank)
        } else if rank == before {
            Some((&node.key, &node.value))
        } else {
            self.pair_at(Root(node.right), rank - before - 1)
        }
    }

    /// How many pairs a tree has.
    pub fn size(&self, root: Root) -> u64
        requires { IsSound K.cmp self.now.nodes.items root.0 }
        ensures { result ≡ length (reads self.now root) }
    {
        if root.0 == 0 { 0 } else { self.node(root).size }
    }

    /// How many levels a tree has: at most 91, and at most 28 with 1,056,768 pairs.
    pub fn height(&self, root: Root) -> u8
        requires { IsSound K.cmp self.now.nodes.items root.0 }
        ensures value { result ≡ height_in self.now root }
        ensures low { result ≤ 91 }
        ensures low_with_few { length (reads self.now root) ≤ 1056768 → result ≤ 28 }
    {
        if root.0 == 0 {
            0
        } else {
            self.node(root).height
        }
    }

    /// Adds a node over two trees, whose heights differ by at most one. This takes no memory.
    pub fn make(&mut self, left: Root, key: K, value: V, right: Root) -> Root
        requires joins { Joins K.cmp 1 self.old.nodes.items left.0 (key, value) right.0 }
        requires spare { 1 ≤ spare self.old }
        ensures made { Makes K.cmp 1 self.old.nodes.items self.new.nodes.items result.0 (reads self.old left ++ (key, value) ∷ reads self.old right) }
        ensures height { height_in self.new result ≡ max (height_in self.old left) (height_in self.old right) + 1 }
        ensures spare { spare self.old ≤ spare self.new + 1 }
    {
        let height = self.height(left).max(self.height(right)) + 1;
        let size = self.size(left) + self.size(right) + 1;
        let node = Node {
            key,
            value,
            left: left.0,
            right: right.0,
            height,
            size,
        };
        match self.nodes.push(node) {
            Ok(()) => Root(self.nodes.len() as u64),
            Err(_) => unreachable!(),
        }
    }

    // The same where the left side is two levels higher.
    fn lean_left(&mut self, left: Root, key: K, value: V, right: Root) -> Root
        requires joins { Joins K.cmp 2 self.old.nodes.items left.0 (key, value) right.0 }
        requires higher { height_in self.old left ≡ height_in self.old right + 2 }
        requires spare { 3 ≤ spare self.old }
        ensures made { Makes K.cmp 3 self.old.nodes.items self.new.nodes.items result.0 (reads self.old left ++ (key, value) ∷ reads self.old right) }
        ensures height { IsHeightAfterRebalance (height_in self.old left) (height_in self.old right) (height_in self.new result) }
        ensures spare { spare self.old ≤ spare self.new + 3 }
    {
        let node = *self.node(left);
        if self.height(Root(node.right)) <= self.height(Root(node.left)) {
            let low = self.make(Root(node.right), key, value, right);
            self.make(Root(node.left), node.key, node.value, low)
        } else {
            let middle = *self.node(Root(node.right));
            let low = self.make(Root(node.left), node.key, node.value, Root(middle.left));
            let high = self.make(Root(middle.right), key, value, right);
            self.make(low, middle.key, middle.value, high)
        }
    }

    // The same where the right side is two levels higher.
    fn lean_right(&mut self, left: Root, key: K, value: V, right: Root) -> Root
        requires joins { Joins K.cmp 2 self.old.nodes.items left.0 (key, value) right.0 }
        requires higher { height_in self.old right ≡ height_in self.old left + 2 }
        requires spare { 3 ≤ spare self.old }
        ensures made { Makes K.cmp 3 self.old.nodes.items self.new.nodes.items result.0 (reads self.old left ++ (key, value) ∷ reads self.old right) }
        ensures height { IsHeightAfterRebalance (height_in self.old left) (height_in self.old right) (height_in self.new result) }
        ensures spare { spare self.old ≤ spare self.new + 3 }
    {
        let node = *self.node(right);
        if self.height(Root(node.left)) <= self.height(Root(node.right)) {
            let low = self.make(left, key, value, Root(node.left));
            self.make(low, node.key, node.value, Root(node.right))
        } else {
            let middle = *self.node(Root(node.left));
            let low = self.make(left, key, value, Root(middle.left));
            let high = self.make(Root(middle.right), node.key, node.value, Root(node.right));
            self.make(low, middle.key, middle.value, high)
        }
    }

    // The same where the sides differ by at most two levels.
    fn balance(&mut self, left: Root, key: K, value: V, right: Root) -> Root
        requires joins { Joins K.cmp 2 self.old.nodes.items left.0 (key, value) right.0 }
        requires spare { 3 ≤ spare self.old }
        ensures made { Makes K.cmp 3 self.old.nodes.items self.new.nodes.items result.0 (reads self.old left ++ (key, value) ∷ reads self.old right) }
        ensures height { IsHeightAfterRebalance (height_in self.old left) (height_in self.old right) (height_in self.new result) }
        ensures spare { spare self.old ≤ spare self.new + 3 }
    {
        let left_height = self.height(left);
        let right_height = self.height(right);
        if left_height > right_height + 1 {
            self.lean_left(left, key, value, right)
        } else if right_height > left_height + 1 {
            self.lean_right(left, key, value, right)
        } else {
            self.make(left, key, value, right)
        }
    }

    /// A tree with the value under the key, as a finite map's `insert`: one that is there is replaced. At most
    /// `4 * (height + 1)` nodes are added, for which there must be room. This takes no memory.
    pub fn insert(&mut self, root: Root, key: K, value: V) -> Root
        requires sound { IsSound K.cmp self.old.nodes.items root.0 }
        requires spare { 4 * (height_in self.old root + 1) ≤ spare self.old }
        ensures made { Makes K.cmp (4 * (height_in self.old root + 1)) self.old.nodes.items self.new.nodes.items result.0 (put K.cmp key value (reads self.old root)) }
        ensures not_lower { height_in self.old root ≤ height_in self.new result }
        ensures one_higher { height_in self.new result ≤ height_in self.old root + 1 }
        ensures spare { spare self.old ≤ spare self.new + 4 * (height_in self.old root + 1) }
    {
        if root.0 == 0 {
            return self.make(root, key, value, root);
        }
        let node = *self.node(root);
        match key.compare(&node.key) {
            Ordering::Less => {
                let left = self.insert(Root(node.left), key, value);
                self.balance(left, node.key, node.value, Root(node.right))
            }
            Ordering::Equal => self.make(Root(node.left), node.key, value, Root(node.right)),
            Ordering::Greater => {
                let right = self.insert(Root(node.right), key, value);
                self.balance(Root(node.left), node.key, node.value, right)
            }
        }
    }

    // Takes the first pair off.
    fn take_first(&mut self, root: Root) -> First<K, V>
        requires sound { IsSound K.cmp self.old.nodes.items root.0 }
        requires some { 0 < root.0 }
        requires spare { 4 * height_in self.old root ≤ spare self.old }
        ensures made { Makes K.cmp (4 * height_in self.old root) self.old.nodes.items self.new.nodes.items result.rest.0 (reads self.new result.rest) }
        ensures first { reads self.old root ≡ (result.key, result.value) ∷ reads self.new result.rest }
        ensures not_higher { height_in self.new result.rest ≤ height_in self.old root }
        ensures one_lower { height_in self.old root ≤ height_in self.new result.rest + 1 }
        ensures spare { spare self.old ≤ spare self.new + 4 * height_in self.old root }
    {
        let node = *self.node(root);
        if node.left == 0 {
            return First {
                key: node.key,
                value: node.value,
                rest: Root(node.right),
            };
        }
        let first = self.take_first(Root(node.left));
        let rest = self.balance(first.rest, node.key, node.value, Root(node.right));
        First {
            key: first.key,
            value: first.value,
            rest,
        }
    }

    // One tree of two.
    fn join(&mut self, left: Root, right: Root) -> Root
        requires meets { Meets K.cmp self.old.nodes.items left.0 right.0 }
        requires spare { 4 * height_in self.old right + 3 ≤ spare self.old }
        ensures made { Makes K.cmp (4 * height_in self.old right + 3) self.old.nodes.items self.new.nodes.items result.0 (reads self.old left ++ reads self.old right) }
        ensures not_lower { max (height_in self.old left) (height_in self.old right) ≤ height_in self.new result }
        ensures one_higher { height_in self.new result ≤ max (height_in self.old left) (height_in self.old right) + 1 }
        ensures spare { spare self.old ≤ spare self.new + (4 * height_in self.old right + 3) }
    {
        if right.0 == 0 {
            return left;
        }
        let first = self.take_first(right);
        self.balance(left, first.key, first.value, first.rest)
    }

    /// A tree without the key, or the same one where it isn't there. At most `4 * (height + 1)` nodes are added, for which
    /// there must be room. This takes no memory.
    pub fn remove(&mut self, root: Root, key: &K) -> Root
        requires sound { IsSound K.cmp self.old.nodes.items root.0 }
        requires spare { 4 * (height_in self.old root + 1) ≤ spare self.old }
        ensures made { Makes K.cmp (4 * (height_in self.old root + 1)) self.old.nodes.items self.new.nodes.items result.0 (without K.cmp key.now (reads self.old root)) }
        ensures absent { find K.cmp key.now (reads self.old root) ≡ None → result ≡ root }
        ensures not_higher { height_in self.new result ≤ height_in self.old root }
        ensures one_lower { height_in self.old root ≤ height_in self.new result + 1 }
        ensures spare { spare self.old ≤ spare self.new + 4 * (height_in self.old root + 1) }
    {
        if root.0 == 0 {
            return root;
        }
        let node = *self.node(root);
        match key.compare(&node.key) {
            Ordering::Less => {
                let left = self.remove(Root(node.left), key);
                if left.0 == node.left {
                    return root;
                }
                self.balance(left, node.key, node.value, Root(node.right))
            }
            Ordering::Equal => self.join(Root(node.left), Root(node.right)),
            Ordering::Greater => {
                let right = self.remove(Root(node.right), key);
                if right.0 == node.right {
                    return root;
                }
                self.balance(Root(node.left), node.key, node.value, right)
            }
        }
    }

    /// Makes room for this many changes of trees of this height. Without memory the nodes are as before.
    pub fn reserve(&mut self, changes: usize, height: u8) -> Result<(), Memory>
        requires { changes * (4 * (height + 1)) < 2 ^ 64 }
        ensures ok { OnOk result (changes * (4 * (height + 1)) ≤ spare self.new) }
        ensures grows { Grows 0 self.old.nodes.items self.new.nodes.items }
        ensures not_less { spare self.old ≤ spare self.new }
    {
        Ok(self.nodes.reserve(changes * (4 * (height as usize + 1)))?)
    }

    /// Cuts the nodes back to a mark: a root that is at most the mark reads as before. This takes no memory.
    pub fn truncate(&mut self, mark: usize)
        ensures cut { Cuts mark self.old.nodes.items self.new.nodes.items }
        ensures not_less { spare self.old ≤ spare self.new }
    {
        self.nodes.truncate(mark);
    }
}
