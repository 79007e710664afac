//! A copy of the nodes that some roots need.

ghost use Rattle.std.specs.Prelude.{◌≡◌, ℕ, ◌+◌, ◌-◌, ◌<◌, ◌≤◌, [], ◌∷◌, ◌++◌, length, slice_index_or, OnOk, IfOk, All};
ghost use Rattle.dmn_versions.specs.Trees.{IsSound, reads};
ghost use Rattle.dmn_walk.specs.Copy.{IsMarked, Marks, Copied, Copies, Moves};

use dmn_bytes::Memory;
use dmn_versions::{Arena, Key, Root};
use std::alloc::{AllocError, Global};

// Adds an item.
fn keep<T: Drop>(list: &mut Vec<T>, item: T) -> Result<(), AllocError>
    ensures { OnOk result (list.new.items ≡ list.old.items ++ item ∷ []) }
{
    list.push(item)?;
    Ok(())
}

// Marks the sides of a marked node.
fn mark_sides<K: Key, V: Copy>(arena: &Arena<K, V>, marks: &mut Vec<bool>, number: usize)
    requires marks { Marks K.cmp arena.now.nodes.items marks.old.items number }
    requires in_range { number ≤ length arena.now.nodes.items }
    requires some { 0 < number }
    ensures marks { Marks K.cmp arena.now.nodes.items marks.new.items (number - 1) }
    ensures kept { (root : ℕ) → IsMarked marks.old.items root → IsMarked marks.new.items root }
{
    if marks[number] {
        let node = arena.node(Root(number as u64));
        marks[node.left as usize] = true;
        marks[node.right as usize] = true;
    }
}

// Copies a node, if it is marked.
fn copy_node<K: Key, V: Copy>(
    arena: &Arena<K, V>,
    marks: &Vec<bool>,
    places: &mut Vec<u64>,
    new: &mut Arena<K, V>,
    number: usize,
) -> Result<(), Memory>
    requires marks { Marks K.cmp arena.now.nodes.items marks.now.items 0 }
    requires in_range { number + 1 ≤ length arena.now.nodes.items }
    requires copies { Copies K.cmp arena.now.nodes.items new.old.nodes.items marks.now.items places.old.items number }
    ensures { OnOk result (Copies K.cmp arena.now.nodes.items new.new.nodes.items marks.now.items places.new.items (number + 1)) }
{
    if !marks[number + 1] {
        keep(places, 0)?;
        return Ok(());
    }
    let node = arena.node(Root(number as u64 + 1));
    new.reserve(1, 0)?;
    let left = Root(places[node.left as usize]);
    let right = Root(places[node.right as usize]);
    let root = new.make(left, node.key, node.value, right);
    keep(places, root.0)?;
    Ok(())
}

// Marks each root and all below.
fn mark_all<K: Key, V: Copy>(
    alloc: Global,
    arena: &Arena<K, V>,
    roots: &[Root],
) -> Result<Vec<bool>, AllocError>
    requires { All (λ r. IsSound K.cmp arena.now.nodes.items r.0) roots.now }
    ensures marks { IfOk result (λ marks. Marks K.cmp arena.now.nodes.items marks.items 0) }
    ensures roots { IfOk result (λ marks. All (λ r. IsMarked marks.items r.0) roots.now) }
{
    let mut marks = vec![in alloc; false; arena.nodes.len() + 1]?;
    marks[0] = true;
    for root in roots {
        marks[root.0 as usize] = true;
    }
    let mut number = arena.nodes.len();
    while number > 0 {
        mark_sides(arena, &mut marks, number);
        number -= 1;
    }
    Ok(marks)
}

// Copies each marked node, lowest first.
fn copy_all<K: Key, V: Copy>(
    alloc: Global,
    arena: &Arena<K, V>,
    marks: &Vec<bool>,
) -> Result<(Arena<K, V>, Vec<u64>), Memory>
    requires { Marks K.cmp arena.now.nodes.items marks.now.items 0 }
    ensures { IfOk result (λ p. Copies K.cmp arena.now.nodes.items p.0.nodes.items marks.now.items p.1.items (length arena.now.nodes.items)) }
{
    let mut new = Arena::new(alloc);
    let mut places = Vec::new(alloc);
    keep(&mut places, 0)?;
    for number in 0..arena.nodes.len() {
        copy_node(arena, marks, &mut places, &mut new, number)?;
    }
    Ok((new, places))
}

/// The trees of these roots, in an arena that has each node once that one of them needs, and no other. Each new root stands
/// at the place of its old one, and reads as that.
pub fn compact<K: Key, V: Copy>(
    alloc: Global,
    arena: &Arena<K, V>,
    roots: &[Root],
) -> Result<(Arena<K, V>, Vec<Root>), Memory>
    requires { All (λ r. IsSound K.cmp arena.now.nodes.items r.0) roots.now }
    ensures roots { IfOk result (λ p. Moves K.cmp arena.now.nodes.items p.0.nodes.items roots.now p.1.items) }
    ensures few { IfOk result (λ p. length p.0.nodes.items ≤ length arena.now.nodes.items) }
{
    let marks = mark_all(alloc, arena, roots)?;
    let (new, places) = copy_all(alloc, arena, &marks)?;
    let mut moved = Vec::new(alloc);
    for root in roots {
        keep(&mut moved, Root(places[root.0 as usize]))?;
    }
    Ok((new, moved))
}
