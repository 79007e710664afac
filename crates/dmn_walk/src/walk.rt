//! Two trees of one arena, walked side by side.

ghost use Rattle.std.specs.Prelude.{◌≡◌, ◌≢◌, ◌+◌, ◌<◌, ◌≤◌, [], ◌∷◌, ◌++◌, length, slice_get, vec_len, IsTrue, IsFalse, IfOk, OnOk, MatchBool, Some};
ghost use Rattle.dmn_versions.specs.Trees.{IsSound, reads};
ghost use Rattle.dmn_walk.specs.Delta.{gone_of, put_of};
ghost use Rattle.dmn_walk.specs.Cursor.{cursor_pairs, weight, IsCursor, Descends, Advances, Goes, IsLighter, IsOver};

use dmn_bytes::{Items, Memory};
use dmn_versions::{Arena, Key, Root};
use std::alloc::{AllocError, Global};
use std::cmp::Ordering;

// A tree that is still whole, and the nodes above it whose left sides are done.
#[derive(Drop)]
struct Cursor {
    pending: u64,
    spine: Vec<u64>,
}

// Two cursors, and how the trees differ so far.
#[derive(Drop)]
struct Walk<K, V> {
    before: Cursor,
    after: Cursor,
    gone: Vec<K>,
    put: Vec<(K, V)>,
}

// Goes down to the left.
fn descend<K: Key, V: Copy>(arena: &Arena<K, V>, cursor: &mut Cursor) -> Result<(), AllocError>
    requires cursor { IsCursor K.cmp arena.now.nodes.items cursor.old }
    requires some { 0 < cursor.old.pending }
    ensures { OnOk result (Descends K.cmp arena.now.nodes.items cursor.old cursor.new) }
{
    cursor.spine.push(cursor.pending)?;
    cursor.pending = arena.node(Root(cursor.pending)).left;
    Ok(())
}

// The first pair that is left.
fn head<K: Key, V: Copy>(arena: &Arena<K, V>, cursor: &Cursor) -> Option<(K, V)>
    requires cursor { IsCursor K.cmp arena.now.nodes.items cursor.now }
    requires settled { cursor.now.pending ≡ 0 }
    ensures { result ≡ slice_get (cursor_pairs arena.now.nodes.items cursor.now) 0 }
{
    match cursor.spine.as_slice().last() {
        Some(top) => {
            let node = arena.node(Root(*top));
            Some((node.key, node.value))
        }
        None => None,
    }
}

// Passes the first pair.
fn advance<K: Key, V: Copy>(arena: &Arena<K, V>, cursor: &mut Cursor)
    requires cursor { IsCursor K.cmp arena.now.nodes.items cursor.old }
    requires settled { cursor.old.pending ≡ 0 }
    ensures { Advances K.cmp arena.now.nodes.items cursor.old cursor.new }
{
    if let Some(top) = cursor.spine.pop() {
        cursor.pending = arena.node(Root(top)).right;
    }
}

// What both trees have pending makes no difference.
fn skip<K: Key, V: Copy + Eq>(arena: &Arena<K, V>, walk: &mut Walk<K, V>)
    requires before { IsCursor K.cmp arena.now.nodes.items walk.old.before }
    requires after { IsCursor K.cmp arena.now.nodes.items walk.old.after }
    requires same { walk.old.before.pending ≡ walk.old.after.pending }
    ensures goes { Goes K.cmp V.eq arena.now.nodes.items walk.old walk.new }
    ensures before_settled { walk.new.before.pending ≡ 0 }
    ensures after_settled { walk.new.after.pending ≡ 0 }
{
    walk.before.pending = 0;
    walk.after.pending = 0;
}

// Compares the first pairs, and answers whether there was one.
fn take_heads<K: Key, V: Copy + Eq>(
    arena: &Arena<K, V>,
    walk: &mut Walk<K, V>,
) -> Result<bool, AllocError>
    requires before { IsCursor K.cmp arena.now.nodes.items walk.old.before }
    requires after { IsCursor K.cmp arena.now.nodes.items walk.old.after }
    requires before_settled { walk.old.before.pending ≡ 0 }
    requires after_settled { walk.old.after.pending ≡ 0 }
    ensures goes { OnOk result (Goes K.cmp V.eq arena.now.nodes.items walk.old walk.new) }
    ensures more { IfOk result (λ more. MatchBool more (IsLighter arena.now.nodes.items walk.old walk.new) (IsOver arena.now.nodes.items walk.new)) }
{
    match (head(arena, &walk.before), head(arena, &walk.after)) {
        (None, None) => Ok(false),
        (Some(old), None) => {
            walk.gone.push(old.0)?;
            advance(arena, &mut walk.before);
            Ok(true)
        }
        (None, Some(new)) => {
            walk.put.push(new)?;
            advance(arena, &mut walk.after);
            Ok(true)
        }
        (Some(old), Some(new)) => {
            take_both(arena, walk, old, new)?;
            Ok(true)
        }
    }
}

// Compares the two first pairs.
fn take_both<K: Key, V: Copy + Eq>(
    arena: &Arena<K, V>,
    walk: &mut Walk<K, V>,
    old: (K, V),
    new: (K, V),
) -> Result<(), AllocError>
    requires before { IsCursor K.cmp arena.now.nodes.items walk.old.before }
    requires after { IsCursor K.cmp arena.now.nodes.items walk.old.after }
    requires before_settled { walk.old.before.pending ≡ 0 }
    requires after_settled { walk.old.after.pending ≡ 0 }
    requires old_first { Some old ≡ slice_get (cursor_pairs arena.now.nodes.items walk.old.before) 0 }
    requires new_first { Some new ≡ slice_get (cursor_pairs arena.now.nodes.items walk.old.after) 0 }
    ensures goes { OnOk result (Goes K.cmp V.eq arena.now.nodes.items walk.old walk.new) }
    ensures lighter { OnOk result (IsLighter arena.now.nodes.items walk.old walk.new) }
{
    match old.0.compare(&new.0) {
        Ordering::Less => {
            walk.gone.push(old.0)?;
            advance(arena, &mut walk.before);
            Ok(())
        }
        Ordering::Greater => {
            walk.put.push(new)?;
            advance(arena, &mut walk.after);
            Ok(())
        }
        Ordering::Equal => {
            if old.1 == new.1 {
                advance(arena, &mut walk.before);
                advance(arena, &mut walk.after);
                return Ok(());
            }
            walk.put.push(new)?;
            advance(arena, &mut walk.before);
            advance(arena, &mut walk.after);
            Ok(())
        }
    }
}

// Goes on by one step, and answers whether there was one.
fn step<K: Key, V: Copy + Eq>(
    arena: &Arena<K, V>,
    walk: &mut Walk<K, V>,
) -> Result<bool, AllocError>
    requires before { IsCursor K.cmp arena.now.nodes.items walk.old.before }
    requires after { IsCursor K.cmp arena.now.nodes.items walk.old.after }
    ensures goes { OnOk result (Goes K.cmp V.eq arena.now.nodes.items walk.old walk.new) }
    ensures more { IfOk result (λ more. MatchBool more (IsLighter arena.now.nodes.items walk.old walk.new) (IsOver arena.now.nodes.items walk.new)) }
{
    if walk.before.pending == walk.after.pending {
        skip(arena, walk);
        return take_heads(arena, walk);
    }
    let before = arena.height(Root(walk.before.pending));
    let after = arena.height(Root(walk.after.pending));
    if walk.after.pending == 0 || (walk.before.pending != 0 && before >= after) {
        descend(arena, &mut walk.before)?;
        return Ok(true);
    }
    descend(arena, &mut walk.after)?;
    Ok(true)
}

/// How two trees of an arena differ.
#[derive(Drop)]
pub struct Delta<K, V> {
    /// The keys that only the old tree has, ascending.
    pub gone: Items<K>,
    /// The pairs of the new tree whose key is new or whose value differs, ascending.
    pub put: Items<(K, V)>,
}

/// How a tree differs from an older one. A subtree that both share is not entered, so this takes few steps where little
/// was changed between them.
pub fn changes<K: Key, V: Copy + Eq>(
    alloc: Global,
    arena: &Arena<K, V>,
    old: Root,
    new: Root,
) -> Result<Delta<K, V>, Memory>
    requires old_sound { IsSound K.cmp arena.now.nodes.items old.0 }
    requires new_sound { IsSound K.cmp arena.now.nodes.items new.0 }
    ensures gone { IfOk result (λ delta. delta.gone ≡ gone_of K.cmp (reads arena.now old) (reads arena.now new)) }
    ensures put { IfOk result (λ delta. delta.put ≡ put_of K.cmp V.eq (reads arena.now old) (reads arena.now new)) }
{
    let mut walk = Walk {
        before: Cursor {
            pending: old.0,
            spine: Vec::new(alloc),
        },
        after: Cursor {
            pending: new.0,
            spine: Vec::new(alloc),
        },
        gone: Vec::new(alloc),
        put: Vec::new(alloc),
    };
    let mut more = true;
    while more {
        more = step(arena, &mut walk)?;
    }
    let Walk {
        before: _,
        after: _,
        gone,
        put,
    } = walk;
    Ok(Delta {
        gone: Items::from_vec(gone),
        put: Items::from_vec(put),
    })
}
