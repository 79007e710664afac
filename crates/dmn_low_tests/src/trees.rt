//! What is shared between versions of a tree, told by counts.

ghost use Rattle.std.specs.Prelude.{All, OnOk, IfOk};
ghost use Rattle.dmn_versions.specs.Trees.{IsSound};

use dmn_versions::{Arena, Key, Root};
use dmn_walk::{changes, compact, page};
use std::cell::Cell;
use std::cmp::Ordering;
use std::test::Fail;

// A number that counts how often it is compared.
#[derive(Clone, Copy)]
struct Counting<'a> {
    number: u64,
    comparisons: &'a Cell<u64>,
}

impl<'a> Key for Counting<'a> {
    ghost use Rattle.std.specs.Ordering.{nat_cmp, on};
    ghost use Rattle.std.specs.Cmp.{nat_cmp_total};
    ghost use Rattle.std.proofs.lemmas.Cmp.{on_total};

    ghost cmp = { on (λ k. k.number) nat_cmp };

    ghost laws = { on_total (λ k. k.number) nat_cmp_total };

    fn compare(&self, other: &Counting<'a>) -> Ordering {
        self.comparisons
            .set(self.comparisons.get().saturating_add(1));
        self.number.cmp(&other.number)
    }
}

// A version with one value put, kept beside the others.
fn put_next<K: Key>(
    arena: &mut Arena<K, u64>,
    roots: &mut Vec<Root>,
    root: Root,
    key: K,
    value: u64,
) -> Result<Root, Fail>
    requires root { IsSound K.cmp arena.old.nodes.items root.0 }
    requires roots { All (λ r. IsSound K.cmp arena.old.nodes.items r.0) roots.old.items }
    ensures next { IfOk result (λ r. IsSound K.cmp arena.new.nodes.items r.0) }
    ensures root { OnOk result (IsSound K.cmp arena.new.nodes.items root.0) }
    ensures roots { OnOk result (All (λ r. IsSound K.cmp arena.new.nodes.items r.0) roots.new.items) }
{
    let height = arena.height(root);
    arena.reserve(1, height)?;
    let next = arena.insert(root, key, value);
    roots.push(next)?;
    Ok(next)
}

// One value of 4,096 is replaced. A walk that enters what both trees share compares each key.
#[test]
fn what_is_shared_is_not_entered(rt: HostRuntime) -> Result<(), Fail> {
    let comparisons = Cell::new(0);
    let mut arena = Arena::new(rt.alloc());
    let mut roots = Vec::new(rt.alloc());
    let mut root = Root(0);
    for number in 0..4096 {
        let key = Counting {
            number,
            comparisons: &comparisons,
        };
        root = put_next(&mut arena, &mut roots, root, key, 0)?;
    }
    let key = Counting {
        number: 1_234,
        comparisons: &comparisons,
    };
    let next = put_next(&mut arena, &mut roots, root, key, 1)?;
    comparisons.set(0);
    let delta = changes(rt.alloc(), &arena, root, next)?;
    assert!(rt; comparisons.get() < 1_024);
    assert_eq!(rt; delta.gone.len(), 0);
    assert_eq!(rt; delta.put.len(), 1);
    for (key, value) in delta.put.as_slice() {
        assert_eq!(rt; key.number, 1_234);
        assert_eq!(rt; *value, 1);
    }
    Ok(())
}

// Twenty versions of a map, each by one key more, share most of their nodes. Those that none of them needs go.
#[test]
fn nodes_fall_where_versions_are_let_go(rt: HostRuntime) -> Result<(), Fail> {
    let mut arena: Arena<u64, u64> = Arena::new(rt.alloc());
    let mut let_go = Vec::new(rt.alloc());
    let mut root = Root(0);
    for key in 0..180 {
        root = put_next(&mut arena, &mut let_go, root, key, key)?;
    }
    let mut kept = Vec::new(rt.alloc());
    for key in 180..200 {
        root = put_next(&mut arena, &mut kept, root, key, key)?;
    }
    let (small, moved) = compact(rt.alloc(), &arena, &kept)?;
    assert_eq!(rt; moved.len(), 20);
    assert!(rt; small.nodes.len() < 400);
    assert!(rt; 1_000 < arena.nodes.len());
    let mut pairs = page(&arena, root, 199, 20);
    assert_eq!(rt; pairs.next(), Some((&199, &199)));
    assert_eq!(rt; pairs.next(), None);
    Ok(())
}
