//! A part of a tree's pairs.

ghost use Rattle.std.specs.Prelude.{◌≡◌, take, drop};
ghost use Rattle.std.specs.Iterator.{YieldsFirstBy, item_count};
ghost use Rattle.dmn_versions.specs.Trees.{IsSound, reads};
ghost use Rattle.dmn_walk.specs.Page.{pairs_left, IsReady};

use dmn_versions::{Arena, Key, Root};

/// The pairs of some ranks, in order.
#[derive(Drop)]
pub struct Pairs<'a, K, V> {
    arena: &'a Arena<K, V>,
    root: Root,
    rank: u64,
    most: u16,
}

impl<'a, K: Key, V: Copy> Iterator for Pairs<'a, K, V> {
    type Item = (&'a K, &'a V);

    ghost can_next = { IsReady K.cmp };

    ghost next_gives = { YieldsFirstBy (λ p. (p.0.now, p.1.now)) pairs_left };

    ghost remaining = { item_count pairs_left };

    fn next(&mut self) -> Option<(&'a K, &'a V)> {
        if self.most == 0 {
            return None;
        }
        let pair = self.arena.pair_at(self.root, self.rank)?;
        self.rank += 1;
        self.most -= 1;
        Some(pair)
    }
}

/// Lends the pairs of the ranks from `from` on, counted from 0, at most `most` of them. This takes no memory.
pub fn page<K: Key, V: Copy>(
    arena: &Arena<K, V>,
    root: Root,
    from: u32,
    most: u16,
) -> Pairs<'_, K, V>
    requires { IsSound K.cmp arena.now.nodes.items root.0 }
    ensures ready { IsReady K.cmp result }
    ensures pairs { pairs_left result ≡ take most (drop from (reads arena.now root)) }
{
    Pairs {
        arena,
        root,
        rank: u64::from(from),
        most,
    }
}
