//! Compaction: of an arena that has grown far beyond what is held, a copy takes its place that has only the nodes which some
//! versions need.

ghost use Rattle.std.specs.Prelude.{◌≡◌, ◌<◌, ℕ, IfOk, false, length, map};
ghost use Rattle.std.specs.List.{All, slice_index};
ghost use Rattle.dmn_branch.specs.Compact.{arena_after, indexes_after, is_overgrown, mark_after, marks_after, root_of, version_at, versions_of, Compacts, HasSoundTrees, HasVersion, Renews};
ghost use Rattle.dmn_versions.specs.Trees.{IsSound};

use crate::held::HeldList;
use crate::pins::PinList;
use dmn_bytes::{Hash256, Memory, OutPoint, Pay};
use dmn_indexes::{Indexes, OperatorKey, OwnerKey, PayKey, ServiceKey, UnconfirmedKey, Version};
use dmn_rows::MnRow;
use dmn_versions::{Arena, Key, Root};
use dmn_walk::compact;
use std::alloc::Global;

/// One of a version's eight trees.
#[derive(Clone, Copy, Debug)]
pub enum Tree {
    Rows,
    Owner,
    Operator,
    Service,
    Collateral,
    Payment,
    Unconfirmed,
    Outputs,
}

/// The roots of one tree in each of some versions, and the copy of their arena in which they stand; none where the arena
/// stays.
#[derive(Drop)]
pub struct Renewal<K, V> {
    arena: Option<Arena<K, V>>,
    roots: Vec<Root>,
}

/// What becomes of the arenas and of some versions in them.
#[derive(Drop)]
pub struct Compaction {
    rows: Renewal<Hash256, MnRow>,
    owner: Renewal<OwnerKey, Hash256>,
    operator: Renewal<OperatorKey, Hash256>,
    service: Renewal<ServiceKey, Hash256>,
    collateral: Renewal<OutPoint, Hash256>,
    payment: Renewal<PayKey, Hash256>,
    unconfirmed: Renewal<UnconfirmedKey, Hash256>,
    outputs: Renewal<OutPoint, Pay>,
}

// An arena has more than 4,096 nodes, and more than four times as many as after its last compaction.
fn is_overgrown(nodes: u64, after: u64) -> bool
    ensures { result ≡ is_overgrown nodes after }
{
    nodes > 4096 && nodes > after.saturating_mul(4)
}

/// Whether an arena is to be compacted, by how many nodes each has, and had after its last compaction.
pub fn is_due(nodes: &[u64; 8], after: &[u64; 8]) -> bool
    ensures { result ≡ false → (tree : ℕ) → tree < 8 → is_overgrown (slice_index nodes.now tree) (slice_index after.now tree) ≡ false }
{
    for tree in 0..8 {
        if is_overgrown(nodes[tree], after[tree]) {
            return true;
        }
    }
    false
}

// The root of one of a version's trees.
fn root(version: &Version, tree: Tree) -> Root
    ensures { result ≡ root_of tree version.now }
{
    match tree {
        Tree::Rows => version.rows,
        Tree::Owner => version.owner,
        Tree::Operator => version.operator,
        Tree::Service => version.service,
        Tree::Collateral => version.collateral,
        Tree::Payment => version.payment,
        Tree::Unconfirmed => version.unconfirmed,
        Tree::Outputs => version.outputs,
    }
}

// The roots of one tree in each version.
fn roots(alloc: Global, versions: &[Version], tree: Tree) -> Result<Vec<Root>, Memory>
    ensures { IfOk result (λ roots. roots.items ≡ map (root_of tree) versions.now) }
{
    let mut roots = Vec::new(alloc);
    for version in versions {
        roots.push(root(version, tree)).map_err(|_| Memory)?;
    }
    Ok(roots)
}

// Copies what one tree of each version needs of an arena, where the arena is to be compacted.
fn renew<K: Key, V: Copy>(
    alloc: Global,
    arena: &Arena<K, V>,
    after: u64,
    versions: &[Version],
    tree: Tree,
) -> Result<Renewal<K, V>, Memory>
    requires { All (λ v. IsSound K.cmp arena.now.nodes.items (root_of tree v).0) versions.now }
    ensures { IfOk result (Renews K.cmp arena.now (map (root_of tree) versions.now)) }
{
    let roots = roots(alloc, versions, tree)?;
    if !is_overgrown(arena.nodes.len() as u64, after) {
        return Ok(Renewal { arena: None, roots });
    }
    let (copy, moved) = compact(alloc, arena, roots.as_slice())?;
    Ok(Renewal {
        arena: Some(copy),
        roots: moved,
    })
}

impl<K: Key, V: Copy> Renewal<K, V> {
    // The mark of a height: all nodes of a copy.
    fn mark(&self, mark: u64) -> u64
        ensures { result ≡ mark_after mark self.now.arena }
    {
        match &self.arena {
            None => mark,
            Some(copy) => copy.nodes.len() as u64,
        }
    }

    // Puts the copy in the place of the arena.
    fn take_place(self, arena: &mut Arena<K, V>)
        ensures { arena.new ≡ arena_after arena.old self.arena }
    {
        let Renewal {
            arena: copy,
            roots: _,
        } = self;
        if let Some(copy) = copy {
            *arena = copy;
        }
    }
}

impl Compaction {
    /// Copies what these versions need of each arena that is to be compacted, by how many nodes each had after its last
    /// compaction. The arenas stay as they are.
    pub fn new(
        alloc: Global,
        indexes: &Indexes,
        after: &[u64; 8],
        versions: &[Version],
    ) -> Result<Compaction, Memory>
        requires { All (HasSoundTrees indexes.now) versions.now }
        ensures made { IfOk result (Compacts indexes.now versions.now) }
        ensures there { IfOk result (λ made. (place : ℕ) → place < length versions.now → HasVersion made place) }
    {
        let rows = renew(alloc, &indexes.rows, after[0], versions, Tree::Rows)?;
        let owner = renew(alloc, &indexes.owner, after[1], versions, Tree::Owner)?;
        let operator = renew(alloc, &indexes.operator, after[2], versions, Tree::Operator)?;
        let service = renew(alloc, &indexes.service, after[3], versions, Tree::Service)?;
        let collateral = renew(
            alloc,
            &indexes.collateral,
            after[4],
            versions,
            Tree::Collateral,
        )?;
        let payment = renew(alloc, &indexes.payment, after[5], versions, Tree::Payment)?;
        let unconfirmed = renew(
            alloc,
            &indexes.unconfirmed,
            after[6],
            versions,
            Tree::Unconfirmed,
        )?;
        let outputs = renew(alloc, &indexes.outputs, after[7], versions, Tree::Outputs)?;
        Ok(Compaction {
            rows,
            owner,
            operator,
            service,
            collateral,
            payment,
            unconfirmed,
            outputs,
        })
    }

    /// The version at a place, by its new roots.
    pub fn version(&self, place: usize) -> Version
        requires { HasVersion self.now place }
        ensures { result ≡ version_at self.now place }
    {
        Version {
            rows: self.rows.roots[place],
            owner: self.owner.roots[place],
            operator: self.operator.roots[place],
            service: self.service.roots[place],
            collateral: self.collateral.roots[place],
            payment: self.payment.roots[place],
            unconfirmed: self.unconfirmed.roots[place],
            outputs: self.outputs.roots[place],
        }
    }

    /// The marks of a height: of an arena that is compacted, all nodes of its copy.
    pub fn marks(&self, marks: &[u64; 8]) -> [u64; 8]
        ensures { result ≡ marks_after marks.now self.now }
    {
        [
            self.rows.mark(marks[0]),
            self.owner.mark(marks[1]),
            self.operator.mark(marks[2]),
            self.service.mark(marks[3]),
            self.collateral.mark(marks[4]),
            self.payment.mark(marks[5]),
            self.unconfirmed.mark(marks[6]),
            self.outputs.mark(marks[7]),
        ]
    }

    /// The mark of the arena of rows at a height.
    pub fn rows_mark(&self, mark: u64) -> u64
        ensures { result ≡ mark_after mark self.now.rows.arena }
    {
        self.rows.mark(mark)
    }

    /// Puts the copies in the places of their arenas.
    pub fn take_place(self, indexes: &mut Indexes)
        ensures { indexes.new ≡ indexes_after indexes.old self }
    {
        self.rows.take_place(&mut indexes.rows);
        self.owner.take_place(&mut indexes.owner);
        self.operator.take_place(&mut indexes.operator);
        self.service.take_place(&mut indexes.service);
        self.collateral.take_place(&mut indexes.collateral);
        self.payment.take_place(&mut indexes.payment);
        self.unconfirmed.take_place(&mut indexes.unconfirmed);
        self.outputs.take_place(&mut indexes.outputs);
    }
}

/// The version of each height that is held, and behind them that of each pin.
pub fn versions(alloc: Global, held: &HeldList, pins: &PinList) -> Result<Vec<Version>, Memory>
    ensures { IfOk result (λ versions. versions.items ≡ versions_of held.now.held pins.now) }
{
    let mut versions = held.versions(alloc)?;
    pins.add_versions(&mut versions)?;
    Ok(versions)
}
