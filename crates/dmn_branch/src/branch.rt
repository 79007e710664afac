//! A branch: the lists of the heights that are held, one block more, and one less.

ghost use Rattle.std.specs.Prelude.{◌≡◌, ℕ, ◌*◌, ◌+◌, ◌-◌, ◌≤◌, ◌&&◌, ◌%◌, ◌^◌, ◌==◌, [], Some, IfOk, IfErr, IfSome, MatchBool, OnOk, OnErr, find, is_some, length, map, max, nat_le, slice_get, ◌<◌, Ok, Err, None, drop, vec_capacity, vec_len};
ghost use Rattle.std.specs.List.{AllByRecursion};
ghost use Rattle.std.specs.Option.{option_copied, option_map};
ghost use Rattle.std.specs.Str.{bytes_eq};
ghost use Rattle.dmn_block.specs.Defs.{IsBlock};
ghost use Rattle.dmn_block.specs.declared.frame.BlockFrame.{BlockFrame};
ghost use Rattle.dmn_bytes.specs.declared.hash.Hash256.{Hash256};
ghost use Rattle.dmn_bytes.specs.Points.{hash_cmp};
ghost use Rattle.dmn_held.specs.Defs.{IsHeld as HasForm};
ghost use Rattle.dmn_indexes.specs.Marks.{Cut, IsBelow, SameNodes};
ghost use Rattle.dmn_indexes.specs.Version.{GrownBy};
ghost use Rattle.dmn_indexes.specs.Version as versions;
ghost use Rattle.dmn_rows.specs.declared.profile.Profile.{Profile};
ghost use Rattle.dmn_rows.specs.Defs.{IsStart, KeepsBounds};
ghost use Rattle.dmn_rows.specs.Listing.{OutputsAscend};
ghost use Rattle.dmn_rows.specs.Rows.{plain_rows};
ghost use Rattle.dmn_rows.specs.Start.{start_record};
ghost use Rattle.dmn_versions.specs.Trees.{IsSound};
ghost use Rattle.dmn_branch.specs.Asked.{told, lent_part, IsPageOf, IsToldOf, LeavesOut, Lends, hashes_gone, members_in, payee_of, payees_of, quorums_in, row_of, rows_at, seen_at};
ghost use Rattle.dmn_branch.specs.Coinbases.{coinbase_of, part_of};
ghost use Rattle.dmn_branch.specs.Compact.{MoreByAtMost};
ghost use Rattle.dmn_branch.specs.declared.held.Held.{Held};
ghost use Rattle.dmn_branch.specs.Fault.{Tells, TellsFull, TellsRule};
ghost use Rattle.dmn_branch.specs.Holds.{Holds};
ghost use Rattle.dmn_branch.specs.Lean.{IsLean};
ghost use Rattle.dmn_branch.specs.Machine as machine;
ghost use Rattle.dmn_branch.specs.Machine.{MachineState};
ghost use Rattle.dmn_branch.specs.Drawn.{IsDrawnFor, drawn_by};
ghost use Rattle.dmn_branch.specs.Parts.{StandsIn, IsSettled, IsTreeOf, all_formed_in, formed_in};
ghost use Rattle.dmn_branch.specs.Pins.{free_number, no_pins, number_after, pin_of};
ghost use Rattle.dmn_quorums.specs.Duty.{types_of};
ghost use Rattle.dmn_branch.specs.Stands.{StandsFor, IsAlike, IsNext, IsReady, IsHeld, IsLeft, IsWhole, HoldsBase, kept_at, kept_in, low_kept, marks_over, prepared_in, tip_kept, IsAboveFloor, low_of, floor_kept};
ghost use Rattle.dmn_branch.specs.Replay.{IsLawful};
ghost use Rattle.dmn_branch.specs.Step.{profile_of as profile_by, most_rows};
ghost use Rattle.dmn_walk.specs.Page.{IsReady as IsReadable, pairs_left};

use crate::asked::{payees_of, row_of};
use crate::change::{RowChange, change};
use crate::coinbase::coinbase_part;
use crate::compaction::{Compaction, is_due, versions};
use crate::drawn::Drawn;
use crate::fault::{DisconnectRefusal, PinFault, PrepareFault};
use crate::from_data::{fits_heights, held_list, mined_of};
use crate::held::{HeightVersion, Held, HeldList, Prepared};
use crate::listing::Listing;
use crate::origin::origin;
use crate::pins::{Pin, PinList};
use crate::quorums::{inside, members_of, undrawn};
use crate::setting::Setting;
use crate::step::advance;
use crate::tip::Tip;
use crate::to_data::data_of;
use dmn_block::{BlockFrame, Refusal, check_shape};
use dmn_bytes::{Hash256, Memory, is_zero};
use dmn_held::SnapshotData;
use dmn_indexes::Indexes;
use dmn_merkle::Branching;
use dmn_payloads::Commitment;
use dmn_quorums::{Forming, Mined, base_of, in_window, params_of};
use dmn_restore::{DataFault, restore};
use dmn_rows::{MnRow, Profile, QuorumParams, Rule, StartRecord, profile_of};
use dmn_tx::Tx;
use dmn_versions::Root;
use dmn_walk::{Pairs, page};
use std::alloc::Global;
use std::marker::Model;

/// The version of each height that is held, from a start record on.
#[derive(Drop)]
pub struct Branch {
    profile: Profile,
    // The height of the first block.
    first: u32,
    // The greatest height that the tip had so far.
    top: u32,
    indexes: Indexes,
    // How many nodes each arena had after its last compaction.
    after: [u64; 8],
    held: HeldList,
    // Those that aren't null. Above the tip stand only those of a block that was prepared.
    mined: Mined,
    pins: PinList,
    next_pin: Option<u32>,
}

impl Model for Branch {
    ghost use Rattle.std.specs.Prelude.{map};
    ghost use Rattle.std.specs.List.{All};
    ghost use Rattle.dmn_branch.specs.Stands.{Keeping, IsKept, IsPinned, AreSound, lists_in, low_of, pins_in};

    ghost Value = { Keeping };

    ghost view = { λ a. record { profile = a.profile; first = a.first; indexes = a.indexes; held = a.held.held; mined = a.mined; lists = lists_in a.indexes (low_of a.profile a.first a.top) a.held.held; coinbases = map (λ h. h.coinbase) a.held.held; top = a.top; room = a.held.room; pinned = a.pins; pins = pins_in a.indexes a.pins a.next_pin } };

    ghost invariant = { λ a. IsKept a.profile a.first a.top (lists_in a.indexes (low_of a.profile a.first a.top) a.held.held) × AreSound a.indexes (low_of a.profile a.first a.top) a.held.held × All (IsPinned a.indexes) a.pins };
}

// The profile of a start record.
fn profile_by(start: &StartRecord) -> Profile
    requires { KeepsBounds start.now }
    ensures { result ≡ profile_by start.now }
{
    match profile_of(start.profile) {
        Some(profile) => profile,
        None => unreachable!(),
    }
}

// The lowest height that is held.
fn low_of(profile: &Profile, first: u32, top: u32) -> u32
    requires { 1 ≤ first }
    ensures { result ≡ low_of profile.now first top }
{
    (first - 1).max(top.saturating_sub(profile.kept))
}

impl Branch {
    /// A branch without blocks.
    #[tactic(auto, using(crate::proofs::Starting::start_bounds, crate::proofs::Starting::start_ascends, crate::proofs::Starting::start_stands))]
    pub fn start(alloc: Global, start: &StartRecord) -> Result<Branch, Memory>
        requires { start_record.Fits start.now }
        ensures { IfOk result (λ branch. StandsFor branch (machine.begun start.now)) }
    {
        let mut indexes = Indexes::new(alloc);
        let first = origin(alloc, start, &mut indexes)?;
        let mut held = HeldList::new(alloc);
        held.push(first)?;
        Ok(Branch {
            profile: profile_by(start),
            first: start.first,
            top: start.first - 1,
            indexes,
            after: [0; 8],
            held,
            mined: Mined::new(alloc),
            pins: PinList::new(alloc),
            next_pin: Some(1),
        })
    }

    /// The branch of which a snapshot holds this. A snapshot that a branch of this start record wrote is no misfit.
    pub fn from_data(
        alloc: Global,
        start: &StartRecord,
        held: &SnapshotData,
    ) -> Result<Branch, DataFault>
        requires { IsStart start.now }
        ensures stands { (m : MachineState) → m.start ≡ start.now → IsLawful m.start (machine.branch m) → Holds held.now m → IfOk result (λ branch. StandsFor branch (record m { pins = no_pins })) }
        ensures fits { (m : MachineState) → m.start ≡ start.now → IsLawful m.start (machine.branch m) → Holds held.now m → IfErr result (λ fault. fault ≡ DataFault.Memory) }
    {
        let profile = profile_by(start);
        let low = low_of(&profile, start.first, held.top);
        if !fits_heights(&profile, low, held) {
            return Err(DataFault::Misfit);
        }
        let made = restore(alloc, held)?;
        let list = held_list(alloc, held, made.versions.as_slice())?;
        let mined = mined_of(alloc, &profile, held)?;
        Ok(Branch {
            profile,
            first: start.first,
            top: held.top,
            indexes: made.indexes,
            after: [0; 8],
            held: list,
            mined,
            pins: PinList::new(alloc),
            next_pin: Some(1),
        })
    }

    /// What a snapshot holds of the branch: its lowest height whole, and each later one as what changed behind the one before
    /// it, told by the trees.
    pub fn to_data(&self, alloc: Global) -> Result<SnapshotData, Memory>
        ensures holds { (m : MachineState) → StandsFor self.now m → IfOk result (λ held. Holds held m) }
        // Its commitments count, and what is taken away was there.
        ensures lean { (m : MachineState) → StandsFor self.now m → IfOk result (IsLean (machine.profile m)) }
        ensures form { IfOk result HasForm }
    {
        data_of(
            alloc,
            self.top,
            self.low(),
            &self.profile.quorums,
            &self.indexes,
            &self.held,
            self.mined.as_slice(),
        )
    }

    /// The height of the first block.
    pub fn first(&self) -> u32
        ensures { (m : MachineState) → StandsFor self.now m → result ≡ m.start.first }
    {
        self.first
    }

    // What is held of the tip.
    fn last(&self) -> &Held
        ensures held { slice_get self.now.held (length self.now.held - 1) ≡ Some result.now }
        ensures list { slice_get self.now.lists (length self.now.lists - 1) ≡ Some (kept_in self.now.indexes (tip_kept self.now) result.now) }
        ensures version { versions.IsWhole self.now.indexes result.now.version }
        ensures whole { IsWhole (kept_in self.now.indexes (tip_kept self.now) result.now) }
    {
        self.held.get(self.held.len() - 1)
    }

    // The height at a place of what is held.
    fn height_at(&self, place: usize) -> u32
        requires { place < length self.now.held }
        ensures { result ≡ low_kept self.now + place }
    {
        low_of(&self.profile, self.first, self.top) + place as u32
    }

    // The height of the tip.
    fn tip_height(&self) -> u32
        ensures is { result ≡ tip_kept self.now }
        ensures next { result + 1 ≡ low_kept self.now + length self.now.lists }
    {
        self.height_at(self.held.len() - 1)
    }

    // The tip, as a step takes it.
    fn front(&self) -> HeightVersion
        ensures list { slice_get self.now.lists (length self.now.lists - 1) ≡ Some (kept_at self.now.indexes result) }
        ensures height { result.height + 1 ≡ low_kept self.now + length self.now.lists }
        ensures version { versions.IsWhole self.now.indexes result.version }
        ensures whole { IsWhole (kept_at self.now.indexes result) }
    {
        self.last().at(self.tip_height())
    }

    // The lowest height that is held.
    fn low(&self) -> u32
        ensures { result ≡ low_kept self.now }
    {
        low_of(&self.profile, self.first, self.top)
    }

    /// The tip, and which heights are held.
    pub fn tip(&self) -> Tip
        ensures tip { (m : MachineState) → StandsFor self.now m → result ≡ told m }
        ensures held { (height : ℕ) → result.low ≤ height → height ≤ result.height → IsHeld self.now height }
        ensures here { IsHeld self.now result.height }
    {
        let front = self.front();
        Tip {
            height: front.height,
            hash: front.hash,
            low: self.low(),
            top: self.top,
        }
    }

    /// The height below which the tip never goes.
    pub fn floor(&self) -> u32
        ensures floor { (m : MachineState) → StandsFor self.now m → result ≡ machine.floor m }
        ensures kept { result ≡ floor_kept self.now }
    {
        (self.first - 1).max(self.top.saturating_sub(self.profile.depth))
    }

    /// The start record's profile.
    pub fn profile(&self) -> &Profile
        ensures { (m : MachineState) → StandsFor self.now m → result.now ≡ machine.profile m }
    {
        &self.profile
    }

    /// The height that is held and whose block has the hash.
    pub fn height_of(&self, hash: &Hash256) -> Option<u32>
        ensures height { (m : MachineState) → StandsFor self.now m → result ≡ machine.height_of m hash.now }
        ensures held { IfSome result (IsHeld self.now) }
    {
        match self.held.place_of(hash) {
            None => None,
            Some(place) => Some(self.height_at(place)),
        }
    }

    // What is held of a height.
    fn held_at(&self, height: u32) -> &Held
        requires { IsHeld self.now height }
        ensures held { slice_get self.now.held (height - low_kept self.now) ≡ Some result.now }
        ensures list { slice_get self.now.lists (height - low_kept self.now) ≡ Some (kept_in self.now.indexes height result.now) }
        ensures coinbase { slice_get self.now.coinbases (height - low_kept self.now) ≡ Some result.now.coinbase }
        ensures stands { (m : MachineState) → StandsFor self.now m → StandsIn (kept_in self.now.indexes height result.now) (machine.state_at m height) }
        ensures whole { versions.IsWhole self.now.indexes result.now.version }
        ensures few { length (versions.rows_in self.now.indexes result.now.version) ≤ most_rows }
        ensures below { IsBelow result.now.marks result.now.version }
    {
        self.held.get((height - self.low()) as usize)
    }

    /// The list of masternodes at a height that is held.
    pub fn list_at(&self, height: u32) -> Listing<'_>
        requires { IsHeld self.now height }
        ensures { (m : MachineState) → StandsFor self.now m → Lends result (machine.state_at m height) }
    {
        Listing::of(&self.indexes, self.held_at(height))
    }

    /// The masternode that this transaction registered, at a height that is held. None exactly where the list has no such
    /// row. Its penalty is that after the block `penalty_at`.
    pub fn row_at(&self, height: u32, hash: &Hash256) -> Option<&MnRow>
        requires { IsHeld self.now height }
        ensures { (m : MachineState) → StandsFor self.now m → IsToldOf (row_of hash.now) (seen_at height (option_copied result)) (machine.state_at m height) }
    {
        row_of(&self.indexes, &self.held_at(height).version, hash)
    }

    /// The masternode that is paid next after a height that is held: of those that aren't banned, the one that waits
    /// longest. None exactly where all are banned. Its penalty is that after the block `penalty_at`.
    pub fn payee_at(&self, height: u32) -> Option<&MnRow>
        requires { IsHeld self.now height }
        ensures { (m : MachineState) → StandsFor self.now m → IsToldOf payee_of (seen_at height (option_copied result)) (machine.state_at m height) }
    {
        self.indexes.least_pay(&self.held_at(height).version, 0)
    }

    /// The hashes of the next `count` masternodes to be paid after a height that is held, fewer where fewer aren't
    /// banned, as if each block paid the first of them.
    pub fn payees_at(&self, alloc: Global, height: u32, count: u16) -> Result<Vec<Hash256>, Memory>
        requires { IsHeld self.now height }
        ensures payees { (m : MachineState) → StandsFor self.now m → IfOk result (λ hashes. IsToldOf (payees_of count) hashes.items (machine.state_at m height)) }
        ensures few { IfOk result (λ hashes. length hashes.items ≤ count) }
    {
        payees_of(alloc, &self.indexes, &self.held_at(height).version, count)
    }

    /// The members of the quorum of a type whose base block is that of a height that is held, in their order. None exactly
    /// where the profile has no such type, or the height is below the first block's or no multiple of the type's interval.
    pub fn members_at(
        &self,
        alloc: Global,
        kind: u8,
        height: u32,
    ) -> Result<Option<Vec<Hash256>>, Memory>
        requires { IsHeld self.now height }
        ensures members { (m : MachineState) → StandsFor self.now m → IfOk result (λ found. IsToldOf (members_in m kind) (option_map (λ hashes. hashes.items) found) (machine.state_at m height)) }
        ensures few { IfOk result (λ found. IfSome found (λ hashes. length hashes.items < 2 ^ 16)) }
    {
        let held = self.held_at(height);
        let Some(params) = params_of(&self.profile.quorums, kind) else {
            return Ok(None);
        };
        if !self.is_base(height, &params) {
            return Ok(None);
        }
        let members = members_of(alloc, &self.indexes, held, &params)?;
        Ok(Some(members))
    }

    // Whether a height is a base of a type of the profile, at or above the first block's.
    fn is_base(&self, height: u32, params: &QuorumParams) -> bool
        requires { 0 < params.now.interval }
        ensures { result ≡ (nat_le self.now.first height && height % params.now.interval == 0) }
    {
        self.first <= height && height % params.interval == 0
    }

    /// The active quorums at a height that is held: by their types, and of one type the oldest first.
    pub fn quorums_at(&self, alloc: Global, height: u32) -> Result<Vec<Commitment>, Memory>
        requires { IsHeld self.now height }
        ensures { (m : MachineState) → StandsFor self.now m → IfOk result (λ quorums. IsToldOf (quorums_in m) quorums.items (machine.state_at m height)) }
    {
        let _held = self.held_at(height);
        self.mined.all_active(alloc, &self.profile.quorums, height)
    }

    /// The first transaction of the block of a height that is held, and the branch that proves it. None exactly at the
    /// height before the first block's.
    pub fn coinbase_at(&self, height: u32) -> Option<(&Tx, &Branching)>
        requires { IsHeld self.now height }
        ensures { (m : MachineState) → StandsFor self.now m → IsToldOf coinbase_of (option_map lent_part result) (machine.state_at m height) }
    {
        match &self.held_at(height).coinbase {
            Some(part) => Some((&part.tx, &part.branch)),
            None => None,
        }
    }

    // The tree of the rows of a height that is held; an empty one where none is named.
    fn tree_at(&self, height: Option<u32>) -> Root
        requires { IfSome height (IsHeld self.now) }
        ensures sound { IsSound hash_cmp self.now.indexes.rows.nodes.items result.0 }
        ensures rows { (m : MachineState) → StandsFor self.now m → IsTreeOf self.now.indexes result (rows_at m height) }
    {
        match height {
            Some(height) => self.held_at(height).version.rows,
            None => Root(0),
        }
    }

    /// How the list of a height differs from that of another, where both are held. No base is the empty list. Each row of
    /// the target that is not told has the same entry of the simplified list in the base.
    pub fn changes_at(
        &self,
        alloc: Global,
        base: Option<u32>,
        target: u32,
    ) -> Result<RowChange, Memory>
        requires base { IfSome base (IsHeld self.now) }
        requires target { IsHeld self.now target }
        ensures gone { (m : MachineState) → StandsFor self.now m → IfOk result (λ change. change.gone.items ≡ hashes_gone (rows_at m base) (rows_at m (Some target))) }
        ensures put { (m : MachineState) → StandsFor self.now m → IfOk result (λ change. LeavesOut (rows_at m base) (rows_at m (Some target)) (plain_rows target change.put.items)) }
    {
        let old = self.tree_at(base);
        let new = self.held_at(target).version.rows;
        change(alloc, &self.indexes, old, new)
    }

    /// Judges a block that is to follow the tip, and makes the state after it, and room for that. What is held reads as
    /// before. First each arena is compacted that has more than 4,096 nodes, and more than four times as many as after its
    /// last compaction.
    pub fn prepare(&mut self, alloc: Global, block: &BlockFrame) -> Result<Prepared, PrepareFault>
        requires { IsBlock block.now }
        // What is prepared is the state after the block, which the machine accepts.
        ensures next { (m : MachineState) → StandsFor self.old m → IfOk result (λ prepared. IsNext (prepared_in self.new prepared) m block.now) }
        // It is refused exactly as the machine refuses it, unless memory runs out.
        ensures refused { (m : MachineState) → StandsFor self.old m → IfErr result (Tells (machine.connect m block.now)) }
        ensures same { (m : MachineState) → StandsFor self.old m → StandsFor self.new m }
        ensures ready { IfOk result (IsReady self.new) }
        // What is held reads as before, by other nodes where an arena was compacted.
        ensures left { IsAlike self.old self.new }
        // Each event adds at most 232 nodes to each arena; a block that isn't accepted leaves none.
        ensures events { (m : MachineState) → StandsFor self.old m → IfOk result (λ prepared. prepared.events ≡ machine.events m block.now) }
        ensures grown { IfOk result (λ prepared. MoreByAtMost (232 * prepared.events) self.old.indexes self.new.indexes) }
        ensures none_more { OnErr result (MoreByAtMost 0 self.old.indexes self.new.indexes) }
    {
        self.compact(alloc)?;
        self.check_hash(&block.hash)?;
        self.settle();
        self.prepare_next(alloc, block)
    }

    /// How many nodes the arena of rows has.
    pub fn nodes(&self) -> usize
        ensures { result ≡ length self.now.indexes.rows.nodes.items }
    {
        self.indexes.rows.nodes.len()
    }

    // Compacts each arena that has grown far beyond what is held. Without memory nothing changes.
    fn compact(&mut self, alloc: Global) -> Result<(), Memory>
        ensures same { (m : MachineState) → StandsFor self.old m → StandsFor self.new m }
        ensures alike { IsAlike self.old self.new }
        ensures few { MoreByAtMost 0 self.old.indexes self.new.indexes }
    {
        if !is_due(&self.indexes.marks(), &self.after) {
            return Ok(());
        }
        let versions = versions(alloc, &self.held, &self.pins)?;
        let made = Compaction::new(alloc, &self.indexes, &self.after, versions.as_slice())?;
        self.pins.renew(&made, self.held.len());
        self.held.renew(&made);
        self.after = made.marks(&self.after);
        made.take_place(&mut self.indexes);
        Ok(())
    }

    // Drops the commitments of a block that was prepared and not added.
    fn settle(&mut self)
        ensures left { IsLeft self.old self.new }
        ensures same { (m : MachineState) → StandsFor self.old m → StandsFor self.new m }
        ensures settled { IsSettled self.new }
        ensures indexes { self.new.indexes ≡ self.old.indexes }
    {
        let height = self.tip_height();
        self.mined.undo(height);
    }

    // Judges a block whose hash is new.
    fn prepare_next(&mut self, alloc: Global, block: &BlockFrame) -> Result<Prepared, PrepareFault>
        requires block { IsBlock block.now }
        requires settled { IsSettled self.old }
        ensures next { (m : MachineState) → StandsFor self.old m → machine.broken_hash m block.now.hash ≡ None → IfOk result (λ prepared. IsNext (prepared_in self.new prepared) m block.now) }
        ensures refused { (m : MachineState) → StandsFor self.old m → machine.broken_hash m block.now.hash ≡ None → IfErr result (Tells (machine.connect m block.now)) }
        ensures same { (m : MachineState) → StandsFor self.old m → StandsFor self.new m }
        ensures ready { IfOk result (IsReady self.new) }
        ensures left { IsLeft self.old self.new }
        ensures events { (m : MachineState) → StandsFor self.old m → IfOk result (λ prepared. prepared.events ≡ machine.events m block.now) }
        ensures grown { IfOk result (λ prepared. GrownBy (232 * prepared.events) self.old.indexes self.new.indexes) }
        ensures same_nodes { OnErr result (SameNodes self.old.indexes self.new.indexes) }
    {
        let front = self.front();
        let coinbase = check_shape(alloc, block, &front.hash, front.height)?;
        let formings = self.formings(alloc, coinbase.height, block)?;
        let part = coinbase_part(alloc, block)?;
        if self.held.reserve().is_err() {
            return Err(PrepareFault::Memory);
        }
        let profile = self.profile;
        let verdicts = block.verdicts.as_slice();
        let setting = Setting::new(&profile, coinbase.height, verdicts, &formings);
        match advance(
            alloc,
            &setting,
            &front,
            block,
            &coinbase,
            &mut self.indexes,
            &mut self.mined,
        ) {
            Ok(stepped) => Ok(Prepared {
                next: stepped.next.with_coinbase(part),
                events: stepped.events,
            }),
            Err(fault) => Err(fault),
        }
    }

    /// What is known of the quorum of each type for a block at a height, where that is the one behind the tip's; nothing at
    /// another.
    pub fn formings_at(&mut self, alloc: Global, height: u32) -> Result<Vec<Forming>, Memory>
        ensures formed { (m : MachineState) → StandsFor self.old m → height ≡ (machine.tip m).height + 1 → IfOk result (λ formings. formings.items ≡ machine.formed m) }
        ensures same { (m : MachineState) → StandsFor self.old m → StandsFor self.new m }
    {
        self.settle();
        self.formings_behind(alloc, height)
    }

    // The same, where no commitment above the tip is kept.
    fn formings_behind(&self, alloc: Global, height: u32) -> Result<Vec<Forming>, Memory>
        requires settled { IsSettled self.now }
        ensures { (m : MachineState) → StandsFor self.now m → height ≡ (machine.tip m).height + 1 → IfOk result (λ formings. formings.items ≡ machine.formed m) }
    {
        let front = self.front();
        if height == 0 || front.height != height - 1 {
            return Ok(Vec::new(alloc));
        }
        self.formings_of(alloc, height, &self.profile.quorums, &Drawn::All)
    }

    // The quorum of each type at the height behind the tip's, for a block there: with the members that it asks for.
    fn formings(
        &self,
        alloc: Global,
        height: u32,
        block: &BlockFrame,
    ) -> Result<Vec<Forming>, Memory>
        requires { height ≡ low_kept self.now + length self.now.lists }
        ensures { IfOk result (λ formings. IsDrawnFor block.now.txs (all_formed_in self.now height self.now.profile.quorums) formings.items) }
    {
        let drawn = Drawn::for_block(alloc, block.txs.as_slice())?;
        self.formings_of(alloc, height, &self.profile.quorums, &drawn)
    }

    // The quorum of each of these types there, with the members of some.
    fn formings_of(
        &self,
        alloc: Global,
        height: u32,
        quorums: &[Option<QuorumParams>],
        drawn: &Drawn,
    ) -> Result<Vec<Forming>, Memory>
        requires next { height ≡ low_kept self.now + length self.now.lists }
        requires bases { AllByRecursion (HoldsBase self.now.profile) (types_of quorums.now) }
        ensures { IfOk result (λ formings. formings.items ≡ map (drawn_by drawn.now) (all_formed_in self.now height quorums.now)) }
    {
        let mut formings = Vec::new(alloc);
        for quorum in quorums {
            if let Some(params) = quorum {
                let forming = self.forming(alloc, height, params, drawn)?;
                formings.push(forming).map_err(|_| Memory)?;
            }
        }
        Ok(formings)
    }

    // The quorum of a type. The base of each whose commitment may be mined is held.
    fn forming(
        &self,
        alloc: Global,
        height: u32,
        params: &QuorumParams,
        drawn: &Drawn,
    ) -> Result<Forming, Memory>
        requires next { height ≡ low_kept self.now + length self.now.lists }
        requires base { HoldsBase self.now.profile params.now }
        ensures { IfOk result (λ forming. forming ≡ drawn_by drawn.now (formed_in self.now height params.now)) }
    {
        let done = self.mined.is_done(params, height);
        if !in_window(params, self.first, height) {
            return Ok(Forming::outside(alloc, params, done));
        }
        let base = self.held_at(base_of(params, height));
        if !drawn.has(params.kind) {
            return Ok(undrawn(alloc, base, params, done));
        }
        inside(alloc, &self.indexes, base, params, done)
    }

    // Rules 1 and 2, on a block's hash.
    fn check_hash(&self, hash: &Hash256) -> Result<(), PrepareFault>
        ensures fresh { (m : MachineState) → StandsFor self.now m → OnOk result (machine.broken_hash m hash.now ≡ None) }
        ensures known { (m : MachineState) → StandsFor self.now m → IfErr result (TellsRule (machine.broken_hash m hash.now)) }
    {
        if is_zero(&hash.0) {
            return Err(PrepareFault::Refused(Refusal {
                rule: Rule::ZeroHash,
                tx: None,
            }));
        }
        match self.height_of(hash) {
            None => Ok(()),
            Some(height) => Err(PrepareFault::Refused(Refusal {
                rule: Rule::HashKnown { height },
                tx: None,
            })),
        }
    }

    /// Adds the block that was prepared, where nothing was changed since, and lets the version go that is held no longer.
    /// This takes no memory.
    pub fn commit(&mut self, prepared: Prepared)
        requires { IsReady self.old prepared }
        ensures { (m : MachineState) (block : BlockFrame) → StandsFor self.old m → IsNext (prepared_in self.old prepared) m block → StandsFor self.new (machine.with_block m block) }
    {
        let Prepared { next, .. } = prepared;
        let low = self.low();
        let height = self.tip_height() + 1;
        self.top = self.top.max(height);
        self.held.push_reserved(next);
        let more = low_of(&self.profile, self.first, self.top);
        self.held.keep_from(low, more);
    }

    /// Leaves the block that was prepared, and cuts its nodes and its commitments off.
    pub fn abandon(&mut self, prepared: Prepared)
        ensures same { (m : MachineState) → StandsFor self.old m → StandsFor self.new m }
        ensures left { IsLeft self.old self.new }
        ensures settled { IsSettled self.new }
        ensures cut { (tip : Held) → slice_get self.new.held (length self.new.held - 1) ≡ Some tip → Cut (marks_over self.new.pinned tip.marks) self.old.indexes self.new.indexes }
    {
        let _ = prepared;
        self.cut();
    }

    // Cuts each arena back to the nodes that it had at the tip, but for what pins need, and the commitments to those at or
    // below the tip.
    fn cut(&mut self)
        ensures left { IsLeft self.old self.new }
        ensures settled { IsSettled self.new }
        ensures same { (m : MachineState) → StandsFor self.old m → StandsFor self.new m }
        ensures cut { (tip : Held) → slice_get self.new.held (length self.new.held - 1) ≡ Some tip → Cut (marks_over self.new.pinned tip.marks) self.old.indexes self.new.indexes }
    {
        let height = self.tip_height();
        let marks = self.last().marks;
        self.indexes.cut(&self.pins.marks_over(&marks));
        self.mined.undo(height);
    }

    /// Whether the last block, which is to have this hash, may be taken back: else why not.
    pub fn check_disconnect(&self, hash: &Hash256) -> Result<(), DisconnectRefusal>
        // It is refused exactly as the machine refuses it.
        ensures refused { (m : MachineState) → StandsFor self.now m → IfErr result (λ refusal. machine.disconnect m hash.now ≡ Err refusal) }
        ensures accepted { (m : MachineState) → StandsFor self.now m → OnOk result (machine.disconnect m hash.now ≡ Ok (machine.without_tip m hash.now)) }
        ensures above { OnOk result (IsAboveFloor self.now) }
    {
        let front = self.front();
        let floor = self.floor();
        if front.hash != *hash {
            return Err(DisconnectRefusal::NotTip { tip: front.hash });
        }
        if front.height < self.first {
            return Err(DisconnectRefusal::AtStart);
        }
        if front.height <= floor {
            return Err(DisconnectRefusal::TooDeep { floor });
        }
        Ok(())
    }

    /// Takes the last block back: what is held is as before it, and the top and the pins stay. This takes no memory, and cuts
    /// each arena back to the nodes that it had at the height before, but for what pins need.
    pub fn disconnect(&mut self)
        requires { IsAboveFloor self.old }
        ensures stands { (m : MachineState) (hash : Hash256) → StandsFor self.old m → StandsFor self.new (machine.without_tip m hash) }
        ensures cut { (tip : Held) → slice_get self.new.held (length self.new.held - 1) ≡ Some tip → Cut (marks_over self.new.pinned tip.marks) self.old.indexes self.new.indexes }
    {
        self.held.pop();
        self.cut();
    }

    // The number of one pin more.
    fn free_number(&self) -> Option<u32>
        ensures { result ≡ free_number self.now.pins }
    {
        if self.pins.is_full() {
            None
        } else {
            self.next_pin
        }
    }

    /// Pins the list of a height that is held: whatever is connected or disconnected, it stays readable until it is
    /// released. Its number is one that no pin had before. The fault is PinsFull exactly where as many are live as may be, or
    /// the last number was given.
    pub fn pin(&mut self, height: u32) -> Result<u32, PinFault>
        requires { IsHeld self.old height }
        ensures number { (m : MachineState) → StandsFor self.old m → IfOk result (λ number. free_number m.pins ≡ Some number) }
        ensures fresh { (m : MachineState) → StandsFor self.old m → IfOk result (λ number. pin_of m.pins number ≡ None) }
        ensures pinned { (m : MachineState) → StandsFor self.old m → IfOk result (λ number. StandsFor self.new (machine.pinned m number height)) }
        ensures full { (m : MachineState) → StandsFor self.old m → IfErr result (TellsFull (free_number m.pins)) }
        ensures same { (m : MachineState) → StandsFor self.old m → OnErr result (StandsFor self.new m) }
    {
        let held = self.held_at(height);
        let (root, mark) = (held.version.rows, held.marks[0]);
        let Some(number) = self.free_number() else {
            return Err(PinFault::PinsFull);
        };
        let pin = Pin {
            number,
            height,
            root,
            mark,
        };
        if self.pins.add(pin).is_err() {
            return Err(PinFault::Memory);
        }
        self.next_pin = number.checked_add(1);
        Ok(number)
    }

    /// Lends a part of a pinned list: the rows from a place of the order of hashes on, counted from 0, at most `most` of
    /// them. None exactly where no live pin has the number. Their penalties are those after the block `penalty_at`. This takes
    /// no memory.
    pub fn pin_page(&self, number: u32, from: u32, most: u16) -> Option<Pairs<'_, Hash256, MnRow>>
        ensures page { (m : MachineState) → StandsFor self.now m → IsPageOf from most (pin_of m.pins number) (option_map pairs_left result) }
        ensures ready { IfSome result (IsReadable hash_cmp) }
        ensures few { IfSome result (λ pairs. length (pairs_left pairs) ≤ most) }
    {
        let pin = self.pins.find(number)?;
        Some(page(&self.indexes.rows, pin.root, from, most))
    }

    /// Releases a pin. False exactly where no live pin has the number, and then nothing changes.
    pub fn release(&mut self, number: u32) -> bool
        ensures live { (m : MachineState) → StandsFor self.old m → result ≡ is_some (pin_of m.pins number) }
        ensures stands { (m : MachineState) → StandsFor self.old m → MatchBool result (StandsFor self.new (machine.released m number)) (StandsFor self.new m) }
    {
        if self.pins.find(number).is_none() {
            return false;
        }
        self.pins.drop(number);
        true
    }
}

// With a further field this does not compile.
fn names_height(height: &Held) {
    let Held {
        hash: _,
        root: _,
        version: _,
        coinbase: _,
        marks: _,
    } = height;
}

// With a further field this does not compile.
fn names_pin(pin: &Pin) {
    let Pin {
        number: _,
        height: _,
        root: _,
        mark: _,
    } = pin;
}

/// Names each field of a branch, and does nothing. With a further field this does not compile: a branch keeps no list of rows
/// beside its arenas.
pub fn names_each_field(branch: &Branch) {
    let Branch {
        profile: _,
        first: _,
        top: _,
        indexes: _,
        after: _,
        held,
        mined,
        pins,
        next_pin: _,
    } = branch;
    let HeldList { items: held } = held;
    let Mined { items: _ } = mined;
    let PinList { items: pins } = pins;
    if let Some(height) = held.first() {
        names_height(height);
    }
    if let Some(pin) = pins.first() {
        names_pin(pin);
    }
}
