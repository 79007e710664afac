//! Laws of the definitions.

ghost use Rattle.std.specs.Prelude.{◌≡◌, ◌+◌, ◌-◌, ◌≤◌, ℕ, Option, Some, length, true};
ghost use Rattle.std.specs.List.{AllByRecursion};
ghost use Rattle.dmn_block.specs.declared.frame.BlockFrame.{BlockFrame};
ghost use Rattle.dmn_block.specs.Shape.{first_of, number_of};
ghost use Rattle.dmn_bytes.specs.declared.hash.Hash256.{Hash256};
ghost use Rattle.dmn_payloads.specs.declared.payloads.CbTx.{CbTx};
ghost use Rattle.dmn_quorums.specs.Duty.{base_of, is_in_window, types_of};
ghost use Rattle.dmn_rows.specs.declared.profile.QuorumParams.{QuorumParams};
ghost use Rattle.dmn_rows.specs.declared.start.StartRecord.{StartRecord};
ghost use Rattle.dmn_rows.specs.Order.{TellsLeast};
ghost use Rattle.dmn_branch.specs.Coinbases.{HasCoinbase, TellsRoot};
ghost use Rattle.dmn_branch.specs.Machine.{MachineState, broken_hash, hash_rules, history, state_at, tip, top, with_block, without_tip};
ghost use Rattle.dmn_branch.specs.Stands.{HoldsBase, IsHeld, IsKept, Keeping, low_kept};
ghost use Rattle.dmn_branch.specs.Step.{Outcome, last_rules, profile_of};

/// By the rules on its hash, and by the last rules, a block is refused by the broken one with the least number, and by
/// none where none is broken. Each rule stands in its table beside its own number.
pub fn refused_by_the_least_number()
    ensures known { (m : MachineState) (hash : Hash256) → TellsLeast number_of (hash_rules m hash) (broken_hash m hash) }
    ensures last { (coinbase : Option CbTx) (after : Outcome) → TellsLeast number_of (last_rules coinbase after) (first_of (last_rules coinbase after)) }
{}

/// In the window of a type the base of its quorum is held: at each height that may follow the tip of a branch, however far that
/// was taken back. It rests on the numbers of the profiles.
pub fn bases_are_held()
    ensures held { (branch : Keeping) (params : QuorumParams) (height : ℕ) → IsKept branch.profile branch.first branch.top branch.lists → HoldsBase branch.profile params → height ≡ low_kept branch + length branch.lists
        → is_in_window params branch.first height ≡ true → IsHeld branch (base_of params height) }
    ensures profiles { (start : StartRecord) → AllByRecursion (HoldsBase (profile_of start)) (types_of (profile_of start).quorums) }
{}

/// A block that is added and then taken back leaves each state of before, from the height before the first block to the
/// tip. The top stays where the block took it.
pub fn taken_back_as_before()
    ensures states { (m : MachineState) (block : BlockFrame) (hash : Hash256) → history (without_tip (with_block m block) hash) ≡ history m }
    ensures top { (m : MachineState) (hash : Hash256) → top (without_tip m hash) ≡ top m }
{}

/// Each block of a branch has a coinbase: of the heights that have a state, the one before the first block's alone has none.
pub fn blocks_have_coinbases()
    ensures { (m : MachineState) (height : ℕ) → m.start.first - 1 ≤ height → HasCoinbase m.start.first height (state_at m height) }
{}

/// The coinbase of each state's block tells the root of the state's list; at the height before the first block that is zero. So
/// what proves the coinbases of a branch tells the roots of its lists.
pub fn coinbases_tell_roots()
    ensures { (m : MachineState) → AllByRecursion TellsRoot (history m) }
{}

/// The state at the height of the tip is the tip.
pub fn tip_is_at_its_height()
    ensures { (m : MachineState) → state_at m (tip m).height ≡ Some (tip m) }
{}
