//! The laws.

ghost use Rattle.std.specs.Prelude.{◌≡◌, ℕ, List, drop, Contains};
ghost use Rattle.std.specs.List.{All, AllByRecursion};
ghost use Rattle.dmn_block.specs.State.{State};
ghost use Rattle.dmn_branch.specs.Asked.{quorums_in};
ghost use Rattle.dmn_branch.specs.Holds.{Holds};
ghost use Rattle.dmn_branch.specs.Machine.{MachineState, branch, held_states, history, profile};
ghost use Rattle.dmn_branch.specs.Stands.{IsKept, Keeping, StandsFor};
ghost use Rattle.dmn_held.specs.declared.data.SnapshotData.{SnapshotData};
ghost use Rattle.dmn_restore.specs.Formed.{HasFormedPays};
ghost use Rattle.dmn_rows.specs.declared.row.MnRow.{MnRow};
ghost use Rattle.dmn_rows.specs.Defs.{IsStart};
ghost use Rattle.dmn_rows.specs.Rows.{plain_rows};
ghost use Rattle.dmn_snapshot_laws.specs.Formed.{IsFormed, IsRead};
ghost use Rattle.dmn_snapshot_laws.specs.Once.{MinesOnce};
ghost use Rattle.dmn_snapshot_laws.specs.Quorums.{AreFew};
ghost use Rattle.dmn_snapshot_laws.specs.Same.{HaveThose};
ghost use Rattle.dmn_snapshot_laws.specs.Tells.{Tells};

/// What a snapshot tells of a machine for which a branch stands, it holds in full: that keys are distinct in each list, that
/// limits are kept, that no hash is zero, and that the tip is near the top, follows of the machine.
pub fn told_is_held_in_full()
    ensures { (branch : Keeping) (m : MachineState) (held : SnapshotData) → IsKept branch.profile branch.first branch.top branch.lists → StandsFor branch m → Tells held m → Holds held m }
{}

/// Where the start record and the blocks of a machine were read, each state has in form what a snapshot is to tell of it: what
/// rows and outputs pay to, commitments, and what proves the coinbase.
pub fn states_are_formed()
    ensures { (m : MachineState) → IsStart m.start → AllByRecursion IsRead (branch m) → AllByRecursion IsFormed (history m) }
{}

/// So have the rows as they are stored.
pub fn stored_rows_are_formed()
    ensures { (height : ℕ) (stored rows : List MnRow) → plain_rows height stored ≡ rows → All HasFormedPays rows → All HasFormedPays stored }
{}

/// No two commitments of one type were mined at the height of a state.
pub fn each_type_is_mined_once()
    ensures { (m : MachineState) → AllByRecursion MinesOnce (history m) }
{}

/// What a snapshot that holds a machine has of commitments at a height above the lowest one is, of each type of the profile,
/// what the height's block mined. A lean one has no others, so it has no more of them than the machine.
pub fn commitments_are_those_mined()
    ensures { (m : MachineState) (held : SnapshotData) → Holds held m → HaveThose (profile m) held.heights (drop 1 (held_states m)) }
{}

/// Of each state of a machine whose start record and blocks were read few quorums are told, and their texts are short.
pub fn quorums_are_few()
    ensures { (m : MachineState) (state : State) → IsStart m.start → AllByRecursion IsRead (branch m) → Contains (history m) state → AreFew (quorums_in m state) }
{}
