//! Answers.

use dmn_block::Refusal;
use dmn_bytes::{Hash256, Items};
use dmn_diff::Diff;
use dmn_payloads::Commitment;
use dmn_rows::MnRow;
use dmn_sml::SmlEntry;

/// What is answered to a request.
#[derive(Debug, Drop)]
pub enum Answer {
    /// An answer whose length is bounded.
    Short(ShortAnswer),
    /// An answer that grows with what it tells.
    Grown(GrownAnswer),
}

/// An answer whose length is bounded, so that its frame takes no memory.
#[derive(Clone, Copy, Debug, PartialEq, Eq)]
pub enum ShortAnswer {
    /// The block is accepted, at this height.
    Connected {
        height: u32,
        hash: Hash256,
    },
    /// The last block is taken back, and this is the tip.
    Disconnected {
        height: u32,
        hash: Hash256,
    },
    /// The tip, and the heights that are held: from `low` to the tip's. The top is the greatest height so far.
    Tip {
        height: u32,
        hash: Hash256,
        low: u32,
        top: u32,
    },
    /// The list is pinned, under this number.
    Pinned {
        pin: u32,
    },
    /// The pin is released.
    Released,
    /// There was no memory, and nothing changed.
    Memory,
    /// The frame is not in its form, at this place, counted from its first byte.
    BadRequest {
        at: u32,
    },
    /// The height is not held; these are.
    NotHeld {
        low: u32,
        high: u32,
    },
    /// There is no such masternode in the list of a height that is held; or no such type of quorum, or no base of it at such a
    /// height; or no block that a diff could lead to.
    NoSuch,
    /// The base is above the block.
    BaseAbove,
    /// As many pins are live as may be, or the last number was given.
    PinsFull,
    /// No live pin has the number.
    PinUnknown,
    /// The block is refused by a rule, which a transaction breaks.
    Refused(Refusal),
    /// The last block has another hash, which is this.
    NotTip {
        tip: Hash256,
    },
    /// There is no block to take back.
    AtStart,
    /// No block at or below this height is taken back.
    TooDeep {
        floor: u32,
    },
    /// With the command the journal would be longer than its limit.
    JournalFull,
}

/// An answer that grows with what it tells.
#[derive(Debug, Drop)]
pub enum GrownAnswer {
    /// The list at a height: the block's hash, the root that it commits to, and the entries.
    List {
        height: u32,
        hash: Hash256,
        root: Hash256,
        entries: Items<SmlEntry>,
    },
    /// A masternode, as a row of the list at the height that was asked for. That is its `penalty_at`: the penalty is the
    /// one in force then.
    Row(MnRow),
    /// The next masternodes to be paid, in their order. They are at most 65,535.
    Payees(Items<Hash256>),
    /// The members of a quorum, in their order. They are at most 65,535.
    Members(Items<Hash256>),
    /// The commitments of the active quorums: by their types, and of one type the oldest first. Their count and the length
    /// of their texts fit the fields of a frame.
    Quorums(Items<Commitment>),
    /// A part of a pinned list, as the entries of its rows. They are at most 65,535.
    Page(Items<SmlEntry>),
    /// What changed in the list between two blocks. The length of its text fits the field of a frame.
    Diff(Diff),
}
