//! Quorums of masternodes: their members, the duty to mine their commitments, and the rules on these (DIP-0006).
#![tactic(auto)]

mod bitset;
mod case;
mod checks;
mod digest;
mod duties;
mod forming;
mod judging;
mod law;
mod membership;
mod mined;
mod scores;
mod tables;

pub use bitset::bit_at;
pub use case::QuorumCase;
pub use digest::members_key;
pub use duties::{base_of, duty, in_window, params_of};
pub use forming::{Forming, case_of, members_in, missing};
pub use judging::judge_commitment;
pub use law::{digest_seen, judged_by_the_least_number, members_seen};
pub use membership::{Candidates, members};
pub use mined::{Mined, active_among, all_active_among};
pub use scores::{ScoreNumber, modifier, score};
