//! What a registry starts from, its profiles, its rows, and the rules and verdicts by which blocks are judged.
#![tactic(auto)]

mod by_key;
mod checks;
mod law;
mod limits;
mod look;
mod profile;
mod row;
mod row_list;
mod rule;
mod signed;
mod start;
mod texts;
mod verdict;

pub use by_key::{ByKey, add_sorted, drop_sorted, find_sorted, put_sorted};
pub use checks::{check, when};
pub use law::one_row_text;
pub use limits::{COLLATERAL_VALUE, GREATEST_HEIGHT, MOST_MASTERNODES, MOST_OUTPUTS, WHOLE_REWARD};
pub use look::Look;
pub use profile::{CONFIRM_WAIT, Profile, QuorumParams, profile_of};
pub use row::{MnRow, ban, no_service, pay_key, plain_at};
pub use row_list::RowList;
pub use rule::Rule;
pub use signed::verdict_rules;
pub use start::{StartFault, StartOutput, StartRecord, read_start, write_start};
pub use texts::{ROW_LENGTH, row_text};
pub use verdict::{COLLATERAL_KEY, MEMBERS_KEYS, OPERATOR_KEY, OWNER_KEY, Verdict};
