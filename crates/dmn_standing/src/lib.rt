//! How masternodes stand: confirmation, penalties, and the order in which they are paid (DIP-0003, DIP-0006).
#![tactic(auto)]

mod law;
mod payment;
mod standing;

pub use dmn_rows::pay_key;
pub use law::{
    confirmed_seen, decreased_seen, forecast_in_order, forecast_seen, paid_seen, payee_in_order,
    payee_is_first, payee_seen, punished_seen,
};
pub use payment::{Parts, forecast, payee, split};
pub use standing::{punish, standing_at};
