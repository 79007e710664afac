//! Payloads of special transactions: the provider payloads (DIP-0003), the coinbase's (DIP-0004) and a quorum's
//! commitment (DIP-0006).
#![tactic(auto)]

mod commitment;
mod fault;
mod mined;
mod payloads;
mod read;
mod script;

pub use commitment::{Bits, Commitment};
pub use fault::PayloadFault;
pub use mined::MinedAt;
pub use payloads::{CbTx, ProReg, Revoke, UpReg, UpServ};
pub use read::{
    read_cb, read_commitment, read_commitment_payload, read_pro_reg, read_revoke, read_up_reg,
    read_up_serv, write_cb, write_commitment, write_pro_reg, write_revoke, write_up_reg,
    write_up_serv,
};
pub use script::script_kind;
