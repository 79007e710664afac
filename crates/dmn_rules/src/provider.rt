//! The payloads that are judged.

use dmn_payloads::{ProReg, Revoke, UpReg, UpServ};

/// The payload of a provider transaction (DIP-0003).
#[derive(Debug, Drop)]
pub enum Provider {
    /// Type 1 registers a masternode.
    Register(ProReg),
    /// Type 2 changes where it serves.
    Service(UpServ),
    /// Type 3 changes its keys and its payout.
    Registrar(UpReg),
    /// Type 4 gives it up.
    Revoke(Revoke),
}
