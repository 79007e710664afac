//! What the transactions do to rows.

ghost use Rattle.std.specs.Prelude.{◌≡◌};
ghost use Rattle.dmn_payloads.specs.Scripts.{pay_of};
ghost use Rattle.dmn_rules.specs.Change as spec;

use crate::checks::point_of;
use crate::facts::Facts;
use dmn_bytes::{Hash256, Pay, Service};
use dmn_payloads::{ProReg, Revoke, UpReg, UpServ};
use dmn_rows::{MnRow, ban, no_service};

const NO_PAY: Pay = Pay {
    kind: 0,
    hash: [0; 20],
};

/// The row of a registration, by what its payout and its collateral pay to.
#[tactic(auto, unfolding(crate::specs::Change::registered))]
pub fn registered(facts: &Facts, p: &ProReg, payout: &Pay, script: &Pay) -> MnRow
    requires { payout.now ≡ pay_of p.now.payout }
    ensures { result ≡ spec.registered facts.now.height facts.now.id p.now script.now }
{
    MnRow {
        hash: facts.id,
        confirmed: Hash256([0; 32]),
        registered: facts.height,
        last_paid: 0,
        revived: 0,
        banned: if no_service(&p.service) {
            facts.height
        } else {
            0
        },
        penalty: 0,
        penalty_at: 0,
        reason: 0,
        owner: p.owner,
        operator: p.operator,
        voting: p.voting,
        service: p.service,
        payout: *payout,
        operator_payout: NO_PAY,
        reward: p.reward,
        collateral: point_of(&facts.id, p),
        script: *script,
    }
}

/// The row with the service of the payload and what its payout pays to; a banned one is revived.
#[tactic(auto, unfolding(crate::specs::Change::served))]
pub fn served(height: u32, up: &UpServ, payout: &Pay, row: &MnRow) -> MnRow
    requires { payout.now ≡ pay_of up.now.payout }
    ensures { result ≡ spec.served height up.now row.now }
{
    let set = MnRow {
        service: up.service,
        operator_payout: *payout,
        ..*row
    };
    if row.banned == 0 {
        set
    } else {
        MnRow {
            penalty: 0,
            banned: 0,
            revived: height,
            ..set
        }
    }
}

// The row without the operator's fields.
fn cleared(row: &MnRow) -> MnRow
    ensures { result ≡ spec.cleared row.now }
{
    MnRow {
        operator: [0; 48],
        service: Service {
            address: [0; 16],
            port: 0,
        },
        operator_payout: NO_PAY,
        reason: 0,
        ..*row
    }
}

/// The row with the keys of the payload and what its payout pays to; a new operator has to tell a service first.
#[tactic(auto, unfolding(crate::specs::Change::rekeyed))]
pub fn rekeyed(height: u32, up: &UpReg, payout: &Pay, row: &MnRow) -> MnRow
    requires { payout.now ≡ pay_of up.now.payout }
    ensures { result ≡ spec.rekeyed height up.now row.now }
{
    let kept = if row.operator == up.operator {
        *row
    } else {
        ban(height, &cleared(row))
    };
    MnRow {
        operator: up.operator,
        voting: up.voting,
        payout: *payout,
        ..kept
    }
}

/// The row without an operator, and with the reason of the payload.
#[tactic(auto, unfolding(crate::specs::Change::revoked))]
pub fn revoked(height: u32, p: &Revoke, row: &MnRow) -> MnRow
    ensures { result ≡ spec.revoked height p.now row.now }
{
    MnRow {
        reason: p.reason,
        ..ban(height, &cleared(row))
    }
}

/// The row as it is kept: its penalty is the one after block `height`.
pub fn stored(height: u32, row: MnRow) -> MnRow
    ensures { result ≡ spec.stored height row }
{
    MnRow {
        penalty_at: height,
        ..row
    }
}
