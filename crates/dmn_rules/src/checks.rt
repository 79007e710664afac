//! What the tables of rules ask.

ghost use Rattle.std.specs.Prelude.{◌≡◌};
ghost use Rattle.dmn_rules.specs.Provider as spec;

use dmn_bytes::{Hash256, OutPoint, Pay, Service, is_zero};
use dmn_payloads::ProReg;
use dmn_rows::{Rule, when};

/// IPv4-mapped, with the network's port.
pub fn is_mapped(port: u16, service: &Service) -> bool
    ensures { result ≡ spec.is_mapped port service.now }
{
    service
        .address
        .starts_with(&[0, 0, 0, 0, 0, 0, 0, 0, 0, 0, 255, 255])
        && service.port == port
}

/// Whether it pays to a public key of this hash.
pub fn pays(pay: &Pay, key: &[u8; 20]) -> bool
    ensures { result ≡ spec.pays pay.now key.now }
{
    pay.kind == 1 && pay.hash == *key
}

/// Whether a registration's collateral is an output of its own transaction.
pub fn is_own(p: &ProReg) -> bool
    ensures { result ≡ spec.is_own p.now }
{
    is_zero(&p.collateral.hash.0)
}

/// A registration's collateral.
pub fn point_of(id: &Hash256, p: &ProReg) -> OutPoint
    ensures { result ≡ spec.point_of id.now p.now }
{
    if is_own(p) {
        OutPoint {
            hash: *id,
            index: p.collateral.index,
        }
    } else {
        p.collateral
    }
}

/// Whether an own collateral has a signature, or another one has none.
#[tactic(auto, unfolding(crate::specs::Provider::sig_presence))]
pub fn sig_presence(p: &ProReg) -> Option<Rule>
    ensures { result ≡ spec.sig_presence p.now }
{
    let unsigned = p.signature.len() == 0;
    when(
        if is_own(p) { !unsigned } else { unsigned },
        Rule::SigPresence,
    )
}
