//! When each rule is broken.

ghost use Rattle.std.specs.Prelude.{◌≡◌};
ghost use Rattle.dmn_quorums.specs.Rules as spec;

use crate::bitset::{has_bit_from, has_fewer};
use dmn_payloads::{Bits, Commitment};
use dmn_rows::{QuorumParams, Rule, when};

// Whether a set has not as many bits as a quorum has seats, or one is set behind the members.
fn is_misfit(size: u16, members: u32, bits: &Bits) -> bool
    ensures { result ≡ spec.is_misfit size members bits.now }
{
    bits.count != u64::from(size) || has_bit_from(bits.bytes.as_slice(), members)
}

/// Whether a set of bits doesn't fit the quorum.
#[tactic(auto, unfolding(crate::specs::Rules::quorum_bits))]
pub fn quorum_bits(params: &QuorumParams, members: u32, v: &Commitment) -> Option<Rule>
    ensures { result ≡ spec.quorum_bits params.now members v.now }
{
    when(
        is_misfit(params.size, members, &v.signers) || is_misfit(params.size, members, &v.valid),
        Rule::QuorumBits,
    )
}

/// Whether it isn't null and has too few signers or valid members.
#[tactic(auto, unfolding(crate::specs::Rules::quorum_few))]
pub fn quorum_few(params: &QuorumParams, v: &Commitment) -> Option<Rule>
    ensures { result ≡ spec.quorum_few params.now v.now }
{
    when(
        !v.is_null()
            && (has_fewer(v.signers.bytes.as_slice(), params.minimum)
                || has_fewer(v.valid.bytes.as_slice(), params.minimum)),
        Rule::QuorumFew,
    )
}
