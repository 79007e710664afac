//! What the refusal by a rule tells.

ghost use Rattle.std.specs.Prelude.{◌≡◌, ◌≤◌, length};
ghost use Rattle.dmn_desk.specs.RuleFields.{rule_fields};

use dmn_frames::Short;
use dmn_rows::Rule;

/// What the refusal by a rule tells, behind its number and the transaction's place.
#[tactic(auto, unfolding(crate::specs::RuleFields::rule_fields))]
pub fn rule_fields(rule: &Rule) -> Short
    ensures text { result ≡ rule_fields rule.now }
    ensures length { length result ≤ 64 }
{
    let mut text = Short::new();
    match rule {
        Rule::HashKnown { height: number }
        | Rule::VerdictForm { position: number }
        | Rule::CbHeight { found: number }
        | Rule::PayloadForm { place: number }
        | Rule::QuorumHeight { found: number } => text.put(&number.to_le_bytes()),
        Rule::NotNext { tip: hash }
        | Rule::BadMerkle { computed: hash }
        | Rule::DupOwner { row: hash }
        | Rule::DupOperator { row: hash }
        | Rule::DupAddress { row: hash }
        | Rule::UpDupAddress { row: hash }
        | Rule::UpDupOperator { row: hash }
        | Rule::QuorumBase { base: hash }
        | Rule::VerdictOther { wanted: hash } => text.put(&hash.0),
        Rule::CbVersion { found: number }
        | Rule::UnknownType { found: number }
        | Rule::PayloadVersion { found: number }
        | Rule::QuorumVersion { found: number } => text.put(&number.to_le_bytes()),
        Rule::QuorumType { found: number } | Rule::QuorumMissing { kind: number } => text.put(&[
            *number,
        ]),
        Rule::CbRoot {
            committed,
            computed,
        } => {
            text.put(&committed.0);
            text.put(&computed.0);
        }
        Rule::ZeroHash
        | Rule::HeightLimit
        | Rule::NoCoinbase
        | Rule::SecondCoinbase
        | Rule::DuplicateTx
        | Rule::CbPayload
        | Rule::InputsHash
        | Rule::RegType
        | Rule::RegMode
        | Rule::NullKey
        | Rule::PayoutForm
        | Rule::PayoutKey
        | Rule::RewardRange
        | Rule::AddressForm
        | Rule::SigPresence
        | Rule::CollateralIndex
        | Rule::CollateralValue
        | Rule::CollateralScript
        | Rule::CollateralUnknown
        | Rule::CollateralKeyless
        | Rule::CollateralKey
        | Rule::NoRow
        | Rule::UpAddress
        | Rule::OperatorPayoutForm
        | Rule::OperatorPayoutUnasked
        | Rule::NoOperator
        | Rule::UpMode
        | Rule::UpNullKey
        | Rule::UpPayoutForm
        | Rule::UpPayoutKey
        | Rule::UpCollateralKey
        | Rule::RevokeReason
        | Rule::QuorumWindow
        | Rule::QuorumSecond
        | Rule::QuorumDone
        | Rule::QuorumBits
        | Rule::QuorumFew
        | Rule::VerdictMissing
        | Rule::VerdictNo
        | Rule::TooManyChanges
        | Rule::TooManyMasternodes
        | Rule::TooManyOutputs => {}
    }
    text
}
