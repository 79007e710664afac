//! The rules of a block.

use dmn_bytes::Hash256;
use std::error::Error;
use std::fmt;

/// The rules of a block, each with what its refusal tells. A comment gives the rule's number and where it is broken.
#[derive(Clone, Copy, Debug, PartialEq, Eq)]
pub enum Rule {
    /// 1: the block hash is zero.
    ZeroHash,
    /// 2: the block hash is that of a held height.
    HashKnown {
        height: u32,
    },
    /// 3: the previous hash isn't the tip's.
    NotNext {
        tip: Hash256,
    },
    /// 4: the tip's height is 4,294,967,294.
    HeightLimit,
    /// 6: there is no transaction, or the first isn't a coinbase.
    NoCoinbase,
    /// 7: a later transaction is a coinbase; the first such.
    SecondCoinbase,
    /// 8: the id of a transaction stands earlier; the first such later one.
    DuplicateTx,
    /// 9: the header's root isn't that of the ids.
    BadMerkle {
        computed: Hash256,
    },
    /// 10: a verdict's transaction isn't above the one before or isn't in the block, its kind isn't 1 to 4, or its
    /// valid byte isn't 0 or 1; the position is that of the first such verdict, from 0.
    VerdictForm {
        position: u32,
    },
    /// 11: the coinbase isn't of version 3 and type 5, or its payload has no two bytes, or it has version 1 and isn't
    /// a CbTx.
    CbPayload,
    /// 12: the coinbase payload's version isn't 1.
    CbVersion {
        found: u16,
    },
    /// 13: the coinbase payload's height isn't the block's.
    CbHeight {
        found: u32,
    },
    /// 20: the transaction's type is 5 or above 6.
    UnknownType {
        found: u16,
    },
    /// 21: the payload begins with two bytes that aren't version 1.
    PayloadVersion {
        found: u16,
    },
    /// 22: the payload isn't in its grammar.
    PayloadForm {
        place: u32,
    },
    /// 23: a provider transaction's field isn't the hash of its inputs.
    InputsHash,
    /// 30: a registration's type isn't 0.
    RegType,
    /// 31: a registration's mode isn't 0.
    RegMode,
    /// 32: owner, operator or voting key is zero.
    NullKey,
    /// 33: payout is neither P2PKH nor P2SH.
    PayoutForm,
    /// 34: payout is P2PKH of the owner or voting key.
    PayoutKey,
    /// 35: operator reward above 10,000.
    RewardRange,
    /// 36: neither all zero with port 0, nor IPv4-mapped (ten 00, two ff, four bytes) with the profile's port.
    AddressForm,
    /// 37: own collateral with a signature, or external without.
    SigPresence,
    /// 38: own: no such output.
    CollateralIndex,
    /// 39: own: the value isn't 100,000,000,000.
    CollateralValue,
    /// 40: own: neither P2PKH nor P2SH.
    CollateralScript,
    /// 41: external: not among the outputs after the block before.
    CollateralUnknown,
    /// 42: external: its script isn't P2PKH.
    CollateralKeyless,
    /// 43: the collateral is P2PKH of the owner or voting key.
    CollateralKey,
    /// 44: a working row has the owner key.
    DupOwner {
        row: Hash256,
    },
    /// 45: a working row has the operator key.
    DupOperator {
        row: Hash256,
    },
    /// 46: the service isn't all zero and a working row other than the replaced one has it.
    DupAddress {
        row: Hash256,
    },
    /// 50: an update or a revocation: no working row has the hash.
    NoRow,
    /// 51: a service update: not IPv4-mapped with the profile's port.
    UpAddress,
    /// 52: a service update: another working row has the service.
    UpDupAddress {
        row: Hash256,
    },
    /// 53: a service update: the script isn't empty and is neither P2PKH nor P2SH.
    OperatorPayoutForm,
    /// 54: a service update: it isn't empty and the row's reward is 0.
    OperatorPayoutUnasked,
    /// 55: a service update or a revocation: the row's operator key is zero.
    NoOperator,
    /// 56: a registrar's update: mode isn't 0.
    UpMode,
    /// 57: a registrar's update: operator or voting key is zero.
    UpNullKey,
    /// 58: a registrar's update: its payout is neither P2PKH nor P2SH.
    UpPayoutForm,
    /// 59: a registrar's update: P2PKH of the row's owner or the new voting key.
    UpPayoutKey,
    /// 60: a registrar's update: another working row has the operator key.
    UpDupOperator {
        row: Hash256,
    },
    /// 61: a registrar's update: the row's collateral is P2PKH of the new voting key.
    UpCollateralKey,
    /// 62: a revocation's reason is above 3.
    RevokeReason,
    /// 63: a commitment's version isn't 1.
    QuorumVersion {
        found: u16,
    },
    /// 64: a commitment's type isn't in the profile.
    QuorumType {
        found: u8,
    },
    /// 65: the payload's height isn't h.
    QuorumHeight {
        found: u32,
    },
    /// 66: outside the window, or its base is below the first height.
    QuorumWindow,
    /// 67: the quorum hash isn't the base block's.
    QuorumBase {
        base: Hash256,
    },
    /// 68: this block has an earlier commitment of the type.
    QuorumSecond,
    /// 69: an earlier block has a commitment for the base that isn't null.
    QuorumDone,
    /// 70: a count isn't `size`, or a bit at or past the number of members is set.
    QuorumBits,
    /// 71: not null, and fewer than `minimum` signers or valid members.
    QuorumFew,
    /// 73: a verdict is needed and none names this transaction.
    VerdictMissing,
    /// 74: the verdict's kind or digest is another.
    VerdictOther {
        wanted: Hash256,
    },
    /// 75: the verdict says no.
    VerdictNo,
    /// 80: a commitment is due and the block has none; the least such type.
    QuorumMissing {
        kind: u8,
    },
    /// 81: the block makes more than 8,192 changes.
    TooManyChanges,
    /// 82: more than 65,535 rows.
    TooManyMasternodes,
    /// 83: more than 1,048,576 outputs.
    TooManyOutputs,
    /// 84: the coinbase payload's root isn't that of the list after the block.
    CbRoot {
        committed: Hash256,
        computed: Hash256,
    },
}

impl Rule {
    ghost use Rattle.std.specs.Prelude.{◌≡◌};
    ghost use Rattle.dmn_rows.specs.Rule.{rule_name, rule_number};

    /// The rule's number.
    #[tactic(auto, unfolding(crate::specs::Rule::rule_number))]
    pub fn number(&self) -> u8
        ensures { result ≡ rule_number self.now }
    {
        match self {
            Rule::ZeroHash => 1,
            Rule::HashKnown { .. } => 2,
            Rule::NotNext { .. } => 3,
            Rule::HeightLimit => 4,
            Rule::NoCoinbase => 6,
            Rule::SecondCoinbase => 7,
            Rule::DuplicateTx => 8,
            Rule::BadMerkle { .. } => 9,
            Rule::VerdictForm { .. } => 10,
            Rule::CbPayload => 11,
            Rule::CbVersion { .. } => 12,
            Rule::CbHeight { .. } => 13,
            Rule::UnknownType { .. } => 20,
            Rule::PayloadVersion { .. } => 21,
            Rule::PayloadForm { .. } => 22,
            Rule::InputsHash => 23,
            Rule::RegType => 30,
            Rule::RegMode => 31,
            Rule::NullKey => 32,
            Rule::PayoutForm => 33,
            Rule::PayoutKey => 34,
            Rule::RewardRange => 35,
            Rule::AddressForm => 36,
            Rule::SigPresence => 37,
            Rule::CollateralIndex => 38,
            Rule::CollateralValue => 39,
            Rule::CollateralScript => 40,
            Rule::CollateralUnknown => 41,
            Rule::CollateralKeyless => 42,
            Rule::CollateralKey => 43,
            Rule::DupOwner { .. } => 44,
            Rule::DupOperator { .. } => 45,
            Rule::DupAddress { .. } => 46,
            Rule::NoRow => 50,
            Rule::UpAddress => 51,
            Rule::UpDupAddress { .. } => 52,
            Rule::OperatorPayoutForm => 53,
            Rule::OperatorPayoutUnasked => 54,
            Rule::NoOperator => 55,
            Rule::UpMode => 56,
            Rule::UpNullKey => 57,
            Rule::UpPayoutForm => 58,
            Rule::UpPayoutKey => 59,
            Rule::UpDupOperator { .. } => 60,
            Rule::UpCollateralKey => 61,
            Rule::RevokeReason => 62,
            Rule::QuorumVersion { .. } => 63,
            Rule::QuorumType { .. } => 64,
            Rule::QuorumHeight { .. } => 65,
            Rule::QuorumWindow => 66,
            Rule::QuorumBase { .. } => 67,
            Rule::QuorumSecond => 68,
            Rule::QuorumDone => 69,
            Rule::QuorumBits => 70,
            Rule::QuorumFew => 71,
            Rule::VerdictMissing => 73,
            Rule::VerdictOther { .. } => 74,
            Rule::VerdictNo => 75,
            Rule::QuorumMissing { .. } => 80,
            Rule::TooManyChanges => 81,
            Rule::TooManyMasternodes => 82,
            Rule::TooManyOutputs => 83,
            Rule::CbRoot { .. } => 84,
        }
    }

    /// The rule's name, as it stands in the code.
    #[tactic(auto, unfolding(crate::specs::Rule::rule_name))]
    pub fn name(&self) -> &'static str
        ensures { result.now ≡ rule_name self.now }
    {
        match self {
            Rule::ZeroHash => "ZeroHash",
            Rule::HashKnown { .. } => "HashKnown",
            Rule::NotNext { .. } => "NotNext",
            Rule::HeightLimit => "HeightLimit",
            Rule::NoCoinbase => "NoCoinbase",
            Rule::SecondCoinbase => "SecondCoinbase",
            Rule::DuplicateTx => "DuplicateTx",
            Rule::BadMerkle { .. } => "BadMerkle",
            Rule::VerdictForm { .. } => "VerdictForm",
            Rule::CbPayload => "CbPayload",
            Rule::CbVersion { .. } => "CbVersion",
            Rule::CbHeight { .. } => "CbHeight",
            Rule::UnknownType { .. } => "UnknownType",
            Rule::PayloadVersion { .. } => "PayloadVersion",
            Rule::PayloadForm { .. } => "PayloadForm",
            Rule::InputsHash => "InputsHash",
            Rule::RegType => "RegType",
            Rule::RegMode => "RegMode",
            Rule::NullKey => "NullKey",
            Rule::PayoutForm => "PayoutForm",
            Rule::PayoutKey => "PayoutKey",
            Rule::RewardRange => "RewardRange",
            Rule::AddressForm => "AddressForm",
            Rule::SigPresence => "SigPresence",
            Rule::CollateralIndex => "CollateralIndex",
            Rule::CollateralValue => "CollateralValue",
            Rule::CollateralScript => "CollateralScript",
            Rule::CollateralUnknown => "CollateralUnknown",
            Rule::CollateralKeyless => "CollateralKeyless",
            Rule::CollateralKey => "CollateralKey",
            Rule::DupOwner { .. } => "DupOwner",
            Rule::DupOperator { .. } => "DupOperator",
            Rule::DupAddress { .. } => "DupAddress",
            Rule::NoRow => "NoRow",
            Rule::UpAddress => "UpAddress",
            Rule::UpDupAddress { .. } => "UpDupAddress",
            Rule::OperatorPayoutForm => "OperatorPayoutForm",
            Rule::OperatorPayoutUnasked => "OperatorPayoutUnasked",
            Rule::NoOperator => "NoOperator",
            Rule::UpMode => "UpMode",
            Rule::UpNullKey => "UpNullKey",
            Rule::UpPayoutForm => "UpPayoutForm",
            Rule::UpPayoutKey => "UpPayoutKey",
            Rule::UpDupOperator { .. } => "UpDupOperator",
            Rule::UpCollateralKey => "UpCollateralKey",
            Rule::RevokeReason => "RevokeReason",
            Rule::QuorumVersion { .. } => "QuorumVersion",
            Rule::QuorumType { .. } => "QuorumType",
            Rule::QuorumHeight { .. } => "QuorumHeight",
            Rule::QuorumWindow => "QuorumWindow",
            Rule::QuorumBase { .. } => "QuorumBase",
            Rule::QuorumSecond => "QuorumSecond",
            Rule::QuorumDone => "QuorumDone",
            Rule::QuorumBits => "QuorumBits",
            Rule::QuorumFew => "QuorumFew",
            Rule::VerdictMissing => "VerdictMissing",
            Rule::VerdictOther { .. } => "VerdictOther",
            Rule::VerdictNo => "VerdictNo",
            Rule::QuorumMissing { .. } => "QuorumMissing",
            Rule::TooManyChanges => "TooManyChanges",
            Rule::TooManyMasternodes => "TooManyMasternodes",
            Rule::TooManyOutputs => "TooManyOutputs",
            Rule::CbRoot { .. } => "CbRoot",
        }
    }
}

impl Error for Rule {}

impl fmt::Display for Rule {
    ghost use Rattle.std.specs.Prelude.{Some};
    ghost use Rattle.dmn_rows.specs.Rule.{rule_text};

    ghost output = { λ rule. Some (rule_text rule) };

    fn fmt<W: fmt::Write>(&self, f: &mut fmt::Formatter<W>) -> fmt::Result {
        let name = self.name();
        let number = self.number();
        write!(f, "{name} ({number})")
    }
}
