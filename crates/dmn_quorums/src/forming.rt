//! What is known of each type's quorum at the height of a block.

ghost use Rattle.std.specs.Prelude.{◌≡◌, ◌<◌, ◌^◌, Some, length, true};
ghost use Rattle.std.specs.Option.{option_copied};
ghost use Rattle.dmn_quorums.specs.Forming as spec;

use crate::case::QuorumCase;
use dmn_bytes::Hash256;
use dmn_rows::{QuorumParams, Rule, when};
use std::alloc::Global;
use std::marker::Model;

/// What is known, at the height of a block, of the quorum of a type whose commitment may be mined there.
#[derive(Debug, Drop)]
pub struct Forming {
    params: QuorumParams,
    in_window: bool,
    done: bool,
    base: Hash256,
    members: Vec<Hash256>,
    digest: Hash256,
}

impl Model for Forming {
    ghost use Rattle.std.specs.Prelude.{length, ◌<◌, ◌^◌};
    ghost use Rattle.dmn_quorums.specs.Forming.{Formed};

    ghost Value = { Formed };

    ghost view = { λ f. record { params = f.params; in_window = f.in_window; done = f.done; base = f.base; members = f.members.items; digest = f.digest } };

    ghost invariant = { λ f. length f.members.items < 2 ^ 32 };
}

impl Forming {
    /// At a height where no commitment of the type may be mined.
    pub fn outside(alloc: Global, params: &QuorumParams, done: bool) -> Forming
        ensures { result ≡ spec.outside params.now done }
    {
        Forming {
            params: *params,
            in_window: false,
            done,
            base: Hash256([0; 32]),
            members: Vec::new(alloc),
            digest: Hash256([0; 32]),
        }
    }

    /// At a height where one may be mined: by the hash of the base block, the members and their digest. `done` tells
    /// whether an earlier block has one for the base that isn't null.
    pub fn inside(
        params: &QuorumParams,
        done: bool,
        base: &Hash256,
        members: Vec<Hash256>,
        digest: &Hash256,
    ) -> Forming
        requires { length members.items < 2 ^ 32 }
        ensures { result ≡ record { params = params.now; in_window = true; done = done; base = base.now; members = members.items; digest = digest.now } }
    {
        Forming {
            params: *params,
            in_window: true,
            done,
            base: *base,
            members,
            digest: *digest,
        }
    }

    /// The numbers of the type.
    pub fn params(&self) -> &QuorumParams
        ensures { result.now ≡ self.now.params }
    {
        &self.params
    }

    /// Whether a block at the height has to have a commitment of the type.
    pub fn is_due(&self) -> bool
        ensures { result ≡ spec.is_due self.now }
    {
        self.in_window && !self.done
    }

    /// The hash of the base block; zero where no commitment may be mined.
    pub fn base(&self) -> &Hash256
        ensures { result.now ≡ self.now.base }
    {
        &self.base
    }

    /// What a verdict on the members' signature is on.
    pub fn digest(&self) -> &Hash256
        ensures { result.now ≡ self.now.digest }
    {
        &self.digest
    }

    /// The members, in their order.
    pub fn members(&self) -> &[Hash256]
        ensures { result.now ≡ self.now.members }
    {
        &self.members
    }

    // The case of a commitment of the type.
    fn case(&self, kinds: &[u8], told: u32) -> QuorumCase
        ensures { result ≡ spec.case_by kinds.now told (Some self.now) }
    {
        QuorumCase {
            params: Some(self.params),
            payload_height: told,
            base_hash: self.base,
            in_window: self.in_window,
            already: has_kind(kinds, self.params.kind),
            done: self.done,
            members: self.members.len() as u32,
            digest: self.digest,
        }
    }
}

// Whether a type is among these.
fn has_kind(kinds: &[u8], kind: u8) -> bool
    ensures { result ≡ spec.has_kind kinds.now kind }
{
    kinds.iter().any(|k| *k == kind)
}

// The quorum of a type, where the profile has that.
fn of_kind(formings: &[Forming], kind: u8) -> Option<&Forming>
    ensures { option_copied result ≡ spec.of_kind formings.now kind }
{
    formings.iter().find(|forming| forming.params.kind == kind)
}

/// What is known of a commitment of a type whose payload tells a height. `kinds` are the types of those before it in its
/// block.
pub fn case_of(formings: &[Forming], kinds: &[u8], told: u32, kind: u8) -> QuorumCase
    ensures { result ≡ spec.case_of formings.now kinds.now told kind }
{
    match of_kind(formings, kind) {
        Some(forming) => forming.case(kinds, told),
        None => QuorumCase {
            params: None,
            payload_height: told,
            base_hash: Hash256([0; 32]),
            in_window: false,
            already: false,
            done: false,
            members: 0,
            digest: Hash256([0; 32]),
        },
    }
}

/// The members of the quorum of a type; none where the profile has no such type.
pub fn members_in(formings: &[Forming], kind: u8) -> &[Hash256]
    ensures { result.now ≡ spec.members_in formings.now kind }
{
    match of_kind(formings, kind) {
        Some(forming) => forming.members(),
        None => &[],
    }
}

/// The rule that is broken where a block has to have a commitment of a type and has none; the first such type. `kinds`
/// are the types of the commitments that it has.
pub fn missing(formings: &[Forming], kinds: &[u8]) -> Option<Rule>
    ensures { result ≡ spec.missing formings.now kinds.now }
{
    for forming in formings {
        if let Some(rule) = missing_of(forming, kinds) {
            return Some(rule);
        }
    }
    None
}

// The same of one type.
#[tactic(auto, unfolding(crate::specs::Forming::missing_of))]
fn missing_of(forming: &Forming, kinds: &[u8]) -> Option<Rule>
    ensures { result ≡ spec.missing_of kinds.now forming.now }
{
    when(
        forming.in_window && !forming.done && !has_kind(kinds, forming.params.kind),
        Rule::QuorumMissing {
            kind: forming.params.kind,
        },
    )
}
