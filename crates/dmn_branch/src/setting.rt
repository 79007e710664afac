//! What the transactions of a block are judged by.

ghost use Rattle.std.specs.Prelude.{◌≡◌};
ghost use Rattle.std.specs.Option.{option_copied};
ghost use Rattle.dmn_block.specs.Shape.{VerdictsAscend};
ghost use Rattle.dmn_branch.specs.Step.{verdict_on};

use dmn_quorums::Forming;
use dmn_rows::{Profile, Verdict, find_sorted};
use std::marker::Model;

/// What the transactions of a block are judged by, besides the rows and outputs of a list and the block's commitments. The
/// verdicts ascend by their transactions.
#[derive(Drop)]
pub struct Setting<'a> {
    profile: &'a Profile,
    height: u32,
    verdicts: &'a [Verdict],
    formings: &'a [Forming],
}

impl<'a> Model for Setting<'a> {
    ghost use Rattle.dmn_block.specs.Shape.{VerdictsAscend};
    ghost use Rattle.dmn_branch.specs.Parts.{Given};

    ghost Value = { Given };

    ghost view = { λ s. record { profile = s.profile.now; height = s.height; verdicts = s.verdicts.now; formed = s.formings.now } };

    ghost invariant = { λ s. VerdictsAscend s.verdicts.now };
}

impl<'a> Setting<'a> {
    /// The setting of the block of this height.
    pub fn new(
        profile: &'a Profile,
        height: u32,
        verdicts: &'a [Verdict],
        formings: &'a [Forming],
    ) -> Setting<'a>
        requires { VerdictsAscend verdicts.now }
        ensures { result ≡ record { profile = profile.now; height = height; verdicts = verdicts.now; formed = formings.now } }
    {
        Setting {
            profile,
            height,
            verdicts,
            formings,
        }
    }

    /// The profile.
    pub fn profile(&self) -> &Profile
        ensures { result.now ≡ self.now.profile }
    {
        self.profile
    }

    /// The height of the block.
    pub fn height(&self) -> u32
        ensures { result ≡ self.now.height }
    {
        self.height
    }

    /// What is known of the quorum of each type at the height.
    pub fn formings(&self) -> &[Forming]
        ensures { result.now ≡ self.now.formed }
    {
        self.formings
    }

    /// The verdict that names the transaction at a place, found by halving.
    pub fn verdict_on(&self, place: u32) -> Option<&Verdict>
        ensures { option_copied result ≡ verdict_on place self.now.verdicts }
    {
        find_sorted(self.verdicts, &place)
    }
}
