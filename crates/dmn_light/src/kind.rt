//! The kinds of frames that a light client answers.

use dmn_frames::Reading;

/// The kinds of frames that a light client answers.
#[derive(Clone, Copy, Debug, PartialEq, Eq)]
pub enum Kind {
    /// A block's hash and its header of 80 bytes.
    Header,
    /// The text of a diff.
    Apply,
    /// What is held.
    Show,
}

impl Kind {
    ghost use Rattle.std.specs.Prelude.{◌≡◌};
    ghost use Rattle.dmn_light.specs.Kinds.{kind_of, reading_of};

    /// The kind of this number.
    #[tactic(auto, unfolding(crate::specs::Kinds::kind_of))]
    pub fn of(number: u8) -> Option<Kind>
        ensures { result ≡ kind_of number }
    {
        match number {
            16 => Some(Kind::Header),
            17 => Some(Kind::Apply),
            18 => Some(Kind::Show),
            _ => None,
        }
    }

    /// How much of its body is read: for Show no more than its front, as any byte is one too many.
    pub fn reading(self) -> Reading
        ensures { result ≡ reading_of self }
    {
        match self {
            Kind::Header | Kind::Apply => Reading::Whole,
            Kind::Show => Reading::Front,
        }
    }
}
