//! The kinds of requests.

use dmn_frames::Reading;

/// The kinds of requests.
#[derive(Clone, Copy, Debug, PartialEq, Eq)]
pub enum Kind {
    Connect,
    Disconnect,
    Tip,
    List,
    Row,
    Payees,
    Members,
    Quorums,
    Diff,
    Pin,
    Page,
    Release,
}

impl Kind {
    ghost use Rattle.std.specs.Prelude.{◌≡◌};
    ghost use Rattle.dmn_desk.specs.Kinds.{kind_of, reading_of};

    /// The kind of this number.
    #[tactic(auto, unfolding(crate::specs::Kinds::kind_of))]
    pub fn of(number: u8) -> Option<Kind>
        ensures { result ≡ kind_of number }
    {
        match number {
            1 => Some(Kind::Connect),
            2 => Some(Kind::Disconnect),
            3 => Some(Kind::Tip),
            4 => Some(Kind::List),
            5 => Some(Kind::Row),
            6 => Some(Kind::Payees),
            7 => Some(Kind::Members),
            8 => Some(Kind::Quorums),
            9 => Some(Kind::Diff),
            10 => Some(Kind::Pin),
            11 => Some(Kind::Page),
            12 => Some(Kind::Release),
            _ => None,
        }
    }

    /// How much of its body is read.
    pub fn reading(self) -> Reading
        ensures { result ≡ reading_of self }
    {
        match self {
            Kind::Connect | Kind::Diff => Reading::Whole,
            Kind::Disconnect
            | Kind::Tip
            | Kind::List
            | Kind::Row
            | Kind::Payees
            | Kind::Members
            | Kind::Quorums
            | Kind::Pin
            | Kind::Page
            | Kind::Release => Reading::Front,
        }
    }
}
