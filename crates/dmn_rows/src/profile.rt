//! The profiles: the numbers by which a registry works.

ghost use Rattle.std.specs.Prelude.{◌≡◌, ◌↔◌, ◌≢◌, IsNone, Some};
ghost use Rattle.dmn_rows.specs.Profile.{main_profile, small_profile};

/// A type of quorum.
#[derive(Clone, Copy, Debug, PartialEq, Eq)]
pub struct QuorumParams {
    /// The type's number.
    pub kind: u8,
    /// How many members a quorum has.
    pub size: u16,
    /// The least number of signers, and of valid members.
    pub minimum: u16,
    /// A quorum's base is each height that this divides.
    pub interval: u32,
    /// The first height behind a base at which its commitment is mined.
    pub from: u32,
    /// The last such height.
    pub to: u32,
    /// How many quorums are active.
    pub active: u32,
}

/// The numbers by which a registry works.
#[derive(Clone, Copy, Debug, PartialEq, Eq)]
pub struct Profile {
    pub id: u8,
    /// The port of each masternode.
    pub port: u16,
    /// How many blocks after its registration a masternode is confirmed.
    pub confirm: u32,
    /// The deepest reorganisation.
    pub depth: u32,
    /// How many heights are held below the top.
    pub kept: u32,
    /// How many records stand between two snapshots.
    pub every: u64,
    /// The greatest length of the journal, in bytes.
    pub journal_max: u64,
    /// The types of quorums, by ascending number.
    pub quorums: [Option<QuorumParams>; 3],
}

/// How many blocks after its registration a masternode is confirmed, in each profile.
pub const CONFIRM_WAIT: u32 = 16;

fn small() -> Profile
    ensures { result ≡ small_profile }
{
    Profile {
        id: 1,
        port: 19_999,
        confirm: CONFIRM_WAIT,
        depth: 6,
        kept: 20,
        every: 8,
        journal_max: 262_144,
        quorums: [
            Some(QuorumParams {
                kind: 100,
                size: 4,
                minimum: 3,
                interval: 12,
                from: 4,
                to: 10,
                active: 2,
            }),
            None,
            None,
        ],
    }
}

fn main() -> Profile
    ensures { result ≡ main_profile }
{
    Profile {
        id: 2,
        port: 9_999,
        confirm: CONFIRM_WAIT,
        depth: 288,
        kept: 400,
        every: 288,
        journal_max: 1_099_511_627_776,
        quorums: [
            Some(QuorumParams {
                kind: 1,
                size: 50,
                minimum: 40,
                interval: 24,
                from: 10,
                to: 18,
                active: 24,
            }),
            Some(QuorumParams {
                kind: 2,
                size: 400,
                minimum: 300,
                interval: 288,
                from: 20,
                to: 28,
                active: 4,
            }),
            Some(QuorumParams {
                kind: 3,
                size: 400,
                minimum: 350,
                interval: 576,
                from: 20,
                to: 48,
                active: 4,
            }),
        ],
    }
}

/// The profile of this number: 1 is `small`, 2 is `main`.
pub fn profile_of(id: u8) -> Option<Profile>
    ensures none { IsNone result ↔ ((id ≢ 1) × (id ≢ 2)) }
    ensures small { id ≡ 1 → result ≡ Some small_profile }
    ensures main { id ≡ 2 → result ≡ Some main_profile }
{
    match id {
        1 => Some(small()),
        2 => Some(main()),
        _ => None,
    }
}
