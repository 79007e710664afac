//! What a verdict on the members' signature is on.

ghost use Rattle.std.specs.Prelude.{◌≡◌};
ghost use Rattle.std.specs.List.{flat_map};
ghost use Rattle.dmn_bytes.specs.Sending.{Appends};
ghost use Rattle.dmn_quorums.specs.Digest as spec;

use dmn_bytes::{Hash256, Sink, dsha_of};
use dmn_rows::Look;
use sha2::{Digest, Sha256};

/// The digest of a quorum's members, by the list of its base block: the `dsha` of each member's hash and operator key.
/// A hash that has no row adds nothing.
pub fn members_key<L: Look>(rows: &L, members: &[Hash256]) -> Hash256
    ensures { result ≡ spec.digest_of (L.rows rows.now) members.now }
{
    let mut hasher = Sha256::new();
    feed_members(rows, members, &mut hasher);
    dsha_of(hasher)
}

fn feed_members<L: Look, S: Sink>(rows: &L, members: &[Hash256], sink: &mut S)
    ensures { Appends S.holds S.kept sink.old sink.new (flat_map (spec.member_text (L.rows rows.now)) members.now) }
{
    for member in members {
        feed_member(rows, member, sink);
    }
}

#[tactic(auto, using(dmn_bytes::proofs::Send::sent_then, dmn_bytes::proofs::Send::sent_nothing))]
fn feed_member<L: Look, S: Sink>(rows: &L, hash: &Hash256, sink: &mut S)
    ensures { Appends S.holds S.kept sink.old sink.new (spec.member_text (L.rows rows.now) hash.now) }
{
    match rows.row(hash) {
        None => {}
        Some(row) => {
            sink.put(&hash.0);
            sink.put(&row.operator);
        }
    }
}
