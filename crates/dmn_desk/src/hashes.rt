//! The frame of hashes: of payees, or of members.

ghost use Rattle.std.specs.Prelude.{◌≡◌, ◌*◌, ◌^◌, ◌<◌, ◌≤◌, length};
ghost use Rattle.std.specs.List.{flat_map};
ghost use Rattle.dmn_bytes.specs.Format.{hash};
ghost use Rattle.dmn_bytes.specs.Sending.{Appends};
ghost use Rattle.dmn_desk.specs.Framed.{hashes_body, most_items};
ghost use Rattle.dmn_frames.specs.Frames.{framed};

use crate::list::hash_length;
use dmn_bytes::{Hash256, Sink, Text, feed_count, feed_many};

/// The bytes of a hash.
const HASH: usize = 32;

/// The bytes of the count before the hashes.
const COUNT: usize = 2;

// Each hash has as many bytes.
fn hash_lengths(hashes: &[Hash256])
    ensures { length (flat_map hash.text hashes.now) ≡ 32 * length hashes.now }
{
    for hash in hashes {
        hash_length(*hash);
    }
}

/// Sends the frame of hashes. Its length is known before the hashes are sent.
pub fn feed_hashes<S: Sink>(hashes: &[Hash256], sink: &mut S)
    requires { length hashes.now ≤ most_items }
    ensures text { Appends S.holds S.kept sink.old sink.new (framed 0 (hashes_body hashes.now)) }
    ensures fits { length (hashes_body hashes.now) < 2 ^ 32 }
{
    hash_lengths(hashes);
    sink.put(&[0]);
    feed_count(COUNT + HASH * hashes.len(), sink);
    (hashes.len() as u16).feed(sink);
    feed_many(hashes, sink);
}
