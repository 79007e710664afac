//! The bodies of answers, in fixed arrays.

ghost use Rattle.std.specs.Prelude.{◌≡◌, ◌≤◌, [], ◌∷◌, length};
ghost use Rattle.std.specs.Int.{w32, to_le_bytes};
ghost use Rattle.dmn_desk.specs.Framed.{connected_body, tip_body, held_body, refused_body};
ghost use Rattle.dmn_frames.specs.Frames.{framed};

use crate::rule_fields::rule_fields;
use dmn_block::Refusal;
use dmn_bytes::Hash256;
use dmn_frames::Short;

/// The head of a frame: its status, and its body's length.
pub fn head(status: u8, size: u32) -> Short
    ensures text { result ≡ status ∷ to_le_bytes w32 size }
    ensures length { length result ≡ 5 }
{
    let mut text = Short::new();
    text.put(&[status]);
    text.put(&size.to_le_bytes());
    text
}

/// A frame of this status and body.
#[tactic(auto, unfolding(dmn_frames::specs::Frames::framed))]
pub fn framed(status: u8, body: &[u8]) -> Short
    requires { length body.now ≤ 100 }
    ensures { result ≡ framed status body.now }
{
    let mut text = head(status, body.len() as u32);
    text.put(body);
    text
}

/// No bytes.
pub fn empty_body() -> Short
    ensures text { result ≡ [] }
    ensures length { length result ≤ 100 }
{
    Short::new()
}

/// A number's four bytes.
pub fn number_body(number: u32) -> Short
    ensures text { result ≡ to_le_bytes w32 number }
    ensures length { length result ≤ 100 }
{
    let mut text = Short::new();
    text.put(&number.to_le_bytes());
    text
}

/// A hash's bytes.
pub fn hash_body(hash: &Hash256) -> Short
    ensures text { result ≡ hash.now.0 }
    ensures length { length result ≤ 100 }
{
    let mut text = Short::new();
    text.put(&hash.0);
    text
}

#[tactic(auto, unfolding(crate::specs::Framed::connected_body))]
pub fn connected_body(height: u32, hash: &Hash256) -> Short
    ensures text { result ≡ connected_body height hash.now }
    ensures length { length result ≤ 100 }
{
    let mut text = Short::new();
    text.put(&height.to_le_bytes());
    text.put(&hash.0);
    text
}

#[tactic(auto, unfolding(crate::specs::Framed::tip_body))]
pub fn tip_body(height: u32, hash: &Hash256, low: u32, top: u32) -> Short
    ensures text { result ≡ tip_body height hash.now low top }
    ensures length { length result ≤ 100 }
{
    let mut text = Short::new();
    text.put(&height.to_le_bytes());
    text.put(&hash.0);
    text.put(&low.to_le_bytes());
    text.put(&top.to_le_bytes());
    text
}

#[tactic(auto, unfolding(crate::specs::Framed::held_body))]
pub fn held_body(low: u32, high: u32) -> Short
    ensures text { result ≡ held_body low high }
    ensures length { length result ≤ 100 }
{
    let mut text = Short::new();
    text.put(&low.to_le_bytes());
    text.put(&high.to_le_bytes());
    text
}

#[tactic(auto, unfolding(crate::specs::Framed::refused_body))]
pub fn refused_body(refusal: &Refusal) -> Short
    ensures text { result ≡ refused_body refusal.now }
    ensures length { length result ≤ 100 }
{
    let place = match refusal.tx {
        None => u32::MAX,
        Some(place) => place,
    };
    let mut text = Short::new();
    text.put(&[refusal.rule.number()]);
    text.put(&place.to_le_bytes());
    text.put(rule_fields(&refusal.rule).as_slice());
    text
}
