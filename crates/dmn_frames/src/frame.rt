//! A frame in a fixed array.

ghost use Rattle.std.specs.Prelude.{◌≡◌, ◌≤◌, length};
ghost use Rattle.dmn_frames.specs.Frames.{framed};

use crate::short::Short;

/// The text of a frame with this kind or status, and this body. It takes no memory.
#[tactic(auto, unfolding(crate::specs::Frames::framed))]
pub fn short_frame(kind: u8, body: &[u8]) -> Short
    requires { length body.now ≤ 100 }
    ensures { result ≡ framed kind body.now }
{
    let size = body.len() as u32;
    let mut text = Short::new();
    text.put(&[kind]);
    text.put(&size.to_le_bytes());
    text.put(body);
    text
}
