//! Whether a height is held.

ghost use Rattle.std.specs.Prelude.{◌≡◌, ◌&&◌, nat_le};
ghost use Rattle.dmn_desk.specs.declared.answer.Answer.TheVariants as answers;
ghost use Rattle.dmn_desk.specs.declared.answer.ShortAnswer.TheVariants as short;

use crate::answer::{Answer, ShortAnswer};
use dmn_branch::Tip;

/// Whether a height is held, by the tip.
pub fn is_held(tip: &Tip, height: u32) -> bool
    ensures { result ≡ (nat_le tip.now.low height && nat_le height tip.now.height) }
{
    tip.low <= height && height <= tip.height
}

/// The answer where a height is not held.
pub fn not_held(tip: &Tip) -> Answer
    ensures { result ≡ answers.Short (short.NotHeld tip.now.low tip.now.height) }
{
    Answer::Short(ShortAnswer::NotHeld {
        low: tip.low,
        high: tip.height,
    })
}
