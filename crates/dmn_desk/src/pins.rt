//! Pins, made and released.

ghost use Rattle.std.specs.Prelude.{◌≡◌, false, Ok};
ghost use Rattle.dmn_outside.specs.Disk.{Told};
ghost use Rattle.dmn_desk.specs.Asked.{Answers};
ghost use Rattle.dmn_desk.specs.declared.desk.Desk.{Desk};
ghost use Rattle.dmn_desk.specs.declared.request.Request.TheVariants as requests;
ghost use Rattle.dmn_desk.specs.Texts.{IsBounded};

use crate::answer::{Answer, ShortAnswer};
use crate::height::{is_held, not_held};
use dmn_branch::PinFault;
use dmn_registry::Registry;

/// Pins the list of a height. Whether the height is held is asked first, and then whether one pin more may be live.
pub fn pin(registry: &mut Registry, height: u32) -> Answer
    requires { registry.old.spent ≡ false }
    ensures answers { (desk : Desk) (told : Told) → Answers (requests.Pin height) (Ok result) desk desk registry.old registry.new told told }
    ensures newest { registry.new.newest ≡ registry.old.newest }
    ensures spent { registry.new.spent ≡ false }
    ensures bounded { IsBounded result }
{
    let tip = registry.branch().tip();
    if !is_held(&tip, height) {
        return not_held(&tip);
    }
    match registry.pin(height) {
        Ok(pin) => Answer::Short(ShortAnswer::Pinned { pin }),
        Err(PinFault::PinsFull) => Answer::Short(ShortAnswer::PinsFull),
        Err(PinFault::Memory) => Answer::Short(ShortAnswer::Memory),
    }
}

/// Releases a pin, where it is live. This takes no memory.
pub fn release(registry: &mut Registry, number: u32) -> Answer
    requires { registry.old.spent ≡ false }
    ensures answers { (desk : Desk) (told : Told) → Answers (requests.Release number) (Ok result) desk desk registry.old registry.new told told }
    ensures newest { registry.new.newest ≡ registry.old.newest }
    ensures spent { registry.new.spent ≡ false }
    ensures bounded { IsBounded result }
{
    if registry.release(number) {
        Answer::Short(ShortAnswer::Released)
    } else {
        Answer::Short(ShortAnswer::PinUnknown)
    }
}
