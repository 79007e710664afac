//! Laws about the definitions.

ghost use Rattle.std.specs.Prelude.{◌≡◌, List, ℕ, Some};
ghost use Rattle.dmn_bytes.specs.Law.{IsBytes};
ghost use Rattle.dmn_snapshot.specs.Slot.{IsBounded, IsStored, slot_in, slot_text};
ghost use Rattle.dmn_snapshot.specs.Steps.{IsOpen};
ghost use Rattle.dmn_snapshot.specs.declared.slot.Stored.{Stored};

/// A file that begins with an open gate and the text of a slot is this slot, whatever stands behind.
pub fn written_slots_are_valid()
    ensures { (stored : Stored) (file : List ℕ) → IsStored stored → IsOpen (slot_text stored) file → slot_in file ≡ Some stored }
{}

/// A valid slot keeps the bounds of its three numbers, and its text is in its form.
pub fn slots_keep_bounds()
    ensures stored { (file : List ℕ) (stored : Stored) → IsBytes file → slot_in file ≡ Some stored → IsStored stored }
    ensures bounds { (file : List ℕ) (stored : Stored) → IsBytes file → slot_in file ≡ Some stored → IsBounded stored }
{}
