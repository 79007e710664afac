//! Laws about the definitions.

ghost use Rattle.dmn_slots.specs.Laws.{NewestStays, NextIsNewest, NextKeepsBounds, OrderStays};

/// While the slot that isn't the newest is written, the newest stays what it is.
pub fn newest_slot_stays()
    ensures { NewestStays }
{}

/// Once it is written, the new slot is the newest.
pub fn next_slot_is_newest()
    ensures { NextIsNewest }
{}

/// Two slots in order stay so, without the one that is written, and with the new one in its place.
pub fn slots_stay_in_order()
    ensures { OrderStays }
{}

/// Where the newest slot keeps its bounds the next one does.
pub fn next_keeps_bounds()
    ensures { NextKeepsBounds }
{}
