//! Laws about the definitions.

ghost use Rattle.dmn_frames.specs.Laws.{EachTextIsCutOnce};

/// Each text is whole frames and a rest in exactly one way.
pub fn each_text_is_cut_once()
    ensures { EachTextIsCutOnce }
{}
