//! Laws about the definitions.

ghost use Rattle.dmn_feed.specs.Laws.{AnswersTellOfMemory, EachFrontIsServed, StatusesAreExact};

/// Done, CutInput and Enough come each exactly where the text says so.
pub fn statuses_are_exact()
    ensures { StatusesAreExact }
{}

/// What is served to frames is served to each front of them: each answer is by what the frames before it left.
pub fn each_front_is_served()
    ensures { EachFrontIsServed }
{}

/// The bytes of answers are cut into frames in one way, one frame an answer, and a frame's first byte tells whether the
/// answer is Memory.
pub fn answers_tell_of_memory()
    ensures { AnswersTellOfMemory }
{}
