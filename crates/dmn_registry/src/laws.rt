//! Laws about the definitions.

ghost use Rattle.dmn_registry.specs.Laws.{AtRestIsOwn, JournalsDepartNowhere, OneMachine};

/// A file is the journal image of one machine at most, pins aside.
pub fn one_machine()
    ensures { OneMachine }
{}

/// A journal image departs nowhere.
pub fn journals_depart_nowhere()
    ensures { JournalsDepartNowhere }
{}

/// What a crash leaves of a disk at rest with an own image is own, of the same machine. So behind an Ok of a command each
/// image has it.
pub fn at_rest_is_own()
    ensures { AtRestIsOwn }
{}
