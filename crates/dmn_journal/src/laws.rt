//! Laws about the definitions.

ghost use Rattle.dmn_journal.specs.Laws.{CommandsOnce, EntriesAreByTheirFormat, JournalsHaveTheirCommands, MadeIsAJournal, OthersAreClosed, RecordsAreFound};

/// A file has its commands once.
pub fn commands_once()
    ensures { CommandsOnce }
{}

/// Where an open gate and the text of a record in form stand, this record is found.
pub fn records_are_found()
    ensures { RecordsAreFound }
{}

/// A gate is closed where a byte other than 1 stands.
pub fn others_are_closed()
    ensures { OthersAreClosed }
{}

/// What a record's length counts departs where it departs from the format of kind and body.
pub fn entries_are_by_their_format()
    ensures { EntriesAreByTheirFormat }
{}

/// The text of a journal has its commands.
pub fn journals_have_their_commands()
    ensures { JournalsHaveTheirCommands }
{}

/// What is made is the text of a journal without commands.
pub fn made_is_a_journal()
    ensures { MadeIsAJournal }
{}
