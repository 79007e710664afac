//! The words of the command line.

ghost use Rattle.std.specs.Prelude.{◌≡◌, [], ◌∷◌, map};
ghost use Rattle.std.specs.String.{string_bytes};
ghost use Rattle.dmn_commands.specs.Words.{command_of};

use crate::count::count_of;

/// As many callers as one run serves.
const MOST_CALLERS: u32 = 1_000_000;

/// As many masternodes as one run makes.
const MOST_MADE: u32 = 5_000;

/// What the words ask for.
#[derive(Clone, Copy, Debug, PartialEq, Eq)]
pub enum Command {
    /// Makes a registry.
    Init,
    /// Answers the frames of the input.
    Feed,
    /// Tells what a journal leads to.
    Audit,
    /// Answers the frames of a light client.
    Client,
    /// Serves so many callers over HTTP.
    Serve { callers: u32 },
    /// Makes a registry of so many masternodes, and sends a summary.
    Make { count: u32 },
}

// What one word alone asks for.
fn command_alone(word: &str) -> Option<Command>
    ensures { result ≡ command_of (word.now ∷ []) }
{
    if word == "init" {
        Some(Command::Init)
    } else if word == "feed" {
        Some(Command::Feed)
    } else if word == "audit" {
        Some(Command::Audit)
    } else if word == "client" {
        Some(Command::Client)
    } else {
        None
    }
}

// What a word with a number behind it asks for.
fn command_with(word: &str, count: &str) -> Option<Command>
    ensures { result ≡ command_of (word.now ∷ count.now ∷ []) }
{
    if word == "serve" {
        let callers = count_of(count, MOST_CALLERS)?;
        Some(Command::Serve { callers })
    } else if word == "make" {
        let count = count_of(count, MOST_MADE)?;
        Some(Command::Make { count })
    } else {
        None
    }
}

/// What the words ask for; none where they are in no form.
pub fn command_of(words: &[String]) -> Option<Command>
    ensures { result ≡ command_of (map string_bytes words.now) }
{
    match words {
        [word] => command_alone(word.as_str()),
        [word, count] => command_with(word.as_str(), count.as_str()),
        _ => None,
    }
}
