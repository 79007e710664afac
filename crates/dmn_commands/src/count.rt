//! Numbers among the words.

ghost use Rattle.std.specs.Prelude.{◌≡◌};
ghost use Rattle.dmn_commands.specs.Words.{count_of};

use itoa::Buffer;

/// The number of which a word is the decimal text, from 1 to the most: without a sign, and without a zero in front.
pub fn count_of(word: &str, most: u32) -> Option<u32>
    ensures { result ≡ count_of most word.now }
{
    let Ok(count) = word.parse::<u32>() else {
        return None;
    };
    if count == 0 || count > most {
        return None;
    }
    let mut buffer = Buffer::new();
    if buffer.format(count) == word {
        Some(count)
    } else {
        None
    }
}
