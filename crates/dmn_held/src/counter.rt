//! How long a text is, without making it.

ghost use Rattle.std.specs.Prelude.{◌≡◌, [], false, length, IfOk};

use dmn_bytes::{Memory, Sink, Text};

/// Counts the bytes that it is given. More than fit 64 bits stand in no memory, so they are answered as want of it.
#[derive(Debug, Drop)]
pub struct Counter {
    count: u64,
    full: bool,
}

impl Sink for Counter {
    ghost use Rattle.std.specs.Prelude.{◌≡◌, [], false, length};

    ghost holds = { λ c m. c.full ≡ false → c.count ≡ length m };

    ghost kept = { λ _. [] };

    fn put(&mut self, bytes: &[u8]) {
        match self.count.checked_add(bytes.len() as u64) {
            Some(count) => self.count = count,
            None => self.full = true,
        }
    }
}

impl Counter {
    /// A counter that was given nothing.
    pub fn new() -> Counter
        ensures count { result.count ≡ 0 }
        ensures full { result.full ≡ false }
    {
        Counter {
            count: 0,
            full: false,
        }
    }

    /// How many bytes it was given.
    pub fn total(&self) -> Result<u64, Memory>
        ensures { IfOk result (λ n. (self.now.full ≡ false) × (n ≡ self.now.count)) }
    {
        if self.full {
            return Err(Memory);
        }
        Ok(self.count)
    }
}

/// The length of the value's text, which is built nowhere.
pub(crate) fn length_of<T: Text>(value: &T) -> Result<u64, Memory>
    ensures { IfOk result (λ n. n ≡ length (T.format.text value.now)) }
{
    let mut counter = Counter::new();
    value.feed(&mut counter);
    counter.total()
}
