//! How long a text is.

ghost use Rattle.std.specs.Prelude.{◌≡◌, ◌-◌, ◌^◌, [], length, min};
ghost use Rattle.std.specs.List.{flat_map};

use dmn_bytes::{Sink, Text, feed_many};

/// A sink that counts bytes. The count stands still at its type's end.
#[derive(Drop)]
struct Length {
    bytes: u64,
}

impl Length {
    fn new() -> Length
        ensures { result.bytes ≡ 0 }
    {
        Length { bytes: 0 }
    }

    /// How many bytes there were.
    fn bytes(&self) -> u64
        ensures { result ≡ self.now.bytes }
    {
        self.bytes
    }
}

impl Sink for Length {
    ghost holds = { λ s m. s.bytes ≡ min (2 ^ 64 - 1) (length m) };

    ghost kept = { λ _. [] };

    fn put(&mut self, bytes: &[u8]) {
        self.bytes = self.bytes.saturating_add(bytes.len() as u64);
    }
}

/// How many bytes the texts of these values have, as far as the type tells.
pub fn text_length<T: Text>(values: &[T]) -> u64
    ensures { result ≡ min (2 ^ 64 - 1) (length (flat_map T.format.text values.now)) }
{
    let mut length = Length::new();
    feed_many(values, &mut length);
    length.bytes()
}
