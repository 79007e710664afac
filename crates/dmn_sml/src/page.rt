//! A sink of one entry's size.

ghost use Rattle.std.specs.Prelude.{◌≡◌, ℕ, [], List, ◌≤◌, ◌++◌, length, take};
ghost use Rattle.dmn_sml.specs.Page.{Holds};

use dmn_bytes::Sink;

/// The bytes of one entry, which are filled from the first on. What doesn't fit is left out.
#[derive(Drop)]
pub struct Page {
    pub text: [u8; 151],
    pub len: usize,
    ghost in_range: { len ≤ 151 },
}

impl Page {
    pub fn new() -> Page
        ensures { result.len ≡ 0 }
    {
        Page {
            text: [0; 151],
            len: 0,
        }
    }

    /// All its bytes.
    pub fn into_text(self) -> [u8; 151]
        ensures text { result ≡ self.text }
        ensures all { length self.text ≡ 151 }
    {
        self.text
    }
}

impl Sink for Page {
    ghost holds = { λ p m. Holds p.text p.len m };

    ghost kept = { λ _. [] };

    fn put(&mut self, bytes: &[u8]) {
        if bytes.len() <= 151 - self.len {
            let end = self.len + bytes.len();
            self.text[self.len..end].copy_from_slice(bytes);
            self.len = end;
        }
    }
}
