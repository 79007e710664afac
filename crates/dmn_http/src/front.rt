//! The head of a reply in a fixed array.

ghost use Rattle.std.specs.Prelude.{◌≡◌, ◌+◌, ◌≤◌, [], ◌++◌, length};

use std::marker::Model;

/// Up to 192 bytes, which take no memory. Contracts see them as a list.
#[derive(Drop)]
pub struct Front {
    bytes: [u8; 192],
    len: u8,
}

impl Model for Front {
    ghost use Rattle.std.specs.Prelude.{List, ℕ, ◌≤◌, take};

    ghost Value = { List ℕ };

    ghost view = { λ s. take s.len s.bytes };

    ghost invariant = { λ s. s.len ≤ 192 };
}

impl Front {
    pub fn new() -> Front
        ensures { result ≡ [] }
    {
        Front {
            bytes: [0; 192],
            len: 0,
        }
    }

    pub fn as_slice(&self) -> &[u8]
        ensures { result.now ≡ self.now }
    {
        &self.bytes[..self.len as usize]
    }

    /// Adds bytes at the end.
    pub fn put(&mut self, more: &[u8])
        requires { length self.old + length more.now ≤ 192 }
        ensures bytes { self.new ≡ self.old ++ more.now }
        ensures length { length self.new ≡ length self.old + length more.now }
    {
        let start = self.len as usize;
        let end = start + more.len();
        self.bytes[start..end].copy_from_slice(more);
        self.len = end as u8;
    }
}
