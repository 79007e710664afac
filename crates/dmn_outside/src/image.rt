//! What the three files of a disk hold.

ghost use Rattle.std.specs.Prelude.{◌≡◌, []};

use dmn_bytes::Bytes;
use std::alloc::Global;

/// The bytes of a file, or of a caller.
pub type Text = Bytes;

/// The bytes of files 0, 1 and 2.
#[derive(Drop)]
pub struct Image {
    pub files: [Text; 3],
}

impl Image {
    ghost use Rattle.dmn_outside.specs.Stored.{image_texts};

    /// Three empty files, which take no memory.
    pub fn new(alloc: Global) -> Image
        ensures { image_texts result ≡ record { zeroth = []; first = []; second = [] } }
    {
        Image {
            files: [Text::new(alloc), Text::new(alloc), Text::new(alloc)],
        }
    }
}

/// What a crash does to all that isn't synced.
#[derive(Clone, Copy, Debug, PartialEq, Eq)]
pub enum Pick {
    /// It is lost.
    Before,
    /// It is there.
    After,
    /// It is there, and each written range holds this byte alone.
    Fill(u8),
}
