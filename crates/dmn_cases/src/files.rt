//! The three files of a station, and what is wanted of them.

use crate::difference::Difference;
use crate::texts::shown;
use crate::trouble::Trouble;
use dmn_bytes::{Bytes, dsha};
use dmn_outside::Image;
use std::alloc::Global;

/// As many files a station has.
pub const FILES: usize = 3;

/// The text that a file is to have.
#[derive(Drop)]
pub enum WantedText {
    Whole(Bytes),
    /// Its length, and the hash of the hash of it.
    Hashed(usize, Bytes),
}

/// What a file is to have behind a run, and the line in the file of words that says so.
#[derive(Drop)]
pub struct WantedFile {
    pub line: u64,
    pub file: usize,
    pub text: WantedText,
}

impl WantedFile {
    /// Where the file is another.
    pub fn compare(&self, alloc: Global, image: &Image) -> Result<Option<Difference>, Trouble> {
        let Some(text) = image.files.get(self.file) else {
            return Err(Trouble::Line);
        };
        let text = text.as_slice();
        let (is_wanted, wanted) = match &self.text {
            WantedText::Whole(whole) => (text == whole.as_slice(), shown(alloc, whole.as_slice())?),
            WantedText::Hashed(size, hash) => (
                text.len() == *size && dsha(text).0.as_slice() == hash.as_slice(),
                format!(in alloc; "{size} bytes of another hash")?,
            ),
        };
        if is_wanted {
            return Ok(None);
        }
        let (file, size) = (self.file, text.len());
        let text = shown(alloc, text)?;
        Ok(Some(Difference {
            line: self.line,
            wanted,
            came: format!(in alloc; "{text}, {size} bytes of file {file}")?,
        }))
    }
}

/// The same files once more.
pub fn copy_of(alloc: Global, image: &Image) -> Result<Image, Trouble> {
    let mut copied = Image::new(alloc);
    for (file, text) in image.files.iter().enumerate() {
        copied.files[file] = Bytes::from_slice(alloc, text.as_slice())?;
    }
    Ok(copied)
}

/// Whether two stations have the same files.
pub fn are_same(left: &Image, right: &Image) -> bool {
    for (one, other) in left.files.iter().zip(right.files.iter()) {
        if one.as_slice() != other.as_slice() {
            return false;
        }
    }
    true
}
