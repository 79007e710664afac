//! What a disk in memory keeps: what it began with, what was done to it, and what was read.

ghost use Rattle.std.specs.Prelude.{◌≡◌, None};
ghost use Rattle.dmn_outside.specs.Changes.{none_read, reads_more};
ghost use Rattle.dmn_outside.specs.Disk.{change, pick};

use crate::image::{Image, Text};
use std::marker::Model;

/// A file: what it held at first, and what it holds now where it was changed since.
#[derive(Drop)]
pub struct Held {
    begun: Text,
    changed: Option<Vec<u8>>,
}

impl Model for Held {
    ghost use Rattle.std.specs.Prelude.{unwrap_or};
    ghost use Rattle.std.specs.Option.{option_map};
    ghost use Rattle.dmn_outside.specs.Kept.{Kept};

    ghost Value = { Kept };

    ghost view = { λ h. record { begun = h.begun; reads = unwrap_or (option_map (λ v. v.items) h.changed) h.begun } };
}

impl Held {
    fn new(begun: Text) -> Held
        ensures { result ≡ record { begun = begun; reads = begun } }
    {
        Held {
            begun,
            changed: None,
        }
    }

    fn begun(&self) -> &[u8]
        ensures { result.now ≡ self.now.begun }
    {
        self.begun.as_slice()
    }

    fn text(&self) -> &[u8]
        ensures { result.now ≡ self.now.reads }
    {
        match &self.changed {
            Some(text) => text,
            None => self.begun.as_slice(),
        }
    }

    fn put(&mut self, text: Vec<u8>)
        ensures { self.new ≡ record self.old { reads = text.items } }
    {
        self.changed = Some(text);
    }
}

/// Files 0, 1 and 2.
#[derive(Drop)]
pub struct HeldFiles {
    zeroth: Held,
    first: Held,
    second: Held,
}

impl HeldFiles {
    ghost use Rattle.dmn_outside.specs.Stored.{begun_of, image_texts, now_of};

    pub fn new(image: Image) -> HeldFiles
        ensures begun { begun_of result ≡ image_texts image }
        ensures now { now_of result ≡ image_texts image }
    {
        let [zeroth, first, second] = image.files;
        HeldFiles {
            zeroth: Held::new(zeroth),
            first: Held::new(first),
            second: Held::new(second),
        }
    }

    /// What the file held at first.
    pub fn begun(&self, file: u8) -> &[u8]
        ensures { result.now ≡ pick file (begun_of self.now) }
    {
        match file {
            0 => self.zeroth.begun(),
            1 => self.first.begun(),
            _ => self.second.begun(),
        }
    }

    /// What the file holds.
    pub fn text(&self, file: u8) -> &[u8]
        ensures { result.now ≡ pick file (now_of self.now) }
    {
        match file {
            0 => self.zeroth.text(),
            1 => self.first.text(),
            _ => self.second.text(),
        }
    }

    /// The file holds this text now.
    pub fn put(&mut self, file: u8, text: Vec<u8>)
        ensures begun { begun_of self.new ≡ begun_of self.old }
        ensures now { now_of self.new ≡ change file (λ _. text.items) (now_of self.old) }
    {
        match file {
            0 => self.zeroth.put(text),
            1 => self.first.put(text),
            _ => self.second.put(text),
        }
    }
}

/// What was done to a file, or begun.
#[derive(Drop)]
pub enum Act {
    /// These bytes were written at this place.
    Wrote(u64, Vec<u8>),
    /// Writing these bytes at this place failed.
    Tore(u64, Vec<u8>),
    /// It was cut to this length.
    Cut(u64),
    /// Cutting it to this length failed.
    CutTorn(u64),
    /// It was synced.
    Synced,
}

/// The moment at which something was done, and to which file.
#[derive(Drop)]
pub struct Change {
    pub moment: u64,
    pub file: u8,
    pub act: Act,
}

/// How many bytes of a file were read, and the least place that was read.
#[derive(Drop)]
pub struct ReadCount {
    bytes: u64,
    least: Option<u64>,
}

impl Model for ReadCount {
    ghost use Rattle.dmn_outside.specs.Disk.{Reads};

    ghost Value = { Reads };

    ghost view = { λ c. record { bytes = c.bytes; least = c.least } };
}

impl ReadCount {
    fn new() -> ReadCount
        ensures { result ≡ record { bytes = 0; least = None } }
    {
        ReadCount {
            bytes: 0,
            least: None,
        }
    }

    // Counts n bytes more, from this place on.
    fn note(&mut self, at: u64, n: usize)
        ensures { self.new ≡ reads_more at n self.old }
    {
        if n == 0 {
            return;
        }
        self.bytes = self.bytes.saturating_add(n as u64);
        let least = match self.least {
            Some(least) => at.min(least),
            None => at,
        };
        self.least = Some(least);
    }
}

/// What was read of files 0, 1 and 2.
#[derive(Drop)]
pub struct ReadCounts {
    zeroth: ReadCount,
    first: ReadCount,
    second: ReadCount,
}

impl ReadCounts {
    ghost use Rattle.dmn_outside.specs.Stored.{read_of};

    pub fn new() -> ReadCounts
        ensures { read_of result ≡ none_read }
    {
        ReadCounts {
            zeroth: ReadCount::new(),
            first: ReadCount::new(),
            second: ReadCount::new(),
        }
    }

    /// Counts n bytes of a file, from this place on.
    pub fn note(&mut self, file: u8, at: u64, n: usize)
        ensures { read_of self.new ≡ change file (reads_more at n) (read_of self.old) }
    {
        match file {
            0 => self.zeroth.note(at, n),
            1 => self.first.note(at, n),
            _ => self.second.note(at, n),
        }
    }
}

/// What a disk in memory keeps.
#[derive(Drop)]
pub struct Log {
    pub files: HeldFiles,
    /// What was done, the oldest first.
    pub changes: Vec<Change>,
    pub counts: ReadCounts,
}
