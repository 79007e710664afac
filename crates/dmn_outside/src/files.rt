//! A disk in memory. It keeps what was done and when, so that each image of a crash can be told.

ghost use Rattle.std.specs.Prelude.{◌≡◌, ◌≤◌, ℕ, [], List, length, OnOk, OnErr, IfOk};
ghost use Rattle.dmn_outside.specs.Changes.{MayChange, ReadsAt, after, after_cut, after_cut_torn, after_read, after_sync, after_torn, after_write, past_after};
ghost use Rattle.dmn_outside.specs.Counts.{Passes};
ghost use Rattle.dmn_outside.specs.Disk.{File, IfReads, pick};
ghost use Rattle.dmn_outside.specs.Picked.{IsImage, IsPicked};
ghost use Rattle.dmn_outside.specs.Stored.{AreBefore, AreBefore-prop, acted, begin, begun_of, contents_by, image_texts, now_of, past_of, replayed, told_of, told_of_texts, view_of};

use crate::image::{Image, Pick};
use crate::log::{Act, Change, HeldFiles, Log, ReadCounts};
use crate::picked::picked_text;
use crate::placing::{copy_at, put_at};
use dmn_bytes::{Bytes, Memory};
use std::alloc::{AllocError, Global};

/// A disk in memory, and the time, which is the number of calls of the devices.
#[derive(Drop)]
pub struct Files {
    alloc: Global,
    log: Log,
    time: u64,
    ghost is_now: { now_of log.files ≡ contents_by (begun_of log.files) log.changes.items },
    ghost is_past: { AreBefore time log.changes.items } by { AreBefore-prop time log.changes.items },
}

impl Files {
    pub fn new(alloc: Global, image: Image) -> Files
        ensures told { told_of result.log ≡ told_of_texts (image_texts image) }
        ensures past { past_of result.log ≡ [] }
        ensures time { result.time ≡ 0 }
    {
        Files {
            alloc,
            log: Log {
                files: HeldFiles::new(image),
                changes: Vec::new(alloc),
                counts: ReadCounts::new(),
            },
            time: 0,
        }
    }

    pub fn time(&self) -> u64
        ensures { result ≡ self.now.time }
    {
        self.time
    }

    /// The moment of a call, after which it is the next one. At its last value the time stands still.
    pub fn tick(&mut self) -> u64
        ensures moment { result ≡ self.old.time }
        ensures time { Passes self.old.time self.new.time }
        ensures log { self.new.log ≡ self.old.log }
    {
        let moment = self.time;
        self.time = moment.saturating_add(1);
        moment
    }

    // One change more, after which the file reads as this. None is made at a moment that isn't over.
    fn replace(&mut self, moment: u64, file: u8, act: Act, next: Vec<u8>) -> Result<(), AllocError>
        requires { (f : File) → f.reads ≡ pick file (now_of self.old.log.files) → (acted act f).reads ≡ next.items }
        ensures done { (f : List ℕ → List ℕ) → OnOk result (told_of self.new.log ≡ after file f (acted act) (told_of self.old.log)) }
        ensures past { OnOk result (past_of self.new.log ≡ past_after moment (told_of self.old.log) (past_of self.old.log)) }
        ensures same { OnErr result (told_of self.new.log ≡ told_of self.old.log) }
        ensures same_past { OnErr result (past_of self.new.log ≡ past_of self.old.log) }
        ensures time { self.new.time ≡ self.old.time }
    {
        if moment >= self.time {
            return Err(AllocError);
        }
        self.log.changes.push(Change { moment, file, act })?;
        self.log.files.put(file, next);
        Ok(())
    }

    // One change more, after which each file reads as before. None is made at a moment that isn't over.
    fn keep(&mut self, moment: u64, file: u8, act: Act) -> Result<(), AllocError>
        requires { (f : File) → (acted act f).reads ≡ f.reads }
        ensures done { (f : List ℕ → List ℕ) → OnOk result (told_of self.new.log ≡ after file f (acted act) (told_of self.old.log)) }
        ensures past { OnOk result (past_of self.new.log ≡ past_after moment (told_of self.old.log) (past_of self.old.log)) }
        ensures same { OnErr result (told_of self.new.log ≡ told_of self.old.log) }
        ensures same_past { OnErr result (past_of self.new.log ≡ past_of self.old.log) }
        ensures time { self.new.time ≡ self.old.time }
    {
        if moment >= self.time {
            return Err(AllocError);
        }
        self.log.changes.push(Change { moment, file, act })?;
        Ok(())
    }

    pub fn size(&self, file: u8) -> u64
        ensures { IfReads (told_of self.now.log) (λ all. result ≡ length (pick file all)) }
    {
        self.log.files.text(file).len() as u64
    }

    pub fn read(&mut self, file: u8, at: u64, out: &mut [u8]) -> usize
        ensures most { result ≤ length out.old }
        ensures bytes { IfReads (told_of self.old.log) (λ all. ReadsAt (pick file all) at result out.old out.new) }
        ensures done { told_of self.new.log ≡ after_read file at result (told_of self.old.log) }
        ensures past { past_of self.new.log ≡ past_of self.old.log }
        ensures time { self.new.time ≡ self.old.time }
    {
        let n = copy_at(self.log.files.text(file), at, out);
        self.log.counts.note(file, at, n);
        n
    }

    pub fn write(&mut self, moment: u64, file: u8, at: u64, bytes: &[u8]) -> Result<(), AllocError>
        ensures done { OnOk result (told_of self.new.log ≡ after_write file at bytes.now (told_of self.old.log)) }
        ensures past { OnOk result (past_of self.new.log ≡ past_after moment (told_of self.old.log) (past_of self.old.log)) }
        ensures same { OnErr result (told_of self.new.log ≡ told_of self.old.log) }
        ensures same_past { OnErr result (past_of self.new.log ≡ past_of self.old.log) }
        ensures time { self.new.time ≡ self.old.time }
    {
        let mut next = Vec::from_slice(self.alloc, self.log.files.text(file))?;
        put_at(&mut next, at, bytes)?;
        let copy = Vec::from_slice(self.alloc, bytes)?;
        self.replace(moment, file, Act::Wrote(at, copy), next)
    }

    fn keep_torn(&mut self, moment: u64, file: u8, at: u64, bytes: &[u8]) -> Result<(), AllocError>
        ensures done { OnOk result (told_of self.new.log ≡ after_torn file at (length bytes.now) (told_of self.old.log)) }
        ensures past { OnOk result (past_of self.new.log ≡ past_after moment (told_of self.old.log) (past_of self.old.log)) }
        ensures same { OnErr result (told_of self.new.log ≡ told_of self.old.log) }
        ensures same_past { OnErr result (past_of self.new.log ≡ past_of self.old.log) }
        ensures time { self.new.time ≡ self.old.time }
    {
        let copy = Vec::from_slice(self.alloc, bytes)?;
        self.keep(moment, file, Act::Tore(at, copy))
    }

    /// A write that fails. Without memory to keep it nothing was written.
    pub fn tear(&mut self, moment: u64, file: u8, at: u64, bytes: &[u8])
        ensures told { (m n : ℕ) → MayChange moment (after_torn file at (length bytes.now)) (view_of m self.old.log) (view_of n self.new.log) }
        ensures time { self.new.time ≡ self.old.time }
    {
        let _ = self.keep_torn(moment, file, at, bytes);
    }

    pub fn cut(&mut self, moment: u64, file: u8, len: u64) -> Result<(), AllocError>
        ensures done { OnOk result (told_of self.new.log ≡ after_cut file len (told_of self.old.log)) }
        ensures past { OnOk result (past_of self.new.log ≡ past_after moment (told_of self.old.log) (past_of self.old.log)) }
        ensures same { OnErr result (told_of self.new.log ≡ told_of self.old.log) }
        ensures same_past { OnErr result (past_of self.new.log ≡ past_of self.old.log) }
        ensures time { self.new.time ≡ self.old.time }
    {
        let text = self.log.files.text(file);
        let next = Vec::from_slice(self.alloc, &text[..(len as usize).min(text.len())])?;
        self.replace(moment, file, Act::Cut(len), next)
    }

    /// A cut that fails. Without memory to keep it nothing was cut.
    pub fn tear_cut(&mut self, moment: u64, file: u8, len: u64)
        ensures told { (m n : ℕ) → MayChange moment (after_cut_torn file len) (view_of m self.old.log) (view_of n self.new.log) }
        ensures time { self.new.time ≡ self.old.time }
    {
        let _ = self.keep(moment, file, Act::CutTorn(len));
    }

    pub fn sync(&mut self, moment: u64, file: u8) -> Result<(), AllocError>
        ensures done { OnOk result (told_of self.new.log ≡ after_sync file (told_of self.old.log)) }
        ensures past { OnOk result (past_of self.new.log ≡ past_after moment (told_of self.old.log) (past_of self.old.log)) }
        ensures same { OnErr result (told_of self.new.log ≡ told_of self.old.log) }
        ensures same_past { OnErr result (past_of self.new.log ≡ past_of self.old.log) }
        ensures time { self.new.time ≡ self.old.time }
    {
        self.keep(moment, file, Act::Synced)
    }

    fn picked(&self, alloc: Global, file: u8, how: Pick) -> Result<Bytes, Memory>
        ensures { IfOk result (λ text. IsPicked how (pick file (replayed (begin (begun_of self.now.log.files)) self.now.log.changes.items)) text) }
    {
        let text = picked_text(alloc, &self.log.files, &self.log.changes, file, how)?;
        Bytes::from_slice(alloc, &text)
    }

    /// One image of those that a crash now may leave.
    pub fn image(&self, alloc: Global, how: Pick) -> Result<Image, Memory>
        ensures { IfOk result (λ image. IsImage how (told_of self.now.log) (image_texts image)) }
    {
        Ok(Image {
            files: [
                self.picked(alloc, 0, how)?,
                self.picked(alloc, 1, how)?,
                self.picked(alloc, 2, how)?,
            ],
        })
    }
}
