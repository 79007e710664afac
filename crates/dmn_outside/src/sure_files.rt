//! Three files in room that is taken before.

ghost use Rattle.std.specs.Prelude.{◌≡◌, ◌+◌, ◌≤◌, ◌↔◌, length, take, vec_capacity, IfOk, IsTrue};
ghost use Rattle.dmn_outside.specs.Changes.{placed};
ghost use Rattle.dmn_outside.specs.Disk.{change, pick};
ghost use Rattle.dmn_outside.specs.Stored.{image_texts};

use crate::image::Image;
use crate::placing::put_at;
use std::alloc::{AllocError, Global};
use std::marker::Model;

/// Files 0, 1 and 2, each with room for so many bytes.
#[derive(Drop)]
pub struct SureFiles {
    zeroth: Vec<u8>,
    first: Vec<u8>,
    second: Vec<u8>,
    room: usize,
}

impl Model for SureFiles {
    ghost use Rattle.std.specs.Prelude.{◌≤◌, vec_capacity};
    ghost use Rattle.dmn_outside.specs.Kept.{Roomy};

    ghost Value = { Roomy };

    ghost view = { λ s. record {
      texts = record { zeroth = s.zeroth.items; first = s.first.items; second = s.second.items };
      room = s.room;
    } };

    ghost invariant = { λ s. (s.room ≤ vec_capacity s.zeroth) × ((s.room ≤ vec_capacity s.first) × (s.room ≤ vec_capacity s.second)) };
}

// A text with room for at least so many bytes in all.
fn with_room(alloc: Global, text: &[u8], room: usize) -> Result<Vec<u8>, AllocError>
    ensures text { IfOk result (λ v. v.items ≡ text.now) }
    ensures room { IfOk result (λ v. room ≤ vec_capacity v) }
{
    let mut roomy = Vec::with_capacity(alloc, room)?;
    roomy.extend_from_slice(text)?;
    Ok(roomy)
}

fn put_surely(text: &mut Vec<u8>, at: u64, bytes: &[u8])
    requires { at + length bytes.now ≤ vec_capacity text.old }
    ensures put { text.new.items ≡ placed at bytes.now text.old.items }
    ensures room { vec_capacity text.old ≤ vec_capacity text.new }
{
    match put_at(text, at, bytes) {
        Ok(()) => {}
        Err(_) => unreachable!(),
    }
}

impl SureFiles {
    pub fn new(alloc: Global, image: &Image, room: usize) -> Result<SureFiles, AllocError>
        ensures texts { IfOk result (λ s. s.texts ≡ image_texts image.now) }
        ensures room { IfOk result (λ s. s.room ≡ room) }
    {
        Ok(SureFiles {
            zeroth: with_room(alloc, image.files[0].as_slice(), room)?,
            first: with_room(alloc, image.files[1].as_slice(), room)?,
            second: with_room(alloc, image.files[2].as_slice(), room)?,
            room,
        })
    }

    pub fn text(&self, file: u8) -> &[u8]
        ensures { result.now ≡ pick file self.now.texts }
    {
        match file {
            0 => &self.zeroth,
            1 => &self.first,
            _ => &self.second,
        }
    }

    /// Whether a write that ends at this length fits the room.
    pub fn fits(&self, at: u64, len: usize) -> bool
        ensures { IsTrue result ↔ (at + len ≤ self.now.room) }
    {
        match at.checked_add(len as u64) {
            Some(end) => end <= self.room as u64,
            None => false,
        }
    }

    pub fn put(&mut self, file: u8, at: u64, bytes: &[u8])
        requires { at + length bytes.now ≤ self.old.room }
        ensures { self.new ≡ record self.old { texts = change file (placed at bytes.now) self.old.texts } }
    {
        match file {
            0 => put_surely(&mut self.zeroth, at, bytes),
            1 => put_surely(&mut self.first, at, bytes),
            _ => put_surely(&mut self.second, at, bytes),
        }
    }

    pub fn cut(&mut self, file: u8, len: u64)
        ensures { self.new ≡ record self.old { texts = change file (take len) self.old.texts } }
    {
        let len = len as usize;
        match file {
            0 => self.zeroth.truncate(len),
            1 => self.first.truncate(len),
            _ => self.second.truncate(len),
        }
    }
}
