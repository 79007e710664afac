//! One image of a crash of a disk in memory, by going over what was done to it.

ghost use Rattle.std.specs.Prelude.{◌≡◌, ◌⊎◌, length, take, IfOk};
ghost use Rattle.dmn_outside.specs.Changes.{file_cut, file_cut_torn, file_wrote};
ghost use Rattle.dmn_outside.specs.Disk.{File, Three, Torn, change, pick};
ghost use Rattle.dmn_outside.specs.Picked.{Follows, IsPicked};
ghost use Rattle.dmn_outside.specs.Stored.{acted, begin, begun_of, replayed};

use crate::image::Pick;
use crate::log::{Act, Change, HeldFiles};
use crate::placing::put_at;
use std::alloc::{AllocError, Global};

/// A file as it reads, and as a crash leaves it.
#[derive(Drop)]
struct Pair {
    reads: Vec<u8>,
    image: Vec<u8>,
}

// A write of these bytes, as a crash leaves it.
fn torn(
    alloc: Global,
    mut image: Vec<u8>,
    at: u64,
    bytes: &[u8],
    how: Pick,
) -> Result<Vec<u8>, AllocError>
    ensures torn { IfOk result (λ v. Torn at (length bytes.now) image.items v.items) }
    ensures lost { how ≡ Pick.Before → IfOk result (λ v. v.items ≡ image.items) }
{
    match how {
        Pick::Before => {}
        Pick::After => put_at(&mut image, at, bytes)?,
        Pick::Fill(byte) => {
            let mut other = Vec::new(alloc);
            other.resize(bytes.len(), byte)?;
            put_at(&mut image, at, &other)?;
        }
    }
    Ok(image)
}

// A cut, as a crash leaves it.
fn maybe_cut(mut image: Vec<u8>, len: u64, how: Pick) -> Vec<u8>
    ensures cut { (result.items ≡ image.items) ⊎ (result.items ≡ take len image.items) }
    ensures lost { how ≡ Pick.Before → result.items ≡ image.items }
{
    match how {
        Pick::Before => image,
        Pick::After | Pick::Fill(_) => {
            image.truncate(len as usize);
            image
        }
    }
}

fn write_pair(
    alloc: Global,
    pair: Pair,
    at: u64,
    bytes: &[u8],
    how: Pick,
) -> Result<Pair, AllocError>
    ensures { (f : File) → Follows how f pair.reads.items pair.image.items → IfOk result (λ p. Follows how (file_wrote at bytes.now f) p.reads.items p.image.items) }
{
    let mut reads = pair.reads;
    put_at(&mut reads, at, bytes)?;
    let image = torn(alloc, pair.image, at, bytes, how)?;
    Ok(Pair { reads, image })
}

fn cut_pair(pair: Pair, len: u64, how: Pick) -> Pair
    ensures { (f : File) → Follows how f pair.reads.items pair.image.items → Follows how (file_cut len f) result.reads.items result.image.items }
{
    let mut reads = pair.reads;
    if reads.as_slice().len() as u64 <= len {
        return Pair {
            reads,
            image: pair.image,
        };
    }
    reads.truncate(len as usize);
    Pair {
        reads,
        image: maybe_cut(pair.image, len, how),
    }
}

fn cut_torn_pair(pair: Pair, len: u64, how: Pick) -> Pair
    ensures { (f : File) → Follows how f pair.reads.items pair.image.items → Follows how (file_cut_torn len f) result.reads.items result.image.items }
{
    if pair.reads.as_slice().len() as u64 <= len {
        return pair;
    }
    Pair {
        reads: pair.reads,
        image: maybe_cut(pair.image, len, how),
    }
}

fn act_on(alloc: Global, pair: Pair, act: &Act, how: Pick) -> Result<Pair, AllocError>
    ensures { (f : File) → Follows how f pair.reads.items pair.image.items → IfOk result (λ p. Follows how (acted act.now f) p.reads.items p.image.items) }
{
    match act {
        Act::Wrote(at, bytes) => write_pair(alloc, pair, *at, bytes, how),
        Act::Tore(at, bytes) => {
            let image = torn(alloc, pair.image, *at, bytes, how)?;
            Ok(Pair {
                reads: pair.reads,
                image,
            })
        }
        Act::Cut(len) => Ok(cut_pair(pair, *len, how)),
        Act::CutTorn(len) => Ok(cut_torn_pair(pair, *len, how)),
        Act::Synced => {
            let image = Vec::from_slice(alloc, &pair.reads)?;
            Ok(Pair {
                reads: pair.reads,
                image,
            })
        }
    }
}

fn step(alloc: Global, pair: Pair, done: &Change, file: u8, how: Pick) -> Result<Pair, AllocError>
    ensures { (files : Three File) → Follows how (pick file files) pair.reads.items pair.image.items
        → IfOk result (λ p. Follows how (pick file (change done.now.file (acted done.now.act) files)) p.reads.items p.image.items) }
{
    if done.file.min(2) == file.min(2) {
        act_on(alloc, pair, &done.act, how)
    } else {
        Ok(pair)
    }
}

/// One image of a file: one that a crash may leave, and before what isn't synced what the last sync made sure of.
pub fn picked_text(
    alloc: Global,
    files: &HeldFiles,
    changes: &[Change],
    file: u8,
    how: Pick,
) -> Result<Vec<u8>, AllocError>
    ensures { IfOk result (λ text. IsPicked how (pick file (replayed (begin (begun_of files.now)) changes.now)) text.items) }
{
    let begun = files.begun(file);
    let mut pair = Pair {
        reads: Vec::from_slice(alloc, begun)?,
        image: Vec::from_slice(alloc, begun)?,
    };
    for done in changes {
        pair = step(alloc, pair, done, file, how)?;
    }
    Ok(pair.image)
}
