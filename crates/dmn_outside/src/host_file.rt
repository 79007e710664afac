//! A file of the current folder.

ghost use Rattle.std.specs.Prelude.{◌≤◌, length, IfOk};

use std::fs::{OpenFile, OpenOptions};
use std::io;
use std::io::{Read, Seek, SeekFrom, Write};
use std::rt::Files;

/// A file by its name, opened when it is first used, and made empty where it isn't there.
#[derive(Drop)]
pub struct HostFile<R: Files> {
    name: &'static str,
    file: Option<R::File>,
    // Whether the folder was synced since the file was opened, so that a crash leaves its entry.
    is_entered: bool,
}

// Reads until the buffer is full or the file ends, and says how many bytes.
fn fill<F: Read>(file: &mut F, out: &mut [u8]) -> io::Result<usize>
    ensures { IfOk result (λ n. n ≤ length out.old) }
{
    let mut at = 0;
    for _ in 0..u64::MAX {
        if at >= out.len() {
            break;
        }
        let n = file.read(&mut out[at..])?;
        if n == 0 {
            break;
        }
        at += n;
    }
    Ok(at)
}

fn read_from<F: Read + Seek>(file: &mut F, at: u64, out: &mut [u8]) -> io::Result<usize>
    ensures { IfOk result (λ n. n ≤ length out.old) }
{
    file.seek(SeekFrom::Start(at))?;
    fill(file, out)
}

fn write_to<F: Write + Seek>(file: &mut F, at: u64, bytes: &[u8]) -> io::Result<()> {
    file.seek(SeekFrom::Start(at))?;
    file.write_all(bytes)
}

fn size_of_file<F: OpenFile>(file: &F) -> io::Result<u64> {
    Ok(file.metadata()?.len())
}

fn cut_to<F: OpenFile>(file: &F, len: u64) -> io::Result<()> {
    if len < size_of_file(file)? {
        file.set_len(len)?;
    }
    Ok(())
}

// Syncs the entries of the current folder.
fn sync_folder<R: Files>(rt: &R) -> io::Result<()> {
    OpenOptions::new().read(true).open(rt, ".")?.sync_all()
}

impl<R: Files> HostFile<R> {
    pub fn new(name: &'static str) -> HostFile<R> {
        HostFile {
            name,
            file: None,
            is_entered: false,
        }
    }

    // The open file, which the caller puts back.
    fn take_file(&mut self, rt: &R) -> io::Result<R::File> {
        match self.file.take() {
            Some(file) => Ok(file),
            None => OpenOptions::new()
                .read(true)
                .write(true)
                .create(true)
                .open(rt, self.name),
        }
    }

    pub fn size(&mut self, rt: &R) -> io::Result<u64> {
        let file = self.take_file(rt)?;
        let size = size_of_file(&file);
        self.file = Some(file);
        size
    }

    pub fn read_at(&mut self, rt: &R, at: u64, out: &mut [u8]) -> io::Result<usize>
        ensures { IfOk result (λ n. n ≤ length out.old) }
    {
        let mut file = self.take_file(rt)?;
        let read = read_from(&mut file, at, out);
        self.file = Some(file);
        read
    }

    pub fn write_at(&mut self, rt: &R, at: u64, bytes: &[u8]) -> io::Result<()> {
        let mut file = self.take_file(rt)?;
        let written = write_to(&mut file, at, bytes);
        self.file = Some(file);
        written
    }

    pub fn cut(&mut self, rt: &R, len: u64) -> io::Result<()> {
        let file = self.take_file(rt)?;
        let cut = cut_to(&file, len);
        self.file = Some(file);
        cut
    }

    /// Syncs the file down to the disk, and, the first time, its entry in the folder.
    pub fn sync(&mut self, rt: &R) -> io::Result<()> {
        let file = self.take_file(rt)?;
        let synced = file.sync_all();
        self.file = Some(file);
        synced?;
        if !self.is_entered {
            sync_folder(rt)?;
            self.is_entered = true;
        }
        Ok(())
    }
}
