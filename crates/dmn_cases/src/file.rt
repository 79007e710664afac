//! Composed files of cases, taken line by line.
//!
//! A line is one of these; LINE is the line in the file of words that it comes from.
//!
//!     file PATH                  the file of words that the next cases come from
//!     case LINE NAME             a case begins, with empty files
//!     image FILE BYTES           this file has these bytes from here on
//!     run LINE WORDS             a run begins, with these words on its command line
//!     behind                     its calls are counted from the first one behind the opening
//!     fails CALLS                the calls of the station of these numbers fail in this run
//!     stop CALL                  and each call from this number on
//!     each stop, each fail       the run is also made once for each of its calls, which stops it, or fails alone
//!     in LINE BYTES              bytes that are sent
//!     out LINE BYTES             bytes that are wanted
//!     caller LINE BYTES          the next caller sends these bytes
//!     reply LINE BYTES           and this is what it is to be sent
//!     stand LINE N STATUS BYTES  behind N answers and the input before this line, what an audit and a Tip send; and how a
//!                                run of the same words on the rest ends. Told for each command of a run that is so made
//!     pick Before, pick After, pick Fill BYTE    what of the writes that aren't synced is there behind the run
//!     becomes LINE FILE BYTES    what this file is to be then
//!     hashes LINE FILE SIZE HASH the same, by its length and its hash
//!     end LINE STATUS            the run is made, and is to end so
//!     done                       the case ends

use crate::difference::Difference;
use crate::files::{FILES, WantedFile, WantedText};
use crate::run::{Each, Run, Stand, Wanted};
use crate::texts::add_words;
use crate::trouble::Trouble;
use dmn_bytes::Bytes;
use dmn_outside::{Image, Pick};
use std::alloc::Global;

/// Where the lines are: in which file of words, in which case, with which files, in which run, and what came of it so far.
#[derive(Drop)]
pub struct Cases {
    alloc: Global,
    file: String,
    case: String,
    image: Image,
    run: Run,
    fault: Option<String>,
    count: u64,
    wrong: u64,
}

// A line's first number and the rest of it.
fn numbered(text: &str) -> Result<(u64, &str), Trouble> {
    let (number, rest) = text.split_once(' ').unwrap_or((text, ""));
    match number.parse::<u64>() {
        Ok(number) => Ok((number, rest)),
        Err(_) => Err(Trouble::Line),
    }
}

// The same, of a number that counts what is in memory.
fn counted(text: &str) -> Result<(usize, &str), Trouble> {
    let (number, rest) = text.split_once(' ').unwrap_or((text, ""));
    match number.parse::<usize>() {
        Ok(number) => Ok((number, rest)),
        Err(_) => Err(Trouble::Line),
    }
}

// The bytes of a line's words.
fn bytes_of(alloc: Global, words: &str) -> Result<Bytes, Trouble> {
    let mut bytes = Bytes::new(alloc);
    add_words(alloc, words, &mut bytes)?;
    Ok(bytes)
}

fn pick_of(text: &str) -> Result<Pick, Trouble> {
    match text.split_once(' ') {
        None if text == "Before" => Ok(Pick::Before),
        None if text == "After" => Ok(Pick::After),
        Some(("Fill", byte)) => match byte.parse::<u8>() {
            Ok(byte) => Ok(Pick::Fill(byte)),
            Err(_) => Err(Trouble::Line),
        },
        _ => Err(Trouble::Line),
    }
}

fn each_of(text: &str) -> Result<Each, Trouble> {
    match text {
        "stop" => Ok(Each::Stop),
        "fail" => Ok(Each::Fail),
        _ => Err(Trouble::Line),
    }
}

impl Cases {
    pub fn new(alloc: Global) -> Cases {
        Cases {
            alloc,
            file: String::new(alloc),
            case: String::new(alloc),
            image: Image::new(alloc),
            run: Run::new(alloc),
            fault: None,
            count: 0,
            wrong: 0,
        }
    }

    /// How many cases there were.
    pub fn count(&self) -> u64 {
        self.count
    }

    /// How many of them, or lines, were wrong.
    pub fn wrong(&self) -> u64 {
        self.wrong
    }

    pub fn count_wrong(&mut self) {
        self.wrong = self.wrong.saturating_add(1);
    }

    /// Takes a line; where a case ends with it, gives what is to be said of the case.
    pub fn take(&mut self, line: &str) -> Result<Option<String>, Trouble> {
        let (word, rest) = line.split_once(' ').unwrap_or((line, ""));
        match word {
            "file" => self.file = String::from_str(self.alloc, rest)?,
            "case" => self.begin_case(rest)?,
            "image" => self.set_file(rest)?,
            "run" => self.begin_run(rest)?,
            "done" => return self.end_case(),
            _ => self.add_to_run(word, rest)?,
        }
        Ok(None)
    }

    // A line on the run that goes on.
    fn add_to_run(&mut self, word: &str, rest: &str) -> Result<(), Trouble> {
        match word {
            "behind" => self.run.is_behind = true,
            "fails" => self.add_fails(rest)?,
            "stop" => self.run.stop = Some(numbered(rest)?.0),
            "each" => self.run.each.push(each_of(rest)?)?,
            "in" => self.add_input(rest)?,
            "out" => self.add_wanted(rest)?,
            "caller" => self.add_caller(rest)?,
            "reply" => self.add_reply(rest)?,
            "stand" => self.add_stand(rest)?,
            "pick" => self.run.pick = pick_of(rest)?,
            "becomes" => self.add_text(rest)?,
            "hashes" => self.add_hash(rest)?,
            "end" => self.make_run(rest)?,
            _ => return Err(Trouble::Line),
        }
        Ok(())
    }

    fn begin_case(&mut self, rest: &str) -> Result<(), Trouble> {
        let (_, name) = numbered(rest)?;
        self.case = String::from_str(self.alloc, name)?;
        self.image = Image::new(self.alloc);
        self.fault = None;
        Ok(())
    }

    fn set_file(&mut self, rest: &str) -> Result<(), Trouble> {
        let (file, words) = counted(rest)?;
        if file >= FILES {
            return Err(Trouble::Line);
        }
        self.image.files[file] = bytes_of(self.alloc, words)?;
        Ok(())
    }

    fn begin_run(&mut self, rest: &str) -> Result<(), Trouble> {
        let (_, words) = numbered(rest)?;
        self.run = Run::new(self.alloc);
        for word in words.split_whitespace() {
            let word = String::from_str(self.alloc, word)?;
            self.run.words.push(word)?;
        }
        Ok(())
    }

    fn add_fails(&mut self, rest: &str) -> Result<(), Trouble> {
        for word in rest.split_whitespace() {
            let call = word.parse::<u64>().map_err(|_| Trouble::Line)?;
            self.run.fails.push(call)?;
        }
        Ok(())
    }

    fn add_input(&mut self, rest: &str) -> Result<(), Trouble> {
        let (_, words) = numbered(rest)?;
        add_words(self.alloc, words, &mut self.run.input)
    }

    fn add_wanted(&mut self, rest: &str) -> Result<(), Trouble> {
        let (line, words) = numbered(rest)?;
        let bytes = bytes_of(self.alloc, words)?;
        self.run.wanted.push(Wanted { line, bytes })?;
        Ok(())
    }

    fn add_caller(&mut self, rest: &str) -> Result<(), Trouble> {
        let (_, words) = numbered(rest)?;
        let text = bytes_of(self.alloc, words)?;
        self.run.callers.push(text)?;
        Ok(())
    }

    fn add_reply(&mut self, rest: &str) -> Result<(), Trouble> {
        let (line, words) = numbered(rest)?;
        let bytes = bytes_of(self.alloc, words)?;
        self.run.replies.push(Wanted { line, bytes })?;
        Ok(())
    }

    fn add_stand(&mut self, rest: &str) -> Result<(), Trouble> {
        let (_, rest) = numbered(rest)?;
        let (count, rest) = counted(rest)?;
        let (end, words) = rest.split_once(' ').unwrap_or((rest, ""));
        let stand = Stand {
            count,
            asked: self.run.input.len(),
            end: String::from_str(self.alloc, end)?,
            shows: bytes_of(self.alloc, words)?,
        };
        self.run.stands.push(stand)?;
        Ok(())
    }

    fn add_text(&mut self, rest: &str) -> Result<(), Trouble> {
        let (line, rest) = numbered(rest)?;
        let (file, words) = counted(rest)?;
        let text = WantedText::Whole(bytes_of(self.alloc, words)?);
        self.run.files.push(WantedFile { line, file, text })?;
        Ok(())
    }

    fn add_hash(&mut self, rest: &str) -> Result<(), Trouble> {
        let (line, rest) = numbered(rest)?;
        let (file, rest) = counted(rest)?;
        let (size, words) = counted(rest)?;
        let text = WantedText::Hashed(size, bytes_of(self.alloc, words)?);
        self.run.files.push(WantedFile { line, file, text })?;
        Ok(())
    }

    // What goes wrong in the run, and first where it is made for each of its calls.
    fn found(&mut self, line: u64, status: &str) -> Result<Option<Difference>, Trouble> {
        let found = self.run.try_calls(self.alloc, &self.image, line)?;
        let (difference, left) = self.run.try_out(self.alloc, &self.image, line, status)?;
        self.image = left;
        match found {
            Some(found) => Ok(Some(found)),
            None => Ok(difference),
        }
    }

    // Makes the run. Of a case's runs the first that goes wrong is told.
    fn make_run(&mut self, rest: &str) -> Result<(), Trouble> {
        let (line, status) = numbered(rest)?;
        let found = self.found(line, status)?;
        if let Some(difference) = found
            && self.fault.is_none()
        {
            let place = difference.line;
            let (wanted, came) = (difference.wanted, difference.came);
            let text = format!(in self.alloc; "{place}: wanted {wanted}, came {came}")?;
            self.fault = Some(text);
        }
        Ok(())
    }

    fn end_case(&mut self) -> Result<Option<String>, Trouble> {
        self.count = self.count.saturating_add(1);
        let (file, case) = (self.file.as_str(), self.case.as_str());
        let said = match self.fault.take() {
            None => format!(in self.alloc; "ok {file}: {case}")?,
            Some(fault) => {
                self.wrong = self.wrong.saturating_add(1);
                format!(in self.alloc; "WRONG {file}: {case}: line {fault}")?
            }
        };
        Ok(Some(said))
    }
}
