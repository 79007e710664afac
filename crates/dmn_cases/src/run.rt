//! One run of the top call: what it is given, and what is wanted of it.

use crate::difference::Difference;
use crate::ending::ending;
use crate::files::{WantedFile, copy_of};
use crate::texts::shown;
use crate::trouble::Trouble;
use dmn_bytes::Bytes;
use dmn_commands::{Status, dmn_main};
use dmn_outside::{Image, MemoryStation, Pick};
use std::alloc::Global;

/// A wanted answer, and its line in the file of words.
#[derive(Drop)]
pub struct Wanted {
    pub line: u64,
    pub bytes: Bytes,
}

/// What may stand on the disk, and behind how many answers and how much of the input: what it shows, and how a run of the
/// same words on the rest of the input then ends.
#[derive(Drop)]
pub struct Stand {
    pub count: usize,
    pub asked: usize,
    pub end: String,
    pub shows: Bytes,
}

/// What each call of a run does in turn.
#[derive(Clone, Copy, Debug, PartialEq, Eq)]
pub enum Each {
    /// The run stops there.
    Stop,
    /// It fails alone.
    Fail,
}

/// A run: the words of its command line, the numbers of the calls that fail and of the one at which it stops, whether they
/// count from the opening, its input, its callers, and what is wanted: answers, the reply to each caller, what may stand behind
/// each of its calls, and the files that a crash leaves.
#[derive(Drop)]
pub struct Run {
    pub words: Vec<String>,
    pub is_behind: bool,
    pub fails: Vec<u64>,
    pub stop: Option<u64>,
    pub each: Vec<Each>,
    pub input: Bytes,
    pub callers: Vec<Bytes>,
    pub wanted: Vec<Wanted>,
    pub replies: Vec<Wanted>,
    pub stands: Vec<Stand>,
    pub pick: Pick,
    pub files: Vec<WantedFile>,
}

/// As many bytes are shown of what came in the place of an answer that is shorter.
const SHOWN: usize = 64;

/// A station with these files and this input.
pub fn station_of(
    alloc: Global,
    image: &Image,
    input: &[u8],
    fails: Vec<u64>,
    stop: Option<u64>,
) -> Result<MemoryStation, Trouble> {
    station_with(alloc, image, input, &[], fails, stop)
}

/// A station with these files, this input, and these callers behind it.
pub fn station_with(
    alloc: Global,
    image: &Image,
    input: &[u8],
    others: &[Bytes],
    fails: Vec<u64>,
    stop: Option<u64>,
) -> Result<MemoryStation, Trouble> {
    let mut callers = Vec::new(alloc);
    callers.push(Bytes::from_slice(alloc, input)?)?;
    for text in others {
        callers.push(Bytes::from_slice(alloc, text.as_slice())?)?;
    }
    Ok(MemoryStation::new(alloc, copy_of(alloc, image)?, callers, fails, stop))
}

/// The words of a command line of one word.
pub fn one_word(alloc: Global, word: &str) -> Result<Vec<String>, Trouble> {
    let mut words = Vec::new(alloc);
    words.push(String::from_str(alloc, word)?)?;
    Ok(words)
}

/// A run of the program. What its contract says is of no use here: that calls do not meet it again and again saves most of the proof.
pub fn ended(alloc: Global, words: &[String], station: &mut MemoryStation) -> Status {
    dmn_main(alloc, words, station)
}

// How many calls an opening makes: as many as a run of no input, but for the one that finds its end.
fn opening_calls(alloc: Global, image: &Image) -> Result<u64, Trouble> {
    let words = one_word(alloc, "feed")?;
    let mut station = station_of(alloc, image, &[], Vec::new(alloc), None)?;
    let _ = ended(alloc, &words, &mut station);
    Ok(station.calls().saturating_sub(1))
}

// The first of what was sent that is not among these answers, which are wanted.
fn compare_answers(
    alloc: Global,
    answers: &[Wanted],
    sent: &[u8],
    end_line: u64,
) -> Result<Option<Difference>, Trouble> {
    let mut rest = sent;
    for wanted in answers {
        let bytes = wanted.bytes.as_slice();
        match rest.strip_prefix(bytes) {
            Some(behind) => rest = behind,
            None => {
                let most = rest.len().min(bytes.len().max(SHOWN));
                return Ok(Some(Difference {
                    line: wanted.line,
                    wanted: shown(alloc, bytes)?,
                    came: shown(alloc, &rest[..most])?,
                }));
            }
        }
    }
    if rest.is_empty() {
        return Ok(None);
    }
    Ok(Some(Difference {
        line: end_line,
        wanted: shown(alloc, &[])?,
        came: shown(alloc, &rest[..rest.len().min(SHOWN)])?,
    }))
}

// How it ended, where it was to end otherwise.
fn compare_ends(
    alloc: Global,
    line: u64,
    end: &str,
    status: Status,
) -> Result<Option<Difference>, Trouble> {
    let came = ending(alloc, status)?;
    if came.as_str() == end {
        return Ok(None);
    }
    Ok(Some(Difference {
        line,
        wanted: String::from_str(alloc, end)?,
        came,
    }))
}

impl Run {
    pub fn new(alloc: Global) -> Run {
        Run {
            words: Vec::new(alloc),
            is_behind: false,
            fails: Vec::new(alloc),
            stop: None,
            each: Vec::new(alloc),
            input: Bytes::new(alloc),
            callers: Vec::new(alloc),
            wanted: Vec::new(alloc),
            replies: Vec::new(alloc),
            stands: Vec::new(alloc),
            pick: Pick::Before,
            files: Vec::new(alloc),
        }
    }

    // The calls that fail and the one at which it stops, counted from the first call.
    fn count_from_the_first(&mut self, alloc: Global, image: &Image) -> Result<(), Trouble> {
        if !self.is_behind {
            return Ok(());
        }
        let opening = opening_calls(alloc, image)?;
        for call in &mut self.fails {
            *call = call.saturating_add(opening);
        }
        self.stop = self.stop.map(|call| call.saturating_add(opening));
        Ok(())
    }

    /// Whether what was sent and how it ended is as wanted, behind so many of the answers.
    pub fn compare(
        &self,
        alloc: Global,
        behind: usize,
        station: &MemoryStation,
        status: Status,
        end_line: u64,
        end: &str,
    ) -> Result<Option<Difference>, Trouble> {
        let answers = self.wanted.get(behind..).unwrap_or(&[]);
        match compare_answers(alloc, answers, station.sent(0), end_line)? {
            Some(difference) => Ok(Some(difference)),
            None => compare_ends(alloc, end_line, end, status),
        }
    }

    // The first caller that was sent anything but its reply.
    fn compare_replies(
        &self,
        alloc: Global,
        station: &MemoryStation,
    ) -> Result<Option<Difference>, Trouble> {
        let mut caller: u64 = 0;
        for wanted in &self.replies {
            caller = caller.saturating_add(1);
            let came = station.sent(caller);
            if came != wanted.bytes.as_slice() {
                return Ok(Some(Difference {
                    line: wanted.line,
                    wanted: shown(alloc, wanted.bytes.as_slice())?,
                    came: shown(alloc, came)?,
                }));
            }
        }
        Ok(None)
    }

    // The first of the files that is another than is wanted.
    fn compare_files(&self, alloc: Global, image: &Image) -> Result<Option<Difference>, Trouble> {
        for wanted in &self.files {
            if let Some(difference) = wanted.compare(alloc, image)? {
                return Ok(Some(difference));
            }
        }
        Ok(None)
    }

    // The first that is not as wanted: a reply, an answer, how it ended, or a file.
    fn first_difference(
        &self,
        alloc: Global,
        station: &MemoryStation,
        left: &Image,
        status: Status,
        end_line: u64,
        end: &str,
    ) -> Result<Option<Difference>, Trouble> {
        if let Some(difference) = self.compare_replies(alloc, station)? {
            return Ok(Some(difference));
        }
        match self.compare(alloc, 0, station, status, end_line, end)? {
            Some(difference) => Ok(Some(difference)),
            None => self.compare_files(alloc, left),
        }
    }

    /// Makes the run on these files, says where it does not go as wanted, and gives the files that it leaves.
    pub fn try_out(
        &mut self,
        alloc: Global,
        image: &Image,
        end_line: u64,
        end: &str,
    ) -> Result<(Option<Difference>, Image), Trouble> {
        self.count_from_the_first(alloc, image)?;
        let fails = self.fails.to_vec(alloc)?;
        let input = self.input.as_slice();
        let mut station = station_with(alloc, image, input, &self.callers, fails, self.stop)?;
        let status = ended(alloc, &self.words, &mut station);
        let left = station.image(alloc, self.pick)?;
        let found = self.first_difference(alloc, &station, &left, status, end_line, end)?;
        Ok((found, left))
    }
}
