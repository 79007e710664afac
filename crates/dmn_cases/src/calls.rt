//! A run made once for each of its calls, at which it stops or which fails: what a crash then leaves is a registry that has a
//! front of the commands that were accepted, each that was answered among them.

use crate::difference::Difference;
use crate::ending::{ending, is_fault};
use crate::files::{are_same, copy_of};
use crate::run::{Each, Run, Stand, ended, one_word, station_of};
use crate::texts::shown;
use crate::trouble::Trouble;
use dmn_bytes::Bytes;
use dmn_commands::Status;
use dmn_outside::{Image, MemoryStation, Pick};
use std::alloc::Global;

/// No run of a case makes as many calls.
const MOST_CALLS: u64 = 100_000;

/// What a crash may leave of what isn't synced.
const PICKS: [Pick; 5] = [
    Pick::Before,
    Pick::After,
    Pick::Fill(0),
    Pick::Fill(1),
    Pick::Fill(255),
];

/// How a run with a call that goes wrong went.
#[derive(Drop)]
pub enum Tried {
    /// It makes fewer calls.
    Over,
    /// As it may.
    Well,
    Wrong(Difference),
}

/// Files that a crash left behind so many answers, and that were judged.
#[derive(Drop)]
pub struct Judged {
    answered: usize,
    image: Image,
}

/// The frame that asks for the tip.
const TIP: [u8; 5] = [3, 0, 0, 0, 0];

// Adds what a run of one word sends on these files.
fn add_sent(
    alloc: Global,
    image: &Image,
    word: &str,
    input: &[u8],
    out: &mut Bytes,
) -> Result<(), Trouble> {
    let words = one_word(alloc, word)?;
    let mut station = station_of(alloc, image, input, Vec::new(alloc), None)?;
    let _ = ended(alloc, &words, &mut station);
    out.extend(station.sent(0))?;
    Ok(())
}

// What files show: an audit, and the answer to a Tip; nothing where they are no registry.
fn shown_by(alloc: Global, image: &Image) -> Result<Bytes, Trouble> {
    let mut out = Bytes::new(alloc);
    add_sent(alloc, image, "audit", &[], &mut out)?;
    add_sent(alloc, image, "feed", &TIP, &mut out)?;
    Ok(out)
}

// Whether these files were judged before; now they are.
fn was_judged(
    judged: &mut Vec<Judged>,
    alloc: Global,
    answered: usize,
    image: &Image,
) -> Result<bool, Trouble> {
    for before in judged.iter() {
        if before.answered == answered && are_same(&before.image, image) {
            return Ok(true);
        }
    }
    judged.push(Judged {
        answered,
        image: copy_of(alloc, image)?,
    })?;
    Ok(false)
}

impl Each {
    // A station that goes wrong at this call.
    fn station(
        &self,
        alloc: Global,
        image: &Image,
        input: &[u8],
        call: u64,
    ) -> Result<MemoryStation, Trouble> {
        let mut fails = Vec::new(alloc);
        match self {
            Each::Stop => station_of(alloc, image, input, fails, Some(call)),
            Each::Fail => {
                fails.push(call)?;
                station_of(alloc, image, input, fails, None)
            }
        }
    }
}

impl Run {
    // How many of the wanted answers were sent whole; none where what was sent is no front of them.
    fn answered(&self, sent: &[u8]) -> Option<usize> {
        let mut rest = sent;
        for (count, wanted) in self.wanted.iter().enumerate() {
            match rest.strip_prefix(wanted.bytes.as_slice()) {
                Some(behind) => rest = behind,
                None if wanted.bytes.as_slice().starts_with(rest) => return Some(count),
                None => return None,
            }
        }
        if rest.is_empty() {
            Some(self.wanted.len())
        } else {
            None
        }
    }

    // What stands at least behind so many answers, and what may stand behind the command after them.
    fn stands_behind(&self, answered: usize) -> Option<(&Stand, Option<&Stand>)> {
        let mut found = None;
        for (place, stand) in self.stands.iter().enumerate() {
            if stand.count <= answered {
                found = Some((stand, self.stands.get(place + 1)));
            }
        }
        found
    }

    // Where the rest of the run, made on these files, does not lead to what stands at its end.
    fn go_on(
        &self,
        alloc: Global,
        image: &Image,
        from: &Stand,
    ) -> Result<Option<Difference>, Trouble> {
        let input = self.input.as_slice().get(from.asked..).unwrap_or(&[]);
        let mut station = station_of(alloc, image, input, Vec::new(alloc), None)?;
        let status = ended(alloc, &self.words, &mut station);
        let end = from.end.as_str();
        if let Some(difference) = self.compare(alloc, from.count, &station, status, 0, end)? {
            return Ok(Some(difference));
        }
        let Some(last) = self.stands.last() else {
            return Err(Trouble::Line);
        };
        let left = station.image(alloc, Pick::Before)?;
        let came = shown_by(alloc, &left)?;
        let wanted = last.shows.as_slice();
        if came.as_slice() == wanted {
            return Ok(None);
        }
        Ok(Some(Difference {
            line: 0,
            wanted: shown(alloc, wanted)?,
            came: shown(alloc, came.as_slice())?,
        }))
    }

    // Where files that a crash left behind so many answers are not as they may be.
    fn judge_image(
        &self,
        alloc: Global,
        image: &Image,
        answered: usize,
    ) -> Result<Option<Difference>, Trouble> {
        let Some((least, next)) = self.stands_behind(answered) else {
            return Err(Trouble::Line);
        };
        let came = shown_by(alloc, image)?;
        if came.as_slice() == least.shows.as_slice() {
            return self.go_on(alloc, image, least);
        }
        if let Some(next) = next
            && came.as_slice() == next.shows.as_slice()
        {
            return self.go_on(alloc, image, next);
        }
        Ok(Some(Difference {
            line: 0,
            wanted: shown(alloc, least.shows.as_slice())?,
            came: shown(alloc, came.as_slice())?,
        }))
    }

    // Where a station on which the run went wrong is not as it may be.
    fn judge_station(
        &self,
        alloc: Global,
        station: &MemoryStation,
        status: Status,
        judged: &mut Vec<Judged>,
    ) -> Result<Option<Difference>, Trouble> {
        let answered = match self.answered(station.sent(0)) {
            Some(answered) if is_fault(status) => answered,
            _ => {
                return Ok(Some(Difference {
                    line: 0,
                    wanted: String::from_str(alloc, "a fault, and a front of the answers")?,
                    came: ending(alloc, status)?,
                }));
            }
        };
        for pick in PICKS {
            let left = station.image(alloc, pick)?;
            if was_judged(judged, alloc, answered, &left)? {
                continue;
            }
            if let Some(difference) = self.judge_image(alloc, &left, answered)? {
                return Ok(Some(difference));
            }
        }
        Ok(None)
    }

    /// Makes the run once for each of its calls, as often as it is to be, and says where it does not go as it may.
    pub fn try_calls(
        &self,
        alloc: Global,
        image: &Image,
        line: u64,
    ) -> Result<Option<Difference>, Trouble> {
        let mut judged = Vec::new(alloc);
        for each in &self.each {
            if let Some(difference) = self.try_each(alloc, image, *each, line, &mut judged)? {
                return Ok(Some(difference));
            }
        }
        Ok(None)
    }

    // Makes the run with this call going wrong.
    fn try_call(
        &self,
        alloc: Global,
        image: &Image,
        each: Each,
        call: u64,
        judged: &mut Vec<Judged>,
    ) -> Result<Tried, Trouble> {
        let mut station = each.station(alloc, image, self.input.as_slice(), call)?;
        let status = ended(alloc, &self.words, &mut station);
        if station.calls() <= call {
            return Ok(Tried::Over);
        }
        match self.judge_station(alloc, &station, status, judged)? {
            Some(difference) => Ok(Tried::Wrong(difference)),
            None => Ok(Tried::Well),
        }
    }

    // Makes the run once for each of its calls, which goes wrong so.
    fn try_each(
        &self,
        alloc: Global,
        image: &Image,
        each: Each,
        line: u64,
        judged: &mut Vec<Judged>,
    ) -> Result<Option<Difference>, Trouble> {
        for call in 0..MOST_CALLS {
            match self.try_call(alloc, image, each, call, judged)? {
                Tried::Over => return Ok(None),
                Tried::Well => {}
                Tried::Wrong(found) => return Ok(Some(found.at_call(alloc, line, call)?)),
            }
        }
        Err(Trouble::Line)
    }
}
