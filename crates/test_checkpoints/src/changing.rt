//! Changes a list of records in one byte at a time, loads a validator from each changed list, and counts the results.

use crate::loading::{copied, load, reported_load};
use crate::nodes::Member;
use ref_checkpoint::load_answer;
use std::alloc::Global;
use test_cases::Reported;
use validator::LoadError;

/// Faults of loading name the place of a record in the list. They are counted for each of the first 16 places.
const PLACES: usize = 16;

/// Which other values of a byte are tried, one after the other.
#[derive(Clone, Copy)]
pub enum Change {
    /// All 255 other values of the byte.
    Values,
    /// The eight values that differ from the byte in one bit.
    Bits,
}

impl Change {
    fn has(self, from: u8, to: u8) -> bool {
        match self {
            Change::Values => from != to,
            Change::Bits => (from ^ to).count_ones() == 1,
        }
    }
}

/// How often each result of loading a changed list occurred.
#[derive(Clone, Copy)]
struct Counts {
    lists: u64,
    loaded: u64,
    unsound: [u64; PLACES],
    unsound_whole: u64,
    /// How often the reference implementation's result differed from the validator's, or the fault was at a place that is not counted.
    others: u64,
}

impl Counts {
    fn new() -> Counts {
        Counts {
            lists: 0,
            loaded: 0,
            unsound: [0; PLACES],
            unsound_whole: 0,
            others: 0,
        }
    }

    fn count(&mut self, answer: Result<(), LoadError>) {
        self.lists = self.lists.saturating_add(1);
        match answer {
            Ok(()) => self.loaded = self.loaded.saturating_add(1),
            Err(LoadError::Unsound(place)) => self.count_place(place),
            Err(LoadError::UnsoundWhole) => {
                self.unsound_whole = self.unsound_whole.saturating_add(1);
            }
            Err(LoadError::Memory) => self.count_other(),
        }
    }

    fn count_place(&mut self, place: u64) {
        match self.unsound.get_mut(place.min(PLACES as u64) as usize) {
            Some(count) => *count = count.saturating_add(1),
            None => self.count_other(),
        }
    }

    fn count_other(&mut self) {
        self.others = self.others.saturating_add(1);
    }

    fn report(&self, answer: &mut String) -> Reported {
        writeln!(answer, "lists: {}", self.lists)?;
        report_count("Ok", self.loaded, answer)?;
        for place in 0..PLACES {
            self.report_place(place, answer)?;
        }
        report_count("3 UnsoundWhole", self.unsound_whole, answer)?;
        report_count("not as the plain program", self.others, answer)
    }

    fn report_place(&self, place: usize, answer: &mut String) -> Reported {
        match self.unsound.get(place) {
            Some(count) if *count > 0 => writeln!(answer, "2 Unsound {place}: {count}"),
            _ => Ok(()),
        }
    }
}

/// Adds a result's name and how often it occurred; adds nothing if it never did.
fn report_count(name: &str, count: u64, answer: &mut String) -> Reported {
    if count == 0 {
        return Ok(());
    }
    writeln!(answer, "{name}: {count}")
}

/// A list of records whose bytes are changed one at a time. Each changed list is loaded by a validator and by the reference implementation.
#[derive(Drop)]
struct Changing<'m> {
    alloc: Global,
    member: &'m Member,
    change: Change,
    records: Vec<Vec<u8>>,
    counts: Counts,
}

/// Changes each byte of a list of records in turn, loads each changed list, and shows how often each result occurred.
pub fn change_bytes(
    alloc: Global,
    member: &Member,
    change: Change,
    records: &[Vec<u8>],
    answer: &mut String,
) -> Reported {
    let mut changing = Changing {
        alloc,
        member,
        change,
        records: copied(alloc, records)?,
        counts: Counts::new(),
    };
    for place in 0..records.len() {
        changing.change_record(place)?;
    }
    changing.counts.report(answer)
}

impl Changing<'_> {
    fn change_record(&mut self, place: usize) -> Reported {
        let length = match self.records.get(place) {
            None => 0,
            Some(record) => record.len(),
        };
        for at in 0..length {
            self.change_byte(place, at)?;
        }
        Ok(())
    }

    fn change_byte(&mut self, place: usize, at: usize) -> Reported {
        let Some(byte) = self.byte(place, at) else {
            return Ok(());
        };
        for value in 0..=u8::MAX {
            if self.change.has(byte, value) {
                self.try_value(place, at, value)?;
            }
        }
        self.set_byte(place, at, byte);
        Ok(())
    }

    fn byte(&self, place: usize, at: usize) -> Option<u8> {
        self.records.get(place)?.get(at).copied()
    }

    fn set_byte(&mut self, place: usize, at: usize, value: u8) {
        if let Some(record) = self.records.get_mut(place) {
            if let Some(byte) = record.get_mut(at) {
                *byte = value;
            }
        }
    }

    /// Loads the list with this byte at this place, by a validator and by the reference implementation, and counts the result.
    fn try_value(&mut self, place: usize, at: usize, value: u8) -> Reported {
        self.set_byte(place, at, value);
        let plain = load_answer(self.alloc, &self.member.node, &self.records)?;
        let found = load(self.alloc, &self.member.config, &self.records);
        let reported = reported_load(self.alloc, found)?;
        if reported == plain {
            self.counts.count(found);
        } else {
            self.counts.count_other();
        }
        Ok(())
    }
}
