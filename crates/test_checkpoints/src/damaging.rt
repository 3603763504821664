//! Opens a node on two areas in which one byte is changed, for each byte and each other value, and counts the results.

use crate::areas::Areas;
use crate::disks::Disks;
use crate::migrating::{NO_SUM, Opened, is_node, reopened, sum_after};
use crate::nodes::Member;
use std::alloc::{AllocError, Global};
use test_cases::Reported;

/// A reason for which an opening found no node, and how often it was the result.
#[derive(Drop)]
struct Refused {
    text: String,
    times: u64,
}

/// The areas of a journal whose bytes are changed one at a time, and how often opening a node on them had which result.
#[derive(Drop)]
pub struct Damages<'a> {
    alloc: Global,
    member: &'a Member,
    areas: &'a Areas,
    is_second: bool,
    /// What the opening finds if no byte is changed, and how often it found the same with a byte changed.
    unchanged: String,
    same: u64,
    /// How often an opening with a changed byte found another node, and a checksum over what was shown of these nodes.
    other: u64,
    sum: u64,
    refused: Vec<Refused>,
}

impl<'a> Damages<'a> {
    /// The changes of the first or of the second of these areas, before any has been tried.
    pub fn new(
        alloc: Global,
        member: &'a Member,
        areas: &'a Areas,
        is_second: bool,
    ) -> Result<Damages<'a>, AllocError> {
        let unchanged = found(alloc, member, areas)?;
        Ok(Damages {
            alloc,
            member,
            areas,
            is_second,
            unchanged,
            same: 0,
            other: 0,
            sum: NO_SUM,
            refused: Vec::new(alloc),
        })
    }

    /// Changes each byte of the area to each other value, opens a node each time, and shows how often each result occurred.
    pub fn report_all(&mut self, answer: &mut String) -> Reported {
        for place in 0..self.areas.of_area(self.is_second).len() {
            self.change(place)?;
        }
        self.report(answer)
    }

    fn change(&mut self, place: usize) -> Reported {
        for more in 1..=u8::MAX {
            self.open(place, more)?;
        }
        Ok(())
    }

    fn open(&mut self, place: usize, more: u8) -> Reported {
        let areas = self.areas.changed(self.alloc, self.is_second, place, more)?;
        let text = found(self.alloc, self.member, &areas)?;
        self.count(text.as_str())
    }

    fn count(&mut self, text: &str) -> Reported {
        if text == self.unchanged.as_str() {
            self.same = self.same.saturating_add(1);
            return Ok(());
        }
        if is_node(text) {
            self.other = self.other.saturating_add(1);
            self.sum = sum_after(self.sum, text.as_bytes());
            return Ok(());
        }
        add_refused(self.alloc, &mut self.refused, text)
    }

    fn report(&self, answer: &mut String) -> Reported {
        writeln!(answer, "{} the same", self.same)?;
        writeln!(answer, "{} another node, sum {}", self.other, self.sum)?;
        for Refused { text, times } in &self.refused {
            writeln!(answer, "{times} {text}")?;
        }
        Ok(())
    }
}

/// Opens a node on these areas: shows what was found, or the reason for which no node was.
fn found(alloc: Global, member: &Member, areas: &Areas) -> Result<String, AllocError> {
    let Opened { text, disks: _ } = reopened(alloc, member, Disks::of(alloc, areas)?)?;
    Ok(text)
}

fn add_refused(alloc: Global, refused: &mut Vec<Refused>, text: &str) -> Reported {
    for one in refused.iter_mut() {
        if one.text.as_str() == text {
            one.times = one.times.saturating_add(1);
            return Ok(());
        }
    }
    let text = String::from_str(alloc, text)?;
    refused.push(Refused { text, times: 1 })?;
    Ok(())
}
