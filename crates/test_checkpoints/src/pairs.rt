//! The commands that set the bytes of both areas of a journal, and those that open them.

use crate::areas::{Areas, add_batches};
use crate::damaging::Damages;
use crate::migrating::{report_lengths, report_opened, report_opened_alone};
use crate::nodes::Member;
use crate::records::bytes_in;
use crate::stopping::Trial;
use std::alloc::Global;
use test_cases::{Reported, bad};

/// Both areas of a journal, as the commands of the test case so far have set them.
#[derive(Drop)]
pub struct Pair {
    alloc: Global,
    areas: Areas,
}

impl Pair {
    /// The state before the first test case of a file.
    pub fn new(alloc: Global) -> Pair {
        Pair {
            alloc,
            areas: Areas::none(alloc),
        }
    }

    /// Begins a new test case: both areas are empty again.
    pub fn begin(&mut self) {
        self.areas = Areas::none(self.alloc);
    }

    /// Whether a command of this name is carried out by `obey`.
    pub fn has(&self, name: &str) -> bool {
        match name {
            "first" | "second" | "batches" => true,
            "open" | "open-failing" | "open-stopping" | "open-cut" | "open-changed" => true,
            "open-alone" => true,
            _ => false,
        }
    }

    /// Carries out a command for this node, and adds the lines of its answer.
    pub fn obey(
        &mut self,
        member: &Option<Member>,
        name: &str,
        words: &str,
        answer: &mut String,
    ) -> Reported {
        match (name, member) {
            ("first" | "second", _) => self.set(name, words, answer),
            ("batches", _) => self.add(words, answer),
            (_, Some(member)) => self.open(member, name, words, answer),
            _ => Ok(bad(answer)),
        }
    }

    /// Sets the bytes of an area to the digits after the colon.
    fn set(&mut self, name: &str, words: &str, answer: &mut String) -> Reported {
        let digits = words.strip_prefix(":").unwrap_or(words);
        match (name, bytes_in(self.alloc, digits)?) {
            ("first", Some(bytes)) => self.areas.first = bytes,
            ("second", Some(bytes)) => self.areas.second = bytes,
            _ => bad(answer),
        }
        Ok(())
    }

    /// Appends a group of batches to an area. The words are the area's name, the number of the first batch, and how many batches there are.
    fn add(&mut self, words: &str, answer: &mut String) -> Reported {
        let words: Vec<&str> = words.split(' ').collect(self.alloc)?;
        let [name, from, count] = words.as_slice() else {
            return Ok(bad(answer));
        };
        match (*name, from.parse::<u32>(), count.parse::<u32>()) {
            ("first", Ok(from), Ok(count)) => add_batches(&mut self.areas.first, from, count),
            ("second", Ok(from), Ok(count)) => add_batches(&mut self.areas.second, from, count),
            _ => Ok(bad(answer)),
        }
    }

    /// Opens a node on both areas. The command's name chooses what is tried: no failure, each device call failing in turn, stops of the
    /// machine, an area cut to each length, or an area changed in each byte.
    fn open(&self, member: &Member, name: &str, words: &str, answer: &mut String) -> Reported {
        let (alloc, areas) = (self.alloc, &self.areas);
        match (name, words) {
            ("open", "") => report_opened(alloc, member, areas, answer),
            ("open-alone", "") => report_opened_alone(alloc, member, &areas.first, answer),
            ("open-failing", "") => Trial::new(alloc, member, areas)?.report_failing(answer),
            ("open-stopping", "") => Trial::new(alloc, member, areas)?.report_stopping(answer),
            ("open-cut", "first") => report_lengths(alloc, member, areas, false, answer),
            ("open-cut", "second") => report_lengths(alloc, member, areas, true, answer),
            ("open-changed", "first") => report_changed(alloc, member, areas, false, answer),
            ("open-changed", "second") => report_changed(alloc, member, areas, true, answer),
            _ => Ok(bad(answer)),
        }
    }
}

fn report_changed(
    alloc: Global,
    member: &Member,
    areas: &Areas,
    is_second: bool,
    answer: &mut String,
) -> Reported {
    Damages::new(alloc, member, areas, is_second)?.report_all(answer)
}
