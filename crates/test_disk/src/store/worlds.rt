//! Random lists of steps and stops, carried out by the running code and compared with a model of plain lists.

use crate::committees::{SEVEN, own_config};
use crate::store::lists::Lists;
use crate::store::words::{Reported, Word, put, put_count, reported_bad};
use std::alloc::Global;

/// The results of all lists.
#[derive(Drop)]
pub struct Worlds {
    alloc: Global,
    /// Each command that was played, with its answer.
    report: String,
}

impl Worlds {
    /// The state before the first command.
    pub fn new(alloc: Global) -> Worlds {
        let report = String::new(alloc);
        Worlds { alloc, report }
    }

    /// The report that is printed.
    pub fn report(&self) -> &[u8] {
        self.report.as_bytes()
    }

    /// `lists COUNT STEPS START` makes `COUNT` lists of `STEPS` steps each, with random numbers from a start value.
    pub fn obey(&mut self, words: &[Word], answer: &mut String) -> Reported {
        match words {
            [
                Word::Number(count),
                Word::Number(steps),
                Word::Number(start),
            ] => self.play(*count, *steps, *start, answer),
            _ => reported_bad(answer),
        }
    }

    fn play(&mut self, count: u64, steps: u64, start: u64, answer: &mut String) -> Reported {
        let config = own_config(self.alloc, &SEVEN)?;
        let lists = Lists::new(self.alloc, &config, start)?;
        play(lists, count, steps, answer)?;
        put_count(&mut self.report, "", count, " lists");
        put_count(&mut self.report, " of ", steps, " steps");
        put_count(&mut self.report, ", drawn from ", start, "\n");
        put(&mut self.report, answer.as_str());
        Ok(())
    }
}

/// Makes this many lists of this many steps each, and adds the results.
fn play(mut lists: Lists<'_>, count: u64, steps: u64, answer: &mut String) -> Reported {
    for _ in 0..count {
        lists.play(steps)?;
    }
    lists.write_to(answer)
}
