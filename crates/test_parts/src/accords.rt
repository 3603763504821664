//! The tests of pairs of histories of two nodes of one committee: what their orders have in common. `oracles/accords.py` draws the
//! histories and computes the expected answers.

mod agreeing;
mod alike;
mod counting;
mod legal;
mod made;
mod playing;

use crate::definitions::committee_of;
use crate::parts::parted;
use counting::Counts;
use made::Made;
use playing::{Played, play_words};
use sim_script::{BATCHES, FormError};
use std::alloc::{AllocError, Global};

/// The state of the test cases on pairs of histories: the committee, the headers, the last history, and the number of pairs so far.
#[derive(Drop)]
pub struct Accords {
    alloc: Global,
    depth: u64,
    stakes: String,
    made: Made,
    last: Option<Played>,
    counts: Counts,
}

impl Accords {
    /// The state before the first command: no committee, and no pairs.
    pub fn new(alloc: Global) -> Accords {
        Accords {
            alloc,
            depth: 0,
            stakes: String::new(alloc),
            made: Made::new(alloc),
            last: None,
            counts: Counts::none(),
        }
    }

    /// Carries out a command, and adds the lines of its answer.
    pub fn obey(&mut self, command: &str, answer: &mut String) -> Result<(), AllocError> {
        match self.run(command, answer) {
            Ok(()) => Ok(()),
            Err(FormError::Memory) => Err(AllocError),
            Err(_) => answer.push_str("bad case\n"),
        }
    }

    fn run(&mut self, command: &str, answer: &mut String) -> Result<(), FormError> {
        let (name, words) = parted(command, ' ');
        match name {
            "committee" => self.gather(words),
            "made" => self.make(words),
            "first" => self.begin(words),
            "next" => self.follow(words, answer),
            "counts" => Ok(self.report_counts(answer)?),
            _ => Err(FormError::BadCommand),
        }
    }

    /// Reads the committee of the next pairs: its depth (how many rounds a leader reaches down), then the stakes, separated by commas.
    fn gather(&mut self, words: &str) -> Result<(), FormError> {
        let (depth, stakes) = parted(words, ' ');
        self.depth = depth.parse().unwrap_or(0);
        self.stakes = String::from_str(self.alloc, stakes)?;
        Ok(())
    }

    fn make(&mut self, words: &str) -> Result<(), FormError> {
        self.made = Made::read(self.alloc, words)?;
        Ok(())
    }

    fn begin(&mut self, words: &str) -> Result<(), FormError> {
        self.last = Some(self.play(words)?);
        Ok(())
    }

    fn play(&self, words: &str) -> Result<Played, FormError> {
        let committee = committee_of(self.alloc, self.stakes.as_str(), self.depth, BATCHES)?;
        play_words(self.alloc, committee, &self.made, words)
    }

    /// Plays a history of events, and adds to the answer what it and the history played before it have in common.
    fn follow(&mut self, words: &str, answer: &mut String) -> Result<(), FormError> {
        let next = self.play(words)?;
        if let Some(last) = &self.last {
            self.counts.add(self.alloc, last, &next, answer)?;
        }
        self.last = Some(next);
        Ok(())
    }

    fn report_counts(&mut self, answer: &mut String) -> Result<(), AllocError> {
        self.counts.report(answer)?;
        self.counts = Counts::none();
        Ok(())
    }
}
