//! Tests of the order and of what it is made from: votes, batches, a DAG, and certificates and coins in the order of their arrival.

use crate::parts::committees::committee_of;
use crate::parts::graphs::graph;
use crate::parts::playing::play_words;
use crate::parts::stores::store;
use crate::parts::votes::assemble;
use crate::parts::words::{Reported, list, numbers_in, parted};
use committee::Committee;
use std::alloc::Global;

/// The committee of a test case.
#[derive(Drop)]
pub struct Ordering {
    alloc: Global,
    committee: Option<Committee>,
}

impl Ordering {
    /// The state before the first test case: no committee.
    pub fn new(alloc: Global) -> Ordering {
        Ordering {
            alloc,
            committee: None,
        }
    }

    fn read(&mut self, words: &str, answer: &mut String) -> Reported {
        let (words, line) = parted(words, '|');
        let stakes = numbers_in(self.alloc, words)?;
        match committee_of(self.alloc, &stakes, line)? {
            Ok(committee) => {
                self.committee = Some(committee);
                Ok(())
            }
            Err(error) => writeln!(answer, "{error}"),
        }
    }

    /// Begins a test case.
    pub fn begin(&mut self) {
        self.committee = None;
    }

    /// Carries out a command. `committee` gives the stakes and, after `|`, another line of the committee file; any other name is that of a
    /// table, or asks the committee.
    pub fn obey(&mut self, name: &str, words: &str, answer: &mut String) -> Reported {
        if name == "committee" {
            return self.read(words, answer);
        }
        match &self.committee {
            Some(committee) => ask(self.alloc, committee, name, words, answer),
            None => answer.push_str("no committee\n"),
        }
    }
}

/// Whether a command of this name is about a committee, what it assembles, or its order.
pub fn is_ordering(name: &str) -> bool {
    match name {
        "committee" | "quorum" | "assemble" | "store" | "dag" | "play" => true,
        _ => false,
    }
}

fn ask(
    alloc: Global,
    committee: &Committee,
    name: &str,
    words: &str,
    answer: &mut String,
) -> Reported {
    match name {
        "quorum" => list(name, &[committee.quorum()], answer),
        "assemble" => assemble(alloc, committee, words, answer),
        "store" => store(alloc, committee, words, answer),
        "dag" => graph(alloc, committee, words, answer),
        "play" => play_words(alloc, committee, words, answer),
        _ => answer.push_str("bad command\n"),
    }
}
