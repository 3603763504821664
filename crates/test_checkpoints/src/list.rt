//! The commands that end a list of records: a validator and the reference implementation load the list, or events are given to a validator
//! that was loaded from it.

use crate::changing::{Change, change_bytes};
use crate::loading::compare_loads;
use crate::nodes::Member;
use crate::playing::{Play, play_loaded, play_new};
use header::Node;
use ref_checkpoint::{checkpoint_read, load_answer, state_records};
use sigface::HashSign;
use sim_script::FormError;
use std::alloc::{AllocError, Global};
use test_cases::{Reported, bad};

/// A list of records, the node that loads it, and the events that the node gets afterwards.
#[derive(Clone, Copy)]
pub struct List<'l> {
    pub alloc: Global,
    pub member: &'l Member,
    pub records: &'l [Vec<u8>],
    pub events: &'l [String],
}

impl List<'_> {
    /// Answers the command that ends the list. Returns whether the list held a validator's state and was written again with the same bytes.
    pub fn obey(&self, name: &str, words: &str, answer: &mut String) -> Result<bool, AllocError> {
        match name {
            "load" | "load-all" | "load-none" => self.load(answer),
            "play" | "play-new" => {
                reported(self.play(name, words, answer), answer)?;
                Ok(false)
            }
            _ => {
                self.change(name, answer)?;
                Ok(false)
            }
        }
    }

    /// Loads the list by the reference implementation and by validators, and adds the result.
    fn load(&self, answer: &mut String) -> Result<bool, AllocError> {
        let plain = load_answer(self.alloc, &self.member.node, self.records)?;
        writeln!(answer, "{plain}")?;
        compare_loads(
            self.alloc,
            self.member,
            self.records,
            plain.as_str(),
            answer,
        )?;
        is_written_alike(self.alloc, &self.member.node, self.records, answer)
    }

    /// Gives events to a validator. The command's name says whether it was loaded from the list or is fresh.
    fn play(&self, name: &str, looks: &str, answer: &mut String) -> Result<(), FormError> {
        let play = Play {
            events: self.events,
            looks,
        };
        match name {
            "play" => play_loaded(self.alloc, self.member, self.records, play, answer),
            _ => play_new(self.alloc, self.member, play, answer),
        }
    }

    /// Changes one byte of the list at a time, and adds how often loading had which result.
    fn change(&self, name: &str, answer: &mut String) -> Reported {
        let change = match name {
            "change-values" => Change::Values,
            "change-bits" => Change::Bits,
            _ => return Ok(bad(answer)),
        };
        change_bytes(self.alloc, self.member, change, self.records, answer)
    }
}

/// Whether the list can be loaded, has records after the configuration, and is written again with the same bytes. A state has only one
/// encoding: if the bytes differ, the answer gets an extra line, which the file of test cases does not expect.
fn is_written_alike(
    alloc: Global,
    node: &Node<HashSign>,
    records: &[Vec<u8>],
    answer: &mut String,
) -> Result<bool, AllocError> {
    let rest = records.get(1..).unwrap_or(&[]);
    if rest.is_empty() {
        return Ok(false);
    }
    let Ok(checkpoint) = checkpoint_read(alloc, node, rest)? else {
        return Ok(false);
    };
    let written = state_records(alloc, &checkpoint)?;
    if written.as_slice() != rest {
        answer.push_str("written otherwise\n")?;
        return Ok(false);
    }
    Ok(true)
}

/// Adds the line for a bad command if a line of the test case could not be read. A failed allocation is returned as an error.
pub fn reported(played: Result<(), FormError>, answer: &mut String) -> Reported {
    match played {
        Ok(()) => Ok(()),
        Err(FormError::Memory) => Err(AllocError),
        Err(_) => Ok(bad(answer)),
    }
}
