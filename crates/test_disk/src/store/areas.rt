//! Lists of steps on a journal on two areas. `oracles/worlds.py` draws them, and computes the result of each in a world of plain lists.

use crate::store::area_runs::Run;
use crate::store::area_steps::steps_of;
use crate::store::words::Reported;
use book::EVENT_RECORD;
use sigface::HashSign;
use std::alloc::Global;
use validator::Config;
use wire::Author;

/// An event of the lists of steps.
#[derive(Drop)]
pub struct Listed {
    pub sender: Author,
    pub message: Vec<u8>,
    /// The record of the event.
    pub record: Vec<u8>,
}

/// The events that the steps of a test case may bring in, by their numbers.
#[derive(Drop)]
pub struct AreaLists<'a> {
    alloc: Global,
    config: &'a Config<HashSign>,
    events: Vec<Listed>,
}

impl<'a> AreaLists<'a> {
    /// The state before the first test case.
    pub fn new(alloc: Global, config: &'a Config<HashSign>) -> AreaLists<'a> {
        let events = Vec::new(alloc);
        AreaLists {
            alloc,
            config,
            events,
        }
    }

    /// Begins a test case.
    pub fn begin(&mut self) {
        self.events = Vec::new(self.alloc);
    }

    /// `event SENDER MESSAGE` adds an event.
    pub fn add(&mut self, sender: u64, message: &[u8]) -> Reported {
        let sender = Author(u16::try_from(sender).unwrap_or(u16::MAX));
        let [high, low] = sender.0.to_be_bytes();
        let mut record = vec![in self.alloc; EVENT_RECORD, high, low]?;
        record.extend_from_slice(message)?;
        let message = message.to_vec(self.alloc)?;
        self.events.push(Listed {
            sender,
            message,
            record,
        })?;
        Ok(())
    }

    /// `areas STEP ..` makes these steps, beginning with two empty areas.
    pub fn play(&self, steps: &str, answer: &mut String) -> Reported {
        let steps = steps_of(self.alloc, steps)?;
        Run::new(self.alloc, self.config, &self.events)?.play(&steps, answer)
    }
}
