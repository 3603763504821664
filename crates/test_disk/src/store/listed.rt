//! A model of a node and what it gives out, made of plain lists, against which the running code is tested.

use crate::store::events::{Kind, SENDERS, kind_of};
use book::Receipt;
use book::Refusal::{self, Down, Equivocation, MissingBatch, MissingParents, NotOurs, TooOld};
use std::alloc::{AllocError, Global};
use std::collections::VecDeque;

/// The model's state. Events are given by their numbers, and stand oldest first.
#[derive(Drop)]
pub struct Plain {
    /// The events with which this run began, and then those that the node accepted in it.
    pub history: Vec<u64>,
    // How long the history was when this run began, how much of it is taken into groups, and how much is settled.
    began: usize,
    taken: usize,
    settled: usize,
    /// The events whose outputs may not leave yet, each with the length of the history that must be settled first.
    waiting: VecDeque<(usize, u64)>,
    /// The events whose outputs have left the node, over all runs.
    given: Vec<u64>,
    down: bool,
}

impl Plain {
    /// The model of a node with an empty disk, which has given nothing out.
    pub fn new(alloc: Global) -> Plain {
        Plain {
            history: Vec::new(alloc),
            began: 0,
            taken: 0,
            settled: 0,
            waiting: VecDeque::new(alloc),
            given: Vec::new(alloc),
            down: false,
        }
    }

    // The node's answer to the event with this number: whether the event is new (or known already), or why it is refused.
    fn answer(&self, number: u64) -> Result<bool, Refusal> {
        if self.down {
            return Err(Down);
        }
        let kind = match kind_of(number) {
            Kind::Vote => return Err(NotOurs),
            Kind::Low => return Err(TooOld),
            Kind::Orphan => return Err(MissingParents),
            kind => kind,
        };
        let sender = number % SENDERS;
        let voted = self
            .history
            .iter()
            .find(|event| **event % SENDERS == sender);
        match voted {
            Some(event) if *event == number => Ok(false),
            Some(_) => Err(Equivocation),
            None if matches!(kind, Kind::Batched) => Err(MissingBatch),
            None => Ok(true),
        }
    }

    /// An event comes in. Returns the node's answer to it.
    pub fn accept(&mut self, number: u64) -> Result<Result<Receipt, Refusal>, AllocError> {
        let new = match self.answer(number) {
            Ok(new) => new,
            Err(refusal) => return Ok(Err(refusal)),
        };
        if new {
            self.history.push(number)?;
        }
        let end = self.history.len();
        self.waiting.push_back((end, number))?;
        let ticket = end.saturating_sub(self.began) as u64;
        Ok(Ok(Receipt { ticket, new }))
    }

    /// How many accepted events are not yet taken into a group.
    pub fn pending(&self) -> usize {
        self.history.len().saturating_sub(self.taken)
    }

    /// Takes all events that are not yet taken into a group; in these tests they always fit one.
    pub fn take(&mut self) {
        self.taken = self.history.len();
    }

    /// Notes that everything that was taken is durable.
    pub fn settle(&mut self) {
        self.settled = self.taken;
    }

    /// Notes that a device call failed, so that the node is down.
    pub fn fail(&mut self) {
        self.down = true;
    }

    /// The event whose output leaves the node next, if an output may leave.
    pub fn release(&mut self) -> Result<Option<u64>, AllocError> {
        match self.waiting.front() {
            Some((end, number)) if *end <= self.settled && !self.down => {
                let number = *number;
                let _ = self.waiting.pop_front();
                self.given.push(number)?;
                Ok(Some(number))
            }
            _ => Ok(None),
        }
    }

    /// The machine stops, and leaves the settled events on the disk, or if `leaves_taken` also those that were taken. A new run begins with
    /// them.
    pub fn stop(&mut self, leaves_taken: bool) {
        let end = if leaves_taken {
            self.taken
        } else {
            self.settled
        };
        self.history.truncate(end);
        self.began = end;
        self.taken = end;
        self.settled = end;
        self.waiting.clear();
        self.down = false;
    }

    /// Whether the node still has each event whose output left it. Then no two of these events are headers of one author and round.
    pub fn keeps_what_it_gave(&self) -> bool {
        self.given
            .iter()
            .all(|number| matches!(self.answer(*number), Ok(false)))
    }
}
