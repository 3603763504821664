//! The reference implementation of a node's tables, which is given the same events as a validator.

use crate::definitions::validating::same::{difference, same_answer};
use header::{Admission, Event, Node, Refusal};
use ref_machine::{Tables, after, answered, fresh};
use sigface::HashSign;
use std::alloc::{AllocError, Global};
use validator::{Step, Validator};
use wire::Header;

/// The tables of the reference implementation, which are lists, and how many events they were given.
#[derive(Drop)]
pub struct Beside {
    alloc: Global,
    node: Node<HashSign>,
    tables: Tables,
    taken: u64,
    most: u64,
}

impl Beside {
    /// Empty tables of a node, which take at most this many events.
    pub fn new(alloc: Global, node: Node<HashSign>, most: u64) -> Result<Beside, AllocError> {
        let tables = fresh(alloc, &node)?;
        Ok(Beside {
            alloc,
            node,
            tables,
            taken: 0,
            most,
        })
    }

    /// Whether the tables are given one more event. They are slow, so they are given only the first events.
    pub fn goes_on(&self) -> bool {
        self.taken < self.most
    }

    /// How many events the tables took.
    pub fn compared(&self) -> u64 {
        self.taken
    }

    /// Gives the tables an event that the validator was given. Returns in what the two differ then, if they do.
    pub fn take(
        &mut self,
        validator: &Validator<'_, HashSign>,
        event: &Event,
        is_ready: bool,
        step: &Result<Step, Refusal>,
        proposal: Option<&Header>,
    ) -> Result<Option<&'static str>, AllocError> {
        self.taken = self.taken.saturating_add(1);
        match self.answer(event, is_ready, step)? {
            None => difference(self.alloc, &self.node, validator, &self.tables, proposal),
            differs => Ok(differs),
        }
    }

    /// Answers an event, and returns in what the answer differs from the validator's, if it does.
    fn answer(
        &mut self,
        event: &Event,
        is_ready: bool,
        step: &Result<Step, Refusal>,
    ) -> Result<Option<&'static str>, AllocError> {
        let plain = answered(self.alloc, &self.node, &self.tables, event)?;
        if plain.is_new() {
            self.follow(event)?;
        }
        if is_ready == matches!(plain, Admission::Refused(Refusal::MissingParents)) {
            return Ok(Some("ready"));
        }
        match same_answer(self.alloc, step, &plain)? {
            true => Ok(None),
            false => Ok(Some("the answer")),
        }
    }

    /// Applies a new event to the tables.
    fn follow(&mut self, event: &Event) -> Result<(), AllocError> {
        let tables = self.tables.try_clone(self.alloc)?;
        self.tables = after(self.alloc, &self.node, tables, event)?;
        Ok(())
    }
}
