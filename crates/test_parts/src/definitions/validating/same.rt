//! Compares what a validator answers and holds with the reference implementation of its tables.

use crate::definitions::validating::seen::seen_of;
use header::{Admission, Node, Refusal};
use ref_machine::{Tables, proposed, round_in};
use ref_order::held::{Held, floor_in};
use sigface::HashSign;
use std::alloc::{AllocError, Global};
use validator::{Step, Validator};
use wire::{Author, Digest, Header, Message, Output, Round, encode, encode_output};

/// The bytes of these outputs, one after the other.
fn bytes_of(alloc: Global, outputs: &[Output]) -> Result<Vec<u8>, AllocError> {
    let mut bytes = Vec::new(alloc);
    for output in outputs {
        bytes.extend_from_slice(&encode_output(alloc, output)?)?;
    }
    Ok(bytes)
}

fn same_outputs(alloc: Global, one: &[Output], other: &[Output]) -> Result<bool, AllocError> {
    let (one, other) = (bytes_of(alloc, one)?, bytes_of(alloc, other)?);
    Ok(one.as_slice() == other.as_slice())
}

/// Whether a step is the answer of the reference implementation, with the same outputs.
pub fn same_answer(
    alloc: Global,
    step: &Result<Step, Refusal>,
    plain: &Admission,
) -> Result<bool, AllocError> {
    match (step, plain) {
        (Ok(Step::New(outputs)), Admission::New(others))
        | (Ok(Step::Known(outputs)), Admission::Known(others)) => {
            same_outputs(alloc, outputs, others.as_slice())
        }
        (Err(refusal), Admission::Refused(other)) => Ok(*refusal == *other),
        _ => Ok(false),
    }
}

/// The name of the first thing in which a validator differs from the tables of the reference implementation, if there is one.
pub fn difference(
    alloc: Global,
    node: &Node<HashSign>,
    validator: &Validator<'_, HashSign>,
    tables: &Tables,
    proposal: Option<&Header>,
) -> Result<Option<&'static str>, AllocError> {
    let floor = floor_in(alloc, node, tables)?;
    match difference_but_proposal(node, validator, tables, floor) {
        None => difference_of_proposal(alloc, node, tables, proposal),
        differs => Ok(differs),
    }
}

fn difference_of_proposal(
    alloc: Global,
    node: &Node<HashSign>,
    tables: &Tables,
    proposal: Option<&Header>,
) -> Result<Option<&'static str>, AllocError> {
    let by_tables = proposed(alloc, node, tables)?;
    match same_header(alloc, proposal, by_tables.as_ref())? {
        true => Ok(None),
        false => Ok(Some("the proposal")),
    }
}

fn difference_but_proposal(
    node: &Node<HashSign>,
    validator: &Validator<'_, HashSign>,
    tables: &Tables,
    floor: u64,
) -> Option<&'static str> {
    let (seen, round) = (seen_of(validator), round_in(node, tables));
    if seen.order != tables.order.as_slice() {
        Some("the order")
    } else if seen.floor != floor {
        Some("the floor")
    } else if seen.round != round {
        Some("the round")
    } else if !votes_are_same(node, validator, tables, round) {
        Some("the votes")
    } else {
        None
    }
}

/// Whether the node's votes are the same in all rounds, up to the round after this one.
fn votes_are_same(
    node: &Node<HashSign>,
    validator: &Validator<'_, HashSign>,
    tables: &Tables,
    round: u64,
) -> bool {
    (0..round.min(Round::MAX - 1) + 2).all(|number| round_is_same(node, validator, tables, number))
}

fn round_is_same(
    node: &Node<HashSign>,
    validator: &Validator<'_, HashSign>,
    tables: &Tables,
    number: u64,
) -> bool {
    let round = Round::new(number).unwrap_or(Round::genesis());
    (0..node.size()).all(|author| {
        let voted: Option<Digest> = validator.voted(Author(author), round);
        voted == tables.voted_digest(number, author)
    })
}

fn same_header(
    alloc: Global,
    one: Option<&Header>,
    other: Option<&Header>,
) -> Result<bool, AllocError> {
    let one = bytes_of_header(alloc, one)?;
    let other = bytes_of_header(alloc, other)?;
    Ok(one.as_slice() == other.as_slice())
}

/// The bytes of a header's message; no bytes if there is no header.
fn bytes_of_header(alloc: Global, header: Option<&Header>) -> Result<Vec<u8>, AllocError> {
    match header {
        None => Ok(Vec::new(alloc)),
        Some(header) => encode(alloc, &Message::Header(header.try_clone()?)),
    }
}
