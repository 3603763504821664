//! Compares two validators, and names the first thing in which they differ.

use admission::{Refusal, Step, Tables};
use batchstore::{BatchStore, Held};
use certify::Assembly;
use dag::Dag;
use sequencer::Sequencer;
use sigface::HashSign;
use std::alloc::{AllocError, Global};
use validator::Validator;
use wire::{Author, Header, Message, Output, Round, encode, encode_output};

/// The first thing in which two validators differ after an event, if there is one: the length of the order, the floor, the round or the
/// proposal.
pub fn difference(
    alloc: Global,
    one: &Validator<'_, HashSign>,
    other: &Validator<'_, HashSign>,
) -> Result<Option<&'static str>, AllocError> {
    match difference_of_orders(one.tables().sequencer(), other.tables().sequencer()) {
        None => difference_of_proposals(alloc, one, other),
        differs => Ok(differs),
    }
}

fn difference_of_orders(one: &Sequencer, other: &Sequencer) -> Option<&'static str> {
    if one.order().len() != other.order().len() {
        Some("the length of the order")
    } else if one.dag().floor() != other.dag().floor() {
        Some("the floor")
    } else if one.round() != other.round() {
        Some("the round")
    } else {
        None
    }
}

/// The first thing in which the tables of two validators with the same floor differ, if there is one: the order, the coins, the
/// certificates, their parents and marks, the votes, the batches or the own headers.
pub fn difference_of_tables(one: &Tables, other: &Tables) -> Option<&'static str> {
    let (left, right) = (one.sequencer(), other.sequencer());
    if left.order() != right.order() {
        return Some("the order");
    }
    if coins_differ(left, right) {
        return Some("the coins");
    }
    match difference_of_graphs(left.dag(), right.dag()) {
        None => difference_of_others(one, other),
        differs => differs,
    }
}

fn difference_of_others(one: &Tables, other: &Tables) -> Option<&'static str> {
    if votes_differ(one, other) {
        Some("the votes")
    } else if batches_differ(one.batches(), other.batches()) {
        Some("the batches")
    } else if headers_differ(one, other) {
        Some("the own headers")
    } else {
        None
    }
}

fn coins_differ(one: &Sequencer, other: &Sequencer) -> bool {
    let (left, right) = (one.coins(), other.coins());
    left.count() != right.count()
        || (0..left.count()).any(|place| left.nth(place) != right.nth(place))
}

fn difference_of_graphs(one: &Dag, other: &Dag) -> Option<&'static str> {
    if one.base() != other.base() {
        Some("the round of the last leader")
    } else if one.end() != other.end() {
        Some("the last round")
    } else if (one.floor().number()..one.end()).any(|round| slots_differ(one, other, round)) {
        Some("the certificates")
    } else if (one.floor().number()..one.end()).any(|round| parents_differ(one, other, round)) {
        Some("the parents")
    } else if (one.floor().number()..one.end()).any(|round| marks_differ(one, other, round)) {
        Some("the marks")
    } else {
        None
    }
}

fn slots_differ(one: &Dag, other: &Dag, number: u64) -> bool {
    let round = round_of(number);
    (0..one.committee().size()).any(|author| one.digest(round, Author(author))
        != other.digest(round, Author(author)))
}

fn parents_differ(one: &Dag, other: &Dag, number: u64) -> bool {
    let round = round_of(number);
    (0..one.committee().size()).any(|author| one.parents(round, Author(author))
        != other.parents(round, Author(author)))
}

fn marks_differ(one: &Dag, other: &Dag, number: u64) -> bool {
    let round = round_of(number);
    (0..one.committee().size()).any(|author| one.is_marked(round, Author(author))
        != other.is_marked(round, Author(author)))
}

/// Whether some slot above the genesis is marked though its certificate isn't in the order, or is in the order and not marked. A held
/// certificate that is ordered has a mark, since later leaders don't order what is marked.
pub fn marks_differ_from_order(tables: &Tables) -> bool {
    let dag = tables.sequencer().dag();
    (dag.floor().number().max(1)..dag.end()).any(|round| marks_of_round_differ(tables, round))
}

fn marks_of_round_differ(tables: &Tables, number: u64) -> bool {
    let sequencer = tables.sequencer();
    let (dag, order, round) = (sequencer.dag(), sequencer.order(), round_of(number));
    (0..dag.committee().size()).any(|author| match dag.digest(round, Author(author)) {
        Some(digest) => order.contains(digest) != dag.is_marked(round, Author(author)),
        None => false,
    })
}

/// Whether the votes differ in some round, up to the round after the last one.
fn votes_differ(one: &Tables, other: &Tables) -> bool {
    let dag = one.sequencer().dag();
    (dag.floor().number()..dag.end().saturating_add(1)).any(|round| votes_of_round_differ(
        one, other, round,
    ))
}

fn votes_of_round_differ(one: &Tables, other: &Tables, number: u64) -> bool {
    let round = round_of(number);
    (0..one.sequencer().dag().committee().size()).any(|author| one.voted(Author(author), round)
        != other.voted(Author(author), round))
}

fn batches_differ(one: &BatchStore, other: &BatchStore) -> bool {
    one.len() != other.len()
        || (0..one.len()).any(|place| match (one.nth(place), other.nth(place)) {
            (Some(left), Some(right)) => held_differs(left, right),
            _ => true,
        })
}

fn held_differs(one: &Held, other: &Held) -> bool {
    one.batch().body() != other.batch().body()
        || one.acknowledged() != other.acknowledged()
        || one.is_named() != other.is_named()
}

/// Whether the own headers differ, or the votes on them.
fn headers_differ(one: &Tables, other: &Tables) -> bool {
    let size = one.sequencer().dag().committee().size();
    let (left, right) = (one.headers(), other.headers());
    for place in 0..usize::MAX {
        match (left.nth(place), right.nth(place)) {
            (None, None) => break,
            (Some(left), Some(right)) if !assembly_differs(left, right, size) => (),
            _ => return true,
        }
    }
    false
}

/// Whether only one of two own headers is complete, or only one has a counted vote of some member.
fn assembly_differs(one: &Assembly, other: &Assembly, size: u16) -> bool {
    one.digest() != other.digest()
        || one.is_complete() != other.is_complete()
        || (0..size).any(|member| one.voted(Author(member)) != other.voted(Author(member)))
}

/// The round of a number, or the genesis if no round has this number.
fn round_of(number: u64) -> Round {
    Round::new(number).unwrap_or(Round::genesis())
}

fn difference_of_proposals(
    alloc: Global,
    one: &Validator<'_, HashSign>,
    other: &Validator<'_, HashSign>,
) -> Result<Option<&'static str>, AllocError> {
    let left = bytes_of_header(alloc, proposal(one)?)?;
    let right = bytes_of_header(alloc, proposal(other)?)?;
    match left.as_slice() == right.as_slice() {
        true => Ok(None),
        false => Ok(Some("the proposal")),
    }
}

/// The header that a validator proposes. This is a function of its own, since the contract of the call is long.
fn proposal(validator: &Validator<'_, HashSign>) -> Result<Option<Header>, AllocError> {
    validator.propose()
}

/// The bytes of a header's message; no bytes if there is no header.
fn bytes_of_header(alloc: Global, header: Option<Header>) -> Result<Vec<u8>, AllocError> {
    match header {
        None => Ok(Vec::new(alloc)),
        Some(header) => encode(alloc, &Message::Header(header)),
    }
}

/// Whether two answers are the same, with the same outputs.
pub fn same_answer(
    alloc: Global,
    one: &Result<Step, Refusal>,
    other: &Result<Step, Refusal>,
) -> Result<bool, AllocError> {
    match (one, other) {
        (Ok(Step::New(left)), Ok(Step::New(right)))
        | (Ok(Step::Known(left)), Ok(Step::Known(right))) => same_outputs(alloc, left, right),
        (Err(left), Err(right)) => Ok(*left == *right),
        _ => Ok(false),
    }
}

fn same_outputs(alloc: Global, one: &[Output], other: &[Output]) -> Result<bool, AllocError> {
    let (left, right) = (bytes_of(alloc, one)?, bytes_of(alloc, other)?);
    Ok(left.as_slice() == right.as_slice())
}

/// The bytes of these outputs, one after the other.
fn bytes_of(alloc: Global, outputs: &[Output]) -> Result<Vec<u8>, AllocError> {
    let mut bytes = Vec::new(alloc);
    for output in outputs {
        bytes.extend_from_slice(&encode_output(alloc, output)?)?;
    }
    Ok(bytes)
}
