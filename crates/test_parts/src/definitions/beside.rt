//! Compares the tables of a node with what the definitions say of its history: the answers to an event, and what is held and decided after
//! it.

use crate::definitions::looking::proposal_line;
use crate::definitions::played::{Played, report_kind};
use crate::definitions::searching::past;
use crate::definitions::showing::{add, batch_label, order, outputs};
use crate::parts::{list, whether};
use header::{Admission, Event, Refusal};
use ref_admission::proposing::propose;
use ref_machine::{Tables, after, answered, fresh, is_ready, proposed, round_in};
use ref_order::certificates::{floor, round};
use ref_order::held::{Held, floor_in};
use std::alloc::AllocError;
use wire::{Batch, Digest, Header, batch_digest};

/// Adds what the history says and what the tables say of something, if these texts differ.
pub fn same(
    what: &str,
    by_history: String,
    by_tables: String,
    answer: &mut String,
) -> Result<(), AllocError> {
    if by_history == by_tables {
        return Ok(());
    }
    writeln!(
        answer,
        "{what} by the history:\n{by_history}{what} by the tables:\n{by_tables}"
    )
}

// ---- answers

/// The text of an answer to an event, with its outputs.
pub fn reported(played: &Played, found: &Admission) -> Result<String, AllocError> {
    let mut text = String::new(played.alloc);
    report(played, found, &mut text)?;
    Ok(text)
}

/// Adds the text of an answer to an event, with its outputs.
pub fn report(played: &Played, found: &Admission, text: &mut String) -> Result<(), AllocError> {
    report_kind(found, text)?;
    match found {
        Admission::New(list) | Admission::Known(list) => outputs(
            &played.labels,
            list.as_slice(),
            text,
        ),
        Admission::Refused(_) => Ok(()),
    }
}

fn lacks_parents(found: &Admission) -> bool {
    matches!(found, Admission::Refused(Refusal::MissingParents))
}

/// Compares the answer that the history gives to its last event with the answer of the tables, to which the event wasn't applied yet.
pub fn compare_answers(
    played: &Played,
    found: &Admission,
    answer: &mut String,
) -> Result<(), AllocError> {
    let Some(event) = played.history.last() else {
        return Ok(());
    };
    let by_tables = answer_by_tables(played, event)?;
    same("answer", reported(played, found)?, by_tables, answer)?;
    let is_ready = is_ready(played.alloc, &played.node, &played.tables, event)?;
    match is_ready == lacks_parents(found) {
        true => whether("ready by the tables:", is_ready, answer),
        false => Ok(()),
    }
}

fn answer_by_tables(played: &Played, event: &Event) -> Result<String, AllocError> {
    let found = answered(played.alloc, &played.node, &played.tables, event)?;
    reported(played, &found)
}

/// What tables that are empty at first answer to each of these events.
pub fn answers_by_tables(played: &Played, events: &[Event]) -> Result<String, AllocError> {
    let mut tables = fresh(played.alloc, &played.node)?;
    let mut text = String::new(played.alloc);
    for event in events {
        tables = answer_next(played, tables, event, &mut text)?;
    }
    Ok(text)
}

/// Adds the answer of the tables to an event, and returns the tables after the event.
fn answer_next(
    played: &Played,
    tables: Tables,
    event: &Event,
    text: &mut String,
) -> Result<Tables, AllocError> {
    match report_next(played, &tables, event, text)? {
        true => after(played.alloc, &played.node, tables, event),
        false => Ok(tables),
    }
}

/// Adds the answer of the tables to an event, and returns whether the event is new.
fn report_next(
    played: &Played,
    tables: &Tables,
    event: &Event,
    text: &mut String,
) -> Result<bool, AllocError> {
    let found = answered(played.alloc, &played.node, tables, event)?;
    report(played, &found, text)?;
    Ok(found.is_new())
}

// ---- states

/// Compares the order, the floor and the round that the history and the tables give.
pub fn compare_states(played: &Played, answer: &mut String) -> Result<(), AllocError> {
    let by_history = decided_by_history(played)?;
    same("decided", by_history, decided_by_tables(played)?, answer)
}

fn decided_by_history(played: &Played) -> Result<String, AllocError> {
    let (alloc, node, history) = (played.alloc, &played.node, played.history.as_slice());
    let (floor, round) = (floor(alloc, node, history)?, round(alloc, node, history)?);
    decided(played, &past(played), floor, round)
}

fn decided_by_tables(played: &Played) -> Result<String, AllocError> {
    let (node, tables) = (&played.node, &played.tables);
    let floor = floor_in(played.alloc, node, tables)?;
    decided(played, tables, floor, round_in(node, tables))
}

/// The text of the floor, the round and the order.
fn decided<H: Held>(
    played: &Played,
    held: &H,
    floor: u64,
    round: u64,
) -> Result<String, AllocError> {
    let mut text = format!(in played.alloc; "floor {floor}, round {round}, order")?;
    order(&played.labels, &held.order(played.alloc)?, &mut text)?;
    Ok(text)
}

/// Compares what the history and the tables hold, also below the floor, and the headers that they propose.
pub fn compare_held(played: &Played, answer: &mut String) -> Result<(), AllocError> {
    let (alloc, node) = (played.alloc, &played.node);
    let proposal = propose(alloc, node, &played.history)?;
    let by_history = held_by(played, &past(played), proposal)?;
    let proposal = proposed(alloc, node, &played.tables)?;
    let by_tables = held_by(played, &played.tables, proposal)?;
    same("held", by_history, by_tables, answer)
}

/// The text of what is held, and of the header that is proposed.
fn held_by<H: Held>(
    played: &Played,
    held: &H,
    proposal: Option<Header>,
) -> Result<String, AllocError> {
    let mut text = String::new(played.alloc);
    add_held(played, held, &mut text)?;
    proposal_line(&played.labels, proposal, &mut text)?;
    Ok(text)
}

/// Adds the batches, who acknowledged them, which of them were named in own headers, the greatest round of a certificate, and the coins.
fn add_held<H: Held>(played: &Played, held: &H, text: &mut String) -> Result<(), AllocError> {
    add_batches(played, held, text)?;
    list("highest", &[held.highest(played.alloc)?], text)?;
    list("coins", &held.coins(played.alloc)?, text)
}

fn add_batches<H: Held>(played: &Played, held: &H, text: &mut String) -> Result<(), AllocError> {
    for batch in &held.batches(played.alloc)? {
        batch_line(played, held, batch, text)?;
    }
    Ok(())
}

/// The line of a batch: the batch that is found by its digest, whether an own header named it, and who acknowledged it.
fn batch_line<H: Held>(
    played: &Played,
    held: &H,
    batch: &Batch,
    text: &mut String,
) -> Result<(), AllocError> {
    let digest = batch_digest(batch);
    let found = match held.batch(&digest) {
        None => "none",
        Some(found) => batch_label(&played.labels, &batch_digest(found)),
    };
    add("batch ", batch_label(&played.labels, &digest), text)?;
    add(", found ", found, text)?;
    whether(", named", held.was_named(&digest), text)?;
    ackers(played, held, &digest, text)
}

fn ackers<H: Held>(
    played: &Played,
    held: &H,
    digest: &Digest,
    text: &mut String,
) -> Result<(), AllocError> {
    for member in 0..played.node.size() {
        if held.has_acked(digest, member) {
            write!(text, " {member}")?;
        }
    }
    text.push_str("\n")
}
