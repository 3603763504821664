//! Tests of the waiter (the queue of certificates whose parents are missing), with a committee of four.

use crate::parts::members::add_members;
use crate::parts::words::{Reported, author_of, bad, list};
use committee::Committee;
use header::{Checked, passes, recheck};
use sigface::{HashSign, TableSeed};
use std::alloc::{AllocError, Global};
use waiter::Waiter;
use wire::{Author, CERTIFICATE_TAG, HEADER_TAG, Key, Message};
use wire_read::decode;

/// The committee of the test, and the waiter.
#[derive(Drop)]
pub struct Waiting {
    committee: Committee,
    waiter: Waiter,
}

/// An empty waiter, for a committee of four.
pub fn open(alloc: Global, waiting: &mut Option<Waiting>, answer: &mut String) -> Reported {
    let mut text = String::new(alloc);
    add_members(&mut text, 4)?;
    text.push_str("]\n")?;
    match Committee::read(alloc, &text) {
        Ok(committee) => {
            let waiter = Waiter::new(alloc, TableSeed::of(&HashSign::new(Key([7; 32]))));
            *waiting = Some(Waiting { committee, waiter });
            Ok(())
        }
        Err(error) => writeln!(answer, "{error}"),
    }
}

/// Offers the waiter the certificate of a round and an author, with the votes of three members from this one on.
pub fn offer(
    alloc: Global,
    waiting: &mut Option<Waiting>,
    slot: (u64, u64),
    voter: u64,
    answer: &mut String,
) -> Reported {
    let bytes = certificate(alloc, slot, voter)?;
    put(alloc, waiting, &bytes, answer)
}

/// Offers the waiter the header of member 0 for a round.
pub fn offer_header(
    alloc: Global,
    waiting: &mut Option<Waiting>,
    round: u64,
    answer: &mut String,
) -> Reported {
    let mut bytes = Vec::new(alloc);
    bytes.push(HEADER_TAG)?;
    add_body(&mut bytes, (round, 0))?;
    bytes.extend_from_slice(&[0; 64])?;
    put(alloc, waiting, &bytes, answer)
}

/// Offers the waiter the certificates of member 0 of these rounds, and shows how many of them it takes.
pub fn offer_rounds(
    alloc: Global,
    waiting: &mut Option<Waiting>,
    first: u64,
    end: u64,
    answer: &mut String,
) -> Reported {
    let Some(waiting) = waiting else {
        return bad(answer);
    };
    let mut taken: u64 = 0;
    for round in first..end {
        let bytes = certificate(alloc, (round, 0), 0)?;
        if let Some(checked) = checked(alloc, &waiting.committee, &bytes) {
            taken = taken.saturating_add(waiting.waiter.offer(checked).is_ok() as u64);
        }
    }
    list("taken", &[taken], answer)
}

/// Takes the next ready certificate of this author, or of any author, from the waiter. Shows how many certificates the waiter asked about,
/// and the round and the author of the one that was taken.
pub fn next(waiting: &mut Option<Waiting>, author: Option<u64>, answer: &mut String) -> Reported {
    let Some(waiting) = waiting else {
        return bad(answer);
    };
    let mut asked: u64 = 0;
    let ready = waiting.waiter.next_ready(|checked| {
        asked = asked.saturating_add(1);
        is_of(checked, author)
    });
    list("asked", &[asked], answer)?;
    match &ready {
        Some(checked) => report_slot(checked.message(), answer),
        None => answer.push_str("none\n"),
    }
}

/// Checks a message from this sender under the given committee. If it passes, shows whether it is a certificate that also passes under the
/// waiter's committee.
pub fn pass(
    alloc: Global,
    committee: &Option<Committee>,
    waiting: &Option<Waiting>,
    sender: u64,
    bytes: &[u8],
    answer: &mut String,
) -> Reported {
    let (Some(committee), Some(waiting), Ok(message)) = (committee, waiting, decode(alloc, bytes))
    else {
        return bad(answer);
    };
    match recheck(committee, author_of(sender), message) {
        Ok(event) => {
            let is_passed = passes(&waiting.committee, &event);
            list("passes", &[is_passed as u64], answer)
        }
        Err(error) => writeln!(answer, "{error}"),
    }
}

fn report_slot(message: &Message, answer: &mut String) -> Reported {
    match message {
        Message::Certificate(certificate) => {
            let (round, author) = (certificate.header.round, certificate.header.author);
            list("certificate", &[round.number(), author.0 as u64], answer)
        }
        _ => answer.push_str("another message\n"),
    }
}

fn is_of(checked: &Checked, author: Option<u64>) -> bool {
    match (checked.message(), author) {
        (Message::Certificate(certificate), Some(author)) => {
            certificate.header.author.0 as u64 == author
        }
        (_, wanted) => wanted.is_none(),
    }
}

fn put(
    alloc: Global,
    waiting: &mut Option<Waiting>,
    bytes: &[u8],
    answer: &mut String,
) -> Reported {
    let Some(waiting) = waiting else {
        return bad(answer);
    };
    let Some(checked) = checked(alloc, &waiting.committee, bytes) else {
        return answer.push_str("no message\n");
    };
    match waiting.waiter.offer(checked) {
        Ok(()) => answer.push_str("Ok\n"),
        Err(refusal) => writeln!(answer, "{refusal}"),
    }
}

fn checked(alloc: Global, committee: &Committee, bytes: &[u8]) -> Option<Checked> {
    let message = decode(alloc, bytes).ok()?;
    recheck(committee, Author(0), message).ok()
}

// Adds the body of a header without batches, and with the parents of members 0, 1 and 2.
fn add_body(bytes: &mut Vec<u8>, slot: (u64, u64)) -> Reported {
    bytes.extend_from_slice(&(slot.1.min(3) as u16).to_be_bytes())?;
    bytes.extend_from_slice(&slot.0.to_be_bytes())?;
    bytes.extend_from_slice(&[0, 0, 0, 3])?;
    for parent in 0..3u8 {
        bytes.extend_from_slice(&[0, parent])?;
        bytes.extend_from_slice(&[7; 32])?;
    }
    Ok(())
}

// The bytes of a certificate with the votes of three members.
fn certificate(alloc: Global, slot: (u64, u64), voter: u64) -> Result<Vec<u8>, AllocError> {
    let mut bytes = Vec::new(alloc);
    bytes.push(CERTIFICATE_TAG)?;
    add_body(&mut bytes, slot)?;
    bytes.extend_from_slice(&[0, 3])?;
    for place in 0..3u8 {
        bytes.extend_from_slice(&[0, place.saturating_add(voter.min(1) as u8)])?;
        bytes.extend_from_slice(&[0; 64])?;
    }
    Ok(bytes)
}
