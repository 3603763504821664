//! What a list shows of the records of a checkpoint's state.

use crate::ending::Ending;
use crate::listing::{Row, batch_row, certificate_row, header_row};
use crate::reporting::short_of;
use journal::{HEAD, HEAD_BYTES};
use std::alloc::Global;
use wire::WireError;
use wire_read::{Reader, batch_of, certificate_of, header_of};

// The kinds of records that a checkpoint's state has, as docs/FORMATS.md names them.
const ORDER: u8 = 3;

const BATCH: u8 = 4;

const VOTE: u8 = 5;

const HEADER: u8 = 6;

const CERTIFICATE: u8 = 7;

const COINS: u8 = 8;

/// The length of a vote's record, in bytes: its kind, author, round and header digest.
const VOTE_BYTES: usize = 43;

/// How many bytes of a batch's record come before the members who acknowledged it: kind, whether it is named, and the number of members.
const BATCH_FRONT_BYTES: usize = 4;

/// The length of a member's number, in bytes.
const MEMBER_BYTES: usize = 2;

/// The row for a record that is neither a configuration nor an event.
pub(crate) fn kept_row(alloc: Global, record: &[u8]) -> Result<Row, Ending> {
    let Some((kind, rest)) = record.split_first() else {
        return Ok(Row::of("unreadable"));
    };
    match *kind {
        HEAD if record.len() == HEAD_BYTES => Ok(Row::of("head")),
        ORDER => Ok(Row::of("state-order")),
        BATCH => kept_batch(alloc, record),
        VOTE => Ok(kept_vote(record)),
        HEADER => match header_of(alloc, &mut Reader::new(rest)) {
            Ok(header) => Ok(header_row("state-header", &header)),
            Err(error) => unreadable(error),
        },
        CERTIFICATE => match certificate_of(alloc, &mut Reader::new(rest)) {
            Ok(certificate) => Ok(certificate_row("state-certificate", &certificate)),
            Err(error) => unreadable(error),
        },
        COINS => Ok(Row::of("state-coins")),
        _ => Ok(Row::of("unreadable")),
    }
}

fn unreadable(error: WireError) -> Result<Row, Ending> {
    match error {
        WireError::Memory => Err(Ending::Memory),
        _ => Ok(Row::of("unreadable")),
    }
}

// The row for the record of a batch in a checkpoint.
fn kept_batch(alloc: Global, record: &[u8]) -> Result<Row, Ending> {
    if record.len() < BATCH_FRONT_BYTES {
        return Ok(Row::of("unreadable"));
    }
    let members = u16::from_be_bytes([record[2], record[3]]) as usize;
    let Some(body) = record.get(BATCH_FRONT_BYTES + members * MEMBER_BYTES..) else {
        return Ok(Row::of("unreadable"));
    };
    match batch_of(alloc, &mut Reader::new(body)) {
        Ok(batch) => Ok(batch_row("state-batch", &batch)),
        Err(error) => unreadable(error),
    }
}

// The row for the record of a vote in a checkpoint.
fn kept_vote(record: &[u8]) -> Row {
    if record.len() != VOTE_BYTES {
        return Row::of("unreadable");
    }
    let author = u16::from_be_bytes([record[1], record[2]]);
    let round = u64::from_be_bytes([
        record[3], record[4], record[5], record[6], record[7], record[8], record[9], record[10],
    ]);
    Row {
        author: Some(author as u64),
        round: Some(round),
        digest: Some(short_of([record[11], record[12], record[13], record[14]])),
        ..Row::of("state-vote")
    }
}
