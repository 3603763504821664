//! Lists the records of a journal's file as their bytes are: the groups have to be whole, but the records are not checked.

use crate::ending::Ending;
use crate::kept_rows::kept_row;
use crate::reporting::{Column, put_line, short};
use journal::{CLOSED, MAX_GROUP_BYTES, MAX_GROUP_RECORDS};
use journal_account::{EVENT, FRONT_BYTES, Flaw, Why, own_number};
use std::alloc::Global;
use std::io::Write;
use wire::{
    Batch, Certificate, Header, Message, WireError, batch_digest, certificate_digest, header_digest,
};
use wire_read::decode;

/// The names of a list's columns.
pub(crate) const COLUMNS: [&str; 8] = [
    "place", "gate", "kind", "sender", "author", "round", "wave", "digest",
];

/// How many bytes there are from a gate to the body of its group: the gate, and the length of the body.
const FRONT_OF_BODY: u64 = 5;

/// What a list shows of a record. What the record doesn't have is None, and shown as missing.
#[derive(Clone, Copy)]
pub(crate) struct Row {
    pub kind: &'static str,
    pub sender: Option<u64>,
    pub author: Option<u64>,
    pub round: Option<u64>,
    pub wave: Option<u64>,
    pub digest: Option<u32>,
}

impl Row {
    /// A row that shows the record's kind and nothing else.
    pub fn of(kind: &'static str) -> Row {
        Row {
            kind,
            sender: None,
            author: None,
            round: None,
            wave: None,
            digest: None,
        }
    }
}

/// Writes a line for each record of the groups from this place on, in bytes: of the groups after open gates, and of the one group that may
/// follow the closed gate. Places are counted from `base`.
///
/// # Errors
/// `Flawed` with the place of an open gate after which there is no whole group, once the groups before it were listed; `Memory`; `Output`.
pub(crate) fn list<W: Write>(
    alloc: Global,
    bytes: &[u8],
    base: u64,
    from: u64,
    json: bool,
    writer: &mut W,
) -> Result<(), Ending> {
    if bytes.len() < 2 {
        return Ok(());
    }
    let (mut rest, mut place): (&[u8], u64) = (bytes, base);
    for _ in 0..bytes.len() {
        let Some((gate, following)) = rest.split_first() else {
            return Ok(());
        };
        let is_open = *gate != CLOSED;
        let Some((body, after)) = split_group(following) else {
            return end_at(place, is_open);
        };
        if place >= from {
            list_group(alloc, place, is_open, body, json, writer)?;
        }
        if !is_open {
            return Ok(());
        }
        place = place
            .saturating_add(FRONT_OF_BODY)
            .saturating_add(body.len() as u64);
        rest = after;
    }
    Ok(())
}

// The result of a list that ends at this place, since no whole group follows there. It is a flaw if the gate is open.
fn end_at(place: u64, is_open: bool) -> Result<(), Ending> {
    if is_open {
        Err(Ending::Flawed(Flaw::at(place, Why::Group)))
    } else {
        Ok(())
    }
}

// The number in the length field with which the bytes start, and the bytes after it.
fn split_length(bytes: &[u8]) -> Option<(usize, &[u8])> {
    match bytes {
        [first, second, third, fourth, rest @ ..] => {
            let len = u32::from_be_bytes([*first, *second, *third, *fourth]);
            Some((len as usize, rest))
        }
        _ => None,
    }
}

// The body of the group after a gate, and the bytes after it. None unless the body has whole records, and the next gate is there too.
fn split_group(bytes: &[u8]) -> Option<(&[u8], &[u8])> {
    let (len, rest) = split_length(bytes)?;
    if len == 0 || len > MAX_GROUP_BYTES || rest.len() <= len {
        return None;
    }
    let (body, after) = rest.split_at(len);
    if is_whole(body) {
        Some((body, after))
    } else {
        None
    }
}

// The first record in the bytes, and the bytes after it. None if the record isn't whole.
fn split_record(bytes: &[u8]) -> Option<(&[u8], &[u8])> {
    let (len, rest) = split_length(bytes)?;
    if rest.len() < len {
        return None;
    }
    Some(rest.split_at(len))
}

// Whether a group's body consists of whole records, and not too many.
fn is_whole(body: &[u8]) -> bool {
    let mut rest = body;
    for _ in 0..MAX_GROUP_RECORDS {
        if rest.is_empty() {
            return true;
        }
        let Some((_, after)) = split_record(rest) else {
            return false;
        };
        rest = after;
    }
    rest.is_empty()
}

// Writes a line for each record of a group.
fn list_group<W: Write>(
    alloc: Global,
    place: u64,
    is_open: bool,
    body: &[u8],
    json: bool,
    writer: &mut W,
) -> Result<(), Ending> {
    let mut rest = body;
    for _ in 0..MAX_GROUP_RECORDS {
        let Some((record, after)) = split_record(rest) else {
            return Ok(());
        };
        let row = row_of(alloc, record)?;
        put_row(place, is_open, row, json, writer)?;
        rest = after;
    }
    Ok(())
}

fn put_row<W: Write>(
    place: u64,
    is_open: bool,
    row: Row,
    json: bool,
    writer: &mut W,
) -> Result<(), Ending> {
    let gate = if is_open { "open" } else { "closed" };
    put_line(
        json,
        &COLUMNS,
        &[
            Column::Number(Some(place)),
            Column::Word(gate),
            Column::Word(row.kind),
            Column::Number(row.sender),
            Column::Number(row.author),
            Column::Number(row.round),
            Column::Number(row.wave),
            Column::Short(row.digest),
        ],
        writer,
    )
}

// The row for a record.
fn row_of(alloc: Global, record: &[u8]) -> Result<Row, Ending> {
    if record.first() == Some(&0) {
        let own = own_number(record).map(|own| own.0 as u64);
        return Ok(Row {
            sender: own,
            ..Row::of("configuration")
        });
    }
    if record.first() != Some(&EVENT) {
        return kept_row(alloc, record);
    }
    if record.len() < FRONT_BYTES {
        return Ok(Row::of("unreadable"));
    }
    let sender = Some(u16::from_be_bytes([record[1], record[2]]) as u64);
    match decode(alloc, &record[FRONT_BYTES..]) {
        Ok(message) => Ok(Row {
            sender,
            ..message_row(&message)
        }),
        Err(WireError::Memory) => Err(Ending::Memory),
        Err(_) => Ok(Row {
            sender,
            ..Row::of("unreadable")
        }),
    }
}

// The row of the listing for a record that holds an event: the kind of the event's message, with its author, round, wave and digest. The
// sender is filled in by the caller.
fn message_row(message: &Message) -> Row {
    match message {
        Message::Batch(batch) => batch_row("batch", batch),
        Message::BatchAck(ack) => Row {
            author: Some(ack.author.0 as u64),
            digest: Some(short(&ack.batch)),
            ..Row::of("ack")
        },
        Message::Header(header) => header_row("header", header),
        Message::Vote(vote) => Row {
            author: Some(vote.author.0 as u64),
            round: Some(vote.round.number()),
            digest: Some(short(&vote.header)),
            ..Row::of("vote")
        },
        Message::Certificate(certificate) => certificate_row("certificate", certificate),
        Message::Coin(coin) => Row {
            wave: Some(coin.wave.number()),
            ..Row::of("coin")
        },
    }
}

/// The row for a batch.
pub(crate) fn batch_row(kind: &'static str, batch: &Batch) -> Row {
    Row {
        author: Some(batch.author().0 as u64),
        digest: Some(short(&batch_digest(batch))),
        ..Row::of(kind)
    }
}

/// The row for a header.
pub(crate) fn header_row(kind: &'static str, header: &Header) -> Row {
    Row {
        author: Some(header.body.author.0 as u64),
        round: Some(header.body.round.number()),
        digest: Some(short(&header_digest(&header.body))),
        ..Row::of(kind)
    }
}

/// The row for a certificate.
pub(crate) fn certificate_row(kind: &'static str, certificate: &Certificate) -> Row {
    let body = &certificate.header;
    let digest = certificate_digest(&header_digest(body), body.round, body.author);
    Row {
        author: Some(body.author.0 as u64),
        round: Some(body.round.number()),
        digest: Some(short(&digest)),
        ..Row::of(kind)
    }
}
