//! Takes the last own header out of a journal, as a frame by which it can be given to its node again.

use crate::flaw::Flaw;
use crate::kept::kept_in;
use crate::parts::events_of;
use committee::Committee;
use journal::Record;
use opening::event_of;
use sigface::Sign;
use std::alloc::{AllocError, Global};
use validator::Config;
use wire::{Author, Header, Message, encode};

/// How many bytes of a record come before the sender: that of the kind.
const KIND_BYTES: usize = 1;

/// The frame of the last own header in a journal with these records: its length in four bytes, the sender, and the message. That header is
/// in the last event that is one, or else in the checkpoint. None if the journal has no own header.
///
/// # Errors
/// Those of `after_records`, except that the events aren't checked.
pub fn last_frame<S: Sign>(
    alloc: Global,
    config: &Config<S>,
    records: &[Record],
) -> Result<Option<Vec<u8>>, Flaw> {
    let (committee, own) = (config.committee(), config.own());
    for one in events_of(records).iter().rev() {
        let bytes = one.bytes.as_slice();
        if is_own_header(alloc, committee, own, bytes)? {
            return Ok(frame_of(alloc, bytes.get(KIND_BYTES..).unwrap_or(&[]))?);
        }
    }
    let kept = kept_in(alloc, config, records)?;
    match kept.headers.last() {
        Some(voted) => Ok(header_frame(alloc, own, voted.header.try_clone()?)?),
        None => Ok(None),
    }
}

// Whether a record has an event that is a header of the node itself.
fn is_own_header(
    alloc: Global,
    committee: &Committee,
    own: Author,
    bytes: &[u8],
) -> Result<bool, AllocError> {
    match event_of(alloc, committee, bytes)? {
        Some(event) => Ok(match event.message() {
            Message::Header(header) => header.body.author == own,
            _ => false,
        }),
        None => Ok(false),
    }
}

// The frame of an own header: sender and message, with the length before them.
fn header_frame(alloc: Global, own: Author, header: Header) -> Result<Option<Vec<u8>>, AllocError> {
    let mut body = Vec::new(alloc);
    body.extend_from_slice(&own.0.to_be_bytes())?;
    body.extend_from_slice(&encode(alloc, &Message::Header(header))?)?;
    frame_of(alloc, &body)
}

// The frame with this body. None if the length doesn't fit four bytes; that of a record always does.
fn frame_of(alloc: Global, body: &[u8]) -> Result<Option<Vec<u8>>, AllocError> {
    let Ok(len) = u32::try_from(body.len()) else {
        return Ok(None);
    };
    let mut frame = Vec::new(alloc);
    frame.extend_from_slice(&len.to_be_bytes())?;
    frame.extend_from_slice(body)?;
    Ok(Some(frame))
}
