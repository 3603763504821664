//! Batches of one transaction each, as many as fill whole groups.

use crate::store::scripts::Line;
use crate::store::words::Reported;
use std::alloc::{AllocError, Global};
use wire::{Author, BATCH_TAG};

/// The author of the batches.
const AUTHOR: u8 = 2;

/// Adds this many batches, each with a transaction of this many bytes: its number in four bytes, and then zeros.
pub fn come_in(alloc: Global, lines: &mut Vec<Line>, count: u32, len: u32) -> Reported {
    for number in 0..count {
        let sender = Author(u16::from(AUTHOR));
        let message = message(alloc, number, len)?;
        lines.push(Line::Event { sender, message })?;
    }
    Ok(())
}

/// The message of a batch of `AUTHOR`: its author, worker 0, and one transaction.
fn message(alloc: Global, number: u32, len: u32) -> Result<Vec<u8>, AllocError> {
    let mut bytes = vec![in alloc; BATCH_TAG, 0, AUTHOR, 0, 0, 0, 0, 0, 1]?;
    bytes.extend_from_slice(&len.to_be_bytes())?;
    bytes.extend_from_slice(&number.to_be_bytes())?;
    for _ in 4..len {
        bytes.push(0)?;
    }
    Ok(bytes)
}
