//! Tests of the reader of frames on a stream.

use crate::parts::words::{Reported, list, show};
use std::alloc::Global;
use wire::WireError;
use wire_read::FrameReader;

/// Gives the reader a piece of the stream; if an allocation fails, the reader is as before and gets the piece once more. Shows the bodies of
/// the frames that the piece completes, and whether no part of a further frame is left in the reader then.
pub fn feed(reader: &mut FrameReader, piece: &[u8], answer: &mut String) -> Reported {
    let mut fed = reader.feed(piece);
    if matches!(fed, Err(WireError::Memory)) {
        fed = reader.feed(piece);
    }
    match fed {
        Ok(bodies) => show_each(&bodies, answer)?,
        Err(error) => writeln!(answer, "{error}")?,
    }
    list("empty", &[reader.is_empty() as u64], answer)
}

fn show_each(bodies: &[Vec<u8>], answer: &mut String) -> Reported {
    for body in bodies {
        show(body, answer)?;
    }
    Ok(())
}

/// Cuts the frame in each of the first `ways` ways. Shows in how many of them the reader returns the frame's body once and has nothing
/// left.
pub fn count_ways(alloc: Global, ways: u64, frame: &[u8], answer: &mut String) -> Reported {
    let mut good: u64 = 0;
    for cuts in 0..ways {
        if is_one_body(alloc, frame, cuts).unwrap_or(false) {
            good = good.saturating_add(1);
        }
    }
    list("good", &[good, ways], answer)
}

/// Cuts the frame after each byte whose bit is set in `cuts`. Returns whether the reader returns the frame's body once and has nothing
/// left.
fn is_one_body(alloc: Global, frame: &[u8], cuts: u64) -> Result<bool, WireError> {
    let (mut reader, mut bodies) = (FrameReader::new(alloc), Vec::new(alloc));
    feed_cut(&mut reader, frame, cuts, &mut bodies)?;
    let is_one = matches!(bodies.as_slice(), [body] if Some(body.as_slice()) == frame.get(4..));
    Ok(is_one && reader.is_empty())
}

/// Gives the reader the frame in the pieces into which `cuts` divides it.
fn feed_cut(
    reader: &mut FrameReader,
    frame: &[u8],
    cuts: u64,
    bodies: &mut Vec<Vec<u8>>,
) -> Result<(), WireError> {
    let (mut left, mut start) = (cuts, 0);
    for end in 1..frame.len() {
        if left % 2 == 1 {
            feed_into(reader, frame.get(start..end).unwrap_or(&[]), bodies)?;
            start = end;
        }
        left /= 2;
    }
    feed_into(reader, frame.get(start..).unwrap_or(&[]), bodies)
}

fn feed_into(
    reader: &mut FrameReader,
    piece: &[u8],
    bodies: &mut Vec<Vec<u8>>,
) -> Result<(), WireError> {
    for body in reader.feed(piece)? {
        bodies.push(body)?;
    }
    Ok(())
}
