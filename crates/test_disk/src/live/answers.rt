//! How the answer to a run of a node is shown.

use crate::live::streams::Seen;
use crate::live::words::{put, put_count, put_hex, put_sum};
use std::alloc::Global;
use std::str;
use wire_read::FrameReader;

/// The greatest number of bytes of an output's body that are shown; its whole length is shown too.
const SHOWN_BYTES: usize = 13;

/// Adds a line for each output of a run, with the length of its body and its first bytes, and a line for each line that was written to the
/// errors.
pub fn report_seen(alloc: Global, seen: &Seen, answer: &mut String) {
    match FrameReader::new(alloc).feed(&seen.output) {
        Ok(bodies) => report_outputs(&bodies, answer),
        Err(_) => put(answer, "no frames\n"),
    }
    report_errors(&seen.errors, answer);
}

/// As `report_seen`, but with one line for all outputs: how many there are, and a checksum over their frames.
pub fn report_sum(alloc: Global, seen: &Seen, answer: &mut String) {
    match FrameReader::new(alloc).feed(&seen.output) {
        Ok(bodies) => put_count(answer, "", bodies.len() as u64, " outputs, "),
        Err(_) => put(answer, "no frames, "),
    }
    put_sum(answer, &seen.output);
    put(answer, "\n");
    report_errors(&seen.errors, answer);
}

fn report_outputs(bodies: &[Vec<u8>], answer: &mut String) {
    for body in bodies {
        put_count(answer, "out ", body.len() as u64, " ");
        put_hex(answer, body.get(..SHOWN_BYTES).unwrap_or(body));
        put(answer, "\n");
    }
}

/// Adds the lines that were written to the errors, except those before the first line that says that the node is down.
pub fn report_errors(errors: &[u8], answer: &mut String) {
    match str::from_utf8(errors) {
        Ok(text) => report_lines(text, answer),
        Err(_) => put(answer, "no text\n"),
    }
}

fn report_lines(text: &str, answer: &mut String) {
    let from = text.find("refused 2 Down").unwrap_or(0);
    for line in text.get(from..).unwrap_or(text).lines() {
        put(answer, "line ");
        put(answer, line);
        put(answer, "\n");
    }
}
