//! The parts that the commands of all test cases share: how their words are read, and how answers are written.

use diskmodel::{CallKind, DiskFault};
use std::fmt::Display;
pub use test_cases::{Reported, bad, put};

/// The kind of device call with this name, for example `sync`.
pub fn call_of(name: &str) -> Option<CallKind> {
    match name {
        "read" => Some(CallKind::Read),
        "write" => Some(CallKind::Write),
        "cut" => Some(CallKind::Cut),
        "sync" => Some(CallKind::Sync),
        _ => None,
    }
}

/// Splits a text at its first blank. Without a blank the first part is the whole text and the second one is empty.
pub fn parted(text: &str) -> (&str, &str) {
    text.split_once(' ').unwrap_or((text, ""))
}

/// Adds a line to the answer that says how a device call failed; adds nothing if the call succeeded.
pub fn report_fault(answer: &mut String, outcome: Result<(), DiskFault>) {
    if let Err(fault) = outcome {
        put_shown(answer, "", &fault, "\n");
    }
}

/// Adds a text, a number in decimal and another text to the answer.
pub fn put_count(answer: &mut String, before: &str, count: u64, after: &str) {
    let _ = write!(answer, "{before}{count}{after}");
}

/// Adds a text, a value as it displays itself and another text to the answer.
pub fn put_shown<T: Display>(answer: &mut String, before: &str, shown: &T, after: &str) {
    let _ = write!(answer, "{before}{shown}{after}");
}
