//! What the commands of all test programs share. If an allocation fails, an answer is cut short, and so differs from the expected one.

use std::alloc::AllocError;

/// The result of carrying out a command: an error if an allocation failed.
pub type Reported = Result<(), AllocError>;

/// Adds a text to an answer.
pub fn put(answer: &mut String, part: &str) {
    let _ = answer.push_str(part);
}

/// Adds the answer that a line gets which is no command.
pub fn bad(answer: &mut String) {
    put(answer, "bad case\n");
}
