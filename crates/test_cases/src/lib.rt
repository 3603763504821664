//! Files of test cases: commands, the answers that are expected, and a report of the answers that differ.
#![tactic(auto)]

mod digits;
mod files;
mod playing;
mod words;

pub use digits::{bytes_of, write_hex};
pub use files::names_of;
pub use playing::{Ending, Player};
pub use words::{Reported, bad, put};
