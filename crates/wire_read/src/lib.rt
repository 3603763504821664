//! Reads bytes as messages: `decode` reads from left to right and reports the first fault, and a `FrameReader` cuts a stream into the
//! bodies of its frames. A `Reader` reads fields and parts of messages, for formats that contain them.
#![tactic(auto)]

mod decoding;
mod frames;
mod lists;
mod reader;
mod transactions;

pub use decoding::{
    beginnings_are_short, certificate_of, decode, faults_by_the_table, faults_stay, header_of,
    one_body, one_encoding, what_follows_is_trailing,
};
pub use frames::{FrameReader, one_split};
pub use lists::votes_of;
pub use reader::Reader;
pub use transactions::batch_of;
