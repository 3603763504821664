//! What lies between a running node and its surroundings: arguments, frames and what they ask, what can go wrong, and how a run ends.
#![tactic(auto)]

mod arguments;
mod blocking;
mod committee_file;
mod ending;
mod faults;
mod input;
mod makers;
mod regular_file;
mod rejection;
mod request;

pub use arguments::own_of;
pub use blocking::Blocking;
pub use committee_file::{MAX_COMMITTEE_FILE_BYTES, read_committee_file};
pub use ending::Ending;
pub use faults::Faults;
pub use input::{End, Input};
pub use makers::Makers;
pub use regular_file::read_regular_file;
pub use rejection::Rejection;
pub use request::{Request, SEALS, TRANSACTIONS, request_of};
