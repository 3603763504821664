//! The certificates that a validator holds, by round and author: which certificates each reaches, and which of them a committed leader
//! reaches.
#![tactic(auto)]

mod answers;
mod dag;
mod entry;
mod facts;
mod reads;
mod refusal;
mod row;
mod rows;

pub use answers::Added;
pub use dag::Dag;
pub use facts::{answers_as_admission, reach_stays, reach_stays_above};
pub use reads::{MAX_ROUND_REFERENCES, Reads};
pub use refusal::DagRefusal;
