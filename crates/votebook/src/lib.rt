//! The votes of one validator: for each round and author the digest of at most one header, the first that asked for the vote.
#![tactic(auto)]

mod book;
mod slot;

pub use book::{VoteBook, Voted};
pub use slot::Slot;
