//! The leaders of waves, which the coins choose among the certificates of a DAG; and which of these leaders are committed.
#![tactic(auto)]

mod coins;
mod support;

pub use coins::Coins;
