//! The sequencer: the certificates, the coins and the order of one validator. What a certificate or a coin commits is prepared first, with
//! all memory that it needs; then it is applied, which can't fail.
#![tactic(auto)]

mod facts;
mod listed;
mod prepared;
mod restoring;
mod sequencer;

pub use facts::{
    certificates_are_new, chains_by_history, dag_is_enough, is_ledger_of, listed_is_enough,
    orders_by_history, sequence_stays,
};
pub use listed::listed_top;
pub use prepared::Prepared;
pub use sequencer::Sequencer;
pub use tusk::Coins;
