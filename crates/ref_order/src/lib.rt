//! A reference implementation, plain and slow, of what a node has after a history: one function for each definition of the model that
//! computes. It is no part of a node: the code of the node is compared with it.
#![tactic(auto)]

pub mod certificates;
pub mod held;
pub mod histories;
pub mod holdings;
pub mod ledger;
pub mod newer;
pub mod ordering;
pub mod past;
pub mod slots;
pub mod votes;
