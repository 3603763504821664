//! A desk: a node of one owner, with its book and the journal to which its records go; and where it stands in the world of the node's runs.
#![tactic(auto)]

mod desk;

pub use crate::desk::Desk;
pub use book::{FlushError, Receipt};
