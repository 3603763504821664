//! Several nodes of one committee in one process, each on its own disk, moved by a list of moves.
#![tactic(auto)]

mod agreeing;
mod cluster;
mod collecting;
mod delivering;
mod error;
mod member;
mod moves;
mod playing;
mod routing;
mod running;
mod threads;
mod turns;
mod worker;

pub use crate::cluster::Cluster;
pub use error::ClusterError;
pub use moves::{Applied, Move};
pub use spec_cluster::agreement;
