//! A validator's tables, and how they answer each event. The tables hold the batches, the votes for other members' headers, the own headers
//! with the votes on them, and the certificates with the coins and the order. Which answer is right, the contracts say by `spec_machine`.
#![tactic(auto)]

mod assemblies;
mod batches;
mod facts;
mod kept;
mod step;
mod tables;
mod votes;

pub use assemblies::{Assemblies, votes_agree};
pub use facts::nameable_agrees;
pub use header::Refusal;
pub use kept::{Kept, VotedHeader};
pub use step::Step;
pub use tables::{Tables, one_state, others_are_ready};
