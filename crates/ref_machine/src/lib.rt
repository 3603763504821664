//! A reference implementation, plain and slow, of what a node keeps: tables as lists, in which the first entry that fits a look-up counts.
//! It is no part of a node: the code of the node is compared with it.
#![tactic(auto)]

mod collecting;
mod copying;
mod growing;
mod lookups;
mod newly;
mod rounds;
mod stepping;
mod tables;

pub use collecting::collected;
pub use growing::grown;
pub use rounds::round_in;
pub use stepping::{after, answered, fresh, is_ready, proposed};
pub use tables::{SlotVote, Tables};
