//! What each thread at a node knows of the accepted and settled events, and of whether the node is down. Three shared words count these,
//! and each thread has a seat, its knowledge. A rule ties the words to lists of events that are in no memory, and these lists to what the
//! seats know.
#![tactic(auto)]

mod plays;
mod rule;
mod seat;
mod ties;
mod view;
mod words;

pub use plays::{Anything, Call, Judge};
pub use rule::{Kept, Law};
pub use seat::Seat;
pub use view::{Marked, View};
pub use words::Words;
