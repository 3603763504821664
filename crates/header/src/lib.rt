//! The tests that an incoming message has to pass before anything else sees it; and the types of a node's setting, of an event, and of the
//! answer to an event.
#![tactic(auto)]

mod admission;
mod checked;
mod digested;
mod error;
mod event;
mod faults;
mod laws;
mod making;
mod node;
mod refusal;

pub use admission::{Admission, Outputs};
pub use checked::{Checked, check, passes, recheck};
pub use error::CheckError;
pub use event::Event;
pub use laws::{ones_are_counted, passed_are_signed, passed_have_quorums};
pub use making::make;
pub use node::Node;
pub use refusal::Refusal;
