//! The language of the simulator's scripts: its commands, the labels that they define, the messages that the labels stand for (signed with
//! the keys of the tests), and the committee in which a script plays.
#![tactic(auto)]

mod command;
mod error;
mod forming;
mod labels;
mod messages;
mod settings;
mod signing;
mod words;

pub use command::{Call, Command, Form, Pack, Setting, Stopping, parse};
pub use error::FormError;
pub use forming::{define_batch, define_header};
pub use labels::{Labels, Packed, Proposed};
pub use messages::message_of;
pub use settings::{BATCHES, DEPTH, OWN, committee_file, member_list};
pub use signing::{certificate, signer, vote};
