//! The summary of a journal, made from the bytes of its two files without running a node. It says what an opening of a node on these bytes
//! would find.
#![tactic(auto)]

mod areas;
mod events;
mod flaw;
mod frame;
mod graph;
mod kept;
mod loading;
mod order;
mod own;
mod parts;
mod reading;
mod settings;
mod summary;
mod votes;
mod waves;

pub use areas::{records_in, side_read};
pub use flaw::{Flaw, Why};
pub use frame::last_frame;
pub use graph::{Fate, Graph, Vertex};
pub use opening::{EVENT, FRONT_BYTES};
pub use order::order_of;
pub use reading::after_records;
pub use settings::{config_in, own_number};
pub use summary::{Summary, summary_of};
pub use votes::{Given, votes_of};
pub use waves::{Named, Waves, waves_of};
