//! A reference implementation, plain and slow, of the text of a script: what a node of one owner writes for a list of commands. It is no
//! part of a node: the running code is compared with it.
#![tactic(auto)]

mod command;
mod desk;
mod frames;
mod groups;
mod stepping;
mod writing;

pub use command::Command;
pub use writing::text;
