//! The simulated node: member 0 of four on two disks in memory, driven by a script that gets one line for each command.
#![tactic(auto)]

mod answer;
mod ending;
mod gathered;
mod machine;
mod obeying;
mod playing;
mod running;
mod script_lines;
mod settings;
mod shown;
mod starting;
mod stopping;
mod stops;

pub use playing::{disks_after, run, vote_after};
pub use stops::losing;
