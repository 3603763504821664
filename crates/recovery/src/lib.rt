//! Drives a node of one owner by a list of commands: opens it on its disks, and carries the commands out.
#![tactic(auto)]

mod commands;
mod driving;

pub use driving::{Command, DriveError, drive, drive_pair};
pub use opening::{
    can_report, checkpoint, decoded_stands_for, reopen, reopen_pair, what_stands_is_decoded,
    worlds_are_decoded, write_configuration,
};
