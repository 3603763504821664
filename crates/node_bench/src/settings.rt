//! The configuration of the node that does the work: member 0 of a committee whose members sign with the keys of the tests.

use crate::ending::Ending;
use crate::task::{Kind, Task};
use committee::Committee;
use sigface::HashSign;
use sim_script::{OWN, committee_file, member_list, signer};
use std::alloc::AllocError;
use validator::Config;

/// How many batches a node may hold, in a committee file that also names the depth.
const BATCHES: u64 = 1_048_576;

/// The configuration of the node in the committee of a task.
///
/// # Errors
/// `Usage` if no committee has this many members.
pub fn config_of(task: Task) -> Result<Config<HashSign>, Ending> {
    let file = file_of(task)?;
    let committee = Committee::read(task.alloc, file.as_str())?;
    match Config::new(committee, OWN, signer(OWN)) {
        Some(config) => Ok(config),
        None => Err(Ending::Refused),
    }
}

// The text of the committee file. Its depth is the default one, except for the kind of work whose size is the depth.
fn file_of(task: Task) -> Result<String, AllocError> {
    match task.kind {
        Kind::Deep => committee_file(task.alloc, task.size, BATCHES),
        _ => member_list(task.alloc, task.members),
    }
}
