//! The committees of scripts. Their members have one worker each, and sign with the keys of the tests.

use crate::signing::signer;
use sigface::Sign;
use std::alloc::{AllocError, Global};
use wire::Author;

/// The member whose node plays a script.
pub const OWN: Author = Author(0);

/// The depth of the committee, in rounds, if a script sets none.
pub const DEPTH: u64 = 50;

/// How many batches the node may hold, if a script sets no number.
pub const BATCHES: u64 = 1_048_576;

/// The number of members in the committee of a script.
const MEMBERS: u16 = 4;

/// The line `members = [..]` of a committee file for this many members.
pub fn member_list(alloc: Global, members: u16) -> Result<String, AllocError> {
    let mut file = String::from_str(alloc, "members = [")?;
    for member in 0..members {
        file.push_str("\"")?;
        for byte in signer(Author(member)).key().0 {
            write!(file, "{byte:02x}")?;
        }
        file.push_str("\", ")?;
    }
    file.push_str("]\n")?;
    Ok(file)
}

/// The text of a committee file for four members. Its depth and its number of batches may be out of their ranges.
pub fn committee_file(alloc: Global, depth: u64, batches: u64) -> Result<String, AllocError> {
    let mut file = member_list(alloc, MEMBERS)?;
    write!(file, "depth = {depth}\nworkers = 1\nbatches = {batches}\n")?;
    Ok(file)
}
