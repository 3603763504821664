//! Committees whose members have given stakes.

use crate::parts::members::add_members;
use crate::parts::words::Reported;
use committee::{Committee, CommitteeError};
use std::alloc::{AllocError, Global};

fn add_stakes(text: &mut String, stakes: &[u64]) -> Reported {
    text.push_str("]\nstakes = [")?;
    for stake in stakes {
        write!(text, "{stake}, ")?;
    }
    text.push_str("]\n")
}

/// Reads the committee of members with these stakes from a committee file that also has this line; or says why the file is refused.
pub fn committee_of(
    alloc: Global,
    stakes: &[u64],
    line: &str,
) -> Result<Result<Committee, CommitteeError>, AllocError> {
    let mut text = String::new(alloc);
    add_members(&mut text, stakes.len() as u64)?;
    add_stakes(&mut text, stakes)?;
    text.push_str(line)?;
    Ok(Committee::read(alloc, &text))
}
