//! The files of test cases that a test program plays.

use crate::playing::Ending;
use std::alloc::Global;
use std::env;

/// The names of the files of test cases: the arguments after the program's name.
pub fn names_of(rt: &HostRuntime, alloc: Global) -> Result<Vec<String>, Ending> {
    let names = env::args(rt)?;
    Ok(names.skip(1).collect(alloc)?)
}
