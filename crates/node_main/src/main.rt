//! `narwhal-node`: runs a member of a committee on a journal in two files, with frames on standard input and output.
#![tactic(auto)]

use node_io::Blocking;
pub use node_run::run;
use node_run::{CHECKPOINT_BYTES, Ending};
use std::env::VarError;
use std::process::ExitCode;
use std::{env, io};

/// The environment variable that sets by how many bytes the journal may grow before a checkpoint, in place of the usual number. Trials set
/// it, to see checkpoints soon.
const EVERY: &str = "NARWHAL_CHECKPOINT_BYTES";

fn main(rt: HostRuntime) -> ExitCode {
    let mut errors = Blocking::new(&rt, rt.stderr());
    let (args, every) = match asked(&rt) {
        Ok(asked) => asked,
        Err(ending) => {
            ending.write_to(&mut errors);
            return ExitCode::from(ending.status());
        }
    };
    let reader = Blocking::new(&rt, rt.stdin());
    let writer = Blocking::new(&rt, rt.stdout());
    let ran = run(&rt, rt.alloc(), &args, every, reader, writer, &mut errors);
    ExitCode::from(ran.ending.status())
}

// What the program was started with: its arguments, and by how much the journal may grow before a checkpoint.
fn asked(rt: &HostRuntime) -> Result<(Vec<String>, u64), Ending> {
    Ok((arguments(rt)?, every(rt)?))
}

// By how much the journal may grow before a checkpoint.
fn every(rt: &HostRuntime) -> Result<u64, Ending> {
    match env::var(rt, EVERY) {
        Ok(digits) => digits.parse().map_err(|_| Ending::Usage),
        Err(VarError::NotPresent) => Ok(CHECKPOINT_BYTES),
        Err(VarError::OutOfMemory) => Err(Ending::Memory),
        Err(VarError::NotUnicode) => Err(Ending::Usage),
    }
}

// The arguments after the program's name.
fn arguments(rt: &HostRuntime) -> Result<Vec<String>, Ending> {
    let args = match env::args(rt) {
        Ok(args) => args,
        Err(error) if error.kind() == io::ErrorKind::OutOfMemory => return Err(Ending::Memory),
        Err(_) => return Err(Ending::Usage),
    };
    match args.skip(1).collect(rt.alloc()) {
        Ok(args) => Ok(args),
        Err(_) => Err(Ending::Memory),
    }
}
