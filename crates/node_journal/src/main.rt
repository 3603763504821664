//! `narwhal-journal`: reports what a journal holds. It only reads the journal's files.
#![tactic(auto)]

pub use journal_tool::run;
use std::env;
use std::io::{self, Write};
use std::process::ExitCode;

/// The exit status where the arguments can't be read.
const NO_ARGUMENTS: u8 = 2;

/// The exit status where an allocation failed.
const NO_MEMORY: u8 = 6;

fn main(rt: HostRuntime) -> ExitCode {
    let mut errors = rt.stderr();
    let Ok(args) = env::args(&rt) else {
        let _ = writeln!(
            errors,
            "narwhal-journal: usage: the arguments can't be read"
        );
        return ExitCode::from(NO_ARGUMENTS);
    };
    let args: Vec<String> = match args.skip(1).collect(rt.alloc()) {
        Ok(args) => args,
        Err(_) => {
            let _ = writeln!(errors, "narwhal-journal: out of memory");
            return ExitCode::from(NO_MEMORY);
        }
    };
    let mut writer = io::writer(&rt);
    ExitCode::from(run(&rt, rt.alloc(), &args, &mut writer, &mut errors))
}
