//! `narwhal-sim`: reads a script on standard input, plays it on member 0 of four over two disks in memory, and prints one line for each
//! command.
#![tactic(auto)]

pub use sim_run::run;
use std::io;
use std::process::ExitCode;

fn main(rt: HostRuntime) -> ExitCode {
    let mut writer = io::writer(&rt);
    let mut errors = rt.stderr();
    ExitCode::from(run(&rt, rt.alloc(), rt.stdin(), &mut writer, &mut errors))
}
