//! The tests of a journal on two areas: how it is opened and rewritten, and what a crash, a failed device call and a failed allocation
//! leave of it. Test cases stand in files, and call public functions of the journal alone.
#![tactic(auto)]

mod cases;
mod disks;
mod failures;
mod memory;
mod openings;
mod rewritings;
mod stops;
mod words;

use cases::Cases;
use memory::is_steady;
use std::fs;
use std::io::{self, BufRead, Write};
use std::process::ExitCode;
use test_cases::{Ending, Player, names_of};

/// The argument that tests each call that allocates, with each of its allocations failing in turn.
const MEMORY: &str = "memory";

fn main(rt: HostRuntime) -> ExitCode {
    match tested(&rt) {
        Ok(true) => ExitCode::SUCCESS,
        _ => ExitCode::FAILURE,
    }
}

/// Plays the files that the arguments name. Returns whether at least one was named, and each command was answered as expected.
fn tested(rt: &HostRuntime) -> Result<bool, Ending> {
    let names = names_of(rt, rt.alloc())?;
    let mut right = !names.is_empty();
    for name in &names {
        right = is_right(rt, name.as_str())? && right;
    }
    Ok(right)
}

/// Plays the file of test cases with this name. The name `memory` instead asks for the tests of failed allocations.
fn is_right(rt: &HostRuntime, name: &str) -> Result<bool, Ending> {
    if name == MEMORY {
        return remembers(rt);
    }
    let text = fs::read(rt, name)?;
    let mut player = Player::new(rt.alloc(), name, text.as_slice(), io::writer(rt));
    play_all(rt, &mut player)?;
    player.end()
}

/// Makes each call that allocates, and once more if an allocation failed. Prints whether each gave the right result.
fn remembers(rt: &HostRuntime) -> Result<bool, Ending> {
    let is_right = is_steady(rt.alloc())?;
    let reported = if is_right {
        "as expected"
    } else {
        "not as expected"
    };
    writeln!(io::writer(rt), "memory: {reported}")?;
    Ok(is_right)
}

fn play_all<I, W>(rt: &HostRuntime, player: &mut Player<I, W>) -> Result<(), Ending>
where
    I: BufRead + Drop,
    W: Write + Drop,
{
    let mut cases = Cases::new(rt.alloc());
    play_each(rt, player, &mut cases)
}

/// Plays each line of a file: the title of a test case, or a command. The loop owns nothing: what a loop owns makes its proof slower.
fn play_each<I, W>(
    rt: &HostRuntime,
    player: &mut Player<I, W>,
    cases: &mut Cases,
) -> Result<(), Ending>
where
    I: BufRead + Drop,
    W: Write + Drop,
{
    for _ in 0..u64::MAX {
        if !player.advance()? {
            break;
        }
        play(rt, player, cases)?;
    }
    Ok(())
}

/// Plays one line of a file: the title of a test case, or a command.
fn play<I, W>(rt: &HostRuntime, player: &mut Player<I, W>, cases: &mut Cases) -> Result<(), Ending>
where
    I: BufRead + Drop,
    W: Write + Drop,
{
    if player.is_title() {
        cases.begin();
        return Ok(());
    }
    let mut answer = String::new(rt.alloc());
    cases.obey(player.command(), &mut answer)?;
    player.answered(answer.as_str())
}
