//! The tests of a cluster: several nodes of one committee in one process, driven by lists of moves. Test cases stand in files; each has
//! a cluster of its own.
#![tactic(auto)]

mod cases;
mod disks;
mod moves;
mod reporting;
mod schedules;
mod threads;

use cases::ClusterCases;
use sim_members::Settings;
use sim_script::DEPTH;
use std::fs::{self, File};
use std::io::{self, BufRead, Print, Write};
use std::process::ExitCode;
use std::rt::Files;
use std::sync::Wait;
use std::thread::Threads;
use test_cases::{Ending, Player, names_of};

/// How many batches a node may hold: so few that a test case can try one more than is allowed.
pub const BATCHES: u64 = 2;

fn main(rt: HostRuntime) -> ExitCode {
    let (Ok(settings), Ok(names)) = (
        Settings::new(rt.alloc(), DEPTH, BATCHES),
        names_of(&rt, rt.alloc()),
    ) else {
        return ExitCode::FAILURE;
    };
    match tested(&rt, &settings, &names) {
        Ok(true) => ExitCode::SUCCESS,
        _ => ExitCode::FAILURE,
    }
}

/// Plays the files of test cases with these names. Returns whether there is at least one file, and each command was answered as expected.
fn tested<R>(rt: &R, settings: &Settings, names: &[String]) -> Result<bool, Ending>
where
    R: Files<File = File> + Print + AllocGlobal + Threads + Wait + Sync,
{
    let mut right = !names.is_empty();
    for name in names {
        right = is_right(rt, settings, name.as_str())? && right;
    }
    Ok(right)
}

/// Plays the file of test cases with this name. Returns whether each command was answered as expected.
fn is_right<R>(rt: &R, settings: &Settings, name: &str) -> Result<bool, Ending>
where
    R: Files<File = File> + Print + AllocGlobal + Threads + Wait + Sync,
{
    let text = fs::read(rt, name)?;
    let player = Player::new(rt.alloc(), name, text.as_slice(), io::writer(rt));
    let mut cases = ClusterCases::new(rt.alloc(), settings)?;
    play_all(rt, player, &mut cases)
}

fn play_all<R, I, W>(
    rt: &R,
    mut player: Player<I, W>,
    cases: &mut ClusterCases,
) -> Result<bool, Ending>
where
    R: AllocGlobal + Threads + Wait + Sync,
    I: BufRead + Drop,
    W: Write + Drop,
{
    play_each(rt, &mut player, cases)?;
    player.end()
}

/// Plays each line of a file: the title of a test case, or a command. The loop owns nothing: what a loop owns makes its proof slower.
fn play_each<R, I, W>(
    rt: &R,
    player: &mut Player<I, W>,
    cases: &mut ClusterCases,
) -> Result<(), Ending>
where
    R: AllocGlobal + Threads + Wait + Sync,
    I: BufRead + Drop,
    W: Write + Drop,
{
    for _ in 0..u64::MAX {
        if !player.advance()? {
            break;
        }
        play(rt, player, cases)?;
    }
    Ok(())
}

/// Plays one line of a file: the title of a test case, or a command.
fn play<R, I, W>(rt: &R, player: &mut Player<I, W>, cases: &mut ClusterCases) -> Result<(), Ending>
where
    R: AllocGlobal + Threads + Wait + Sync,
    I: BufRead + Drop,
    W: Write + Drop,
{
    if player.is_title() {
        cases.begin()?;
        return Ok(());
    }
    let mut answer = String::new(rt.alloc());
    cases.obey(rt, player.command(), &mut answer)?;
    player.answered(answer.as_str())
}
