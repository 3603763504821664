//! The tests of checkpoints: validators and the reference implementation are loaded from the records that files of test cases write down.
#![tactic(auto)]

mod area;
mod areas;
mod cases;
mod changing;
mod damaging;
mod disks;
mod histories;
mod list;
mod lists;
mod loading;
mod migrating;
mod nodes;
mod pairs;
mod playing;
mod records;
mod reporting;
mod stopping;

use cases::Cases;
use std::fs;
use std::io::{self, BufRead, Write};
use std::process::ExitCode;
use test_cases::{Ending, Player, names_of};

fn main(rt: HostRuntime) -> ExitCode {
    match tested(&rt) {
        Ok(true) => ExitCode::SUCCESS,
        _ => ExitCode::FAILURE,
    }
}

/// Plays the files that the arguments name. Returns whether at least one was named, and each command was answered as expected.
fn tested(rt: &HostRuntime) -> Result<bool, Ending> {
    let names = names_of(rt, rt.alloc())?;
    let mut right = !names.is_empty();
    for name in &names {
        right = is_right(rt, name.as_str())? && right;
    }
    Ok(right)
}

/// Plays the file of test cases with this name. Returns whether each command was answered as expected.
fn is_right(rt: &HostRuntime, name: &str) -> Result<bool, Ending> {
    let text = fs::read(rt, name)?;
    let mut cases = Cases::new(rt.alloc());
    let mut player = Player::new(rt.alloc(), name, text.as_slice(), io::writer(rt));
    play_each(rt, &mut player, &mut cases)?;
    let right = player.end()?;
    report_same(rt, name, cases.written_alike())?;
    Ok(right)
}

/// Prints how many lists of records were loaded and then written again with the same bytes; prints nothing if none was.
fn report_same(rt: &HostRuntime, name: &str, same: u64) -> Result<(), Ending> {
    if same > 0 {
        writeln!(
            io::writer(rt),
            "{name}: {same} lists were read, and written again as they were"
        )?;
    }
    Ok(())
}

/// Plays each line of a file: the title of a test case, or a command. The loop owns nothing: what a loop owns makes its proof slower.
fn play_each<I, W>(
    rt: &HostRuntime,
    player: &mut Player<I, W>,
    cases: &mut Cases,
) -> Result<(), Ending>
where
    I: BufRead + Drop,
    W: Write + Drop,
{
    for _ in 0..u64::MAX {
        if !player.advance()? {
            break;
        }
        play(rt, player, cases)?;
    }
    Ok(())
}

/// Plays a title, a command, or all events of a history at once.
fn play<I, W>(rt: &HostRuntime, player: &mut Player<I, W>, cases: &mut Cases) -> Result<(), Ending>
where
    I: BufRead + Drop,
    W: Write + Drop,
{
    if player.is_title() {
        cases.begin()?;
        return Ok(());
    }
    if cases.begins_events(player.command()) {
        return cases.play_events(rt, player);
    }
    let mut answer = String::new(rt.alloc());
    cases.obey(player.command(), &mut answer)?;
    player.answered(answer.as_str())
}
