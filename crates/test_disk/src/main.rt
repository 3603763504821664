//! The tests of everything that needs a disk: disks, the journal and the book, openings of a node, scripts, random lists of steps, the node
//! that threads share, and the programs. Each of these crates and programs has a file of test cases.
#![tactic(auto)]

mod committees;
mod live;
mod memory;
mod store;
mod words;

use committees::{FOUR, own_config};
use live::Case;
use sigface::HashSign;
use std::alloc::{AllocError, Global};
use std::fs::{self, File};
use std::io::{self, BufRead, Print, Write};
use std::process::ExitCode;
use std::rt::Files;
use std::sync::Wait;
use std::thread::Threads;
use store::{StoreCases, laws_hold};
use test_cases::{Ending, Player, Reported, names_of};
use validator::Config;

/// The state that the commands of a test case work on.
#[derive(Drop)]
struct Cases<'a> {
    store: StoreCases<'a>,
    live: Case,
    /// Whether `store` plays the test case (disks in memory, journal, book, openings), and not `live` (files, programs, running nodes).
    has_store: bool,
}

impl<'a> Cases<'a> {
    fn new(alloc: Global, config: &'a Config<HashSign>) -> Result<Cases<'a>, AllocError> {
        Ok(Cases {
            store: StoreCases::new(alloc, config)?,
            live: Case::new(alloc),
            has_store: false,
        })
    }

    fn begin(&mut self) -> Reported {
        self.has_store = false;
        self.live.begin();
        self.store.begin()
    }

    /// Carries out a command, and adds its answer. After the command `store` all commands of the test case go to `StoreCases`.
    fn obey<R>(&mut self, rt: &R, command: &str, answer: &mut String) -> Reported
    where
        R: Files<File = File> + AllocGlobal + Threads + Wait + Sync,
    {
        match command {
            _ if self.has_store => self.store.obey(command, answer),
            "store" => {
                self.has_store = true;
                Ok(())
            }
            _ => self.live.obey(rt, command, answer),
        }
    }
}

fn main(rt: HostRuntime) -> ExitCode {
    laws_hold();
    let (Ok(config), Ok(names)) = (own_config(rt.alloc(), &FOUR), names_of(&rt, rt.alloc())) else {
        return ExitCode::FAILURE;
    };
    match tested(&rt, &config, &names) {
        Ok(true) => ExitCode::SUCCESS,
        _ => ExitCode::FAILURE,
    }
}

/// Plays the files of test cases with these names. Returns whether there is at least one file, and each command was answered as expected.
fn tested<R>(rt: &R, config: &Config<HashSign>, names: &[String]) -> Result<bool, Ending>
where
    R: Files<File = File> + Print + AllocGlobal + Threads + Wait + Sync,
{
    let mut right = !names.is_empty();
    for name in names {
        right = is_right(rt, config, name.as_str())? && right;
    }
    Ok(right)
}

/// Plays the file of test cases with this name. Returns whether each command was answered as expected.
fn is_right<R>(rt: &R, config: &Config<HashSign>, name: &str) -> Result<bool, Ending>
where
    R: Files<File = File> + Print + AllocGlobal + Threads + Wait + Sync,
{
    let text = fs::read(rt, name)?;
    let player = Player::new(rt.alloc(), name, text.as_slice(), io::writer(rt));
    played(rt, config, player, &mut io::writer(rt))
}

/// Plays the test cases of a file. Afterwards prints the report of the random lists of steps, if the file asked for any.
fn played<R, I, W>(
    rt: &R,
    config: &Config<HashSign>,
    player: Player<I, W>,
    writer: &mut W,
) -> Result<bool, Ending>
where
    R: Files<File = File> + AllocGlobal + Threads + Wait + Sync,
    I: BufRead + Drop,
    W: Write + Drop,
{
    let mut cases = Cases::new(rt.alloc(), config)?;
    play_all(rt, player, &mut cases, writer)
}

fn play_all<R, I, W>(
    rt: &R,
    mut player: Player<I, W>,
    cases: &mut Cases,
    writer: &mut W,
) -> Result<bool, Ending>
where
    R: Files<File = File> + AllocGlobal + Threads + Wait + Sync,
    I: BufRead + Drop,
    W: Write + Drop,
{
    play_each(rt, &mut player, cases)?;
    let right = player.end()?;
    writer.write_all(cases.store.report())?;
    Ok(right)
}

/// Plays each line of a file: the title of a test case, or a command. The loop owns nothing: what a loop owns makes its proof slower.
fn play_each<R, I, W>(rt: &R, player: &mut Player<I, W>, cases: &mut Cases) -> Result<(), Ending>
where
    R: Files<File = File> + AllocGlobal + Threads + Wait + Sync,
    I: BufRead + Drop,
    W: Write + Drop,
{
    for _ in 0..u64::MAX {
        if !player.advance()? {
            break;
        }
        play(rt, player, cases)?;
    }
    Ok(())
}

/// Plays one line of a file: the title of a test case, or a command.
fn play<R, I, W>(rt: &R, player: &mut Player<I, W>, cases: &mut Cases) -> Result<(), Ending>
where
    R: Files<File = File> + AllocGlobal + Threads + Wait + Sync,
    I: BufRead + Drop,
    W: Write + Drop,
{
    if player.is_title() {
        cases.begin()?;
        return Ok(());
    }
    let mut answer = String::new(rt.alloc());
    cases.obey(rt, player.command(), &mut answer)?;
    player.answered(answer.as_str())
}
