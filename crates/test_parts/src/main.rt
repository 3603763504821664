//! The tests of everything that needs no disk: messages, the parts of a validator, the definitions, and the validator itself. Test cases
//! stand in files, one for each crate or for each program that drew them, and call public functions alone.
#![tactic(auto)]

mod accords;
mod definitions;
mod parts;
mod restored;

use accords::Accords;
use definitions::{Gathered, Played, laws_hold, number};
use parts::Parts;
use restored::{Counts, play_cases};
use sim_script::FormError;
use std::alloc::{AllocError, Global};
use std::fs;
use std::io::{self, BufRead, Write};
use std::process::ExitCode;
use test_cases::{Ending, Player, Reported, names_of};

/// What the commands of a test case are about.
#[derive(Clone, Copy)]
enum About {
    /// The messages and the parts of a validator.
    Parts,
    /// The reference implementations, whose contracts are the definitions.
    Definitions,
    /// A validator, and the reference implementation for its first events.
    Validator,
    /// Pairs of histories of two nodes of one committee, played by the reference implementations.
    Accords,
}

/// The state that the commands of the test cases work on.
#[derive(Drop)]
struct Cases {
    about: About,
    parts: Parts,
    definitions: Played,
    validator: Gathered,
    accords: Accords,
}

impl Cases {
    fn new(alloc: Global) -> Result<Cases, AllocError> {
        Ok(Cases {
            about: About::Definitions,
            parts: Parts::new(alloc),
            definitions: Played::new(alloc)?,
            validator: Gathered::new(alloc),
            accords: Accords::new(alloc),
        })
    }

    fn begin(&mut self) -> Reported {
        self.about = About::Definitions;
        self.parts.begin();
        self.definitions.begin()?;
        self.validator.begin()
    }

    /// Carries out a command. The first command `parts`, `validator` or `accords` says what the test case is about; any other first command
    /// means the definitions.
    fn obey(&mut self, rt: &HostRuntime, command: &str, answer: &mut String) -> Reported {
        match self.about {
            About::Parts => self.parts.obey(command, answer),
            About::Validator => self.validator.obey(rt, command, answer),
            About::Accords => self.accords.obey(command, answer),
            About::Definitions => match command {
                "parts" => Ok(self.about = About::Parts),
                "validator" => Ok(self.about = About::Validator),
                "accords" => Ok(self.about = About::Accords),
                _ => self.definitions.obey(command, answer),
            },
        }
    }
}

/// The prefix of an argument such as `restored-after=50`. Along each history of the files that the arguments name after it, a validator's
/// tables are taken apart and restored after every 50 events.
const RESTORED_AFTER: &str = "restored-after=";

fn main(rt: HostRuntime) -> ExitCode {
    laws_hold();
    match tested(&rt) {
        Ok(true) => ExitCode::SUCCESS,
        _ => ExitCode::FAILURE,
    }
}

/// Plays the files of test cases that the arguments name. Returns whether at least one was named, each has commands, and each command was
/// answered as expected.
fn tested(rt: &HostRuntime) -> Result<bool, Ending> {
    let names = names_of(rt, rt.alloc())?;
    let mut right = !names.is_empty();
    let mut events = 0;
    let mut counts = Counts::new();
    for name in &names {
        if let Some(number_of_events) = name.strip_prefix(RESTORED_AFTER) {
            events = number(number_of_events);
        } else if events > 0 {
            right = are_alike(rt, name.as_str(), events, &mut counts)? && right;
        } else {
            right = is_right(rt, name.as_str())? && right;
        }
    }
    Ok(has_enough(rt, events > 0, &counts)? && right)
}

/// Plays the histories of the file with this name and restores a validator's tables after every so many events. Returns whether the
/// restored tables always behaved like the first ones.
fn are_alike(
    rt: &HostRuntime,
    name: &str,
    events: u64,
    counts: &mut Counts,
) -> Result<bool, Ending> {
    let text = fs::read_to_string(rt, name)?;
    let mut answer = String::new(rt.alloc());
    let alike = match play_cases(rt.alloc(), text.as_str(), events, counts, &mut answer) {
        Ok(alike) => alike,
        Err(FormError::Memory) => return Err(Ending::Memory),
        Err(_) => false,
    };
    let reported = if alike { "alike" } else { "not alike" };
    write!(io::writer(rt), "{name}: restored, {reported}\n{answer}")?;
    Ok(alike)
}

/// Prints at how many states tables were restored, if an argument asked for it, and returns whether those were enough.
fn has_enough(rt: &HostRuntime, restores: bool, counts: &Counts) -> Result<bool, Ending> {
    if !restores {
        return Ok(true);
    }
    let mut reported = String::new(rt.alloc());
    counts.report(&mut reported)?;
    write!(io::writer(rt), "{reported}")?;
    Ok(counts.are_enough())
}

/// Plays the file of test cases with this name. Returns whether each command was answered as expected.
fn is_right(rt: &HostRuntime, name: &str) -> Result<bool, Ending> {
    let text = fs::read(rt, name)?;
    let mut player = Player::new(rt.alloc(), name, text.as_slice(), io::writer(rt));
    play_all(rt, &mut player)?;
    player.end()
}

fn play_all<I, W>(rt: &HostRuntime, player: &mut Player<I, W>) -> Result<(), Ending>
where
    I: BufRead + Drop,
    W: Write + Drop,
{
    let mut cases = Cases::new(rt.alloc())?;
    play_each(rt, player, &mut cases)
}

/// Plays each line of a file: the title of a test case, or a command. The loop owns nothing: what a loop owns makes its proof slower.
fn play_each<I, W>(
    rt: &HostRuntime,
    player: &mut Player<I, W>,
    cases: &mut Cases,
) -> Result<(), Ending>
where
    I: BufRead + Drop,
    W: Write + Drop,
{
    for _ in 0..u64::MAX {
        if !player.advance()? {
            break;
        }
        play(rt, player, cases)?;
    }
    Ok(())
}

/// Plays one line of a file: the title of a test case, or a command.
fn play<I, W>(rt: &HostRuntime, player: &mut Player<I, W>, cases: &mut Cases) -> Result<(), Ending>
where
    I: BufRead + Drop,
    W: Write + Drop,
{
    if player.is_title() {
        cases.begin()?;
        return Ok(());
    }
    let mut answer = String::new(rt.alloc());
    cases.obey(rt, player.command(), &mut answer)?;
    player.answered(answer.as_str())
}
