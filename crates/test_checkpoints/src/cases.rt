//! The test cases of a file. They are of two kinds: lists of records that a validator is loaded from, and histories of events.

use crate::histories::{Counts, History, Setup};
use crate::list::reported;
use crate::lists::Lists;
use std::alloc::Global;
use std::io::{BufRead, Write};
use test_cases::{Ending, Player, Reported};

/// The command after which each line up to the next title is an event of a history.
const EVENTS: &str = "tell outputs";

/// The state that the commands of a case work on.
#[derive(Drop)]
pub struct Cases {
    lists: Lists,
    setup: Setup,
    counts: Counts,
}

impl Cases {
    /// The state before the first test case of a file.
    pub fn new(alloc: Global) -> Cases {
        Cases {
            lists: Lists::new(alloc),
            setup: Setup::new(alloc),
            counts: Counts::new(),
        }
    }

    /// How many lists that hold a validator's state were loaded, and then written again with the same bytes.
    pub fn written_alike(&self) -> u64 {
        self.lists.written_alike()
    }

    /// Begins a new test case: forgets what the last one made.
    pub fn begin(&mut self) -> Reported {
        self.lists.begin();
        self.setup.begin()
    }

    /// Carries out a command, and adds the lines of its answer.
    pub fn obey(&mut self, command: &str, answer: &mut String) -> Reported {
        let (name, _) = command.split_once(' ').unwrap_or((command, ""));
        match name {
            "set" | "stakes" => self.setup.obey(command, answer),
            "loads" => self.counts.report(answer),
            _ => self.lists.obey(command, answer),
        }
    }

    /// Whether the lines after this command are the events of a history.
    pub fn begins_events(&self, command: &str) -> bool {
        command == EVENTS
    }

    /// Plays the events of a history up to the next title, and begins the test case of that title.
    pub fn play_events<I, W>(
        &mut self,
        rt: &HostRuntime,
        player: &mut Player<I, W>,
    ) -> Result<(), Ending>
    where
        I: BufRead + Drop,
        W: Write + Drop,
    {
        let Some(member) = self.setup.member()? else {
            return player.answered("bad case\n");
        };
        let Ok(mut history) = History::new(rt.alloc(), &member.config, self.counts) else {
            return Err(Ending::Memory);
        };
        play_each(rt, player, &mut history)?;
        let mut answer = String::new(rt.alloc());
        history.end(&mut answer)?;
        self.counts = history.counts();
        player.answered(answer.as_str())?;
        self.begin()?;
        Ok(())
    }
}

/// Plays each command up to the next title. The loop owns nothing: what a loop owns makes its proof slower.
fn play_each<I, W>(
    rt: &HostRuntime,
    player: &mut Player<I, W>,
    history: &mut History<'_>,
) -> Result<(), Ending>
where
    I: BufRead + Drop,
    W: Write + Drop,
{
    for _ in 0..u64::MAX {
        if !player.advance()? || player.is_title() {
            break;
        }
        play(rt, player, history)?;
    }
    Ok(())
}

/// Plays one command of a test case.
fn play<I, W>(
    rt: &HostRuntime,
    player: &mut Player<I, W>,
    history: &mut History<'_>,
) -> Result<(), Ending>
where
    I: BufRead + Drop,
    W: Write + Drop,
{
    let mut answer = String::new(rt.alloc());
    let obeyed = history.obey(player.command(), &mut answer);
    reported(obeyed, &mut answer)?;
    player.answered(answer.as_str())
}
