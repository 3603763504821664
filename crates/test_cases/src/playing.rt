//! Plays a file of test cases, line by line. `== TITLE` begins a test case; `> TEXT` is a line of the answer that is expected to the
//! command above; empty lines, and lines that begin with `#`, are skipped; any other line is a command.

use std::alloc::{AllocError, AllocFailed, Global};
use std::io::{self, BufRead, Write};

/// Why a file of test cases wasn't played to its end.
#[derive(Drop)]
pub enum Ending {
    /// An allocation failed.
    Memory,
    /// The file couldn't be read, or the report couldn't be written.
    InputOutput,
}

impl From<AllocError> for Ending {
    fn from(_: AllocError) -> Ending {
        Ending::Memory
    }
}

impl<T: Drop> From<AllocFailed<T>> for Ending {
    fn from(_: AllocFailed<T>) -> Ending {
        Ending::Memory
    }
}

impl From<io::Error> for Ending {
    fn from(_: io::Error) -> Ending {
        Ending::InputOutput
    }
}

/// How far a file of test cases was played, and how many answers were wrong.
#[derive(Drop)]
struct Score {
    /// The answer that the last command got.
    answer: String,
    /// The answer that the file expects to the last command.
    expected: String,
    /// The number of the line with the last command.
    last: u64,
    commands: u64,
    wrong: u64,
}

/// Compares the answer to the last command with the expected one.
fn close<W: Write>(name: &str, writer: &mut W, score: &mut Score) -> Result<(), Ending> {
    let (answer, expected, last) = (score.answer.as_str(), score.expected.as_str(), score.last);
    if answer != expected {
        writeln!(
            writer,
            "{name}, line {last}: expected\n{expected}and it was\n{answer}"
        )?;
        score.wrong = score.wrong.saturating_add(1);
    }
    score.answer.clear();
    score.expected.clear();
    Ok(())
}

/// A file of test cases that is being played, and the report of the answers that differ from the expected ones.
pub struct Player<'a, R: BufRead + Drop, W: Write + Drop> {
    name: &'a str,
    reader: R,
    writer: W,
    line: String,
    number: u64,
    score: Score,
}

impl<'a, R: BufRead + Drop, W: Write + Drop> Drop for Player<'a, R, W> {
    fn drop(self) {
        let Player {
            name: _,
            reader: _,
            writer: _,
            line: _,
            number: _,
            score: _,
        } = self;
    }
}

impl<'a, R: BufRead + Drop, W: Write + Drop> Player<'a, R, W> {
    /// A player before the first line of the file with this name.
    pub fn new(alloc: Global, name: &'a str, reader: R, writer: W) -> Player<'a, R, W> {
        Player {
            name,
            reader,
            writer,
            line: String::new(alloc),
            number: 0,
            score: Score {
                answer: String::new(alloc),
                expected: String::new(alloc),
                last: 0,
                commands: 0,
                wrong: 0,
            },
        }
    }

    /// Moves on to the next title or command, and compares the answer to the command before with the expected one. Returns whether there is
    /// a next one.
    pub fn advance(&mut self) -> Result<bool, Ending> {
        for _ in 1..u64::MAX {
            self.line.clear();
            if self.reader.read_line(&mut self.line)? == 0 {
                break;
            }
            self.number = self.number.saturating_add(1);
            if self.has_turn()? {
                return Ok(true);
            }
        }
        close(self.name, &mut self.writer, &mut self.score)?;
        Ok(false)
    }

    // Whether the line is a title or a command. If it is an expected line, that is kept.
    fn has_turn(&mut self) -> Result<bool, Ending> {
        let line = self.line.trim_end_matches('\n');
        if line.is_empty() || line.starts_with('#') {
            return Ok(false);
        }
        if let Some(expected) = line.strip_prefix("> ") {
            self.score.expected.push_str(expected)?;
            self.score.expected.push_str("\n")?;
            return Ok(false);
        }
        close(self.name, &mut self.writer, &mut self.score)?;
        if line.strip_prefix("== ").is_none() {
            self.score.commands = self.score.commands.saturating_add(1);
            self.score.last = self.number;
        }
        Ok(true)
    }

    /// Whether the line is a title, which begins a test case. Otherwise it is a command.
    pub fn is_title(&self) -> bool {
        self.line.starts_with("== ")
    }

    /// The line as a command, without its newline.
    pub fn command(&self) -> &str {
        self.line.trim_end_matches('\n')
    }

    /// Takes the answer that the command got.
    pub fn answered(&mut self, answer: &str) -> Result<(), Ending> {
        self.score.answer.push_str(answer)?;
        Ok(())
    }

    /// Prints how many commands the file had. Returns whether there was one, and all answers were as expected.
    pub fn end(mut self) -> Result<bool, Ending> {
        let (name, commands, wrong) = (self.name, self.score.commands, self.score.wrong);
        writeln!(
            self.writer,
            "{name}: {commands} commands, {wrong} answers were not as expected"
        )?;
        Ok(commands > 0 && wrong == 0)
    }
}
