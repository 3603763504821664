//! Collects lines of answers, so that many are written at once.

use crate::answer::Answer;
use crate::ending::Ending;
use crate::shown::add_line;
use journal::JournalError;
use sim_script::Labels;
use std::alloc::Global;
use std::io::{self, Write};

/// How many bytes of lines are collected before they are written.
const ENOUGH: usize = 65_536;

/// Lines that wait until they are written together.
#[derive(Drop)]
pub struct Gathered {
    lines: String,
}

impl Gathered {
    pub fn new(alloc: Global) -> Gathered {
        Gathered {
            lines: String::new(alloc),
        }
    }

    /// Adds the line of an answer, if the answer has one.
    pub fn add(&mut self, labels: &Labels, answer: &Answer) -> Result<(), Ending> {
        Ok(add_line(&mut self.lines, labels, answer)?)
    }

    /// Adds the line that reports a fault of the journal.
    pub fn add_fault(&mut self, error: &JournalError) -> Result<(), Ending> {
        Ok(writeln!(self.lines, "fault {error}")?)
    }

    /// Whether the lines should be written before more are added.
    pub fn is_enough(&self) -> bool {
        self.lines.len() >= ENOUGH
    }

    /// Writes all lines that wait. If that fails they are lost.
    pub fn write_to<W: Write>(&mut self, writer: &mut W) -> io::Result<()> {
        if self.lines.is_empty() {
            return Ok(());
        }
        let written = writer.write_all(self.lines.as_bytes());
        self.lines.clear();
        written?;
        writer.flush()
    }
}
