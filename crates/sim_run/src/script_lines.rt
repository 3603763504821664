//! The lines of a script, as they are read.

use crate::ending::Ending;
use crate::gathered::Gathered;
use sim_script::{Command, parse};
use std::alloc::Global;
use std::io::{self, BufRead, BufReader, Read, Write};

/// A script, of which the line that was read last is kept.
#[derive(Drop)]
pub struct Script<I: Read + Drop> {
    reader: BufReader<I>,
    line: Vec<u8>,
    number: u64,
}

impl<I: Read + Drop> Script<I> {
    /// A script of which no line was read yet.
    pub fn new(alloc: Global, reader: I) -> io::Result<Script<I>> {
        Ok(Script {
            reader: BufReader::new(alloc, reader)?,
            line: Vec::new(alloc),
            number: 0,
        })
    }

    /// The number of the line that was read last, from 1 on; 0 before the first.
    pub fn number(&self) -> u64 {
        self.number
    }

    /// The command in the line that was read last; None if the line is no command.
    pub fn command(&self) -> Option<Command<'_>> {
        parse(&self.line)
    }

    /// Reads the next line, without its newline; returns `false` at the end of the script. Before reading might wait, or if there are many
    /// lines, the collected answers are written.
    pub fn next<W: Write>(
        &mut self,
        writer: &mut W,
        gathered: &mut Gathered,
    ) -> Result<bool, Ending> {
        if gathered.is_enough() || !self.reader.buffer().contains(&b'\n') {
            gathered.write_to(writer)?;
        }
        self.line.clear();
        if self.reader.read_until(b'\n', &mut self.line)? == 0 {
            return Ok(false);
        }
        if self.line.last() == Some(&b'\n') {
            self.line.pop();
        }
        if self.number == u64::MAX {
            return Err(Ending::TooLong);
        }
        self.number += 1;
        Ok(true)
    }
}
