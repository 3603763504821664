//! The script of the simulator in a test case.

use crate::live::words::add_word;
use std::alloc::{AllocError, Global};

/// A script for the simulator, how it is read, and how the lines that the simulator writes are taken.
#[derive(Drop)]
pub struct Script {
    alloc: Global,
    pub bytes: Vec<u8>,
    pub is_typed: bool,
    pub is_broken: bool,
    /// How many bytes the simulator can write before the writer is full.
    pub room: usize,
}

impl Script {
    /// A script without lines, read from a file, with room for all output.
    pub fn new(alloc: Global) -> Script {
        Script {
            alloc,
            bytes: Vec::new(alloc),
            is_typed: false,
            is_broken: false,
            room: usize::MAX,
        }
    }

    /// Adds a line to the script, this many times.
    pub fn add_lines(&mut self, times: u32, line: &str) -> Result<(), AllocError> {
        for _ in 0..times {
            self.bytes.extend_from_slice(line.as_bytes())?;
            self.bytes.push(b'\n')?;
        }
        Ok(())
    }

    /// Adds the first lines of a script that an earlier test case has kept, as many as `rest` says; returns whether `rest` is a number.
    pub fn add_first(&mut self, kept: &[u8], rest: &str) -> Result<bool, AllocError> {
        let Ok(count) = rest.parse() else {
            return Ok(false);
        };
        for line in kept.split_inclusive(|byte| *byte == b'\n').take(count) {
            self.bytes.extend_from_slice(line)?;
        }
        Ok(true)
    }

    /// Changes the script, or how it is read or its lines are taken; returns whether the words are such a command.
    pub fn change(&mut self, name: &str, rest: &str) -> Result<bool, AllocError> {
        match name {
            "bytes" => add_word(self.alloc, rest, &mut self.bytes),
            "repeat" => self.repeat(rest),
            _ => Ok(self.set(name, rest.parse().ok())),
        }
    }

    fn repeat(&mut self, rest: &str) -> Result<bool, AllocError> {
        let Some((times, line)) = rest.split_once(' ') else {
            return Ok(false);
        };
        let Ok(times) = times.parse() else {
            return Ok(false);
        };
        self.add_lines(times, line)?;
        Ok(true)
    }

    fn set(&mut self, name: &str, number: Option<usize>) -> bool {
        match (name, number) {
            ("typed", None) => self.is_typed = true,
            ("broken", None) => self.is_broken = true,
            ("room", Some(room)) => self.room = room,
            _ => return false,
        }
        true
    }
}
