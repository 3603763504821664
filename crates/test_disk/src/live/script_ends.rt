//! The reader of a script that the simulator runs, and the writer that takes the lines that the simulator writes.

use crate::live::streams::filled;
use crate::live::words::put_count;
use std::alloc::Global;
use std::cell::Cell;
use std::io::{self, Read, Write};

/// A reader of a script, which notes before each read how many lines were written by then.
#[derive(Drop)]
pub struct Input<'a> {
    pub rest: &'a [u8],
    /// Whether each read returns at most one line, as a terminal does.
    pub is_typed: bool,
    /// Whether reading fails at the end.
    pub is_broken: bool,
    pub lines: &'a Cell<u64>,
    pub notes: String,
}

impl Read for Input<'_> {
    fn read(&mut self, bytes: &mut [u8]) -> io::Result<usize> {
        put_count(&mut self.notes, "read after ", self.lines.get(), " lines\n");
        if self.rest.is_empty() && self.is_broken {
            return Err(io::ErrorKind::Other.into());
        }
        let count = filled(self.at_once(), bytes);
        self.rest = self.rest.get(count..).unwrap_or(&[]);
        Ok(count)
    }
}

impl Input<'_> {
    // The most bytes that one read returns.
    fn at_once(&self) -> &[u8] {
        if self.is_typed {
            first_line(self.rest)
        } else {
            self.rest
        }
    }
}

// The bytes up to the first newline and with it; all bytes if there is none.
fn first_line(bytes: &[u8]) -> &[u8] {
    match bytes.iter().position(|byte| *byte == b'\n') {
        Some(place) => bytes.get(..place + 1).unwrap_or(bytes),
        None => bytes,
    }
}

/// A writer that takes a limited number of bytes, and counts its calls and the lines.
#[derive(Drop)]
pub struct Taker<'a> {
    pub bytes: Vec<u8>,
    pub room: usize,
    pub calls: u64,
    pub lines: &'a Cell<u64>,
}

impl<'a> Taker<'a> {
    /// A writer with room for this many bytes, which has taken none.
    pub fn new(alloc: Global, room: usize, lines: &'a Cell<u64>) -> Taker<'a> {
        Taker {
            bytes: Vec::new(alloc),
            room,
            calls: 0,
            lines,
        }
    }
}

impl Write for Taker<'_> {
    fn write(&mut self, bytes: &[u8]) -> io::Result<usize> {
        self.calls = self.calls.saturating_add(1);
        let taken = bytes.get(..self.room).unwrap_or(bytes);
        self.bytes.extend_from_slice(taken)?;
        self.room = self.room.saturating_sub(taken.len());
        let lines = self.lines.get().saturating_add(line_count(taken));
        self.lines.set(lines);
        Ok(taken.len())
    }

    fn flush(&mut self) -> io::Result<()> {
        Ok(())
    }
}

fn line_count(bytes: &[u8]) -> u64 {
    let mut count = 0_u64;
    for byte in bytes {
        if *byte == b'\n' {
            count = count.saturating_add(1);
        }
    }
    count
}
