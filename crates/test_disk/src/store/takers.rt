//! A writer that fails when it is full.

use std::alloc::Global;
use std::io::{self, ErrorKind, Write};

/// How many bytes the writer takes in one call.
const PIECE: usize = 50;

/// A writer that takes a limited number of bytes, in pieces.
#[derive(Drop)]
pub struct Taker {
    pub bytes: Vec<u8>,
    room: usize,
}

impl Taker {
    /// A writer with room for this many bytes.
    pub fn new(alloc: Global, room: usize) -> Taker {
        Taker {
            bytes: Vec::new(alloc),
            room,
        }
    }
}

impl Write for Taker {
    fn write(&mut self, bytes: &[u8]) -> io::Result<usize> {
        if self.room == 0 {
            return Err(ErrorKind::Other.into());
        }
        let taken = bytes.get(..self.room.min(PIECE)).unwrap_or(bytes);
        self.bytes.extend_from_slice(taken)?;
        self.room = self.room.saturating_sub(taken.len());
        Ok(taken.len())
    }

    fn flush(&mut self) -> io::Result<()> {
        Ok(())
    }
}
