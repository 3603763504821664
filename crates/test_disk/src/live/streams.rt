//! The reader and the writers of a run of a node in tests.

ghost use Rattle.std.specs.Prelude.{◌≡◌, ◌≤◌, length, None, IfOk, IfSome};

use std::alloc::Global;
use std::collections::VecDeque;
use std::io::{self, ErrorKind, Read, Write};
use std::sync::{Mutex, Wait};
use std::thread::yield_now;
use std::time::{Clock, Duration};

/// How often a reader looks for what it waits for before it gives up.
const TURNS: u64 = 10_000_000;

/// A clock without a time, whose sleeping returns at once.
pub struct NoClock;

impl Clock for NoClock {
    fn monotonic(&self) -> io::Result<Duration> {
        Err(io::Error::from(ErrorKind::Unsupported))
    }

    fn since_1970(&self) -> io::Result<Duration> {
        Err(io::Error::from(ErrorKind::Unsupported))
    }
}

/// What a reader does next.
#[derive(Drop)]
pub enum Step {
    /// The reader gives these bytes.
    Give(Vec<u8>),
    /// The reader waits until this many bytes were written.
    Await(usize),
    /// The reader gives these bytes again and again, until a line says that the node is down.
    Repeat(Vec<u8>),
    /// Reading would block.
    Block,
    /// Reading fails.
    Fail,
}

/// What a run has written.
#[derive(Drop)]
pub struct Seen {
    pub output: Vec<u8>,
    pub errors: Vec<u8>,
    /// How many of the next writes of outputs answer `WouldBlock`.
    pub blocks: u64,
    /// Whether a write of output fails.
    pub is_broken: bool,
}

impl Seen {
    /// Nothing was written yet.
    pub fn new(alloc: Global, blocks: u64, is_broken: bool) -> Seen {
        Seen {
            output: Vec::new(alloc),
            errors: Vec::new(alloc),
            blocks,
            is_broken,
        }
    }
}

/// A reader that goes through steps: each says what the next reads return.
#[derive(Drop)]
pub struct Steps<'t, R: Wait> {
    rt: &'t R,
    seen: &'t Mutex<Seen>,
    steps: VecDeque<Step>,
}

impl<'t, R: Wait> Steps<'t, R> {
    /// A reader that is before the first of these steps.
    pub fn new(rt: &'t R, seen: &'t Mutex<Seen>, steps: VecDeque<Step>) -> Steps<'t, R> {
        Steps { rt, seen, steps }
    }

    // Waits until this many bytes were written. Returns no bytes.
    fn wait(&self, count: usize) -> io::Result<Option<usize>>
        ensures { IfOk result (λ given. given ≡ None) }
    {
        for _ in 0..TURNS {
            if self.seen.lock(self.rt).output.len() >= count {
                return Ok(None);
            }
            yield_now();
        }
        Err(io::Error::from(ErrorKind::TimedOut))
    }

    fn is_down(&self) -> bool {
        let seen = self.seen.lock(self.rt);
        let line = b"refused 2 Down";
        seen.errors
            .windows(line.len())
            .any(|part| part == line.as_slice())
    }
}

impl<'t, R: Wait> Read for Steps<'t, R> {
    fn read(&mut self, buffer: &mut [u8]) -> io::Result<usize> {
        for _ in 0..TURNS {
            let Some(step) = self.steps.pop_front() else {
                return Ok(0);
            };
            if let Some(count) = self.take(step, buffer)? {
                return Ok(count);
            }
        }
        Err(io::Error::from(ErrorKind::TimedOut))
    }
}

impl<'t, R: Wait> Steps<'t, R> {
    // Makes a step, and returns how many bytes it has put into the buffer. None if the step is over and has put no bytes; then the next
    // step follows.
    fn take(&mut self, step: Step, buffer: &mut [u8]) -> io::Result<Option<usize>>
        ensures { IfOk result (λ given. IfSome given (λ count. count ≤ length buffer.old)) }
    {
        match step {
            Step::Block => Err(io::Error::from(ErrorKind::WouldBlock)),
            Step::Fail => Err(io::Error::from(ErrorKind::Other)),
            Step::Await(count) => self.wait(count),
            Step::Give(bytes) => self.give(bytes, buffer),
            Step::Repeat(bytes) => self.repeat(bytes, buffer),
        }
    }

    fn repeat(&mut self, bytes: Vec<u8>, buffer: &mut [u8]) -> io::Result<Option<usize>>
        ensures { IfOk result (λ given. IfSome given (λ count. count ≤ length buffer.old)) }
    {
        if self.is_down() {
            return Ok(None);
        }
        let count = filled(&bytes, buffer);
        self.steps.push_front(Step::Repeat(bytes))?;
        Ok(Some(count))
    }

    // Puts the bytes that fit into the buffer, and keeps the others for the next read.
    fn give(&mut self, bytes: Vec<u8>, buffer: &mut [u8]) -> io::Result<Option<usize>>
        ensures { IfOk result (λ given. IfSome given (λ count. count ≤ length buffer.old)) }
    {
        let count = filled(&bytes, buffer);
        if count < bytes.len() {
            let mut rest = bytes;
            rest.drain(..count);
            self.steps.push_front(Step::Give(rest))?;
        }
        Ok(Some(count))
    }
}

/// Copies the bytes that fit into the buffer, and returns how many these are.
pub fn filled(bytes: &[u8], buffer: &mut [u8]) -> usize
    ensures few { result ≤ length bytes.now }
    ensures fits { result ≤ length buffer.old }
{
    let count = bytes.len().min(buffer.len());
    buffer[..count].copy_from_slice(&bytes[..count]);
    count
}

/// The writer of outputs, which keeps what it takes in `Seen`.
#[derive(Drop)]
pub struct Output<'t, R: Wait> {
    pub rt: &'t R,
    pub seen: &'t Mutex<Seen>,
}

impl<'t, R: Wait> Write for Output<'t, R> {
    fn write(&mut self, bytes: &[u8]) -> io::Result<usize> {
        let mut seen = self.seen.lock(self.rt);
        if seen.blocks > 0 {
            seen.blocks -= 1;
            return Err(io::Error::from(ErrorKind::WouldBlock));
        }
        if seen.is_broken {
            return Err(io::Error::from(ErrorKind::BrokenPipe));
        }
        seen.output.extend_from_slice(bytes)?;
        Ok(bytes.len())
    }

    fn flush(&mut self) -> io::Result<()> {
        Ok(())
    }
}

/// The writer of the lines of errors, which keeps what it takes in `Seen`.
#[derive(Drop)]
pub struct Lines<'t, R: Wait> {
    pub rt: &'t R,
    pub seen: &'t Mutex<Seen>,
}

impl<'t, R: Wait> Write for Lines<'t, R> {
    fn write(&mut self, bytes: &[u8]) -> io::Result<usize> {
        self.seen.lock(self.rt).errors.extend_from_slice(bytes)?;
        Ok(bytes.len())
    }

    fn flush(&mut self) -> io::Result<()> {
        Ok(())
    }
}
