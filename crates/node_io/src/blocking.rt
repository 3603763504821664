//! Streams whose calls wait, even if their file descriptor was set not to block.

ghost use Rattle.std.specs.Prelude.{◌≡◌, ◌⊎◌};
ghost use Rattle.std.specs.IoError.{error_kind};
ghost use Rattle.std.specs.Io.{ReadsAtMost, WritesAtMost};
ghost use Rattle.std.specs.Io.KnownBytes.{Keeps, ReadConsumes, WriteAppends};

use std::io::{self, ErrorKind, Read, Write};
use std::thread::sleep;
use std::time::{Clock, Duration};

/// How many milliseconds to wait before a call is made again that would have blocked.
const PAUSE_MILLIS: u64 = 1;

/// A stream whose calls wait. If a call would block because the descriptor is set so, this sleeps a little and reports an interruption, at
/// which the caller makes the call again.
pub struct Blocking<'c, C: Clock, F: Drop> {
    clock: &'c C,
    stream: F,
}

impl<'c, C: Clock, F: Drop> Drop for Blocking<'c, C, F> {
    fn drop(self) {
        let Blocking {
            clock: _,
            stream: _,
        } = self;
    }
}

impl<'c, C: Clock, F: Drop> Blocking<'c, C, F> {
    /// A stream whose calls, if they would block, wait by this clock and try again.
    pub fn new(clock: &'c C, stream: F) -> Blocking<'c, C, F>
        ensures { result.stream ≡ stream }
    {
        Blocking { clock, stream }
    }
}

impl<'c, C: Clock, F: Read + Drop> Read for Blocking<'c, C, F> {
    ghost remaining = { λ blocking. F.remaining blocking.stream };

    fn read(&mut self, buf: &mut [u8]) -> io::Result<usize>
        ensures bound { ReadsAtMost result buf.new }
        ensures bytes { ReadConsumes (F.remaining self.old.stream) (F.remaining self.new.stream) result buf.new }
    {
        match self.stream.read(buf) {
            Ok(count) => Ok(count),
            Err(error) => Err(waited(self.clock, error)),
        }
    }
}

impl<'c, C: Clock, F: Write + Drop> Write for Blocking<'c, C, F> {
    ghost contents = { λ blocking. F.contents blocking.stream };

    fn write(&mut self, buf: &[u8]) -> io::Result<usize>
        ensures bound { WritesAtMost result buf.now }
        ensures bytes { WriteAppends (F.contents self.old.stream) (F.contents self.new.stream) result buf.now }
    {
        match self.stream.write(buf) {
            Ok(count) => Ok(count),
            Err(fault) => Err(waited(self.clock, fault)),
        }
    }

    fn flush(&mut self) -> io::Result<()>
        ensures bytes { Keeps (F.contents self.old.stream) (F.contents self.new.stream) }
    {
        self.stream.flush()
    }
}

// The error that a call reports. If the call would have blocked this pauses, and the error is an interruption.
fn waited<C: Clock>(clock: &C, error: io::Error) -> io::Error
    ensures blocked { error_kind error ≡ ErrorKind.WouldBlock → error_kind result ≡ ErrorKind.Interrupted }
    ensures other { (error_kind error ≡ ErrorKind.WouldBlock → ⊥) → result ≡ error }
{
    if error.kind() == ErrorKind::WouldBlock {
        sleep(clock, Duration::from_millis(PAUSE_MILLIS));
        io::Error::from(ErrorKind::Interrupted)
    } else {
        error
    }
}
