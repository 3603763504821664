//! Where the writing thread puts outputs. What has failed stands in a field of this module alone, so nobody else can take it back.

ghost use Rattle.std.specs.Prelude.{◌≡◌, [], true, false};
ghost use Rattle.std.specs.VecDeque.{deque_capacity};
ghost use Rattle.std.specs.Io.Buffered.{writer_contents};
ghost use Rattle.std.specs.Io.KnownBytes.{Keeps};
ghost use Rattle.wire.specs.Outputs.{frame_of};
ghost use Rattle.node_run.specs.Writing.{no_faults, HoldsPart, Puts, PutsAll};

use node_io::Faults;
use std::alloc::Global;
use std::collections::VecDeque;
use std::io::{BufWriter, Write};
use wire::Output;
use wire_write::{WriteError, write_output};

/// Where outputs are written. Once an output couldn't be written, or an allocation for it failed, no further output is written. So what was
/// written has no gap.
#[derive(Drop)]
pub(crate) struct Sink<W: Write + Drop> {
    alloc: Global,
    writer: BufWriter<W>,
    faults: Faults,
}

impl<W: Write + Drop> Sink<W> {
    /// A sink in which nothing has failed yet.
    pub(crate) fn new(alloc: Global, writer: BufWriter<W>) -> Sink<W>
        ensures faults { result.faults ≡ no_faults }
        ensures writer { result.writer ≡ writer }
    {
        Sink {
            alloc,
            writer,
            faults: Faults::none(),
        }
    }

    /// Gives back the writer, to which all frames that were put have gone, and the faults. If the writer failed, the last bytes may be
    /// missing.
    pub(crate) fn finish(self) -> (Faults, W)
        ensures faults { result.0 ≡ record self.faults { output = result.0.output } }
        ensures broken { self.faults.output ≡ true → result.0.output ≡ true }
        ensures part { HoldsPart (writer_contents W.contents self.writer) (W.contents result.1) [] }
        ensures whole { result.0.output ≡ false → Keeps (writer_contents W.contents self.writer) (W.contents result.1) }
    {
        let Sink {
            alloc: _,
            writer,
            mut faults,
        } = self;
        match writer.into_inner() {
            Ok(writer) => (faults, writer),
            Err(error) => {
                faults.output = true;
                let (writer, _) = error.into_inner().into_parts();
                (faults, writer)
            }
        }
    }

    /// Writes the frames of these outputs, in their order, and drops the outputs.
    pub(crate) fn put_all(&mut self, outputs: &mut VecDeque<Output>)
        ensures drained { outputs.new.items ≡ [] }
        ensures room { deque_capacity outputs.new ≡ deque_capacity outputs.old }
        ensures puts { PutsAll outputs.old.items self.old.faults self.new.faults (writer_contents W.contents self.old.writer) (writer_contents W.contents self.new.writer) }
    {
        while let Some(output) = outputs.pop_front() {
            self.put(output);
        }
    }

    // Writes the frame of an output, and drops the output.
    fn put(&mut self, output: Output)
        ensures { Puts (frame_of output) self.old.faults self.new.faults (writer_contents W.contents self.old.writer) (writer_contents W.contents self.new.writer) }
    {
        self.put_output(&output);
    }

    fn put_output(&mut self, output: &Output)
        ensures { Puts (frame_of output.now) self.old.faults self.new.faults (writer_contents W.contents self.old.writer) (writer_contents W.contents self.new.writer) }
    {
        if self.faults.output || self.faults.memory {
            return;
        }
        match write_output(self.alloc, output, &mut self.writer) {
            Ok(()) => {}
            Err(WriteError::Memory) => self.faults.memory = true,
            Err(WriteError::Output) => self.faults.output = true,
        }
    }

    /// Lets the writer write what it holds back.
    pub(crate) fn flush(&mut self)
        ensures bytes { Keeps (writer_contents W.contents self.old.writer) (writer_contents W.contents self.new.writer) }
        ensures broken { self.old.faults.output ≡ true → self.new.faults.output ≡ true }
        ensures faults { self.new.faults ≡ record self.old.faults { output = self.new.faults.output } }
    {
        if !self.faults.output {
            self.faults.output = self.writer.flush().is_err();
        }
    }
}
