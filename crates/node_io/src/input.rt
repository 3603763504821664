//! Reads a stream of frames, and hands out the bodies of the frames.

ghost use Rattle.std.specs.Prelude.{◌≡◌, ◌≢◌, ◌⊎◌, ◌++◌, ◌∷◌, [], List, Vec, ℕ, None, Some, Err, IfOk, IfErr, IsErrOf, OnOk, OnErr, if◌then◌else◌};
ghost use Rattle.std.specs.Io.KnownBytes.{IsAtEnd};
ghost use Rattle.std.specs.declared.alloc.Global.{Global};
ghost use Rattle.wire_read.specs.Frames.{bodies_bytes};
ghost use Rattle.node_io.specs.Cutting.{Takes, BreaksWith, Cuts, ReadsAndCuts, TakesNothing, end_of_error};

use std::alloc::{AllocError, Global};
use std::io::{ErrorKind, Read};
use std::marker::Model;
use wire::WireError;
use wire_read::FrameReader;

/// How many bytes are read from the stream at once, at most.
const PIECE_BYTES: usize = 1_048_576;

/// Why no more frames come from the input.
#[derive(Clone, Copy, Debug, PartialEq, Eq)]
pub enum End {
    /// The stream has ended after a whole frame.
    Whole,
    /// The stream can't be read, a frame's length in it is above the limit, or it has ended within a frame.
    Broken,
    /// An allocation failed.
    Memory,
}

/// A stream of frames. Contracts see the reader under it, the bytes of the next frame so far, and why no more frames come, if none do.
pub struct Input<I: Read + Drop> {
    alloc: Global,
    reader: I,
    piece: Vec<u8>,
    frames: FrameReader,
    /// What the next call reports, if no more frames come.
    end: Option<End>,
}

impl<I: Read + Drop> Drop for Input<I> {
    fn drop(self) {
        let Input {
            alloc: _,
            reader: _,
            piece: _,
            frames: _,
            end: _,
        } = self;
    }
}

impl<I: Read + Drop> Model for Input<I> {
    ghost use Rattle.std.specs.Prelude.{◌<◌, vec_len};
    ghost use Rattle.node_io.specs.Cutting.{InputView};

    ghost Value = { InputView I };

    ghost view = { λ i. record { reader = i.reader; held = i.frames; end = i.end } };

    ghost invariant = { λ i. 0 < vec_len i.piece };
}

impl<I: Read + Drop> Input<I> {
    /// A stream of which nothing was read yet. On `AllocError` an allocation failed.
    pub fn new(alloc: Global, reader: I) -> Result<Input<I>, AllocError>
        ensures { IfOk result (λ input. input ≡ record { reader = reader; held = []; end = None }) }
    {
        Ok(Input {
            alloc,
            reader,
            piece: vec![in alloc; 0; PIECE_BYTES]?,
            frames: FrameReader::new(alloc),
            end: None,
        })
    }

    /// The bodies of the frames that the next piece of the stream completes. This reads once, so it waits only if no byte is there yet.
    /// Once it has reported that no more frames come, it does so at every call.
    pub fn next(&mut self) -> Result<Vec<Vec<u8>>, End>
        ensures again { (end : End) → self.old.end ≡ Some end → (result ≡ Err end) × (self.new ≡ self.old) }
        ensures ok { IfOk result (λ bodies. ReadsAndCuts I.remaining self.old self.new (bodies_bytes bodies.items)) }
        ensures err { IfErr result (λ end. self.new.end ≡ Some end) }
        ensures nothing { OnErr result (self.old.end ≡ None → TakesNothing I.remaining self.old self.new) }
        ensures whole { IsErrOf result End.Whole → self.old.end ≡ None → IsAtEnd (I.remaining self.new.reader) × (self.old.held ≡ []) }
    {
        if let Some(end) = self.end {
            return Err(end);
        }
        let found = self.read();
        if let Err(end) = &found {
            self.end = Some(*end);
        }
        found
    }

    // The bodies of the frames that the next piece completes, if no call has found before that no more frames come.
    fn read(&mut self) -> Result<Vec<Vec<u8>>, End>
        requires { self.old.end ≡ None }
        ensures ok { IfOk result (λ bodies. ReadsAndCuts I.remaining self.old self.new (bodies_bytes bodies.items)) }
        ensures nothing { OnErr result (TakesNothing I.remaining self.old self.new) }
        ensures whole { IsErrOf result End.Whole → IsAtEnd (I.remaining self.new.reader) × (self.old.held ≡ []) }
    {
        match self.reader.read(&mut self.piece) {
            Ok(0) => Err(end_at_stop(self.frames.is_empty())),
            Ok(count) => {
                let (bodies, end) = cut(self.alloc, &mut self.frames, &self.piece[..count]);
                self.end = end;
                Ok(bodies)
            }
            Err(error) => match end_after(error.kind()) {
                Some(end) => Err(end),
                None => Ok(Vec::new(self.alloc)),
            },
        }
    }
}

// The bodies of the frames that a piece completes; also the reason, if no more frames come after these.
fn cut(alloc: Global, frames: &mut FrameReader, piece: &[u8]) -> (Vec<Vec<u8>>, Option<End>)
    ensures { Cuts frames.old piece.now (bodies_bytes result.0.items) frames.new result.1 }
{
    match frames.feed(piece) {
        Ok(bodies) => (bodies, None),
        Err(WireError::Memory) => (Vec::new(alloc), Some(End::Memory)),
        Err(_) => bodies_before_fault(alloc, frames, piece),
    }
}

// The bodies of the frames before a length that is refused, and why no more frames come. The frame reader takes nothing of the bytes of a
// call that it refuses, so here it is fed one byte at a time.
fn bodies_before_fault(
    alloc: Global,
    frames: &mut FrameReader,
    piece: &[u8],
) -> (Vec<Vec<u8>>, Option<End>)
    ensures { Cuts frames.old piece.now (bodies_bytes result.0.items) frames.new result.1 }
{
    let mut all = Vec::new(alloc);
    let mut rest = piece;
    while let Some((byte, after)) = rest.split_first() {
        match add_bodies(frames, *byte, &mut all) {
            Ok(()) => rest = after,
            Err(end) => return (all, Some(end)),
        }
    }
    (all, None)
}

// Feeds one byte, and adds the bodies of the frames that it completes.
fn add_bodies(frames: &mut FrameReader, byte: u8, all: &mut Vec<Vec<u8>>) -> Result<(), End>
    ensures ok { OnOk result ((more : List (Vec ℕ Global)) × (all.new.items ≡ all.old.items ++ more) × Takes frames.old (byte ∷ []) (bodies_bytes more) frames.new) }
    ensures err { IfErr result (λ end. (end ≡ End.Memory) ⊎ ((end ≡ End.Broken) × (frames.new ≡ frames.old) × BreaksWith frames.old (byte ∷ []))) }
    ensures same { OnErr result (all.new.items ≡ all.old.items) }
{
    match frames.feed(&[byte]) {
        Ok(mut bodies) => match all.append(&mut bodies) {
            Ok(()) => Ok(()),
            Err(_) => Err(End::Memory),
        },
        Err(error) => Err(end_of(error)),
    }
}

// Why no more frames come after this error of the frame reader.
fn end_of(error: WireError) -> End
    ensures { result ≡ end_of_error error }
{
    match error {
        WireError::Memory => End::Memory,
        _ => End::Broken,
    }
}

// Why no more frames come if the stream ends here: after a whole frame, or within one.
fn end_at_stop(is_after_frame: bool) -> End
    ensures { result ≡ (if is_after_frame then End.Whole else End.Broken) }
{
    if is_after_frame {
        End::Whole
    } else {
        End::Broken
    }
}

// Why no more frames come after a read with this error. None if the read was interrupted, so that it has to be made again.
fn end_after(kind: ErrorKind) -> Option<End>
    ensures interrupted { kind ≡ ErrorKind.Interrupted → result ≡ None }
    ensures memory { kind ≡ ErrorKind.OutOfMemory → result ≡ Some End.Memory }
    ensures other { kind ≢ ErrorKind.Interrupted → kind ≢ ErrorKind.OutOfMemory → result ≡ Some End.Broken }
{
    match kind {
        ErrorKind::Interrupted => None,
        ErrorKind::OutOfMemory => Some(End::Memory),
        _ => Some(End::Broken),
    }
}
