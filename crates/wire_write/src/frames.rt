//! Writes outputs as frames.

ghost use Rattle.std.specs.Prelude.{◌≡◌, ◌≤◌, length, take, drop, IfOk, IfErr, OnOk, OnErr, IsErrOf};
ghost use Rattle.std.specs.Io.KnownBytes.{Keeps, Appends};
ghost use Rattle.wire.specs.Outputs.{frame_of};
ghost use Rattle.wire_write.specs.Frames.{AppendsLess};

use std::alloc::{AllocError, Global};
use std::io::{ErrorKind, Write};
use thiserror::Error;
use wire::{Output, encode_output};

/// Why an output wasn't written. Printed as its number and its name.
#[derive(Clone, Copy, Debug, PartialEq, Eq, Error)]
pub enum WriteError {
    /// An allocation failed, and nothing was written.
    #[error("1 Memory")]
    Memory,
    /// The writer failed. A prefix of the frame may have been written.
    #[error("2 Output")]
    Output,
}

impl From<AllocError> for WriteError {
    ghost use Rattle.std.specs.Prelude.{◌≡◌};
    ghost use Rattle.wire_write.specs.declared.frames.WriteError.TheVariants.{Memory};

    ghost from_gives = { λ _ error. error ≡ Memory };

    fn from(_error: AllocError) -> WriteError {
        WriteError::Memory
    }
}

/// Writes an output as a frame: its length in four big-endian bytes, and its bytes. It calls the writer as often as needed, and repeats a
/// call that was interrupted.
///
/// # Errors
/// `Memory` if an allocation failed; `Output` if the writer failed or took no more bytes.
pub fn write_output<W: Write>(
    alloc: Global,
    output: &Output,
    writer: &mut W,
) -> Result<(), WriteError>
    ensures ok { OnOk result (Appends (W.contents writer.old) (W.contents writer.new) (frame_of output.now)) }
    ensures err { OnErr result (AppendsLess (W.contents writer.old) (W.contents writer.new) (frame_of output.now)) }
    ensures memory { IsErrOf result WriteError.Memory → Keeps (W.contents writer.old) (W.contents writer.new) }
{
    let body = encode_output(alloc, output)?;
    write_bytes(writer, &(body.len() as u32).to_be_bytes())?;
    write_bytes(writer, body.as_slice())
}

// Writes all of these bytes, in as many calls as it takes. After an error, a prefix of them was written.
fn write_bytes<W: Write>(writer: &mut W, bytes: &[u8]) -> Result<(), WriteError>
    ensures ok { OnOk result (Appends (W.contents writer.old) (W.contents writer.new) bytes.now) }
    ensures err { OnErr result (AppendsLess (W.contents writer.old) (W.contents writer.new) bytes.now) }
    ensures errors { IfErr result (λ error. error ≡ WriteError.Output) }
{
    let mut rest = bytes;
    for _ in 0..u64::MAX {
        if rest.is_empty() {
            break;
        }
        let count = write_some(writer, rest)?;
        let left = after(rest, count);
        rest = left;
    }
    if !rest.is_empty() {
        return Err(WriteError::Output);
    }
    Ok(())
}

// The bytes without the first `count`.
fn after(bytes: &[u8], count: usize) -> &[u8]
    requires { count ≤ length bytes.now }
    ensures { result.now ≡ drop count bytes.now }
{
    &bytes[count..]
}

// Writes some of the first bytes, and returns how many. It is none if the call was interrupted, so that it has to be made again.
fn write_some<W: Write>(writer: &mut W, bytes: &[u8]) -> Result<usize, WriteError>
    ensures ok { IfOk result (λ count. Appends (W.contents writer.old) (W.contents writer.new) (take count bytes.now)) }
    ensures within { IfOk result (λ count. count ≤ length bytes.now) }
    ensures err { OnErr result (Keeps (W.contents writer.old) (W.contents writer.new)) }
    ensures errors { IfErr result (λ error. error ≡ WriteError.Output) }
{
    match writer.write(bytes) {
        Ok(0) => Err(WriteError::Output),
        Ok(count) => Ok(count),
        Err(error) => {
            if error.kind() == ErrorKind::Interrupted {
                Ok(0)
            } else {
                Err(WriteError::Output)
            }
        }
    }
}
