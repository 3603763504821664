//! Writes outputs as frames.

ghost use Rattle.std.specs.Prelude.{◌≡◌, ◌++◌, OnOk, nat_le};
ghost use Rattle.ref_script.specs.Desks.{desk_of};
ghost use Rattle.spec_world.specs.Text as script;
ghost use Rattle.wire.specs.Outputs.{frame_of};

use crate::desk::{Desk, Waiting};
use std::alloc::{AllocError, Global};
use wire::{Output, encode_output};

/// Adds an output as a frame: its length in four big-endian bytes, and its bytes.
fn put_frame(alloc: Global, bytes: &mut Vec<u8>, output: &Output) -> Result<(), AllocError>
    ensures { OnOk result (bytes.new.items ≡ bytes.old.items ++ frame_of output.now) }
{
    let body = encode_output(alloc, output)?;
    bytes.extend_from_slice(&(body.len() as u32).to_be_bytes())?;
    bytes.extend_from_slice(&body)?;
    Ok(())
}

/// Whether an output is due: as many events are settled as its ticket says.
fn is_due(desk: &Desk, waiting: &Waiting) -> bool
    ensures { result ≡ script.is_due (desk_of desk.now) waiting.now }
{
    waiting.ticket <= desk.settled
}

/// Adds the outputs that are due, each as a frame.
pub fn put_due(alloc: Global, bytes: &mut Vec<u8>, desk: &Desk) -> Result<(), AllocError>
    ensures { OnOk result (bytes.new.items ≡ bytes.old.items ++ script.frames (script.due (desk_of desk.now))) }
{
    for waiting in &desk.waiting {
        if is_due(desk, waiting) {
            put_frame(alloc, bytes, &waiting.output)?;
        }
    }
    Ok(())
}

/// The desk without the outputs that are due.
pub fn without_due(mut desk: Desk) -> Desk
    ensures { desk_of result ≡ script.without_due (desk_of desk) }
{
    let settled = desk.settled;
    desk.waiting.retain(|waiting| waiting.ticket > settled);
    desk
}
