//! The records of accepted events, as they stand in the journal.

ghost use Rattle.std.specs.Prelude.{◌≡◌, ◌++◌, ◌∷◌, ◌+◌, ◌≤◌, List, ℕ, length, OnOk, OnErr};
ghost use Rattle.std.specs.Int.{w16, w32, to_be_bytes};
ghost use Rattle.journal.specs.Format.{record_bytes};
ghost use Rattle.spec_records.specs.Records.{record_of};

use header::Checked;
use journal::{LENGTH_BYTES, MAX_GROUP_BYTES};
use std::alloc::AllocError;
use wire::numbers::two_bytes;
use wire::{Author, encode_onto, encoded_len};

/// The kind byte of an event's record, which is its first byte.
pub const EVENT_RECORD: u8 = 1;

/// The bytes of an event's record before its message: the kind and the sender.
const EVENT_FRONT_BYTES: usize = 3;

/// The length of an event's record, in bytes.
pub(crate) fn record_len(event: &Checked) -> usize
    ensures len { result ≡ length (record_of event.now) }
    ensures fits { LENGTH_BYTES + result ≤ MAX_GROUP_BYTES }
{
    EVENT_FRONT_BYTES + encoded_len(event.message())
}

/// Adds the length of an event's record, and then the record: its kind, the sender and the message. On `AllocError` an allocation failed,
/// and a part of this may have been added.
pub(crate) fn put_record(bytes: &mut Vec<u8>, event: &Checked, len: usize) -> Result<(), AllocError>
    requires len { len ≡ length (record_of event.now) }
    requires short { LENGTH_BYTES + len ≤ MAX_GROUP_BYTES }
    ensures ok { OnOk result (bytes.new.items ≡ bytes.old.items ++ record_bytes (record_of event.now)) }
    ensures err { OnErr result ((rest : List ℕ) × (bytes.new.items ≡ bytes.old.items ++ rest)) }
{
    bytes.extend_from_slice(&front_bytes(len as u32, event.sender()))?;
    encode_onto(bytes, event.message())
}

// What stands before the message: the length of the record, its kind and the sender.
fn front_bytes(len: u32, sender: Author) -> [u8; LENGTH_BYTES + EVENT_FRONT_BYTES]
    ensures { result ≡ to_be_bytes w32 len ++ EVENT_RECORD ∷ to_be_bytes w16 sender.0 }
{
    let mut bytes = [EVENT_RECORD; LENGTH_BYTES + EVENT_FRONT_BYTES];
    bytes[..LENGTH_BYTES].copy_from_slice(&len.to_be_bytes());
    bytes[LENGTH_BYTES + 1..].copy_from_slice(&two_bytes(sender.0));
    bytes
}
