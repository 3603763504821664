//! Records as a journal keeps them.

ghost use Rattle.std.specs.Prelude.{◌≡◌, IfOk};

use diskmodel::KeptBytes;
use std::alloc::{AllocError, Global};
use std::marker::Model;

/// A record of a group whose gate is open, as an opening returns it.
#[derive(Debug, Drop)]
pub struct Record {
    /// The bytes of the record.
    pub bytes: KeptBytes,
    /// The place of its group's gate, in bytes from the front of the journal.
    pub gate: u64,
}

/// A record as a reader gets it: its bytes are borrowed from the buffer into which the file was read. Contracts see the record.
pub struct RecordRef<'b> {
    /// The bytes of the record.
    pub bytes: &'b [u8],
    /// The place of its group's gate, in bytes from the front of the journal.
    pub gate: u64,
}

impl<'b> Drop for RecordRef<'b> {
    fn drop(self) {
        let RecordRef { bytes: _, gate: _ } = self;
    }
}

impl<'b> Model for RecordRef<'b> {
    ghost use Rattle.journal.specs.declared.record.Record.{Record};

    ghost Value = { Record };

    ghost view = { λ one. record { bytes = one.bytes.now; gate = one.gate } };
}

impl RecordRef<'_> {
    /// A copy of the record.
    pub(crate) fn kept(&self, alloc: Global) -> Result<Record, AllocError>
        ensures { IfOk result (λ one. one ≡ self.now) }
    {
        let mut bytes = Vec::with_capacity(alloc, self.bytes.len())?;
        bytes.extend_from_slice(self.bytes)?;
        Ok(Record {
            bytes: KeptBytes::from_vec(bytes),
            gate: self.gate,
        })
    }
}
