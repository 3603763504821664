//! A sink: where the records of a checkpoint are written to.

ghost use Rattle.std.specs.Prelude.{◌≡◌, ◌++◌, ◌∷◌, [], IfOk, OnOk};
ghost use Rattle.journal.specs.Drafts.{whole};

use journal::SnapshotDraft;
use std::alloc::{AllocError, Global};

/// Where the records of a checkpoint are written to, one after the other. A record is given in parts, so that it can be written straight to
/// its place, without a copy.
pub trait RecordSink {
    ghost use Rattle.std.specs.Prelude.{List, ℕ};

    // The records that were added so far.
    ghost records: { Self → List (List ℕ) };

    // Which records can be added: any to a plain list, and to the draft of a snapshot those that fit a group by themselves.
    ghost fits: { List ℕ → Type 0 };

    /// Adds a record that is given in parts. On `AllocError` an allocation failed.
    fn put(&mut self, alloc: Global, parts: &[&[u8]]) -> Result<(), AllocError>
        requires { fits (whole parts.now) }
        ensures { OnOk result (records self.new ≡ records self.old ++ whole parts.now ∷ []) };
}

impl RecordSink for SnapshotDraft {
    ghost use Rattle.journal.specs.Snapshot.{FitsAlone};

    ghost records = { λ draft. draft };

    ghost fits = { FitsAlone };

    fn put(&mut self, _alloc: Global, parts: &[&[u8]]) -> Result<(), AllocError> {
        self.push(parts)
    }
}

impl RecordSink for Vec<Vec<u8>> {
    ghost use Rattle.std.specs.Prelude.{⊤};
    ghost use Rattle.journal.specs.Format.{contents};

    ghost records = { λ rows. contents rows.items };

    ghost fits = { λ bytes. ⊤ };

    fn put(&mut self, alloc: Global, parts: &[&[u8]]) -> Result<(), AllocError> {
        let row = joined(alloc, parts)?;
        self.push(row)?;
        Ok(())
    }
}

/// The bytes of a record that is given in parts.
fn joined(alloc: Global, parts: &[&[u8]]) -> Result<Vec<u8>, AllocError>
    ensures { IfOk result (λ bytes. bytes.items ≡ whole parts.now) }
{
    let mut bytes = Vec::new(alloc);
    for part in parts {
        bytes.extend_from_slice(part)?;
    }
    Ok(bytes)
}

/// Adds to the sink a record that is given as one part.
pub fn put_row<S: RecordSink>(alloc: Global, sink: &mut S, row: &[u8]) -> Result<(), AllocError>
    requires { S.fits row.now }
    ensures { OnOk result (S.records sink.new ≡ S.records sink.old ++ row.now ∷ []) }
{
    sink.put(alloc, &[row])
}
