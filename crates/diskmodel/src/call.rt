//! The calls of a disk, as its record has them.
ghost use Rattle.std.specs.Prelude.{◌≡◌, ◌+◌, ◌<◌, ◌≤◌, ◌↔◌, List, ℕ, IsTrue};

use std::marker::Model;

/// The bytes in a recorded call or in a record of a journal. Contracts see them as a list.
#[derive(Debug)]
pub struct KeptBytes {
    items: Vec<u8>,
}

impl Drop for KeptBytes {
    fn drop(self) {
        let KeptBytes { items: _ } = self;
    }
}

impl Model for KeptBytes {
    ghost use Rattle.std.specs.Prelude.{ℕ, List};

    ghost Value = { List ℕ };

    ghost view = { λ bytes. bytes.items.items };
}

impl KeptBytes {
    /// A value with these bytes. The call allocates no memory.
    pub fn from_vec(items: Vec<u8>) -> KeptBytes
        ensures { result ≡ items.items }
    {
        KeptBytes { items }
    }

    /// The bytes, borrowed. The call allocates no memory.
    pub fn as_slice(&self) -> &[u8]
        ensures { result.now ≡ self.now }
    {
        &self.items
    }

    /// Hands the bytes out. The call allocates no memory.
    pub fn into_vec(self) -> Vec<u8>
        ensures { result.items ≡ self }
    {
        let KeptBytes { items } = self;
        items
    }
}

/// A call that a disk has carried out, or a stop of the machine. Places and lengths are in bytes.
#[derive(Debug, Drop)]
pub enum Call {
    /// A write of these bytes at this place.
    Wrote {
        /// The place of the first byte that was written.
        place: u64,
        /// The bytes that were written.
        bytes: KeptBytes,
    },
    /// The disk was cut to this length.
    Cut(u64),
    /// A sync: all that a read gives was made durable.
    Synced,
    /// The machine stopped, and left these bytes.
    Stopped(KeptBytes),
}

/// A kind of call that can be set to fail.
#[derive(Clone, Copy, Debug, PartialEq, Eq)]
pub enum CallKind {
    /// A call of `read_at`, which reads bytes.
    Read,
    /// A call of `write_at`, which writes bytes.
    Write,
    /// A call of `cut`, which shortens the disk.
    Cut,
    /// A call of `sync`, which makes everything durable.
    Sync,
}

/// A span of places, in bytes.
#[derive(Clone, Copy, Debug, PartialEq, Eq)]
pub struct Span {
    /// The first place of the span.
    pub place: u64,
    /// How many places there are in the span.
    pub count: u64,
}

impl Span {
    ghost use Rattle.diskmodel.specs.Outcomes.{holds};

    /// Whether a place of the disk is in the span.
    pub fn holds(&self, place: u64) -> bool
        ensures { result ≡ holds self.now place }
    {
        self.place <= place && place - self.place < self.count
    }
}
