//! Bytes with several owners.

ghost use Rattle.std.specs.Prelude.{◌≡◌, IfOk, IfErr};

use bytes::Bytes;
use std::alloc::{AllocError, AllocFailed};
use std::marker::Model;

/// Immutable bytes that several owners share without a copy. Contracts see them as a list of bytes.
#[derive(Debug)]
pub struct SharedBytes {
    items: Bytes,
}

impl Drop for SharedBytes {
    fn drop(self) {
        let SharedBytes { items: _ } = self;
    }
}

impl Model for SharedBytes {
    ghost use Rattle.std.specs.Prelude.{ℕ, List};

    ghost Value = { List ℕ };

    ghost view = { λ bytes. bytes.items };
}

impl SharedBytes {
    /// Takes these bytes over without a copy. If an allocation fails they are handed back.
    pub fn from_vec(items: Vec<u8>) -> Result<SharedBytes, AllocFailed<Vec<u8>>>
        ensures ok { IfOk result (λ bytes. bytes ≡ items.items) }
        ensures value_returned { IfErr result (λ failed. failed.value.items ≡ items.items) }
    {
        let items = Bytes::from_vec(items)?;
        Ok(SharedBytes { items })
    }

    /// A second owner of the same bytes. On `AllocError` an allocation failed.
    pub fn share(&self) -> Result<SharedBytes, AllocError>
        ensures { IfOk result (λ bytes. bytes ≡ self.now) }
    {
        let items = self.items.clone()?;
        Ok(SharedBytes { items })
    }

    /// The shared bytes, borrowed.
    pub fn as_slice(&self) -> &[u8]
        ensures { result.now ≡ self.now }
    {
        self.items.as_slice()
    }
}
