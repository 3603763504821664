//! The reader of a checkpoint's records.

ghost use Rattle.std.specs.Prelude.{◌≡◌, ◌≢◌, ◌++◌, [], ◌∷◌, List, ℕ, drop, None, Ok, IfOk, IfErr, OnOk, OnErr};
ghost use Rattle.spec_checkpoint.specs.Data.{Checkpoint};
ghost use Rattle.spec_checkpoint.specs.Loading as loading;
ghost use Rattle.spec_checkpoint.specs.Meaning.{state_in};
ghost use Rattle.spec_checkpoint.specs.Reading.{checkpoint_read};
ghost use Rattle.spec_model.specs.Nodes.{IsNode, node_view};
ghost use Rattle.wire.specs.Fields.{AreBytes};
ghost use Rattle.admission.specs.Kept.{IsKeptOf};
ghost use Rattle.checkpoint.specs.Reader.{fault_of, node_of, reader_of};

use crate::configuration::version_of;
use crate::error::LoadError;
use crate::judging::kept_of;
use crate::reading::{ReadSoFar, kind_of};
use admission::Kept;
use header::Node;
use journal::Version;
use sigface::Sign;
use std::alloc::Global;
use std::marker::Model;

/// Reads the records of a checkpoint one by one: the node's configuration, and those of its state. Contracts see the node and the records
/// that came so far.
pub struct CheckpointReader<'a, S: Sign> {
    alloc: Global,
    node: &'a Node<S>,
    // The version of the configuration's record, once that has come.
    version: Option<Version>,
    // How many records have come.
    count: u64,
    so_far: ReadSoFar,
}

impl<'a, S: Sign> Drop for CheckpointReader<'a, S> {
    fn drop(self) {
        let CheckpointReader {
            alloc: _,
            node: _,
            version: _,
            count: _,
            so_far: _,
        } = self;
    }
}

impl<'a, S: Sign> Model for CheckpointReader<'a, S> {
    ghost use Rattle.spec_model.specs.Nodes.{node_view};
    ghost use Rattle.checkpoint.specs.Reader.{ReaderView, IsReading, reader_of, records_so_far};

    ghost Value = { ReaderView S };

    ghost view = { λ r. reader_of r.node.now (records_so_far (node_view S.scheme r.node.now) r.version r.so_far) };

    ghost invariant = { λ r. IsReading (node_view S.scheme r.node.now) r.version r.count r.so_far };
}

impl<'a, S: Sign> CheckpointReader<'a, S> {
    /// A reader to which no record has come yet.
    pub fn new(alloc: Global, node: &'a Node<S>) -> CheckpointReader<'a, S>
        requires { IsNode (node_view S.scheme node.now) }
        ensures { result ≡ reader_of node.now [] }
    {
        spec_checkpoint::read_as_written();
        CheckpointReader {
            alloc,
            node,
            version: None,
            count: 0,
            so_far: ReadSoFar::new(alloc),
        }
    }

    /// Reads the next record; the first one has to be the node's configuration.
    ///
    /// # Errors
    /// `Unsound` with the first record that doesn't follow the format. This is the given record; or the record before it, if that is a
    /// piece of the order or of the coins which isn't full, and the given record is one more such piece. Whatever records follow, loading
    /// the whole list gives the same error. `Memory` where an allocation failed. After an error the reader is as before.
    pub fn put(&mut self, bytes: &[u8]) -> Result<(), LoadError>
        ensures ok { OnOk result (self.new ≡ record self.old { records = self.old.records ++ bytes.now ∷ [] }) }
        ensures fault { IfErr result (λ error. error ≢ LoadError.Memory → (more : List (List ℕ)) → loading.load_fault (node_of S.scheme self.old) (self.old.records ++ bytes.now ∷ more) ≡ fault_of error) }
        ensures err { OnErr result (self.new ≡ self.old) }
    {
        spec_checkpoint::read_as_written();
        are_bytes(bytes);
        match self.version {
            None => {
                let found = version_of(self.alloc, &self.node.committee, self.node.own, bytes)?;
                if found.is_none() {
                    return Err(LoadError::Unsound(0));
                }
                self.version = found;
                self.count = 1;
                Ok(())
            }
            Some(_) => {
                let Some(count) = self.count.checked_add(1) else {
                    // This is never reached: no memory holds so many records.
                    return Err(LoadError::Memory);
                };
                if self.so_far.is_cut_short(kind_of(bytes)) {
                    return Err(LoadError::Unsound((self.count - 1).max(1)));
                }
                if !self.so_far.put(self.alloc, self.node, bytes)? {
                    return Err(LoadError::Unsound(self.count));
                }
                self.count = count;
                Ok(())
            }
        }
    }

    /// The parts from which a validator's tables are restored, once all records have come.
    ///
    /// # Errors
    /// `Unsound` where no record came, or with the first record that isn't sound; `UnsoundWhole` where each record is sound and the whole
    /// isn't; `Memory` where an allocation failed.
    pub fn finish(self) -> Result<Kept, LoadError>
        ensures ok { OnOk result (loading.load_fault (node_of S.scheme self.entry) self.entry.records ≡ None) }
        ensures kept { IfOk result (λ kept. (checkpoint : Checkpoint) × (checkpoint_read (node_of S.scheme self.entry) (drop 1 self.entry.records) ≡ Ok checkpoint) × IsKeptOf (node_of S.scheme self.entry) (state_in (node_of S.scheme self.entry) checkpoint) kept) }
        ensures err { IfErr result (λ error. error ≢ LoadError.Memory → loading.load_fault (node_of S.scheme self.entry) self.entry.records ≡ fault_of error) }
    {
        spec_checkpoint::read_as_written();
        let CheckpointReader {
            alloc,
            node,
            version,
            count,
            so_far,
        } = self;
        if version.is_none() {
            return Err(LoadError::Unsound(0));
        }
        kept_of(alloc, node, count, so_far)
    }
}

// Each of these bytes is a number below 256. The call does nothing.
fn are_bytes(bytes: &[u8])
    ensures { AreBytes bytes.now }
{
    let _ = bytes;
}
