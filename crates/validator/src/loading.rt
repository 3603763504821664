//! Loading a validator from the records of a checkpoint.

ghost use Rattle.std.specs.Prelude.{◌≡◌, ◌≢◌, ◌++◌, ◌∷◌, [], List, ℕ, drop, None, Ok, IfOk, IfErr, OnOk, OnErr};
ghost use Rattle.checkpoint.specs.Reader.{fault_of};
ghost use Rattle.spec_checkpoint.specs.Data.{Checkpoint};
ghost use Rattle.spec_checkpoint.specs.Loading.{load_fault};
ghost use Rattle.spec_checkpoint.specs.Meaning.{state_in};
ghost use Rattle.spec_checkpoint.specs.Reading.{checkpoint_read};
ghost use Rattle.validator.specs.Setting.{node_of};
ghost use Rattle.validator.specs.Standing.{AreAtSound};

use crate::config::Config;
use crate::validator::Validator;
use checkpoint::{CheckpointReader, LoadError};
use sigface::Sign;
use std::alloc::Global;
use std::marker::Model;

/// A validator that is being loaded, record by record. Contracts see its setting and the records that it was given so far.
pub struct Loading<'a, S: Sign> {
    alloc: Global,
    config: &'a Config<S>,
    reader: CheckpointReader<'a, S>,
}

impl<'a, S: Sign> Drop for Loading<'a, S> {
    fn drop(self) {
        let Loading {
            alloc: _,
            config: _,
            reader: _,
        } = self;
    }
}

impl<'a, S: Sign> Model for Loading<'a, S> {
    ghost use Rattle.std.specs.Prelude.{◌≡◌};
    ghost use Rattle.validator.specs.Loading.{LoadingView, reader_for};

    ghost Value = { LoadingView S };

    ghost view = { λ l. record { setting = l.config.now; records = l.reader.records } };

    ghost invariant = { λ l. l.reader ≡ reader_for l.config.now l.reader.records };
}

impl<'a, S: Sign> Loading<'a, S> {
    /// A validator that is being loaded, to which no record was given yet.
    pub fn begin(alloc: Global, config: &'a Config<S>) -> Loading<'a, S>
        ensures { result ≡ record { setting = config.now; records = [] } }
    {
        config.limits_hold();
        Loading {
            alloc,
            config,
            reader: CheckpointReader::new(alloc, config.node()),
        }
    }

    /// Takes the next record: the first one is the validator's configuration, and those of a checkpoint's state follow.
    ///
    /// # Errors
    /// `Unsound` with the first record that doesn't follow the format, which is this one or the one before it; `Memory` where an allocation
    /// failed. After an error the validator that is being loaded is as before.
    pub fn put(&mut self, bytes: &[u8]) -> Result<(), LoadError>
        ensures ok { OnOk result (self.new ≡ record self.old { records = self.old.records ++ bytes.now ∷ [] }) }
        ensures fault { IfErr result (λ error. error ≢ LoadError.Memory → (more : List (List ℕ)) → load_fault (node_of S.scheme self.old.setting) (self.old.records ++ bytes.now ∷ more) ≡ fault_of error) }
        ensures err { OnErr result (self.new ≡ self.old) }
    {
        self.reader.put(bytes)
    }

    /// The validator in the state that the records decode to, once all of them were given.
    ///
    /// # Errors
    /// `Unsound` with the first record that isn't sound, or where no record was given; `UnsoundWhole` where each record is sound and the
    /// whole isn't; `Memory` where an allocation failed.
    pub fn finish(self) -> Result<Validator<'a, S>, LoadError>
        ensures setting { IfOk result (λ made. made.setting ≡ self.entry.setting) }
        ensures ok { OnOk result (load_fault (node_of S.scheme self.entry.setting) self.entry.records ≡ None) }
        ensures at { let node = node_of S.scheme self.entry.setting in IfOk result (λ made. (checkpoint : Checkpoint) × (checkpoint_read node (drop 1 self.entry.records) ≡ Ok checkpoint) × AreAtSound node made.tables (state_in node checkpoint)) }
        ensures err { IfErr result (λ error. error ≢ LoadError.Memory → load_fault (node_of S.scheme self.entry.setting) self.entry.records ≡ fault_of error) }
    {
        let Loading {
            alloc,
            config,
            reader,
        } = self;
        let kept = reader.finish()?;
        Ok(Validator::restore(alloc, config, kept)?)
    }
}
