//! Tests whose journal it is: the first record has to be the expected configuration.

ghost use Rattle.std.specs.Prelude.{◌≡◌, ◌≢◌, None, Some, IfErr, OnOk};
ghost use Rattle.journal.specs.declared.error.JournalError.TheVariants as errors;
ghost use Rattle.validator.specs.Setting.{node_of};
ghost use Rattle.opening.specs.Decoded.{own_fault};

use crate::flaw::{Flaw, Why};
use journal::{Record, shaped_version};
use opening::is_own;
use sigface::Sign;
use std::alloc::Global;
use validator::Config;

/// Tests that the first record of a journal is this configuration.
///
/// # Errors
/// `Damaged` with the place of the record's group, if it is no configuration; `ConfigMismatch` if it is another one; `Memory` if an
/// allocation failed.
pub(crate) fn test_first<S: Sign>(
    alloc: Global,
    config: &Config<S>,
    first: &Record,
) -> Result<(), Flaw>
    ensures ok { OnOk result (own_fault (node_of S.scheme config.now) first.now ≡ None) }
    ensures err { IfErr result (λ flaw. flaw.error ≢ errors.Memory → own_fault (node_of S.scheme config.now) first.now ≡ Some flaw.error) }
{
    let Some(version) = shaped_version(first.bytes.as_slice()) else {
        return Err(Flaw::at(first.gate, Why::FirstGroup));
    };
    if is_own(alloc, config, version, first.bytes.as_slice())? {
        Ok(())
    } else {
        Err(Flaw::other())
    }
}
