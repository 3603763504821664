//! Reads a journal: makes the validator in the state that its records lead to.

ghost use Rattle.std.specs.Prelude.{◌≡◌, ◌∷◌, [], take, Ok, All, IfOk, IfErr};
ghost use Rattle.journal.specs.Areas.{Areas, stands_in};
ghost use Rattle.journal.specs.Format.{FailsAs};
ghost use Rattle.spec_machine.specs.Machine.{fresh};
ghost use Rattle.spec_world.specs.World.{IsPair};
ghost use Rattle.validator.specs.Setting.{node_of};
ghost use Rattle.opening.specs.Decoded.{IsText, read_pair, Reports, StandsAt};
ghost use Rattle.journal_account.specs.Accounts.{IsReadAt, base_of, base_in};

use crate::events::replay;
use crate::flaw::Flaw;
use crate::loading::load;
use crate::own::test_first;
use crate::parts::{after_head, events_of, state_count};
use journal::Record;
use opening::is_text;
use sigface::Sign;
use std::alloc::Global;
use validator::{Config, Validator};

/// The validator in the state that a journal of these records leads to. The first record has to be this configuration.
///
/// # Errors
/// `Damaged`, `ConfigMismatch` and `Memory`, in the order in which an opening of a node reports them.
pub fn after_records<'a, S: Sign>(
    alloc: Global,
    config: &'a Config<S>,
    records: &[Record],
) -> Result<Validator<'a, S>, Flaw>
    ensures setting { IfOk result (λ validator. validator.setting ≡ config.now) }
    ensures stands { let node = node_of S.scheme config.now in IfOk result (λ validator. StandsAt node (read_pair node records.now) validator.tables) }
    // If two files are read as these records, they stand for a state and later events, and the validator is in the state after these
    // events.
    ensures read { let node = node_of S.scheme config.now in (areas : Areas) → IsPair areas → stands_in areas ≡ Ok records.now
        → IfOk result (λ validator. IsReadAt node areas validator.tables) }
    ensures err { IfErr result (λ flaw. Reports flaw.error (read_pair (node_of S.scheme config.now) records.now)) }
{
    spec_machine::starts_fresh();
    config.limits_hold();
    are_texts(records);
    let mut validator = begun(alloc, config, records)?;
    replay(alloc, &mut validator, events_of(records))?;
    Ok(validator)
}

/// The validator in the state with which a journal of these records begins: that of its checkpoint, or the fresh state if it has none.
///
/// # Errors
/// Those of `after_records`.
pub(crate) fn begun<'a, S: Sign>(
    alloc: Global,
    config: &'a Config<S>,
    records: &[Record],
) -> Result<Validator<'a, S>, Flaw>
    ensures setting { IfOk result (λ validator. validator.setting ≡ config.now) }
    ensures stands { let node = node_of S.scheme config.now in IfOk result (λ validator. StandsAt node (base_in node records.now) validator.tables) }
    ensures err { IfErr result (λ flaw. Reports flaw.error (base_in (node_of S.scheme config.now) records.now)) }
{
    match records.split_first() {
        Some((first, rest)) => {
            test_first(alloc, config, first)?;
            begun_by(alloc, config, first, rest)
        }
        None => Ok(Validator::new(alloc, config)?),
    }
}

// The validator in the state with which a journal begins, given the configuration, which is the first record, and the records after it.
fn begun_by<'a, S: Sign>(
    alloc: Global,
    config: &'a Config<S>,
    first: &Record,
    rest: &[Record],
) -> Result<Validator<'a, S>, Flaw>
    ensures setting { IfOk result (λ validator. validator.setting ≡ config.now) }
    ensures stands { let node = node_of S.scheme config.now in IfOk result (λ validator. StandsAt node (base_of node first.now rest.now) validator.tables) }
    ensures err { IfErr result (λ flaw. FailsAs flaw.error (base_of (node_of S.scheme config.now) first.now rest.now)) }
{
    match after_head(first, rest) {
        Some(others) => {
            let (state, _) = others.split_at(state_count(others));
            load(alloc, config, first, state)
        }
        None => Ok(Validator::new(alloc, config)?),
    }
}

// A law: each byte of these records is a number below 256. The call does nothing.
pub(crate) fn are_texts(records: &[Record])
    ensures { All IsText records.now }
{
    for one in records {
        is_text(one.bytes.as_slice(), one.gate);
    }
}
