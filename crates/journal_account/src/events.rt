//! Reads the events in a journal's records and gives them to a validator, by the definitions that an opening of a node obeys too.

ghost use Rattle.std.specs.Prelude.{◌≡◌, ◌≢◌, true, IfErr, OnOk};
ghost use Rattle.journal.specs.Format.{FailsAs};
ghost use Rattle.journal.specs.declared.error.JournalError.TheVariants as errors;
ghost use Rattle.spec_model.specs.States.{State};
ghost use Rattle.admission.specs.Answers.{is_new_step};
ghost use Rattle.validator.specs.Setting.{node_of};
ghost use Rattle.validator.specs.Standing.{AreAtSound};
ghost use Rattle.opening.specs.Decoded.{read_event, read_events, StandsAt, IsOld};

use crate::flaw::{Flaw, Why};
use committee::Committee;
use header::recheck;
use journal::Record;
use opening::{EVENT, FRONT_BYTES, event_of};
use sigface::Sign;
use std::alloc::Global;
use validator::{Refusal, Step, Validator};
use wire::Author;
use wire_read::decode;

// Says why a record has no event.
fn why_none(alloc: Global, committee: &Committee, bytes: &[u8]) -> Why {
    if bytes.len() < FRONT_BYTES || bytes[0] != EVENT {
        return Why::Kind;
    }
    let sender = Author(u16::from_be_bytes([bytes[1], bytes[2]]));
    match decode(alloc, &bytes[FRONT_BYTES..]) {
        Ok(message) => match recheck(committee, sender, message) {
            Ok(_) => Why::Kind,
            Err(error) => Why::Unchecked(error),
        },
        Err(error) => Why::Unread(error),
    }
}

// Gives the event of a record to the validator. The record has to have an event, and that has to be new.
fn take_event<S: Sign>(
    alloc: Global,
    validator: &mut Validator<'_, S>,
    one: &Record,
) -> Result<(), Flaw>
    ensures setting { validator.new.setting ≡ validator.old.setting }
    ensures ok { let node = node_of S.scheme validator.old.setting in OnOk result ((state : State) → AreAtSound node validator.old.tables state
        → StandsAt node (read_event node state one.now) validator.new.tables) }
    ensures err { let node = node_of S.scheme validator.old.setting in IfErr result (λ flaw. (state : State) → AreAtSound node validator.old.tables state
        → FailsAs flaw.error (read_event node state one.now)) }
{
    let found = event_of(alloc, validator.committee(), one.bytes.as_slice())?;
    let Some(event) = found else {
        let why = why_none(alloc, validator.committee(), one.bytes.as_slice());
        return Err(Flaw::at(one.gate, why));
    };
    let step = validator.step(event);
    only_new(step, one.gate)
}

// Turns an answer into a flaw unless the event was new: damage of the group with this gate, or a failed allocation.
fn only_new(step: Result<Step, Refusal>, gate: u64) -> Result<(), Flaw>
    ensures ok { OnOk result (is_new_step step ≡ true) }
    ensures err { IfErr result (λ flaw. flaw.error ≢ errors.Memory → (flaw.error ≡ errors.Damaged gate) × IsOld step) }
{
    match step {
        Ok(Step::New(_)) => Ok(()),
        Ok(Step::Known(_)) => Err(Flaw::at(gate, Why::Known)),
        Err(Refusal::Memory) => Err(Flaw::memory()),
        Err(refusal) => Err(Flaw::at(gate, Why::Refused(refusal))),
    }
}

/// Gives the events of these records to the validator. Each of them has to be new.
pub(crate) fn replay<S: Sign>(
    alloc: Global,
    validator: &mut Validator<'_, S>,
    records: &[Record],
) -> Result<(), Flaw>
    ensures setting { validator.new.setting ≡ validator.old.setting }
    ensures ok { let node = node_of S.scheme validator.old.setting in OnOk result ((state : State) → AreAtSound node validator.old.tables state
        → StandsAt node (read_events node state records.now) validator.new.tables) }
    ensures err { let node = node_of S.scheme validator.old.setting in IfErr result (λ flaw. (state : State) → AreAtSound node validator.old.tables state
        → FailsAs flaw.error (read_events node state records.now)) }
{
    for one in records {
        take_event(alloc, validator, one)?;
    }
    Ok(())
}
