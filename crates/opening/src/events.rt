//! Reads the events in the records of a journal.

ghost use Rattle.std.specs.Prelude.{◌≡◌, ◌≢◌, true, None, IfOk, IfErr, IfSome, OnOk};
ghost use Rattle.header.specs.Checks.{fault_of, accepts_all};
ghost use Rattle.journal.specs.Format.{FailsAs};
ghost use Rattle.spec_model.specs.States.{State};
ghost use Rattle.admission.specs.Answers.{is_new_step};
ghost use Rattle.validator.specs.Setting.{node_of};
ghost use Rattle.validator.specs.Standing.{AreAtSound};
ghost use Rattle.opening.specs.Decoded.{IsText, event_in, if_passed, read_event, StandsAt, IsOld};

use crate::configuration::are_bytes;
use committee::Committee;
use header::{Checked, recheck};
use journal::JournalError;
use sigface::Sign;
use std::alloc::{AllocError, Global};
use validator::{Config, Refusal, Step, Validator};
use wire::{Author, Message, WireError};
use wire_read::decode;

/// The kind of record that holds an event, its first byte.
pub const EVENT: u8 = 1;

/// How many bytes of an event's record come before the message: the kind, and the sender's number.
pub const FRONT_BYTES: usize = 3;

/// The event of a record; None if it has none that passes the committee's checks. Signatures are not checked again, since that was done
/// before the record was written. On `AllocError` an allocation failed.
pub fn event_of(
    alloc: Global,
    committee: &Committee,
    bytes: &[u8],
) -> Result<Option<Checked>, AllocError>
    ensures found { IfOk result (λ found. found ≡ event_in committee.now bytes.now) }
    ensures passed { IfOk result (λ found. IfSome found (λ event. fault_of committee.now accepts_all event ≡ None)) }
{
    if bytes.len() < FRONT_BYTES || bytes[0] != EVENT {
        return Ok(None);
    }
    let sender = Author(u16::from_be_bytes([bytes[1], bytes[2]]));
    match decode(alloc, &bytes[FRONT_BYTES..]) {
        Ok(message) => Ok(passed(committee, sender, message)),
        Err(error) => unread(error),
    }
}

// The event of a message from this sender, if it passes the checks without those of signatures.
fn passed(committee: &Committee, sender: Author, message: Message) -> Option<Checked>
    ensures found { result ≡ if_passed committee.now (record { sender = sender; message = message }) }
    ensures passed { IfSome result (λ event. fault_of committee.now accepts_all event ≡ None) }
{
    match recheck(committee, sender, message) {
        Ok(event) => Some(event),
        Err(_) => None,
    }
}

// The answer for a record whose message can't be decoded: it has no event, unless it was an allocation that failed.
fn unread(error: WireError) -> Result<Option<Checked>, AllocError>
    ensures { IfOk result (λ found. (found ≡ None) × (error ≢ WireError.Memory)) }
{
    match error {
        WireError::Memory => Err(AllocError),
        _ => Ok(None),
    }
}

// Gives the event of a record to the validator. A record without an event, or with one that isn't new, is damage.
pub(crate) fn take_event<S: Sign>(
    alloc: Global,
    validator: &mut Validator<'_, S>,
    bytes: &[u8],
    place: u64,
) -> Result<(), JournalError>
    ensures setting { validator.new.setting ≡ validator.old.setting }
    ensures ok { let node = node_of S.scheme validator.old.setting in OnOk result ((state : State) → AreAtSound node validator.old.tables state
        → StandsAt node (read_event node state (record { bytes = bytes.now; gate = place })) validator.new.tables) }
    ensures err { let node = node_of S.scheme validator.old.setting in IfErr result (λ error. (state : State) → AreAtSound node validator.old.tables state
        → FailsAs error (read_event node state (record { bytes = bytes.now; gate = place }))) }
{
    let found = event_of(alloc, validator.committee(), bytes)?;
    let Some(event) = found else {
        return Err(JournalError::Damaged(place));
    };
    let step = validator.step(event);
    only_new(step, place)
}

// Turns an answer into an error unless the event was new: damage at this gate, or a failed allocation.
fn only_new(step: Result<Step, Refusal>, gate: u64) -> Result<(), JournalError>
    ensures ok { OnOk result (is_new_step step ≡ true) }
    ensures err { IfErr result (λ error. error ≢ JournalError.Memory → (error ≡ JournalError.Damaged gate) × IsOld step) }
{
    match step {
        Ok(Step::New(_)) => Ok(()),
        Ok(Step::Known(_)) => Err(JournalError::Damaged(gate)),
        Err(Refusal::Memory) => Err(JournalError::Memory),
        Err(_) => Err(JournalError::Damaged(gate)),
    }
}

/// A law: each byte of a record with these bytes and this gate is a number below 256. The call does nothing.
pub fn is_text(bytes: &[u8], gate: u64)
    ensures { IsText (record { bytes = bytes.now; gate = gate }) }
{
    are_bytes(bytes);
}
