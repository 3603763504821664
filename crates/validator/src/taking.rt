//! How an event that passed the checks is given to the table of its kind.

ghost use Rattle.std.specs.Prelude.{◌≡◌, ◌≢◌, true, false, None, Some};
ghost use Rattle.admission.specs.Answers.{is_new_step};
ghost use Rattle.admission.specs.Standing.{MeetSome};
ghost use Rattle.validator.specs.Standing.{AnswersEvent, RefusesEvent, GoOnAfter};

use admission::{Refusal, Step, Tables};
use header::Checked;
use sigface::Sign;
use std::alloc::Global;
use wire::{Digest, Message};

/// The digest of a message of a kind that has one; the checks computed it.
pub(crate) fn given(digest: Option<Digest>) -> Digest
    requires { digest ≢ None }
    ensures { Some result ≡ digest }
{
    match digest {
        Some(digest) => digest,
        None => unreachable!(),
    }
}

/// Takes an event into the tables, with the digests that its checks computed.
///
/// # Errors
/// The refusal of admission, or `Memory` where an allocation failed. Neither changes anything.
pub(crate) fn take<S: Sign>(
    tables: &mut Tables,
    alloc: Global,
    signer: &S,
    event: Checked,
) -> Result<Step, Refusal>
    requires meets { MeetSome tables.old event.message }
    ensures answer { AnswersEvent tables.old (S.scheme.signature_of signer.now) event result }
    ensures refused { RefusesEvent tables.old (S.scheme.signature_of signer.now) event result }
    ensures at { is_new_step result ≡ true → GoOnAfter tables.old tables.new (S.scheme.signature_of signer.now) event }
    ensures same { is_new_step result ≡ false → tables.new ≡ tables.old }
    ensures seed { tables.new.batches.seed ≡ tables.old.batches.seed }
{
    let sender = event.sender();
    let batch_digest = event.batch_digest().copied();
    let header_digest = event.header_digest().copied();
    let certificate_digest = event.certificate_digest().copied();
    match event.into_message() {
        Message::Batch(batch) => tables.take_batch(alloc, &given(batch_digest), batch),
        Message::BatchAck(ack) => tables.take_ack(alloc, &ack),
        Message::Header(header) => {
            tables.take_header(alloc, signer, header, &given(header_digest))
        }
        Message::Vote(vote) => tables.take_vote(alloc, vote),
        Message::Certificate(certificate) => {
            tables.take_certificate(alloc, certificate, given(certificate_digest))
        }
        Message::Coin(coin) => tables.take_coin(alloc, sender, &coin),
    }
}
