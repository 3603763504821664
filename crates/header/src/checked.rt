//! Messages that passed the tests.

ghost use Rattle.std.specs.Prelude.{◌≡◌, IfOk, IfErr, IsErrOf, IsSome, IsTrue, None, option_copied};
ghost use Rattle.wire.specs.Events.{Event};
ghost use Rattle.wire.specs.declared.keys.Digest.{Digest};
ghost use Rattle.wire.specs.declared.keys.Key.{Key};
ghost use Rattle.wire.specs.declared.keys.Signature.{Signature};
ghost use Rattle.header.specs.Checks.{fault_of, accepts_all};
ghost use Rattle.header.specs.Digested.{batch_digest_in, header_digest_in, certificate_digest_in};

use crate::digested::Digested;
use crate::error::CheckError;
use crate::faults::{is_member, test_digested, test_message};
use committee::Committee;
use sigface::Verify;
use std::marker::Model;
use wire::{Author, Digest, Key, Message, Signature};

/// A message that passed `check` or `recheck`, with its sender, and with the digests that the tests have computed. No other function makes
/// a value of this type, so the message has passed the tests of some committee.
#[derive(Debug)]
pub struct Checked {
    sender: Author,
    message: Message,
    digested: Digested,
}

impl Drop for Checked {
    fn drop(self) {
        let Checked {
            sender: _,
            message: _,
            digested: _,
        } = self;
    }
}

impl Model for Checked {
    ghost use Rattle.wire.specs.Events.{Event};
    ghost use Rattle.header.specs.Checks.{HasPassed};
    ghost use Rattle.header.specs.Digested.{digested_of};
    ghost use Rattle.std.specs.Prelude.{◌≡◌};

    ghost Value = { Event };

    ghost view = { λ c. record { sender = c.sender; message = c.message } };

    ghost invariant = { λ c. HasPassed (record { sender = c.sender; message = c.message }) × (c.digested ≡ digested_of c.message) };
}

impl Checked {
    /// Who sent it.
    pub fn sender(&self) -> Author
        ensures { result ≡ self.now.sender }
    {
        self.sender
    }

    /// The message that was sent.
    pub fn message(&self) -> &Message
        ensures { result.now ≡ self.now.message }
    {
        &self.message
    }

    /// The message that was sent, without its sender.
    pub fn into_message(self) -> Message
        ensures { result ≡ self.message }
    {
        let Checked {
            sender: _,
            message,
            digested: _,
        } = self;
        message
    }

    /// The digest of the batch if the message is one; None for another message.
    pub fn batch_digest(&self) -> Option<&Digest>
        ensures { option_copied result ≡ batch_digest_in self.now.message }
    {
        match &self.digested {
            Digested::Batch(digest) => Some(digest),
            _ => None,
        }
    }

    /// The digest of the header, or of the certificate's header; None for another message.
    pub fn header_digest(&self) -> Option<&Digest>
        ensures { option_copied result ≡ header_digest_in self.now.message }
    {
        match &self.digested {
            Digested::Header(digest) => Some(digest),
            Digested::Certificate { header, .. } => Some(header),
            _ => None,
        }
    }

    /// The digest of the certificate if the message is one; None for another message.
    pub fn certificate_digest(&self) -> Option<&Digest>
        ensures { option_copied result ≡ certificate_digest_in self.now.message }
    {
        match &self.digested {
            Digested::Certificate { certificate, .. } => Some(certificate),
            _ => None,
        }
    }
}

/// A verifier that finds every signature good, for messages whose signatures were tested before.
struct AcceptAll;

impl Verify for AcceptAll {
    ghost accepts = { λ _. accepts_all };

    fn verify(&self, _: &Key, _: &Digest, _: &Signature) -> bool {
        true
    }
}

/// Tests a message that came from this sender, with its signatures. The call allocates no memory.
///
/// # Errors
/// The refusal of the first test that fails; never `Memory`.
pub fn check<V: Verify>(
    committee: &Committee,
    verifier: &V,
    sender: Author,
    message: Message,
) -> Result<Checked, CheckError>
    ensures checked { IfOk result (λ checked. checked ≡ record { sender = sender; message = message }) }
    ensures passed { IfOk result (λ checked. fault_of committee.now (V.accepts verifier.now) checked ≡ None) }
    // A message that passes would also pass without the tests of its signatures.
    ensures passed_unsigned { IfOk result (λ checked. fault_of committee.now accepts_all checked ≡ None) }
    ensures refused { IfErr result (λ error. fault_of committee.now (V.accepts verifier.now) (record { sender = sender; message = message }) ≡ Some error) }
    ensures no_memory { ¬ IsErrOf result CheckError.Memory }
{
    let digested = test_message(committee, verifier, sender, &message)?;
    committee.limits_hold();
    Ok(Checked {
        sender,
        message,
        digested,
    })
}

/// Tests a message from this sender without its signatures, such as one from the node's own journal. The call allocates no memory.
///
/// # Errors
/// The refusal of the first test that fails; never `BadSignature` or `Memory`.
pub fn recheck(
    committee: &Committee,
    sender: Author,
    message: Message,
) -> Result<Checked, CheckError>
    ensures checked { IfOk result (λ checked. checked ≡ record { sender = sender; message = message }) }
    ensures passed { IfOk result (λ checked. fault_of committee.now accepts_all checked ≡ None) }
    ensures refused { IfErr result (λ error. fault_of committee.now accepts_all (record { sender = sender; message = message }) ≡ Some error) }
    ensures no_memory { ¬ IsErrOf result CheckError.Memory }
    ensures no_bad_signature { ¬ IsErrOf result CheckError.BadSignature }
{
    check(committee, &AcceptAll, sender, message)
}

/// Whether an event is a certificate that passes the tests of this committee that need no signatures. Every certificate that waits for
/// parents has passed, but the type doesn't say for which committee. The call allocates no memory and computes no digest.
pub fn passes(committee: &Committee, event: &Checked) -> bool
    ensures passed { IsTrue result → fault_of committee.now accepts_all event.now ≡ None }
    ensures only { IsSome (certificate_digest_in event.now.message) → fault_of committee.now accepts_all event.now ≡ None → IsTrue result }
{
    match (event.message(), event.certificate_digest()) {
        (Message::Certificate(certificate), Some(digest)) => {
            is_member(committee, event.sender())
                && test_digested(committee, &AcceptAll, certificate, digest).is_ok()
        }
        _ => false,
    }
}
