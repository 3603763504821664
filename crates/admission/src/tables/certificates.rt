//! How the tables answer certificates.

ghost use Rattle.std.specs.Prelude.{◌≡◌, ◌++◌, true, false, Some, IfOk, OnOk, OnErr};
ghost use Rattle.wire.specs.declared.message.Message.TheVariants as message;
ghost use Rattle.spec_model.specs.Admitting.{order_outputs};
ghost use Rattle.spec_model.specs.Nodes.{Node};
ghost use Rattle.spec_model.specs.Slots.{certificate_digest};
ghost use Rattle.spec_model.specs.States.{State};
ghost use Rattle.spec_model.specs.Words.{Event};
ghost use Rattle.spec_machine.specs.Machine.{certificate_of, grown, after};
ghost use Rattle.sequencer.specs.Laws.{IsNewTo};
ghost use Rattle.sequencer.specs.Sequence.{ComesTo, IsAt};
ghost use Rattle.admission.specs.Answers.{is_new_step};
ghost use Rattle.admission.specs.Decisions.{as_refusal, certificate_decision};
ghost use Rattle.admission.specs.Standing.{IsReady, IsNew, MeetSome, MeetNew, Answers, Refuses, GoOn, PutsOut, always};

use crate::step::Step;
use crate::tables::Tables;
use crate::tables::answer::{Answer, is_new, lacks_parents, new_step};
use crate::tables::facts::others_stay;
use dag::{Added, DagRefusal};
use header::{Outputs, Refusal};
use sequencer::Sequencer;
use std::alloc::{AllocError, Global};
use wire::{Certificate, Digest, Output};

// Adds a new certificate with this digest to the DAG, and adds to the outputs what the order grows by. On `AllocError` an allocation
// failed: then the certificates, the coins and the order are as before.
pub(crate) fn hold_certificate(
    sequencer: &mut Sequencer,
    alloc: Global,
    certificate: Certificate,
    digest: Digest,
    outputs: &mut Outputs,
) -> Result<(), AllocError>
    requires new { IsNewTo sequencer.old certificate }
    requires digested { digest ≡ certificate_digest certificate.header }
    ensures outputs { OnOk result ((node : Node) (state : State) (event : Event) → ComesTo node state event sequencer.old
        → certificate_of node state event.message ≡ Some certificate → outputs.new ≡ outputs.old ++ order_outputs state (grown node state event.message)) }
    ensures at { OnOk result ((node : Node) (state : State) (event : Event) → ComesTo node state event sequencer.old
        → certificate_of node state event.message ≡ Some certificate → IsAt node (after node state event) sequencer.new) }
    ensures err { OnErr result (sequencer.new ≡ sequencer.old) }
{
    let prepared = sequencer.prepare(alloc, &certificate)?;
    let start = sequencer.order().len() as u64;
    outputs.push_order(alloc, start, prepared.digests())?;
    sequencer.hold(certificate, digest, &prepared)
}

// The refusal by which admission reports a refusal of the DAG.
fn refusal_of(refusal: DagRefusal) -> Refusal
    ensures { result ≡ as_refusal refusal }
{
    match refusal {
        DagRefusal::Memory => Refusal::Memory,
        DagRefusal::TooOld => Refusal::TooOld,
        DagRefusal::CertConflict => Refusal::CertConflict,
        DagRefusal::DigestClash => Refusal::DigestClash,
        DagRefusal::MissingParents => Refusal::MissingParents,
    }
}

impl<'a> Tables<'a> {
    // The decision about a certificate with this digest: New, Known, or the refusal.
    pub(crate) fn certificate_decision(
        &self,
        certificate: &Certificate,
        digest: &Digest,
    ) -> Result<Answer, Refusal>
        requires { digest.now ≡ certificate_digest certificate.now.header }
        ensures { result ≡ certificate_decision self.now certificate.now }
    {
        match self.sequencer.dag().answer(certificate, digest) {
            Ok(Added::New) => Ok(Answer::New),
            Ok(Added::Known) => Ok(Answer::Known),
            Err(refusal) => Err(refusal_of(refusal)),
        }
    }

    // Takes a new certificate with this digest, and gives the outputs: what the order grows by.
    fn new_certificate(
        &mut self,
        alloc: Global,
        certificate: Certificate,
        digest: Digest,
    ) -> Result<Vec<Output>, AllocError>
        requires meets { MeetNew self.old (message.Certificate certificate) }
        requires digested { digest ≡ certificate_digest certificate.header }
        ensures outputs { IfOk result (PutsOut self.old (message.Certificate certificate)) }
        ensures at { OnOk result (GoOn always self.old self.new (message.Certificate certificate)) }
        ensures err { OnErr result (self.new ≡ self.old) }
        ensures seed { self.new.batches.seed ≡ self.old.batches.seed }
    {
        others_stay();
        sequencer::certificates_are_new();
        let before = self.floor();
        let mut outputs = Outputs::new(alloc);
        hold_certificate(
            &mut self.sequencer,
            alloc,
            certificate,
            digest,
            &mut outputs,
        )?;
        self.trim(before);
        Ok(outputs.into_vec())
    }

    /// Takes a certificate with this digest.
    ///
    /// # Errors
    /// The refusal of admission, or `Memory` where an allocation failed. Neither changes anything.
    pub fn take_certificate(
        &mut self,
        alloc: Global,
        certificate: Certificate,
        digest: Digest,
    ) -> Result<Step, Refusal>
        requires meets { MeetSome self.old (message.Certificate certificate) }
        requires digested { digest ≡ certificate_digest certificate.header }
        ensures answer { Answers always self.old (message.Certificate certificate) result }
        ensures refused { Refuses always self.old (message.Certificate certificate) result }
        ensures at { is_new_step result ≡ true → GoOn always self.old self.new (message.Certificate certificate) }
        ensures same { is_new_step result ≡ false → self.new ≡ self.old }
        ensures seed { self.new.batches.seed ≡ self.old.batches.seed }
    {
        match self.certificate_decision(&certificate, &digest) {
            Ok(Answer::New) => new_step(self.new_certificate(alloc, certificate, digest)),
            Ok(Answer::Known) => Ok(Step::Known(Vec::new(alloc))),
            Err(refusal) => Err(refusal),
        }
    }

    /// Whether a certificate with this digest is ready: its answer isn't that a parent is missing.
    pub fn is_certificate_ready(&self, certificate: &Certificate, digest: &Digest) -> bool
        requires { digest.now ≡ certificate_digest certificate.now.header }
        ensures { IsReady self.now (message.Certificate certificate.now) result }
    {
        !lacks_parents(&self.certificate_decision(certificate, digest))
    }

    /// Whether a certificate with this digest would be new. The call allocates no memory.
    pub fn is_certificate_new(&self, certificate: &Certificate, digest: &Digest) -> bool
        requires { digest.now ≡ certificate_digest certificate.now.header }
        ensures { IsNew always self.now (message.Certificate certificate.now) result }
    {
        is_new(&self.certificate_decision(certificate, digest))
    }
}
