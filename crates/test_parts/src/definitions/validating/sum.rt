//! A running checksum over everything that a validator answers, gives out, holds and proposes.

use crate::definitions::validating::seen::seen_of;
use header::Refusal;
use sigface::HashSign;
use validator::{Step, Validator};
use wire::{
    Author, Certificate, Digest, Header, Output, Round, batch_digest, certificate_digest,
    header_digest,
};

/// The checksum, FNV-1a of 64 bits, over the same bytes that `oracles/histories.py` adds.
#[derive(Clone, Copy)]
pub struct Sum {
    value: u64,
}

/// The number of a refusal in `docs/FORMATS.md`.
pub fn number_of(refusal: Refusal) -> u8 {
    match refusal {
        Refusal::Memory => 1,
        Refusal::Down => 2,
        Refusal::TooOld => 3,
        Refusal::MissingParents => 4,
        Refusal::MissingBatch => 5,
        Refusal::Equivocation => 6,
        Refusal::CertConflict => 7,
        Refusal::DigestClash => 8,
        Refusal::AlreadyProposed => 9,
        Refusal::NotOurs => 10,
        Refusal::CoinOutOfTurn => 11,
        Refusal::CoinEarly => 12,
        Refusal::CoinConflict => 13,
        Refusal::StoreFull => 14,
    }
}

impl Sum {
    /// The checksum over no bytes.
    pub fn new() -> Sum {
        Sum {
            value: 14_695_981_039_346_656_037,
        }
    }

    /// The checksum as a number.
    pub fn value(&self) -> u64 {
        self.value
    }

    fn add(&mut self, bytes: &[u8]) {
        for byte in bytes {
            self.value = (self.value ^ u64::from(*byte)).wrapping_mul(1_099_511_628_211);
        }
    }

    /// Adds a record of a checkpoint, with its length before it.
    pub fn add_record(&mut self, record: &[u8]) {
        self.add(&(record.len() as u64).to_be_bytes());
        self.add(record);
    }

    fn add_digest(&mut self, digest: Option<Digest>) {
        match digest {
            None => self.add(&[0]),
            Some(digest) => {
                self.add(&[1]);
                self.add(&digest.0);
            }
        }
    }

    /// Adds the answer to an event, and the validator's state after the event.
    pub fn add_event(
        &mut self,
        validator: &Validator<'_, HashSign>,
        is_ready: bool,
        step: &Result<Step, Refusal>,
        proposal: Option<&Header>,
    ) {
        self.add(&[u8::from(is_ready)]);
        match step {
            Ok(Step::New(outputs)) => self.add_outputs(0, outputs),
            Ok(Step::Known(outputs)) => self.add_outputs(1, outputs),
            Err(refusal) => self.add(&[2, number_of(*refusal)]),
        }
        self.add_state(validator);
        self.add_digest(proposal.map(|header| header_digest(&header.body)));
    }

    fn add_outputs(&mut self, kind: u8, outputs: &[Output]) {
        self.add(&[kind]);
        for output in outputs {
            self.add_output(output);
        }
    }

    fn add_output(&mut self, output: &Output) {
        match output {
            Output::Batch(batch) => self.add_named(b"batch", &batch_digest(batch)),
            Output::Ack { ack, .. } => self.add_named(b"ack", &ack.batch),
            Output::Header(header) => self.add_named(b"header", &header_digest(&header.body)),
            Output::Vote(vote) => self.add_named(b"vote", &vote.header),
            Output::Certificate(certificate) => self.add_certificate(certificate),
            Output::Order { start, digests } => {
                self.add(b"order");
                self.add(&start.to_be_bytes());
                for digest in digests.as_slice() {
                    self.add(&digest.0);
                }
            }
        }
    }

    fn add_named(&mut self, kind: &[u8], digest: &Digest) {
        self.add(kind);
        self.add(&digest.0);
    }

    fn add_certificate(&mut self, certificate: &Certificate) {
        let body = &certificate.header;
        let digest = certificate_digest(&header_digest(body), body.round, body.author);
        self.add_named(b"certificate", &digest);
        for vote in certificate.votes.as_slice() {
            self.add(&vote.voter.0.to_be_bytes());
        }
    }

    /// Adds the validator's round, floor and length of the order, and its votes in the rounds near the floor and the round.
    fn add_state(&mut self, validator: &Validator<'_, HashSign>) {
        let seen = seen_of(validator);
        self.add(&seen.round.to_be_bytes());
        self.add(&seen.floor.to_be_bytes());
        self.add(&(seen.order.len() as u64).to_be_bytes());
        for first in [seen.floor, seen.round.saturating_sub(1)] {
            for after in 0..3 {
                self.add_votes(validator, first.saturating_add(after));
            }
        }
    }

    fn add_votes(&mut self, validator: &Validator<'_, HashSign>, number: u64) {
        let round = Round::new(number).unwrap_or(Round::genesis());
        for author in 0..validator.committee().size() {
            self.add_digest(validator.voted(Author(author), round));
        }
    }
}
