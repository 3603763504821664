//! Checksums over the results of a run, so that two runs can be compared.

use validator::Step;
use wire::{HeaderBody, Message, Output};

/// A cheap checksum over results: FNV-1a, fed with numbers of 64 bits.
#[derive(Clone, Copy)]
pub struct Fold {
    value: u64,
}

impl Fold {
    /// The checksum of no results.
    pub fn new() -> Fold {
        Fold {
            value: 14_695_981_039_346_656_037,
        }
    }

    /// Adds a number to the checksum.
    pub fn add(&mut self, number: u64) {
        self.value = (self.value ^ number).wrapping_mul(1_099_511_628_211);
    }

    /// Adds to the checksum how many bytes there are, and the first eight of them if there are so many.
    pub fn add_bytes(&mut self, bytes: &[u8]) {
        self.add(bytes.len() as u64);
        if let Some(front) = bytes.first_chunk::<8>() {
            self.add(u64::from_be_bytes(*front));
        }
    }

    fn add_body(&mut self, body: &HeaderBody) {
        self.add(u64::from(body.author.0));
        self.add(body.round.number());
        self.add(body.parents.len() as u64);
    }

    /// Adds what tells a message from others, such as its number or its round, to the checksum.
    pub fn add_message(&mut self, message: &Message) {
        match message {
            Message::Batch(batch) => self.add_bytes(batch.body()),
            Message::Header(header) => {
                self.add_body(&header.body);
                self.add_bytes(&header.signature.0);
            }
            Message::Certificate(certificate) => {
                self.add_body(&certificate.header);
                self.add(certificate.votes.len() as u64);
            }
            Message::Coin(coin) => self.add(coin.value),
            Message::BatchAck(ack) => self.add_bytes(&ack.batch.0),
            Message::Vote(vote) => self.add_bytes(&vote.signature.0),
        }
    }

    /// Adds the outputs of a validator's step to the checksum.
    pub fn add_step(&mut self, step: &Step) {
        let (Step::New(outputs) | Step::Known(outputs)) = step;
        for output in outputs {
            self.add_output(output);
        }
    }

    /// Adds an output to the checksum.
    pub fn add_output(&mut self, output: &Output) {
        match output {
            Output::Batch(batch) => self.add_bytes(batch.body()),
            Output::Ack { ack, .. } => self.add_bytes(&ack.batch.0),
            Output::Header(header) => self.add_body(&header.body),
            Output::Vote(vote) => self.add_bytes(&vote.signature.0),
            Output::Certificate(certificate) => self.add_body(&certificate.header),
            Output::Order { start, digests } => {
                self.add(*start);
                for digest in digests.as_slice() {
                    self.add_bytes(&digest.0);
                }
            }
        }
    }

    /// Adds another checksum's value to this one.
    pub fn join(&mut self, other: Fold) {
        self.add(other.value);
    }

    /// The value of the checksum.
    pub fn value(self) -> u64 {
        self.value
    }
}

/// How many outputs there were, and a sum over them that doesn't depend on their order.
#[derive(Clone, Copy)]
pub struct Sum {
    count: u64,
    value: u64,
}

impl Sum {
    /// The state before the first output.
    pub fn new() -> Sum {
        Sum { count: 0, value: 0 }
    }

    /// Counts an output, and adds it to the sum.
    pub fn add(&mut self, output: &Output) {
        let mut fold = Fold::new();
        fold.add_output(output);
        self.count = self.count.saturating_add(1);
        self.value = self.value.wrapping_add(fold.value);
    }

    /// Adds the number of outputs and the sum over them to a checksum.
    pub fn add_to(self, fold: &mut Fold) {
        fold.add(self.count);
        fold.add(self.value);
    }
}
