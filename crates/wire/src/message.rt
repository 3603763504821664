//! What validators send one another.

ghost use Rattle.wire.specs.Grammar.{IsAck, IsCoin, IsMessage};

use crate::batch::Batch;
use crate::header::{Certificate, Header, Vote};
use crate::keys::{Author, Digest};
use crate::numbers::fits_eight_bytes;
use crate::round::Wave;

/// An acknowledgement: a member says that it holds a batch.
#[derive(Clone, Copy, Debug, PartialEq, Eq)]
pub struct BatchAck {
    /// The member that acknowledges.
    pub author: Author,
    /// The digest of the batch.
    pub batch: Digest,
}

/// The value of a wave's coin, which chooses the wave's leader.
#[derive(Clone, Copy, Debug, PartialEq, Eq)]
pub struct Coin {
    /// The wave that the coin is for.
    pub wave: Wave,
    /// The coin's value: any number of eight bytes.
    pub value: u64,
}

/// A message between validators.
#[derive(Debug, Drop)]
pub enum Message {
    /// A batch of a worker's transactions.
    Batch(Batch),
    /// An acknowledgement that a member holds a batch.
    BatchAck(BatchAck),
    /// A header, by which a member makes a proposal.
    Header(Header),
    /// A vote for a header.
    Vote(Vote),
    /// A header with the votes of a quorum.
    Certificate(Certificate),
    /// The coin of a wave, which chooses its leader.
    Coin(Coin),
}

impl BatchAck {
    /// A law: what holds of every acknowledgement, such as that its digest has 32 bytes. The call does nothing.
    pub fn limits_hold(&self)
        ensures { IsAck self.now }
    {
        self.author.limits_hold();
        self.batch.limits_hold();
    }
}

impl Coin {
    /// A law: what holds of every coin: its wave is in range, and its value has eight bytes. The call does nothing.
    pub fn limits_hold(&self)
        ensures { IsCoin self.now }
    {
        self.wave.number();
        fits_eight_bytes(self.value);
    }
}

impl Message {
    /// A law: every message keeps all limits. The call does nothing.
    pub fn limits_hold(&self)
        ensures { IsMessage self.now }
    {
        match self {
            Message::Batch(batch) => {
                batch.body();
            }
            Message::BatchAck(ack) => ack.limits_hold(),
            Message::Header(header) => header.limits_hold(),
            Message::Vote(vote) => vote.limits_hold(),
            Message::Certificate(certificate) => certificate.limits_hold(),
            Message::Coin(coin) => coin.limits_hold(),
        }
    }
}
