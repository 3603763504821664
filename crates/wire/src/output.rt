//! The outputs of a validator: what it hands out to members and to its host.

ghost use Rattle.std.specs.Prelude.{◌≡◌, ◌<◌, ◌≤◌, ◌++◌, [], ◌∷◌, List, length, IsTrue, ◌↔◌, OnOk, OnErr};

use crate::batch::Batch;
use crate::header::{Certificate, Header, Vote};
use crate::keys::{Author, Digest};
use crate::limits::MAX_ORDER_DIGESTS;
use crate::message::BatchAck;
use std::alloc::{AllocError, Global};
use std::marker::Model;

/// One output of a validator, which is for a member, for all members, or for the node's host.
#[derive(Debug, Drop)]
pub enum Output {
    /// A batch of the node's own member, for all members.
    Batch(Batch),
    /// An acknowledgement of a batch, for the batch's author.
    Ack { to: Author, ack: BatchAck },
    /// A header of the node's own member, for all members.
    Header(Header),
    /// A vote for a header, for the header's author.
    Vote(Vote),
    /// A certificate of the node's own header, for all members.
    Certificate(Certificate),
    /// A piece of the order, for the host. `start` is the place of its first digest in the order.
    Order { start: u64, digests: OrderDigests },
}

/// Digests of certificates in the ledger's order; at most `MAX_ORDER_DIGESTS` of them.
#[derive(Debug)]
pub struct OrderDigests {
    list: Vec<Digest>,
}

impl Drop for OrderDigests {
    fn drop(self) {
        let OrderDigests { list: _ } = self;
    }
}

impl Model for OrderDigests {
    ghost use Rattle.std.specs.Prelude.{List, length, ◌≤◌};
    ghost use Rattle.wire.specs.declared.keys.Digest.{Digest};
    ghost use Rattle.wire.specs.declared.limits.TheConstants.{MAX_ORDER_DIGESTS};

    ghost Value = { List Digest };

    ghost view = { λ d. d.list.items };

    ghost invariant = { λ d. length d.list.items ≤ MAX_ORDER_DIGESTS };
}

impl OrderDigests {
    /// A list without digests.
    pub fn new(alloc: Global) -> OrderDigests
        ensures { result ≡ [] }
    {
        OrderDigests {
            list: Vec::new(alloc),
        }
    }

    /// How many digests there are.
    pub fn len(&self) -> usize
        ensures value { result ≡ length self.now }
        ensures limit { result ≤ MAX_ORDER_DIGESTS }
    {
        self.list.len()
    }

    /// Whether there is no digest.
    pub fn is_empty(&self) -> bool
        ensures { IsTrue result ↔ (self.now ≡ []) }
    {
        self.list.is_empty()
    }

    /// Whether one more digest may be added: there are fewer than `MAX_ORDER_DIGESTS`.
    pub fn has_room(&self) -> bool
        ensures { IsTrue result ↔ (length self.now < MAX_ORDER_DIGESTS) }
    {
        self.list.len() < MAX_ORDER_DIGESTS
    }

    /// Adds a digest at the end, if `has_room` allows it. On `AllocError` an allocation failed.
    pub fn push(&mut self, digest: Digest) -> Result<(), AllocError>
        requires { length self.old < MAX_ORDER_DIGESTS }
        ensures ok { OnOk result (self.new ≡ self.old ++ digest ∷ []) }
        ensures err { OnErr result (self.new ≡ self.old) }
    {
        self.list.push(digest)?;
        Ok(())
    }

    /// The digests, in their order.
    pub fn as_slice(&self) -> &[Digest]
        ensures value { result.now ≡ self.now }
        ensures limit { length self.now ≤ MAX_ORDER_DIGESTS }
    {
        &self.list
    }
}
