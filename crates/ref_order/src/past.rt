//! Looks up in a history what a node has.

ghost use Rattle.spec_model.specs.Nodes.{node_view};
ghost use Rattle.spec_model.specs.States.{whole};

use crate::certificates::{certificates, highest_of, order};
use crate::held::Held;
use crate::histories::{batches, coins};
use crate::holdings::{batch_at, counted_at, has_acked, voted_digest, voted_header, was_named};
use header::{Event, Node};
use sigface::Sign;
use std::alloc::{AllocError, Global};
use wire::{Batch, Certificate, Digest, Header, Vote};

/// A node and its history, in which can be looked up what the node has.
pub struct Past<'a, S: Sign> {
    /// The node.
    pub node: &'a Node<S>,
    /// The node's history.
    pub history: &'a [Event],
}

impl<'a, S: Sign> Clone for Past<'a, S> {
    fn clone(&self) -> Result<Self, AllocError> {
        Ok(*self)
    }
}

impl<'a, S: Sign> Copy for Past<'a, S> {}

impl<'a, S: Sign> Held for Past<'a, S> {
    ghost state = { λ s. whole (node_view S.scheme s.node.now) s.history.now };

    fn batch(&self, digest: &Digest) -> Option<&Batch> {
        batch_at(self.history, digest)
    }

    fn has_acked(&self, digest: &Digest, member: u16) -> bool {
        has_acked(self.history, digest, member)
    }

    fn batches(&self, alloc: Global) -> Result<Vec<Batch>, AllocError> {
        batches(alloc, self.history)
    }

    fn was_named(&self, digest: &Digest) -> bool {
        was_named(self.node, self.history, digest)
    }

    fn voted_digest(&self, round: u64, author: u16) -> Option<Digest> {
        voted_digest(self.history, round, author)
    }

    fn own_header(&self, round: u64) -> Option<&Header> {
        voted_header(self.history, round, self.node.own.0)
    }

    fn counted(&self, round: u64, voter: u16) -> Option<Vote> {
        counted_at(self.node, self.history, round, voter)
    }

    fn certificates(&self, alloc: Global) -> Result<Vec<Certificate>, AllocError> {
        certificates(alloc, self.node, self.history)
    }

    fn highest(&self, alloc: Global) -> Result<u64, AllocError> {
        Ok(highest_of(&certificates(alloc, self.node, self.history)?))
    }

    fn coins(&self, alloc: Global) -> Result<Vec<u64>, AllocError> {
        coins(alloc, self.history)
    }

    fn order(&self, alloc: Global) -> Result<Vec<Digest>, AllocError> {
        order(alloc, self.node, self.history)
    }
}
