//! Whether a history is legal, by the reference implementation of admission.

ghost use Rattle.spec_model.specs.Nodes.{node_view};
ghost use Rattle.spec_model.specs.States.{whole};
ghost use Rattle.std.specs.Prelude.{[]};

use header::{Event, Node};
use ref_admission::admitting::answer;
use ref_order::held::Held;
use ref_order::past::Past;
use sigface::Sign;
use std::alloc::{AllocError, Global};
use wire::{Batch, Certificate, Digest, Header, Vote};

/// A node and its history without the order, which takes long to compute and doesn't matter for whether an event is new.
struct Unordered<'a, S: Sign> {
    past: Past<'a, S>,
}

impl<'a, S: Sign> Clone for Unordered<'a, S> {
    fn clone(&self) -> Result<Self, AllocError> {
        Ok(*self)
    }
}

impl<'a, S: Sign> Copy for Unordered<'a, S> {}

impl<'a, S: Sign> Held for Unordered<'a, S> {
    ghost state = { λ s. record (whole (node_view S.scheme s.past.node.now) s.past.history.now) { order = [] } };

    fn batch(&self, digest: &Digest) -> Option<&Batch> {
        self.past.batch(digest)
    }

    fn batches(&self, alloc: Global) -> Result<Vec<Batch>, AllocError> {
        self.past.batches(alloc)
    }

    fn has_acked(&self, digest: &Digest, member: u16) -> bool {
        self.past.has_acked(digest, member)
    }

    fn was_named(&self, digest: &Digest) -> bool {
        self.past.was_named(digest)
    }

    fn voted_digest(&self, round: u64, author: u16) -> Option<Digest> {
        self.past.voted_digest(round, author)
    }

    fn own_header(&self, round: u64) -> Option<&Header> {
        self.past.own_header(round)
    }

    fn counted(&self, round: u64, voter: u16) -> Option<Vote> {
        self.past.counted(round, voter)
    }

    fn certificates(&self, alloc: Global) -> Result<Vec<Certificate>, AllocError> {
        self.past.certificates(alloc)
    }

    fn highest(&self, alloc: Global) -> Result<u64, AllocError> {
        self.past.highest(alloc)
    }

    fn coins(&self, alloc: Global) -> Result<Vec<u64>, AllocError> {
        self.past.coins(alloc)
    }

    fn order(&self, alloc: Global) -> Result<Vec<Digest>, AllocError> {
        Ok(Vec::new(alloc))
    }
}

/// Whether the last of these events is new to the node that has accepted the events before it.
pub fn is_last_new<S: Sign>(
    alloc: Global,
    node: &Node<S>,
    events: &[Event],
) -> Result<bool, AllocError> {
    match events.split_last() {
        None => Ok(true),
        Some((event, history)) => {
            let now = Unordered {
                past: Past { node, history },
            };
            let later = Unordered {
                past: Past {
                    node,
                    history: events,
                },
            };
            Ok(answer(alloc, node, &now, &later, event)?.is_new())
        }
    }
}
