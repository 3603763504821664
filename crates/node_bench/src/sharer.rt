//! A thread that submits batches to a node.

use crate::ending::Ending;
use crate::events::digest_in;
use crate::fold::Fold;
use crate::messages::small_batch;
use header::recheck;
use node::Caller;
use sigface::Sign;
use std::alloc::Global;
use std::sync::Wait;
use wire::{Author, Message};

/// A thread's access to a shared node, and the member whose batches the thread submits.
#[derive(Drop)]
pub struct Sharer<'n, 'a, S: Sign> {
    /// The access to the shared node.
    pub node: Caller<'n, 'a, S>,
    /// The member whose batches are submitted.
    pub member: Author,
}

impl<'n, 'a, S: Sign> Sharer<'n, 'a, S> {
    /// Submits a new batch of the member, the one with this number, and adds its digest to the checksum. Returns the batch's ticket.
    pub fn submit<R: Wait>(
        &mut self,
        rt: &R,
        alloc: Global,
        number: u64,
        fold: &mut Fold,
    ) -> Result<u64, Ending> {
        let message = Message::Batch(small_batch(alloc, self.member, number)?);
        let event = recheck(self.node.config().committee(), self.member, message)?;
        fold.add_bytes(&digest_in(&event).0);
        let receipt = self.node.submit(rt, event)?;
        match receipt.new {
            true => Ok(receipt.ticket),
            false => Err(Ending::Refused),
        }
    }
}
