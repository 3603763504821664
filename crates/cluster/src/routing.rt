//! Messages in flight from one node's thread to another's: the router, and the inboxes that it fills.

ghost use Rattle.std.specs.Prelude.{◌≡◌, true, Some, IfOk};
ghost use Rattle.cluster.specs.Outputs.{message_of};
ghost use Rattle.cluster.specs.Threads.{IsHeard};

use crate::delivering::{message_again, receiver_of};
use crossbeam_channel::Receiver;
use std::alloc::{AllocError, Global};
use std::marker::Model;
use std::mem;
use std::sync::{Mutex, Wait};
use wire::{Author, Message, Output};

/// A message in flight: that of an output, with its sender and its receiver. Contracts see the message and its sender.
#[derive(Drop)]
pub(crate) struct Envelope {
    sender: Author,
    // The member that the message is for; None if the message is for all other members.
    receiver: Option<Author>,
    message: Message,
}

impl Model for Envelope {
    ghost use Rattle.spec_model.specs.Words.{Event};
    ghost use Rattle.cluster.specs.Threads.{IsSent};

    ghost Value = { Event };

    ghost view = { λ e. record { sender = e.sender; message = e.message } };

    ghost invariant = { λ e. IsSent e.receiver (record { sender = e.sender; message = e.message }) };
}

impl Envelope {
    /// The envelope for the message of this sender's output.
    pub(crate) fn new(sender: Author, output: &Output, message: Message) -> Envelope
        requires { message_of output.now ≡ Some message }
        ensures { result ≡ record { sender = sender; message = message } }
    {
        Envelope {
            sender,
            receiver: receiver_of(output),
            message,
        }
    }

    /// Whether the message in the envelope is for this node: another node sent it, to this one or to all.
    pub(crate) fn is_for(&self, node: Author) -> bool
        ensures { result ≡ true → IsHeard node self.now }
    {
        let is_named = match self.receiver {
            Some(receiver) => receiver == node,
            None => true,
        };
        is_named && self.sender != node
    }

    /// The node that sent the message.
    pub(crate) fn sender(&self) -> Author
        ensures { result ≡ self.now.sender }
    {
        self.sender
    }

    /// Takes the message out of the envelope.
    pub(crate) fn into_message(self) -> Message
        ensures { result ≡ self.message }
    {
        let Envelope {
            sender: _,
            receiver: _,
            message,
        } = self;
        message
    }

    // A copy of the envelope.
    fn again(&self) -> Result<Envelope, AllocError>
        ensures { IfOk result (λ again. again ≡ self.now) }
    {
        Ok(Envelope {
            sender: self.sender,
            receiver: self.receiver,
            message: message_again(&self.message)?,
        })
    }
}

/// The messages that came for a node and that the node hasn't taken yet.
pub(crate) struct Inbox {
    alloc: Global,
    owner: Author,
    envelopes: Mutex<Vec<Envelope>>,
}

impl Drop for Inbox {
    fn drop(self) {
        let Inbox {
            alloc: _,
            owner: _,
            envelopes: _,
        } = self;
    }
}

impl Inbox {
    /// An empty inbox of this node.
    pub(crate) fn new(alloc: Global, owner: Author) -> Inbox {
        Inbox {
            alloc,
            owner,
            envelopes: Mutex::new(Vec::new(alloc)),
        }
    }

    /// Takes all messages that came, oldest first, and leaves the inbox empty.
    pub(crate) fn take<R: Wait>(&self, rt: &R) -> Vec<Envelope> {
        let mut envelopes = self.envelopes.lock(rt);
        mem::replace(&mut *envelopes, Vec::new(self.alloc))
    }

    fn put<R: Wait>(&self, rt: &R, envelope: Envelope) -> Result<(), AllocError> {
        self.envelopes.lock(rt).push(envelope)?;
        Ok(())
    }
}

/// Puts each message that is sent into the inbox of each node that it is for, until all senders are gone. On `AllocError` an allocation
/// failed.
pub(crate) fn route<R: Wait>(
    rt: &R,
    envelopes: Receiver<Envelope>,
    inboxes: &[Inbox],
) -> Result<(), AllocError> {
    for envelope in envelopes.iter(rt) {
        post(rt, &envelope, inboxes)?;
    }
    Ok(())
}

fn post<R: Wait>(rt: &R, envelope: &Envelope, inboxes: &[Inbox]) -> Result<(), AllocError> {
    for inbox in inboxes {
        if envelope.is_for(inbox.owner) {
            inbox.put(rt, envelope.again()?)?;
        }
    }
    Ok(())
}
