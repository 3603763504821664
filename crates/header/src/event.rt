//! Events: incoming messages with their senders.

use std::marker::Model;
use wire::{Author, Message};

/// A message with its sender.
#[derive(Debug, Drop)]
pub struct Event {
    /// The member that sent the message.
    pub sender: Author,
    /// The message that was sent.
    pub message: Message,
}

impl Model for Event {
    ghost use Rattle.wire.specs.Events as events;

    ghost Value = { events.Event };

    ghost view = { λ e. record { sender = e.sender; message = e.message } };
}
