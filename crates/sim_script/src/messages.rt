//! Makes the messages that commands submit, each with its sender.

use crate::command::Command;
use crate::error::FormError;
use crate::labels::Labels;
use crate::settings::OWN;
use crate::signing::{certificate, vote};
use std::alloc::Global;
use wire::{Author, BatchAck, Coin, Message, Wave, WireError};

/// The member that sends all certificates of a script.
const CERTIFIER: Author = Author(1);

/// The sender and the message of a command that submits one; an error for any other command. Coins come from the node's own member, and
/// certificates from member 1.
pub fn message_of(
    alloc: Global,
    labels: &Labels,
    command: Command<'_>,
) -> Result<(Author, Message), FormError> {
    match command {
        Command::Batch(label) => batch_of(labels, label),
        Command::Header(label) => header_of(labels, label),
        Command::Ack { batch, sender } => ack_of(labels, batch, sender),
        Command::Vote { header, voter } => vote_of(labels, header, voter),
        Command::Cert { header, voters } => certificate_of(alloc, labels, header, voters),
        Command::Coin { wave, value } => coin_of(wave, value),
        _ => Err(FormError::BadCommand),
    }
}

fn batch_of(labels: &Labels, label: &str) -> Result<(Author, Message), FormError> {
    let Some(packed) = labels.batch(label) else {
        return Err(FormError::BadCommand);
    };
    match &packed.batch {
        Some((batch, _)) => Ok((batch.author(), Message::Batch(batch.share()?))),
        // The batch has only a label, since its transactions exceed a limit.
        None => Err(FormError::Unread(WireError::TooMany)),
    }
}

fn header_of(labels: &Labels, label: &str) -> Result<(Author, Message), FormError> {
    let Some(proposed) = labels.header(label) else {
        return Err(FormError::BadCommand);
    };
    let header = proposed.header.try_clone()?;
    Ok((header.body.author, Message::Header(header)))
}

fn ack_of(labels: &Labels, label: &str, author: Author) -> Result<(Author, Message), FormError> {
    let Some(packed) = labels.batch(label) else {
        return Err(FormError::BadCommand);
    };
    match &packed.batch {
        Some((_, digest)) => {
            let batch = *digest;
            Ok((author, Message::BatchAck(BatchAck { author, batch })))
        }
        None => Err(FormError::BadCommand),
    }
}

fn vote_of(labels: &Labels, label: &str, voter: Author) -> Result<(Author, Message), FormError> {
    match labels.header(label) {
        Some(proposed) => Ok((voter, Message::Vote(vote(proposed, voter)))),
        None => Err(FormError::BadCommand),
    }
}

fn certificate_of(
    alloc: Global,
    labels: &Labels,
    label: &str,
    voters: &str,
) -> Result<(Author, Message), FormError> {
    let Some(proposed) = labels.header(label) else {
        return Err(FormError::BadCommand);
    };
    let certificate = certificate(alloc, proposed, voters)?;
    Ok((CERTIFIER, Message::Certificate(certificate)))
}

fn coin_of(wave: u64, value: u64) -> Result<(Author, Message), FormError> {
    let wave = Wave::new(wave)?;
    Ok((OWN, Message::Coin(Coin { wave, value })))
}
