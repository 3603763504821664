//! Reads moves of a cluster from the words of commands. Each function returns None if the words are no such move.

use crate::disks::Leaving;
use cluster::Move;
use diskmodel::CallKind;
use sim_script::{FormError, Labels, message_of, parse};
use std::alloc::{AllocError, Global};
use test_cases::bytes_of;
use wire::{Author, Coin, Message, Signature, Wave};

/// A signature that no key of the committee has made, so that every check refuses it.
pub const UNSIGNED: Signature = Signature([0; 64]);

/// Splits a text at its first blank. Without a blank the first part is the whole text and the second one is empty.
pub fn parted(text: &str) -> (&str, &str) {
    text.split_once(' ').unwrap_or((text, ""))
}

/// The member whose number this word is.
pub fn member(word: &str) -> Option<Author> {
    Some(Author(word.parse().ok()?))
}

/// Reads `NODE OUTPUT to NODE`: the output of this number that the first node put out is delivered to the second node.
pub fn delivery(words: &str) -> Option<Move> {
    let (output, to) = words.split_once(" to ")?;
    let (node, output) = output.split_once(' ')?;
    Some(Move::Deliver {
        node: member(node)?,
        output: output.parse().ok()?,
        to: member(to)?,
    })
}

/// Reads `NODE WAVE VALUE`: the node learns the coin of this wave.
pub fn coin(words: &str) -> Option<Move> {
    let (node, coin) = words.split_once(' ')?;
    let (wave, value) = coin.split_once(' ')?;
    let wave = Wave::new(wave.parse().ok()?).ok()?;
    let value = value.parse().ok()?;
    Some(Move::Coin {
        node: member(node)?,
        coin: Coin { wave, value },
    })
}

/// Reads `NODE from SENDER MESSAGE`. The message is written as in a script, or is `unsigned LABEL`: the header of that label with a bad
/// signature.
pub fn gift(alloc: Global, labels: &Labels, words: &str) -> Result<Option<Move>, AllocError> {
    let (to, rest) = words.split_once(" from ").unwrap_or(("", ""));
    let (sender, rest) = parted(rest);
    let (Some(to), Some(sender)) = (member(to), member(sender)) else {
        return Ok(None);
    };
    match message(alloc, labels, rest) {
        Ok(message) => Ok(Some(Move::Give {
            to,
            sender,
            message,
        })),
        Err(FormError::Memory) => Err(AllocError),
        Err(_) => Ok(None),
    }
}

fn message(alloc: Global, labels: &Labels, words: &str) -> Result<Message, FormError> {
    if let Some(label) = words.strip_prefix("unsigned ") {
        return unsigned(labels, label);
    }
    match parse(words.as_bytes()) {
        Some(command) => {
            let (_, message) = message_of(alloc, labels, command)?;
            Ok(message)
        }
        None => Err(FormError::BadCommand),
    }
}

fn unsigned(labels: &Labels, label: &str) -> Result<Message, FormError> {
    let Some(proposed) = labels.header(label) else {
        return Err(FormError::BadCommand);
    };
    let mut header = proposed.header.try_clone()?;
    header.signature = UNSIGNED;
    Ok(Message::Header(header))
}

/// Reads what a stop leaves of a disk: `keep`, the default, loses nothing; `lose` loses what is not synced; `tear BYTE` (two hex digits)
/// puts this byte wherever bytes were written since the last sync.
pub fn leaving(alloc: Global, words: &str) -> Result<Option<Leaving>, AllocError> {
    match words {
        "" | "keep" => Ok(Some(Leaving::Read)),
        "lose" => Ok(Some(Leaving::Synced)),
        _ => match words.strip_prefix("tear ") {
            Some(digits) => torn(alloc, digits),
            None => Ok(None),
        },
    }
}

fn torn(alloc: Global, digits: &str) -> Result<Option<Leaving>, AllocError> {
    let Some(bytes) = bytes_of(alloc, digits)? else {
        return Ok(None);
    };
    match bytes.as_slice() {
        [byte] => Ok(Some(Leaving::Torn(*byte))),
        _ => Ok(None),
    }
}

/// The kind of device call with this name, for example `sync`.
pub fn call_of(name: &str) -> Option<CallKind> {
    match name {
        "read" => Some(CallKind::Read),
        "write" => Some(CallKind::Write),
        "cut" => Some(CallKind::Cut),
        "sync" => Some(CallKind::Sync),
        _ => None,
    }
}
