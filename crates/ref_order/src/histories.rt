//! The messages of each kind in a history.

ghost use Rattle.std.specs.Prelude.{◌≡◌, IfOk};
ghost use Rattle.spec_model.specs.Histories.{batches, acks, headers, votes, received, coins};

use header::Event;
use std::alloc::{AllocError, Global};
use wire::{Batch, BatchAck, Certificate, Header, Message, Vote};

/// The batches in a history, the oldest first.
pub fn batches(alloc: Global, history: &[Event]) -> Result<Vec<Batch>, AllocError>
    ensures { IfOk result (λ found. found.items ≡ batches history.now) }
{
    let mut found = Vec::new(alloc);
    for event in history {
        if let Message::Batch(batch) = &event.message {
            found.push(batch.share()?)?;
        }
    }
    Ok(found)
}

/// The acknowledgements of batches in a history, the oldest first.
pub fn acks(alloc: Global, history: &[Event]) -> Result<Vec<BatchAck>, AllocError>
    ensures { IfOk result (λ found. found.items ≡ acks history.now) }
{
    let mut found = Vec::new(alloc);
    for event in history {
        if let Message::BatchAck(ack) = &event.message {
            found.push(*ack)?;
        }
    }
    Ok(found)
}

/// The headers in a history, own ones too, the oldest first.
pub fn headers(alloc: Global, history: &[Event]) -> Result<Vec<Header>, AllocError>
    ensures { IfOk result (λ found. found.items ≡ headers history.now) }
{
    let mut found = Vec::new(alloc);
    for event in history {
        if let Message::Header(header) = &event.message {
            found.push(header.try_clone()?)?;
        }
    }
    Ok(found)
}

/// The votes that came in, the oldest first.
pub fn votes(alloc: Global, history: &[Event]) -> Result<Vec<Vote>, AllocError>
    ensures { IfOk result (λ found. found.items ≡ votes history.now) }
{
    let mut found = Vec::new(alloc);
    for event in history {
        if let Message::Vote(vote) = &event.message {
            found.push(*vote)?;
        }
    }
    Ok(found)
}

/// The certificates that came in, the oldest first.
pub fn received(alloc: Global, history: &[Event]) -> Result<Vec<Certificate>, AllocError>
    ensures { IfOk result (λ found. found.items ≡ received history.now) }
{
    let mut found = Vec::new(alloc);
    for event in history {
        if let Message::Certificate(certificate) = &event.message {
            found.push(certificate.try_clone()?)?;
        }
    }
    Ok(found)
}

/// The values of the coins, that of wave 1 first.
pub fn coins(alloc: Global, history: &[Event]) -> Result<Vec<u64>, AllocError>
    ensures { IfOk result (λ found. found.items ≡ coins history.now) }
{
    let mut found = Vec::new(alloc);
    for event in history {
        if let Message::Coin(coin) = &event.message {
            found.push(coin.value)?;
        }
    }
    Ok(found)
}
