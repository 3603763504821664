//! Messages for the node of the tests with threads. The node is member 0 of four.

ghost use Rattle.std.specs.Prelude.{◌≡◌, None, IfOk};
ghost use Rattle.header.specs.Checks.{fault_of, accepts_all};

use crate::live::ending::Ending;
use crate::store::{SHORTEST, batch};
use header::{Checked, check, make, recheck};
use node::Caller;
use sigface::{HashSign, HashVerify};
use sim_script::signer;
use std::alloc::{AllocError, Global};
use std::sync::Wait;
use validator::Config;
use wire::{Author, Message, ParentReference, Round, genesis_digest};

// How many certificates of the round before a header names as parents.
const QUORUM: u16 = 3;

/// The header of an author for round 1.
pub fn header_of(
    alloc: Global,
    config: &Config<HashSign>,
    author: Author,
) -> Result<Checked, Ending>
    ensures { IfOk result (λ event. fault_of config.now.charter accepts_all event ≡ None) }
{
    let (round, parents) = (Round::new(1)?, first_parents(alloc)?);
    let header = make(alloc, &signer(author), author, round, &[], &parents)?;
    let message = Message::Header(header);
    Ok(check(config.committee(), &HashVerify, author, message)?)
}

/// The parents of a header for round 1.
pub fn first_parents(alloc: Global) -> Result<Vec<ParentReference>, AllocError> {
    let mut parents = Vec::new(alloc);
    for number in 0..QUORUM {
        let author = Author(number);
        parents.push(ParentReference {
            author,
            certificate: genesis_digest(author),
        })?;
    }
    Ok(parents)
}

/// Submits the header of an author for round 1, and returns the ticket of the answer.
pub fn submit_header<R: Wait>(
    rt: &R,
    alloc: Global,
    caller: &mut Caller<'_, '_, HashSign>,
    author: Author,
) -> Result<u64, Ending> {
    let event = header_of(alloc, caller.config(), author)?;
    let receipt = caller.submit(rt, event)?;
    Ok(receipt.ticket)
}

/// The batch of an author with one transaction, whose bytes are this number.
pub fn batch_of(
    alloc: Global,
    config: &Config<HashSign>,
    author: Author,
    number: u64,
) -> Result<Checked, Ending>
    ensures { IfOk result (λ event. fault_of config.now.charter accepts_all event ≡ None) }
{
    match batch(alloc, author, number, SHORTEST)? {
        Some(batch) => Ok(recheck(config.committee(), author, Message::Batch(batch))?),
        None => Err(Ending::Unexpected),
    }
}
