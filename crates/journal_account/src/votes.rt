//! The votes that a journal's node has given.

ghost use Rattle.std.specs.Prelude.{◌≡◌, ◌++◌, Ok, IfOk, IfErr, OnOk, filter_map};
ghost use Rattle.std.specs.Option.{option_to_list};
ghost use Rattle.journal.specs.Areas.{Areas, stands_in};
ghost use Rattle.spec_world.specs.World.{IsPair};
ghost use Rattle.validator.specs.Setting.{node_of};
ghost use Rattle.opening.specs.Decoded.{decoded_in, Reports};
ghost use Rattle.journal_account.specs.Accounts.{AreVotes, given_by, given_in};

use crate::events::replay;
use crate::flaw::Flaw;
use crate::kept::given_by_kept;
use crate::parts::events_of;
use crate::reading::{are_texts, begun};
use committee::Committee;
use header::Checked;
use journal::Record;
use opening::event_of;
use sigface::Sign;
use std::alloc::{AllocError, Global};
use validator::Config;
use wire::{Author, Digest, Message, header_digest};

/// A vote of the node for a header; an own header counts as voted for.
#[derive(Clone, Copy, Debug, PartialEq, Eq)]
pub struct Given {
    /// The header's author.
    pub author: Author,
    /// The header's round.
    pub round: u64,
    /// The header's digest.
    pub digest: Digest,
}

/// The votes that a node has given by its journal, which has these records. First come those in the checkpoint: for other members' headers
/// by round and then author, and for own headers by round. Then come those given at events, in the order of the events. A checkpoint has no
/// votes of rounds below its floor.
///
/// # Errors
/// Those of an opening of a node: `Damaged` with a place in bytes, `ConfigMismatch`, or `Memory` where an allocation failed.
pub fn votes_of<S: Sign>(
    alloc: Global,
    config: &Config<S>,
    records: &[Record],
) -> Result<Vec<Given>, Flaw>
    ensures ok { (areas : Areas) → IsPair areas → stands_in areas ≡ Ok records.now → IfOk result (λ votes. AreVotes (node_of S.scheme config.now) areas votes.items) }
    ensures err { (areas : Areas) → IsPair areas → stands_in areas ≡ Ok records.now → IfErr result (λ flaw. Reports flaw.error (decoded_in (node_of S.scheme config.now) areas)) }
{
    spec_machine::starts_fresh();
    config.limits_hold();
    are_texts(records);
    let mut validator = begun(alloc, config, records)?;
    let mut votes = given_by_kept(alloc, &validator)?;
    let events = events_of(records);
    replay(alloc, &mut validator, events)?;
    let mut later = given_in_each(alloc, config.committee(), events)?;
    votes.append(&mut later)?;
    Ok(votes)
}

// The votes that the node gave at the events in these records, in the order of the records.
fn given_in_each(
    alloc: Global,
    committee: &Committee,
    records: &[Record],
) -> Result<Vec<Given>, AllocError>
    ensures { IfOk result (λ votes. votes.items ≡ filter_map (given_in committee.now) records.now) }
{
    let mut votes = Vec::new(alloc);
    for one in records {
        let given = given_in(alloc, committee, one)?;
        push_given(&mut votes, given)?;
    }
    Ok(votes)
}

// Adds a vote, if there is one.
fn push_given(votes: &mut Vec<Given>, given: Option<Given>) -> Result<(), AllocError>
    ensures { OnOk result (votes.new.items ≡ votes.old.items ++ option_to_list given) }
{
    if let Some(given) = given {
        votes.push(given)?;
    }
    Ok(())
}

// The vote that the node gave at the event in a record; None if there is none.
fn given_in(alloc: Global, committee: &Committee, one: &Record) -> Result<Option<Given>, AllocError>
    ensures { IfOk result (λ given. given ≡ given_in committee.now one.now) }
{
    match event_of(alloc, committee, one.bytes.as_slice())? {
        Some(event) => Ok(given_by(&event)),
        None => Ok(None),
    }
}

// The vote that the node gave at an event; None if the event is no header.
fn given_by(event: &Checked) -> Option<Given>
    ensures { result ≡ given_by event.now }
{
    match event.message() {
        Message::Header(header) => Some(Given {
            author: header.body.author,
            round: header.body.round.number(),
            digest: header_digest(&header.body),
        }),
        _ => None,
    }
}
