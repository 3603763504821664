//! Reads the votes, headers, certificates and coins that a checkpoint holds.

ghost use Rattle.std.specs.Prelude.{◌≡◌, ◌++◌, map, IfOk, OnOk};
ghost use Rattle.spec_model.specs.States.{State};
ghost use Rattle.validator.specs.Setting.{node_of};
ghost use Rattle.validator.specs.Standing.{AreAtSound};
ghost use Rattle.checkpoint.specs.Kept.{vote_of, header_of};
ghost use Rattle.journal_account.specs.Accounts.{AreKeptVotes, given_for, given_as};

use crate::flaw::Flaw;
use crate::reading::begun;
use crate::votes::Given;
use admission::{Kept, VotedHeader};
use checkpoint::parts_of;
use journal::Record;
use sigface::Sign;
use std::alloc::{AllocError, Global};
use validator::{Config, Validator};
use votebook::Slot;
use wire::{Author, Digest, header_digest};

/// The content of the checkpoint with which a journal of these records begins; empty if it begins with none.
///
/// # Errors
/// Those of `after_records`.
pub(crate) fn kept_in<S: Sign>(
    alloc: Global,
    config: &Config<S>,
    records: &[Record],
) -> Result<Kept, Flaw> {
    let validator = begun(alloc, config, records)?;
    Ok(parts_of(alloc, validator.tables())?)
}

/// The votes in a validator's state: first those for other members' headers, by round and then author, and then those for own headers.
pub(crate) fn given_by_kept<S: Sign>(
    alloc: Global,
    validator: &Validator<'_, S>,
) -> Result<Vec<Given>, AllocError>
    ensures { let node = node_of S.scheme validator.now.setting in IfOk result (λ votes. (state : State) → AreAtSound node validator.now.tables state
        → AreKeptVotes node state votes.items) }
{
    checkpoint::checkpoint_is_state();
    validator.limits_hold();
    let kept = parts_of(alloc, validator.tables())?;
    let mut votes = given_to_others(alloc, &kept.votes)?;
    add_own(&mut votes, &kept.headers)?;
    Ok(votes)
}

// The votes for other members' headers.
fn given_to_others(alloc: Global, kept: &[(Slot, Digest)]) -> Result<Vec<Given>, AllocError>
    ensures { IfOk result (λ votes. votes.items ≡ map (λ entry. given_for (vote_of entry)) kept.now) }
{
    let mut votes = Vec::with_capacity(alloc, kept.len())?;
    for (slot, digest) in kept {
        votes.push(Given {
            author: Author(slot.author),
            round: slot.round,
            digest: *digest,
        })?;
    }
    Ok(votes)
}

// Adds the votes for own headers.
fn add_own(votes: &mut Vec<Given>, kept: &[VotedHeader]) -> Result<(), AllocError>
    ensures { OnOk result (votes.new.items ≡ votes.old.items ++ map (λ voted. given_as (header_of voted)) kept.now) }
{
    for voted in kept {
        let body = &voted.header.body;
        votes.push(Given {
            author: body.author,
            round: body.round.number(),
            digest: header_digest(body),
        })?;
    }
    Ok(())
}
