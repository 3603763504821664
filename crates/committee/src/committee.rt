//! A committee, and how it is read from its file.

ghost use Rattle.std.specs.Prelude.{◌≡◌, ◌≢◌, ◌+◌, ◌*◌, ◌<◌, ◌≤◌, ◌↔◌, false, length, AllPairs, IsSome, IfSome, IsErrOf, IfOk, IfErr, slice_get, option_copied};
ghost use Rattle.toml.specs.Errors.{IsBlank};
ghost use Rattle.toml.specs.Parse.{parse_document};
ghost use Rattle.toml.specs.View.{table_view};
ghost use Rattle.committee.specs.Answer.{has_bad_size, answer, answer_to};
ghost use Rattle.committee.specs.Charter.{weight, total_of, tolerated_of, quorum_of, support_of};
ghost use Rattle.committee.specs.Sets.{has};
ghost use Rattle.committee.specs.declared.limits.TheConstants.{MIN_DEPTH, MAX_DEPTH, MIN_WORKERS, MAX_WORKERS, MIN_HELD_BATCHES, MAX_HELD_BATCHES};
ghost use Rattle.committee.specs.declared.members.TheConstants.{MIN_MEMBERS, MAX_MEMBERS};
ghost use Rattle.committee.specs.declared.stakes.TheConstants.{MIN_STAKE, MAX_STAKE, MAX_TOTAL};

use crate::error::CommitteeError;
use crate::keys::{keys_of, repeats};
use crate::limits::{batches_in, depth_in, workers_in};
use crate::members::{is_size, members_in};
use crate::sets::MemberSet;
use crate::stakes::{
    has_stakes, one_is_quorum, quorum_of, stakes_in, support_of, tolerated_of, total_of,
};
use std::alloc::Global;
use std::marker::Model;
use toml::Table;
use wire::{Author, Key};

/// A committee: 4 to 31 members, each with a key of its own and a stake, and the limits that all of them keep. No member's stake alone is a
/// quorum. It is assumed that the members who aren't honest hold less than a third of the total stake.
#[derive(Debug)]
pub struct Committee {
    keys: Vec<Key>,
    stakes: Vec<u64>,
    depth: u64,
    workers: u16,
    batches: u32,
    // The weights that follow from the stakes, computed once.
    total: u64,
    tolerated: u64,
    quorum: u64,
    support: u64,
}

impl Drop for Committee {
    fn drop(self) {
        let Committee {
            keys: _,
            stakes: _,
            depth: _,
            workers: _,
            batches: _,
            total: _,
            tolerated: _,
            quorum: _,
            support: _,
        } = self;
    }
}

impl Model for Committee {
    ghost use Rattle.committee.specs.Charter.{Charter};
    ghost use Rattle.committee.specs.Kept.{IsKept};

    ghost Value = { Charter };

    ghost view = { λ c. record { keys = c.keys.items; stakes = c.stakes.items; depth = c.depth; workers = c.workers; batches = c.batches } };

    ghost invariant = { λ c.
        IsKept (record { keys = c.keys.items; stakes = c.stakes.items; depth = c.depth; workers = c.workers; batches = c.batches })
        c.total c.tolerated c.quorum c.support };
}

impl Committee {
    ghost use Rattle.committee.specs.Charter.{IsCharter};

    /// Reads a committee from the text of a TOML file. The file has a list `members` of keys, each of 64 digits 0 to 9 and a to f. It may
    /// have the whole numbers `depth` (2 to 1000 rounds; 50 if it is missing), `workers` (1 to 16; 1 if it is missing) and `batches` (1 to
    /// 1048576; 1048576 if it is missing), and a list `stakes` of a whole number for each member (1 to 1000000; 1 for each if the list is
    /// missing). There are 4 to 31 members; without `stakes` there are 3f + 1 of them. Other keys of the file are ignored.
    ///
    /// # Errors
    /// The first that applies: `NotToml`, `BadSize`, `BadKey`, `RepeatedKey`, `BadLimit`, `BadStake`; or `Memory`, in place of any other
    /// answer, if an allocation failed. A text of white space and comments alone is read without an allocation.
    pub fn read(alloc: Global, text: &str) -> Result<Committee, CommitteeError>
        ensures ok { IfOk result (λ committee. answer_to (parse_document text.now) ≡ Ok committee) }
        ensures refused { IfErr result (λ error. error ≢ CommitteeError.Memory → answer_to (parse_document text.now) ≡ Err error) }
        ensures memory { IsErrOf result CommitteeError.Memory → ¬ IsBlank text.now }
    {
        match toml::table_from_str(alloc, text) {
            Ok(table) => committee_in(alloc, &table),
            Err(error) => {
                if error.is_memory() {
                    Err(CommitteeError::Memory)
                } else {
                    Err(CommitteeError::NotToml)
                }
            }
        }
    }

    /// How many members the committee has. They are numbered from 0.
    pub fn size(&self) -> u16
        ensures value { result ≡ length self.now.keys }
        ensures least { MIN_MEMBERS ≤ result }
        ensures greatest { result ≤ MAX_MEMBERS }
    {
        self.keys.len() as u16
    }

    /// The stake of the member with this number; None if no member has it.
    pub fn stake(&self, author: Author) -> Option<u64>
        ensures value { result ≡ slice_get self.now.stakes author.0 }
        ensures member { IsSome result ↔ (author.0 < length self.now.keys) }
        ensures limits { IfSome result (λ stake. (MIN_STAKE ≤ stake) × (stake ≤ MAX_STAKE)) }
    {
        self.stakes.get(author.0 as usize).copied()
    }

    /// The sum of all members' stakes.
    pub fn total(&self) -> u64
        ensures value { result ≡ total_of self.now }
        ensures least { MIN_MEMBERS ≤ result }
        ensures greatest { result ≤ MAX_TOTAL }
    {
        self.total
    }

    /// The tolerated weight: what the members who aren't honest may weigh together at most, which is less than a third of the total.
    pub fn tolerated(&self) -> u64
        ensures { result ≡ tolerated_of self.now }
    {
        self.tolerated
    }

    /// The least weight of a quorum: more than two thirds of the total.
    pub fn quorum(&self) -> u64
        ensures { result ≡ quorum_of self.now }
    {
        self.quorum
    }

    /// The least weight of support: at least a third of the total, so that one of the supporters is honest.
    pub fn support(&self) -> u64
        ensures { result ≡ support_of self.now }
    {
        self.support
    }

    /// The weight of the members in a set: the sum of their stakes.
    pub fn weight(&self, members: &MemberSet) -> u64
        ensures value { result ≡ weight self.now (has members.now) }
        ensures most { result ≤ total_of self.now }
    {
        let mut weight = 0;
        for (i, stake) in self.stakes.iter().enumerate() {
            if members.contains(Author(i as u16)) {
                weight += *stake;
            }
        }
        weight
    }

    /// The public key of the member with this number; None if no member has it.
    pub fn key(&self, author: Author) -> Option<&Key>
        ensures value { option_copied result ≡ slice_get self.now.keys author.0 }
        ensures member { IsSome result ↔ (author.0 < length self.now.keys) }
        ensures distinct { AllPairs (λ one other. one ≢ other) self.now.keys }
    {
        self.keys.get(author.0 as usize)
    }

    /// The depth, in rounds: how far below a leader a certificate may be to be ordered with it.
    pub fn depth(&self) -> u64
        ensures value { result ≡ self.now.depth }
        ensures least { MIN_DEPTH ≤ result }
        ensures greatest { result ≤ MAX_DEPTH }
    {
        self.depth
    }

    /// How many workers each member has.
    pub fn workers(&self) -> u16
        ensures value { result ≡ self.now.workers }
        ensures least { MIN_WORKERS ≤ result }
        ensures greatest { result ≤ MAX_WORKERS }
    {
        self.workers
    }

    /// How many batches a node holds at most, those of all members together.
    pub fn batches(&self) -> u32
        ensures value { result ≡ self.now.batches }
        ensures least { MIN_HELD_BATCHES ≤ result }
        ensures greatest { result ≤ MAX_HELD_BATCHES }
    {
        self.batches
    }

    /// A law: what holds of each committee of its size, keys, stakes and limits; for example no key occurs twice. The call does nothing.
    pub fn limits_hold(&self)
        ensures { IsCharter self.now }
    {
        let _ = &self.keys;
    }
}

fn committee_in(alloc: Global, table: &Table) -> Result<Committee, CommitteeError>
    ensures ok { IfOk result (λ committee. answer (table_view table.now) ≡ Ok committee) }
    ensures refused { IfErr result (λ error. error ≢ CommitteeError.Memory → answer (table_view table.now) ≡ Err error) }
    ensures memory { IsErrOf result CommitteeError.Memory → has_bad_size (table_view table.now) ≡ false }
{
    let elements = match members_in(table) {
        Some(elements) => elements,
        None => return Err(CommitteeError::BadSize),
    };
    if !is_size(has_stakes(table), elements.len()) {
        return Err(CommitteeError::BadSize);
    }
    let keys = keys_of(alloc, elements)?;
    if repeats(&keys) {
        return Err(CommitteeError::RepeatedKey);
    }
    let (Some(depth), Some(workers), Some(batches)) = (
        depth_in(table),
        workers_in(table),
        batches_in(table),
    ) else {
        return Err(CommitteeError::BadLimit);
    };
    let stakes = stakes_in(alloc, elements.len(), table)?;
    let total = total_of(&stakes);
    let quorum = quorum_of(total);
    if one_is_quorum(&stakes, quorum) {
        return Err(CommitteeError::BadStake);
    }
    Ok(Committee {
        keys,
        stakes,
        depth,
        workers: workers as u16,
        batches: batches as u32,
        total,
        tolerated: tolerated_of(total),
        quorum,
        support: support_of(total),
    })
}
