//! The records that were accepted and not yet taken, packed into groups.

ghost use Rattle.std.specs.Prelude.{◌≡◌, ◌+◌, ◌≤◌, ◌++◌, ◌∷◌, [], true, false, List, ℕ, length, IsTrue, IsNone, IfOk, IfSome, OnOk, OnErr, ◌↔◌};
ghost use Rattle.journal.specs.declared.layout.TheConstants.{LENGTH_BYTES, MAX_GROUP_BYTES};
ghost use Rattle.spec_records.specs.Records.{record_of};
ghost use Rattle.book.specs.Pending.{ArePacked, IsLongestBeginning, all_records, HasRoom, HasNoRoom};

use crate::draft::Draft;
use header::Checked;
use journal::Group;
use std::alloc::{AllocError, Global};
use std::collections::VecDeque;
use std::marker::Model;

/// The pending records, packed into groups: a group ends where the next record wouldn't fit. Contracts see the records without the groups.
#[derive(Drop)]
pub(crate) struct Pending {
    alloc: Global,
    drafts: VecDeque<Draft>,
}

impl Model for Pending {
    ghost use Rattle.std.specs.Prelude.{List, ℕ};
    ghost use Rattle.book.specs.Pending.{ArePacked, all_records};

    ghost Value = { List (List ℕ) };

    ghost view = { λ pending. all_records pending.drafts.items };

    ghost invariant = { λ pending. ArePacked pending.drafts.items };
}

impl Pending {
    /// The list without a pending record.
    pub(crate) fn new(alloc: Global) -> Pending
        ensures { result ≡ [] }
    {
        Pending {
            alloc,
            drafts: VecDeque::new(alloc),
        }
    }

    /// Whether no record is pending.
    pub(crate) fn is_empty(&self) -> bool
        ensures { IsTrue result ↔ (self.now ≡ []) }
    {
        self.drafts.is_empty()
    }

    /// Adds the record of an event as the last one. It has this length. On `AllocError` an allocation failed, and nothing has changed.
    pub(crate) fn put(&mut self, event: &Checked, len: usize) -> Result<(), AllocError>
        requires short { LENGTH_BYTES + len ≤ MAX_GROUP_BYTES }
        requires len { len ≡ length (record_of event.now) }
        ensures ok { OnOk result (self.new ≡ self.old ++ record_of event.now ∷ []) }
        ensures err { OnErr result (self.new ≡ self.old) }
    {
        if last_has_room(&self.drafts, len) {
            put_into_last(&mut self.drafts, event, len)
        } else {
            put_after(self.alloc, &mut self.drafts, event, len)
        }
    }

    /// Removes the last record, which has this length.
    pub(crate) fn take_back(&mut self, len: usize)
        requires { (others : List (List ℕ)) × (last : List ℕ) × (self.old ≡ others ++ last ∷ []) × (length last ≡ len) }
        ensures { (others : List (List ℕ)) (last : List ℕ) → self.old ≡ others ++ last ∷ [] → self.new ≡ others }
    {
        let Some(mut last) = self.drafts.pop_back() else {
            unreachable!()
        };
        last.take_back(len);
        if !last.is_empty() {
            self.drafts.push_back_reserved(last);
        }
    }

    /// Takes the longest prefix of the pending records that fits a group; None where no record is pending. On `AllocError` an allocation
    /// failed, and nothing has changed.
    pub(crate) fn take(&mut self) -> Result<Option<Group>, AllocError>
        ensures none { IfOk result (λ group. IsNone group ↔ (self.old ≡ [])) }
        ensures group { IfOk result (λ group. IfSome group (λ group. IsLongestBeginning self.old group self.new)) }
        ensures nothing { IfOk result (λ group. IsNone group → self.new ≡ self.old) }
        ensures err { OnErr result (self.new ≡ self.old) }
    {
        let Some(first) = self.drafts.pop_front() else {
            return Ok(None);
        };
        match first.close() {
            Ok(group) => Ok(Some(group)),
            Err(first) => {
                self.drafts.push_front_reserved(first);
                Err(AllocError)
            }
        }
    }
}

// Whether the last group, if there is one, has room for a record of this length.
fn last_has_room(drafts: &VecDeque<Draft>, len: usize) -> bool
    requires { LENGTH_BYTES + len ≤ MAX_GROUP_BYTES }
    ensures room { result ≡ true → HasRoom drafts.now.items len }
    ensures none { result ≡ false → HasNoRoom drafts.now.items len }
{
    match drafts.back() {
        Some(last) => last.has_room(len),
        None => false,
    }
}

// Adds the record of an event to the last group, which has room for it. On `AllocError` an allocation failed, and nothing has changed.
fn put_into_last(
    drafts: &mut VecDeque<Draft>,
    event: &Checked,
    len: usize,
) -> Result<(), AllocError>
    requires short { LENGTH_BYTES + len ≤ MAX_GROUP_BYTES }
    requires len { len ≡ length (record_of event.now) }
    requires room { HasRoom drafts.old.items len }
    ensures ok { OnOk result ((front : List (List (List ℕ))) (last : List (List ℕ)) → drafts.old.items ≡ front ++ last ∷ [] → drafts.new.items ≡ front ++ (last ++ record_of event.now ∷ []) ∷ []) }
    ensures err { OnErr result (drafts.new.items ≡ drafts.old.items) }
{
    let Some(last) = drafts.back_mut() else {
        unreachable!()
    };
    last.put(event, len)
}

// Adds the record of an event, which has this length, as the first one of a new group. On `AllocError` an allocation failed, and nothing
// has changed.
fn put_after(
    alloc: Global,
    drafts: &mut VecDeque<Draft>,
    event: &Checked,
    len: usize,
) -> Result<(), AllocError>
    requires short { LENGTH_BYTES + len ≤ MAX_GROUP_BYTES }
    requires len { len ≡ length (record_of event.now) }
    ensures ok { OnOk result (drafts.new.items ≡ drafts.old.items ++ (record_of event.now ∷ []) ∷ []) }
    ensures err { OnErr result (drafts.new.items ≡ drafts.old.items) }
{
    drafts.reserve(1)?;
    let mut next = Draft::new(alloc)?;
    next.put(event, len)?;
    drafts.push_back_reserved(next);
    Ok(())
}
