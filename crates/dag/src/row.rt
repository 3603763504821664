//! What a DAG keeps of one round.

ghost use Rattle.std.specs.Prelude.{◌≡◌, ℕ, ◌<◌, ◌^◌, length, None, Some, false, IfOk, is_some, count_by, option_copied, option_map, slice_get, slice_set, replicate};
ghost use Rattle.committee.specs.Sets.{has};
ghost use Rattle.committee.specs.declared.members.TheConstants.{MAX_MEMBERS};
ghost use Rattle.dag.specs.Graph.{held_in};
ghost use Rattle.dag.specs.Rows.{is_unmarked, marked, marked_row, slot_at};

use crate::entry::Entry;
use committee::MemberSet;
use std::alloc::{AllocError, Global};
use std::marker::Model;
use wire::Author;

/// One round of the DAG: a slot for each member, with that member's certificate or nothing.
#[derive(Drop)]
pub struct Row {
    slots: Vec<Option<Entry>>,
    // The authors whose certificates in this row aren't marked.
    unmarked: MemberSet,
}

impl Model for Row {
    ghost use Rattle.std.specs.Prelude.{List, Option};
    ghost use Rattle.dag.specs.declared.entry.Entry.{Entry};
    ghost use Rattle.dag.specs.Rows.{IsRow};

    ghost Value = { List (Option Entry) };

    ghost view = { λ r. r.slots.items };

    ghost invariant = { λ r. IsRow r.slots.items r.unmarked };
}

fn mark(slot: &mut Option<Entry>)
    ensures { slot.new ≡ option_map marked slot.old }
{
    if let Some(entry) = slot {
        entry.marked = true;
    }
}

// The entry at this place among the slots that hold one, counted from 0.
fn nth_held(slots: &[Option<Entry>], place: usize) -> Option<&Entry>
    ensures { option_copied result ≡ slice_get (held_in slots.now) place }
{
    let mut before = place;
    for author in 0..slots.len() {
        if let Some(entry) = &slots[author] {
            if before == 0 {
                return Some(entry);
            }
            before -= 1;
        }
    }
    None
}

impl Row {
    /// A row with this many slots, for as many members, that hold nothing.
    pub(crate) fn empty(alloc: Global, size: usize) -> Result<Row, AllocError>
        ensures { IfOk result (λ row. row ≡ replicate size None) }
    {
        let mut slots = Vec::with_capacity(alloc, size)?;
        for _ in 0..size {
            slots.push(None)?;
        }
        Ok(Row {
            slots,
            unmarked: MemberSet::none(),
        })
    }

    /// The entry of this author's certificate, if the row has one.
    pub(crate) fn get(&self, author: u16) -> Option<&Entry>
        ensures { option_copied result ≡ slot_at self.now author }
    {
        match self.slots.get(author as usize) {
            Some(Some(entry)) => Some(entry),
            _ => None,
        }
    }

    /// Puts an entry into the slot of this author. The entry isn't marked.
    pub(crate) fn set(&mut self, author: u16, entry: Entry)
        requires within { author < length self.old }
        requires member { author < MAX_MEMBERS }
        requires without_mark { entry.marked ≡ false }
        ensures { self.new ≡ slice_set self.old author (Some entry) }
    {
        self.slots[author as usize] = Some(entry);
        self.unmarked.insert(Author(author));
    }

    /// The authors of the row whose certificates aren't marked.
    pub(crate) fn unmarked(&self) -> MemberSet
        ensures { (author : ℕ) → has result author ≡ is_unmarked self.now author }
    {
        self.unmarked
    }

    /// Marks the certificates that these authors have in the row.
    pub(crate) fn mark(&mut self, authors: &MemberSet)
        requires { length self.old < 2 ^ 16 }
        ensures { self.new ≡ marked_row (has authors.now) self.old }
    {
        for i in 0..self.slots.len() {
            if authors.contains(Author(i as u16)) {
                mark(&mut self.slots[i]);
            }
        }
        self.unmarked.remove_all(authors);
    }

    /// The entry at this place among those of the row, counted from 0, in the order of the authors.
    pub(crate) fn nth(&self, place: usize) -> Option<&Entry>
        ensures { option_copied result ≡ slice_get (held_in self.now) place }
    {
        nth_held(self.slots.as_slice(), place)
    }

    /// How many certificates the row has.
    pub(crate) fn count(&self) -> usize
        ensures { result ≡ count_by is_some self.now }
    {
        self.slots.iter().filter(|slot| slot.is_some()).count()
    }
}
