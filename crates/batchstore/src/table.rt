//! The table in which a store finds its batches by their digests.

ghost use Rattle.std.specs.Prelude.{◌≡◌, ◌≢◌, ◌<◌, All, AllPairs, IfOk, map, [], ◌∷◌, ◌++◌, true, None, Some, IfSome, OnOk, OnErr, length, option_copied, option_map, slice_get, slice_set};
ghost use Rattle.indexmap.specs.IndexMap.{values, hasher_of, set_value_at};
ghost use Rattle.std.specs.Map.{values_of};
ghost use Rattle.batchstore.specs.Kept.{IsUnderItsDigest};
ghost use Rattle.batchstore.specs.Stock.{digest_of, found};
ghost use Rattle.batchstore.specs.declared.held.Held.{Held};

use crate::held::Held;
use committee::MemberSet;
use indexmap::IndexMap;
use sigface::TableSeed;
use std::alloc::{AllocError, Global};
use std::marker::Model;
use wire::Digest;

/// The batches of a store, in the order of acceptance. Contracts see this list, and the seed with which the table hashes.
#[derive(Drop)]
pub(crate) struct Table {
    // The batches' entries by digest. The map keeps the order in which they were added, which is the order of acceptance.
    batches: IndexMap<Digest, Held, TableSeed>,
}

impl Model for Table {
    ghost use Rattle.std.specs.Prelude.{All};
    ghost use Rattle.indexmap.specs.IndexMap.{values, hasher_of};
    ghost use Rattle.batchstore.specs.Kept.{IsUnderItsDigest, TableView};

    ghost Value = { TableView };

    ghost view = { λ t. record { seed = hasher_of t.batches; held = values t.batches } };

    ghost invariant = { λ t. All IsUnderItsDigest t.batches.entries };
}

// Replaces the set of members who acknowledged the batch at this place.
fn write_members(batches: &mut IndexMap<Digest, Held, TableSeed>, place: usize, members: MemberSet)
    ensures entries { (before : Held) → slice_get (values batches.old) place ≡ Some before → batches.new.entries ≡ set_value_at batches.old.entries place (record before { acknowledged = members }) }
    ensures hasher { hasher_of batches.new ≡ hasher_of batches.old }
{
    if let Some(held) = batches.get_index_mut(place) {
        held.acknowledged = members;
    }
}

// Marks the batch at this place as named by an own header.
fn write_mark(batches: &mut IndexMap<Digest, Held, TableSeed>, place: usize)
    ensures entries { (before : Held) → slice_get (values batches.old) place ≡ Some before → batches.new.entries ≡ set_value_at batches.old.entries place (record before { named = true }) }
    ensures hasher { hasher_of batches.new ≡ hasher_of batches.old }
{
    if let Some(held) = batches.get_index_mut(place) {
        held.named = true;
    }
}

impl Table {
    pub(crate) fn new(alloc: Global, seed: TableSeed) -> Table
        ensures { result ≡ record { seed = seed; held = [] } }
    {
        Table {
            batches: IndexMap::with_hasher(alloc, seed),
        }
    }

    // The table that holds these batches, no two of which have the same digest. On `AllocError` an allocation failed.
    pub(crate) fn restore(
        alloc: Global,
        seed: TableSeed,
        batches: Vec<(Digest, Held)>,
    ) -> Result<Table, AllocError>
        requires digested { All IsUnderItsDigest batches.items }
        requires distinct { AllPairs (λ one other. one ≢ other) (map (λ held. digest_of held.batch) (values_of batches.items)) }
        ensures { IfOk result (λ table. table ≡ record { seed = seed; held = values_of batches.items }) }
    {
        let mut entries = IndexMap::with_hasher(alloc, seed);
        entries.extend(batches.into_iter())?;
        Ok(Table { batches: entries })
    }

    pub(crate) fn len(&self) -> usize
        ensures { result ≡ length self.now.held }
    {
        self.batches.len()
    }

    // The entry of the batch at this place in the order of acceptance, counted from 0.
    pub(crate) fn at(&self, place: usize) -> Option<&Held>
        ensures { option_copied result ≡ slice_get self.now.held place }
    {
        match self.batches.get_index(place) {
            Some((_, held)) => Some(held),
            None => None,
        }
    }

    // The digest and the entry of the batch at this place in the order of acceptance, counted from 0.
    pub(crate) fn entry(&self, place: usize) -> Option<(&Digest, &Held)>
        ensures held { option_map (λ entry. entry.1.now) result ≡ slice_get self.now.held place }
        ensures digested { IfSome result (λ entry. entry.0.now ≡ digest_of entry.1.now.batch) }
    {
        match self.batches.get_index(place) {
            Some((digest, held)) => Some((digest, held)),
            None => None,
        }
    }

    // The place and the entry of the batch with this digest.
    pub(crate) fn find(&self, digest: &Digest) -> Option<(usize, &Held)>
        ensures held { option_map (λ it. it.1.now) result ≡ found digest.now self.now.held }
        ensures place { IfSome result (λ it. slice_get self.now.held it.0 ≡ Some it.1.now) }
    {
        match self.batches.get_full(digest) {
            Some((place, _, held)) => Some((place, held)),
            None => None,
        }
    }

    // Adds a batch at the end of the order of acceptance. The table has no other batch with its digest.
    pub(crate) fn push(&mut self, digest: Digest, held: Held) -> Result<(), AllocError>
        requires digested { digest ≡ digest_of held.batch }
        requires new { found digest self.old.held ≡ None }
        ensures ok { OnOk result (self.new ≡ record self.old { held = self.old.held ++ held ∷ [] }) }
        ensures err { OnErr result (self.new ≡ self.old) }
    {
        self.batches.insert(digest, held)?;
        Ok(())
    }

    // Replaces the set of members who acknowledged the batch at this place.
    pub(crate) fn set_members(&mut self, place: usize, members: MemberSet)
        requires { place < length self.old.held }
        ensures { (before : Held) → slice_get self.old.held place ≡ Some before → self.new ≡ record self.old { held = slice_set self.old.held place (record before { acknowledged = members }) } }
    {
        write_members(&mut self.batches, place, members);
    }

    // Marks the batch at this place as named by an own header.
    pub(crate) fn set_mark(&mut self, place: usize)
        requires { place < length self.old.held }
        ensures { (before : Held) → slice_get self.old.held place ≡ Some before → self.new ≡ record self.old { held = slice_set self.old.held place (record before { named = true }) } }
    {
        write_mark(&mut self.batches, place);
    }
}
