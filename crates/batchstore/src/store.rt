//! The store of the batches that a validator holds.

ghost use Rattle.std.specs.Prelude.{◌≡◌, ◌≢◌, ℕ, ◌<◌, All, AllPairs, ◌==◌, ◌&&◌, ◌||◌, ◌⊎◌, [], ◌∷◌, true, false, Ok, Err, IsTrue, not, nat_le, ◌↔◌, length, take, map, Some, None, slice_get, if◌then◌else◌, IfOk, IfErr, IfSome, OnOk, OnErr, IsErrOf, option_copied, option_map};
ghost use Rattle.std.specs.BTreeMap.{insert_entry};
ghost use Rattle.std.specs.Map.{values_of};
ghost use Rattle.wire.specs.declared.limits.TheConstants.{MAX_BATCHES};
ghost use Rattle.committee.specs.Charter.{weight, quorum_of};
ghost use Rattle.committee.specs.Sets.{has};
ghost use Rattle.committee.specs.declared.members.TheConstants.{MAX_MEMBERS};
ghost use Rattle.batchstore.specs.declared.held.Held.{Held};
ghost use Rattle.batchstore.specs.Kept.{IsUnderItsDigest, compared, reference_of};
ghost use Rattle.batchstore.specs.Stock.{is_quorate, may_be_named, BatchStoreView, IsStock, digest_of, held_at, batch_in, has_with, has_own, holds, is_available, was_named, nameable, nameable_among};
ghost use Rattle.batchstore.specs.Answer.{is_member, is_known, is_clash, is_new, is_full, answer, with_batch, with_ack, with_names};

use crate::answers::{Acked, Put};
use crate::held::Held;
use crate::refusal::StoreRefusal;
use crate::table::Table;
use committee::{Committee, MemberSet};
use sigface::TableSeed;
use std::alloc::{AllocError, Global};
use std::collections::BTreeMap;
use std::marker::Model;
use wire::{Author, Batch, BatchReference, Digest, MAX_BATCHES, batch_digest};

/// The batches that one member of a committee holds. Contracts see the committee, the member's number, the seed with which its table
/// hashes, and the batches in the order of acceptance, each with the other members who acknowledged it and whether an own header named it.
pub struct BatchStore<'a> {
    committee: &'a Committee,
    own: Author,
    table: Table,
    // The worker of each batch that a header may still name, by the batch's digest. Contracts don't see it, since it follows from the
    // table.
    nameable: BTreeMap<Digest, u16>,
}

impl<'a> Drop for BatchStore<'a> {
    fn drop(self) {
        let BatchStore {
            committee: _,
            own: _,
            table: _,
            nameable: _,
        } = self;
    }
}

impl<'a> Model for BatchStore<'a> {
    ghost use Rattle.batchstore.specs.Stock.{BatchStoreView};
    ghost use Rattle.batchstore.specs.Kept.{IsKept};

    ghost Value = { BatchStoreView };

    ghost view = { λ s. record { charter = s.committee.now; own = s.own.0; seed = s.table.seed; held = s.table.held } };

    ghost invariant = { λ s. IsKept (record { charter = s.committee.now; own = s.own.0; seed = s.table.seed; held = s.table.held }) s.nameable.entries };
}

// Whether the own member together with these other members weighs at least a quorum.
fn is_quorum(committee: &Committee, own: Author, others: &MemberSet) -> bool
    requires { own.0 < MAX_MEMBERS }
    ensures { result ≡ nat_le (quorum_of committee.now) (weight committee.now (λ member. (member == own.0) || has others.now member)) }
{
    let mut holders = *others;
    holders.insert(own);
    committee.weight(&holders) >= committee.quorum()
}

// Whether an own batch becomes nameable when its acknowledgements are these instead of the earlier ones: no header has named it, and its
// holders weigh a quorum now and did not before.
fn becomes_nameable(
    committee: &Committee,
    own: Author,
    held: &Held,
    acknowledged: &MemberSet,
) -> bool
    requires { own.0 < MAX_MEMBERS }
    ensures { result ≡ (not held.now.named && (not (is_quorate committee.now own.0 held.now) && is_quorate committee.now own.0 (record held.now { acknowledged = acknowledged.now }))) }
{
    !held.named
        && !is_quorum(committee, own, &held.acknowledged)
        && is_quorum(committee, own, acknowledged)
}

// The references to the batches of this map with the lowest digests, at most as many as a header may name.
fn first_references(
    alloc: Global,
    nameable: &BTreeMap<Digest, u16>,
) -> Result<Vec<BatchReference>, AllocError>
    ensures { IfOk result (λ batches. batches.items ≡ take MAX_BATCHES (map reference_of nameable.now.entries)) }
{
    nameable
        .iter()
        .map(|(digest, worker)| BatchReference {
            digest: *digest,
            worker: *worker,
        })
        .take(MAX_BATCHES)
        .collect(alloc)
}

// Whether the next own header may name this batch: the batch is an own one and available, and no own header has named it yet.
fn may_be_named(committee: &Committee, own: Author, held: &Held) -> bool
    requires { own.0 < MAX_MEMBERS }
    ensures { result ≡ may_be_named committee.now own.0 held.now }
{
    held.batch.author() == own && (is_quorum(committee, own, &held.acknowledged) && !held.named)
}

// Adds a batch to the map of nameable batches, if an own header may name it.
fn list_one(
    committee: &Committee,
    own: Author,
    digest: &Digest,
    held: &Held,
    nameable: &mut BTreeMap<Digest, u16>,
) -> Result<(), AllocError>
    requires { own.0 < MAX_MEMBERS }
    ensures { OnOk result (nameable.new.entries ≡ (if may_be_named committee.now own.0 held.now then insert_entry compared nameable.old.entries digest.now held.now.batch.worker else nameable.old.entries)) }
{
    if may_be_named(committee, own, held) {
        nameable.insert(*digest, held.batch.worker())?;
    }
    Ok(())
}

// The nameable batches among these: the worker of each, by the batch's digest.
fn nameable_among(
    alloc: Global,
    committee: &Committee,
    own: Author,
    batches: &[(Digest, Held)],
) -> Result<BTreeMap<Digest, u16>, AllocError>
    requires member { own.0 < MAX_MEMBERS }
    requires digested { All IsUnderItsDigest batches.now }
    requires distinct { AllPairs (λ one other. one ≢ other) (map (λ held. digest_of held.batch) (values_of batches.now)) }
    ensures { IfOk result (λ listed. map reference_of listed.entries ≡ nameable_among committee.now own.0 (values_of batches.now)) }
{
    let mut nameable = BTreeMap::new(alloc);
    for entry in batches {
        list_one(committee, own, &entry.0, &entry.1, &mut nameable)?;
    }
    Ok(nameable)
}

impl<'a> BatchStore<'a> {
    /// An empty store of the member with this number. Its table hashes with this seed.
    pub fn new(
        alloc: Global,
        committee: &'a Committee,
        own: Author,
        seed: TableSeed,
    ) -> BatchStore<'a>
        requires { own.0 < length committee.now.keys }
        ensures { result ≡ record { charter = committee.now; own = own.0; seed = seed; held = [] } }
    {
        committee.limits_hold();
        BatchStore {
            committee,
            own,
            table: Table::new(alloc, seed),
            nameable: BTreeMap::new(alloc),
        }
    }

    /// The store that holds these batches. They stand in the order of acceptance, each with its digest. The store's table hashes with this
    /// seed. On `AllocError` an allocation failed.
    pub fn restore(
        alloc: Global,
        committee: &'a Committee,
        own: Author,
        seed: TableSeed,
        batches: Vec<(Digest, Held)>,
    ) -> Result<BatchStore<'a>, AllocError>
        requires digested { All IsUnderItsDigest batches.items }
        requires stock { IsStock (record { charter = committee.now; own = own.0; seed = seed; held = values_of batches.items }) }
        ensures { IfOk result (λ store. store ≡ record { charter = committee.now; own = own.0; seed = seed; held = values_of batches.items }) }
    {
        committee.limits_hold();
        let nameable = nameable_among(alloc, committee, own, batches.as_slice())?;
        let table = Table::restore(alloc, seed, batches)?;
        Ok(BatchStore {
            committee,
            own,
            table,
            nameable,
        })
    }

    /// Adds a batch, if it is new. It computes the batch's digest, and then does what `put_digested` does.
    pub fn put(&mut self, batch: Batch) -> Result<Put, StoreRefusal>
        ensures known { (result ≡ Ok Put.Known) ↔ IsTrue (is_known self.old batch) }
        ensures same { result ≡ Ok Put.Known → self.new ≡ self.old }
        ensures clash { IsErrOf result StoreRefusal.DigestClash ↔ IsTrue (is_clash self.old batch) }
        ensures full { IsErrOf result StoreRefusal.Full ↔ IsTrue (is_new self.old batch && is_full self.old) }
        ensures new { result ≡ Ok Put.New → self.new ≡ with_batch self.old batch }
        ensures ours { ¬ IsErrOf result StoreRefusal.NotOurs }
        ensures err { OnErr result (self.new ≡ self.old) }
    {
        let digest = batch_digest(&batch);
        self.put_digested(digest, batch)
    }

    /// Adds a batch with this digest, if it is new.
    ///
    /// # Errors
    /// The refusals of `answer`, or `Memory` where an allocation failed. None changes anything.
    pub fn put_digested(&mut self, digest: Digest, batch: Batch) -> Result<Put, StoreRefusal>
        requires { digest ≡ digest_of batch }
        ensures known { (result ≡ Ok Put.Known) ↔ IsTrue (is_known self.old batch) }
        ensures same { result ≡ Ok Put.Known → self.new ≡ self.old }
        ensures clash { IsErrOf result StoreRefusal.DigestClash ↔ IsTrue (is_clash self.old batch) }
        ensures full { IsErrOf result StoreRefusal.Full ↔ IsTrue (is_new self.old batch && is_full self.old) }
        ensures new { result ≡ Ok Put.New → self.new ≡ with_batch self.old batch }
        ensures ours { ¬ IsErrOf result StoreRefusal.NotOurs }
        ensures err { OnErr result (self.new ≡ self.old) }
    {
        match self.answer(&digest, &batch) {
            Ok(Some(_)) => Ok(Put::Known),
            Ok(None) => {
                self.hold(digest, batch)?;
                Ok(Put::New)
            }
            Err(refusal) => Err(refusal),
        }
    }

    /// The answer to a batch with this digest, before anything is changed: the same batch, where it is held already, or None where it is
    /// new.
    ///
    /// # Errors
    /// `DigestClash` where another batch is held under this digest; `Full` where none is held under it, and as many are held as the
    /// committee allows.
    pub fn answer(&self, digest: &Digest, batch: &Batch) -> Result<Option<&Batch>, StoreRefusal>
        requires { digest.now ≡ digest_of batch.now }
        ensures ok { IfOk result (λ held. answer self.now batch.now ≡ Ok (option_copied held)) }
        ensures err { IfErr result (λ refusal. answer self.now batch.now ≡ Err refusal) }
    {
        match self.get(digest) {
            Some(held) => {
                if held.body() != batch.body() {
                    return Err(StoreRefusal::DigestClash);
                }
                Ok(Some(held))
            }
            None => {
                if self.is_full() {
                    return Err(StoreRefusal::Full);
                }
                Ok(None)
            }
        }
    }

    /// Whether as many batches are held as the committee allows.
    pub fn is_full(&self) -> bool
        ensures { result ≡ is_full self.now }
    {
        self.table.len() >= self.committee.batches() as usize
    }

    /// Adds a new batch with this digest. On `AllocError` an allocation failed, and nothing has changed.
    pub fn hold(&mut self, digest: Digest, batch: Batch) -> Result<(), AllocError>
        requires digested { digest ≡ digest_of batch }
        requires new { answer self.old batch ≡ Ok None }
        ensures ok { OnOk result (self.new ≡ with_batch self.old batch) }
        ensures err { OnErr result (self.new ≡ self.old) }
    {
        let held = Held {
            batch,
            acknowledged: MemberSet::none(),
            named: false,
        };
        self.table.push(digest, held)?;
        Ok(())
    }

    // The entry of the batch with this digest: the batch, who acknowledged it, and whether an own header named it.
    fn at(&self, digest: &Digest) -> Option<&Held>
        ensures { option_copied result ≡ held_at self.now digest.now }
    {
        match self.find(digest) {
            Some((_, held)) => Some(held),
            None => None,
        }
    }

    // The entry of the batch with this digest, and its place in the order of acceptance, counted from 0.
    fn find(&self, digest: &Digest) -> Option<(usize, &Held)>
        ensures held { option_map (λ found. found.1.now) result ≡ held_at self.now digest.now }
        ensures place { IfSome result (λ found. slice_get self.now.held found.0 ≡ Some found.1.now) }
    {
        self.table.find(digest)
    }

    /// Whether the batch with this digest is held, and is a batch of this worker.
    pub fn holds(&self, digest: &Digest, worker: u16) -> bool
        ensures { result ≡ has_with self.now digest.now worker }
    {
        match self.at(digest) {
            Some(held) => held.batch.worker() == worker,
            None => false,
        }
    }

    /// The batch with this digest, if it is held.
    pub fn get(&self, digest: &Digest) -> Option<&Batch>
        ensures { option_copied result ≡ batch_in self.now digest.now }
    {
        match self.at(digest) {
            Some(held) => Some(&held.batch),
            None => None,
        }
    }

    /// Counts that this member holds the own batch with this digest, as its acknowledgement says.
    ///
    /// # Errors
    /// `NotOurs` where the author is no member or no own batch with the digest is held; `Memory` where an allocation failed. Neither
    /// changes anything.
    pub fn ack(&mut self, author: Author, digest: &Digest) -> Result<Acked, StoreRefusal>
        ensures not_ours { IsErrOf result StoreRefusal.NotOurs ↔ IsTrue (not (is_member self.old author.0 && has_own self.old digest.now)) }
        ensures known { (result ≡ Ok Acked.Known) ↔ IsTrue (has_own self.old digest.now && holds self.old digest.now author.0) }
        ensures same { result ≡ Ok Acked.Known → self.new ≡ self.old }
        ensures new { result ≡ Ok Acked.New → self.new ≡ with_ack self.old digest.now author.0 }
        ensures memory { OnErr result ((result ≡ Err StoreRefusal.NotOurs) ⊎ (result ≡ Err StoreRefusal.Memory)) }
        ensures err { OnErr result (self.new ≡ self.old) }
    {
        if author.0 >= self.committee.size() {
            return Err(StoreRefusal::NotOurs);
        }
        match self.acked_at(author, digest) {
            None => Err(StoreRefusal::NotOurs),
            Some((_, true)) => Ok(Acked::Known),
            Some((place, false)) => {
                self.count(author, digest, place)?;
                Ok(Acked::New)
            }
        }
    }

    /// Whether this member is already counted as a holder of the own batch with this digest; None where no own batch with the digest is
    /// held.
    pub fn acked(&self, author: Author, digest: &Digest) -> Option<bool>
        ensures { result ≡ (if has_own self.now digest.now then Some (holds self.now digest.now author.0) else None) }
    {
        match self.acked_at(author, digest) {
            Some((_, acked)) => Some(acked),
            None => None,
        }
    }

    // The answer of `acked`, and the place of the batch in the order of acceptance.
    fn acked_at(&self, author: Author, digest: &Digest) -> Option<(usize, bool)>
        ensures acked { option_map (λ found. found.1) result ≡ (if has_own self.now digest.now then Some (holds self.now digest.now author.0) else None) }
        ensures place { IfSome result (λ found. slice_get self.now.held found.0 ≡ held_at self.now digest.now) }
    {
        let (place, held) = self.find(digest)?;
        if held.batch.author() != self.own {
            return None;
        }
        let acked = author == self.own || held.acknowledged.contains(author);
        Some((place, acked))
    }

    // Counts one more member as a holder of the own batch with this digest. The batch stands at this place in the order of acceptance.
    fn count(&mut self, author: Author, digest: &Digest, place: usize) -> Result<(), StoreRefusal>
        requires member { author.0 < length self.old.charter.keys }
        requires ours { IsTrue (has_own self.old digest.now) }
        requires other { holds self.old digest.now author.0 ≡ false }
        requires place { slice_get self.old.held place ≡ held_at self.old digest.now }
        ensures ok { OnOk result (self.new ≡ with_ack self.old digest.now author.0) }
        ensures err { OnErr result (self.new ≡ self.old) }
        ensures memory { IfErr result (λ error. error ≡ StoreRefusal.Memory) }
    {
        let Some(held) = self.table.at(place) else {
            return Ok(());
        };
        let worker = held.batch.worker();
        let mut acknowledged = held.acknowledged;
        acknowledged.insert(author);
        if becomes_nameable(self.committee, self.own, held, &acknowledged) {
            self.nameable.insert(*digest, worker)?;
        }
        self.table.set_members(place, acknowledged);
        Ok(())
    }

    /// Whether the own batch with this digest is available: the members who hold it weigh a quorum.
    pub fn available(&self, digest: &Digest) -> bool
        ensures { result ≡ is_available self.now digest.now }
    {
        match self.at(digest) {
            Some(held) => {
                held.batch.author() == self.own
                    && is_quorum(self.committee, self.own, &held.acknowledged)
            }
            None => false,
        }
    }

    /// Marks the own batches that an own header names, so that no later header names them again. The call allocates no memory.
    pub fn name(&mut self, batches: &[BatchReference])
        ensures { self.new ≡ with_names self.old batches.now }
    {
        for reference in batches {
            self.name_one(reference);
        }
    }

    // Marks the batch of this reference as named, if it is held and is an own one.
    fn name_one(&mut self, reference: &BatchReference)
        ensures { self.new ≡ with_names self.old (reference.now ∷ []) }
    {
        let (place, held) = match self.find(&reference.digest) {
            Some(found) => found,
            None => return,
        };
        if held.batch.author() != self.own {
            return;
        }
        self.nameable.remove(&reference.digest);
        self.table.set_mark(place);
    }

    /// Whether an own header has named the batch with this digest.
    pub fn named(&self, digest: &Digest) -> bool
        ensures { result ≡ was_named self.now digest.now }
    {
        match self.at(digest) {
            Some(held) => held.named,
            None => false,
        }
    }

    /// The references to the batches that a header may name, sorted by digest: the first `MAX_BATCHES` of them. On `AllocError` an
    /// allocation failed.
    pub fn least_nameable(&self, alloc: Global) -> Result<Vec<BatchReference>, AllocError>
        ensures { IfOk result (λ batches. batches.items ≡ take MAX_BATCHES (nameable self.now)) }
    {
        first_references(alloc, &self.nameable)
    }

    /// The committee of the member whose store this is.
    pub fn committee(&self) -> &Committee
        ensures { result.now ≡ self.now.charter }
    {
        self.committee
    }

    /// The batch at this place in the order of acceptance, counted from 0; None where there are fewer.
    pub fn batch_at(&self, place: usize) -> Option<&Batch>
        ensures { option_copied result ≡ option_map (λ (held : Held). held.batch) (slice_get self.now.held place) }
    {
        match self.table.at(place) {
            Some(held) => Some(&held.batch),
            None => None,
        }
    }

    /// The entry of the batch at this place in the order of acceptance, counted from 0; None where there are fewer.
    pub fn nth(&self, place: usize) -> Option<&Held>
        ensures { option_copied result ≡ slice_get self.now.held place }
    {
        self.table.at(place)
    }

    /// The entry of the batch at this place in the order of acceptance, counted from 0, with the batch's digest, which isn't computed
    /// again.
    pub fn entry(&self, place: usize) -> Option<(&Digest, &Held)>
        ensures held { option_map (λ entry. entry.1.now) result ≡ slice_get self.now.held place }
        ensures digested { IfSome result (λ entry. entry.0.now ≡ digest_of entry.1.now.batch) }
    {
        self.table.entry(place)
    }

    /// How many batches are held.
    pub fn len(&self) -> usize
        ensures { result ≡ length self.now.held }
    {
        self.table.len()
    }

    /// What holds of every store: its committee is sound and has the own member, no digest occurs twice, there are no more batches than may
    /// be held, and only own batches have acknowledgements or are marked as named. The call does nothing.
    pub fn limits_hold(&self)
        ensures { IsStock self.now }
    {
        let _ = &self.table;
    }
}
