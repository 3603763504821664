//! The book: what a node keeps under its lock.

ghost use Rattle.std.specs.Prelude.{◌≡◌, ◌+◌, ◌≤◌, ◌<◌, ◌^◌, ◌++◌, ◌∷◌, [], None, length, IfErr, OnOk, OnErr};
ghost use Rattle.std.specs.VecDeque.{deque_len, deque_capacity};
ghost use Rattle.journal.specs.declared.layout.TheConstants.{LENGTH_BYTES, MAX_GROUP_BYTES};
ghost use Rattle.spec_records.specs.Records.{record_of};
ghost use Rattle.book.specs.Book.{settled_to};
ghost use Rattle.book.specs.declared.book.TheConstants.{MAX_ACCEPTED};

use crate::pending::Pending;
use crate::queue::{Queued, dequeue, enqueue, has_settled_head, move_settled};
use crate::reached::{Reached, leave_to, note_order};
use crate::record::record_len;
use committee::Committee;
use header::Checked;
use journal::{Group, Snapshot, Synced};
use sigface::Sign;
use std::alloc::{AllocError, Global};
use std::collections::VecDeque;
use std::marker::Model;
use validator::{Refusal, Step, Validator};
use wire::{Digest, Output};

/// The greatest number of records that a node accepts in one run.
pub const MAX_ACCEPTED: u64 = 1 << 48;

/// The greatest number of records of a run is 2^48. The call does nothing: its contract is this law.
pub fn limits_in_numbers()
    ensures accepted { MAX_ACCEPTED ≡ 2 ^ 48 }
{}

/// The answer to an event that isn't refused.
#[derive(Clone, Copy, Debug, PartialEq, Eq)]
pub struct Receipt {
    /// How many records were accepted in this run, this event's included if it is new. The event's outputs may leave once that many are
    /// settled.
    pub ticket: u64,
    /// Whether the event is new; otherwise it is known.
    pub new: bool,
}

/// A node without its disk: the validator, the records that aren't taken for the disk yet, and the outputs that wait. It counts how many
/// records it accepted since the run began, how many of these were taken, and how many are settled. The records that weren't taken are
/// pending.
pub struct Book<'a, S: Sign> {
    alloc: Global,
    validator: Validator<'a, S>,
    pending: Pending,
    queue: VecDeque<Queued>,
    reached: VecDeque<Reached>,
    accepted: u64,
    taken: u64,
    settled: u64,
    // The length of the order after the settled events.
    ordered: u64,
    // How many of the accepted records the rewriting in flight settles; None where none is in flight.
    rewriting: Option<u64>,
    down: bool,
}

impl<'a, S: Sign> Drop for Book<'a, S> {
    fn drop(self) {
        let Book {
            alloc: _,
            validator: _,
            pending: _,
            queue: _,
            reached: _,
            accepted: _,
            taken: _,
            settled: _,
            ordered: _,
            rewriting: _,
            down: _,
        } = self;
    }
}

impl<'a, S: Sign> Model for Book<'a, S> {
    ghost use Rattle.std.specs.Prelude.{◌≡◌, ◌+◌, ◌≤◌, length};
    ghost use Rattle.std.specs.Coded.{codes};
    ghost use Rattle.votebook.specs.contracts.book.VoteBook as votes;
    ghost use Rattle.book.specs.Book.{BookView};
    ghost use Rattle.book.specs.declared.book.TheConstants.{MAX_ACCEPTED};

    ghost Value = { BookView S };

    ghost coded = { Prim.hlevel (codes, S.code, votes.the_row.coded) };

    ghost use Rattle.book.specs.Showing.{shown_of};

    ghost view = { shown_of };

    ghost invariant = { λ b. (b.accepted ≤ MAX_ACCEPTED) × (b.taken + length b.pending ≡ b.accepted) };
}

impl<'a, S: Sign> Book<'a, S> {
    ghost use Rattle.std.specs.Prelude.{◌≢◌, ◌⊎◌, ◌∷◌, [], ◌++◌, ◌+◌, ◌-◌, ◌≤◌, true, false, length, map, take, drop, All, IsTrue, IsNone, Some, None, is_some, Ok, IfOk, IfErr, IfSome, OnErr, IsErrOf, ◌↔◌, if◌then◌else◌, List, ℕ};
    ghost use Rattle.checkpoint.specs.Describes.{Describes};
    ghost use Rattle.header.specs.Checks.{fault_of, accepts_all};
    ghost use Rattle.spec_machine.specs.Machine.{round_in};
    ghost use Rattle.spec_model.specs.States.{State};
    ghost use Rattle.validator.specs.Setting.{node_of};
    ghost use Rattle.validator.specs.Standing.{AreAtSound};
    ghost use Rattle.book.specs.Pending.{IsLongestBeginning};
    ghost use Rattle.book.specs.Checkpoints.{CanBeWritten};
    ghost use Rattle.book.specs.Book.{Run, Stands, StandsAsBefore, run_on, state_in, settled_in, with_taken, with_all_taken, TakesNew, TakesKnown, MayRefuse, IsFull, HasPlace, releasable, releasable_within, IsCheckpointOfAll, Settles, SettlesNext, settled_by, settled_to, GoesOutSettled};

    /// A book over this validator, for a run that has accepted nothing.
    pub fn new(alloc: Global, validator: Validator<'a, S>) -> Book<'a, S>
        ensures stands { let node = node_of S.scheme validator.entry.setting in (base : State) → AreAtSound node validator.entry.tables base
            → Stands node (run_on base) result }
        ensures validator { result.validator ≡ validator.entry }
        ensures pending { result.pending ≡ [] }
        ensures queue { result.queue ≡ [] }
        ensures free { result.rewriting ≡ None }
        ensures up { result.down ≡ false }
    {
        validator.limits_hold();
        let ordered = validator.order().len() as u64;
        Book {
            alloc,
            validator,
            pending: Pending::new(alloc),
            queue: VecDeque::new(alloc),
            reached: VecDeque::new(alloc),
            accepted: 0,
            taken: 0,
            settled: 0,
            ordered,
            rewriting: None,
            down: false,
        }
    }

    /// The book's validator, which is in the state after all accepted events.
    pub fn validator(&self) -> &Validator<'a, S>
        ensures { result.now ≡ self.now.validator }
    {
        &self.validator
    }

    /// The committee of the book's validator.
    pub fn committee(&self) -> &Committee
        ensures { result.now ≡ self.now.validator.setting.charter }
    {
        self.validator.committee()
    }

    /// Accepts an event, which passed the checks under the book's committee. A new event gets a record, which is pending from now on. The
    /// outputs of a new or known event may leave once all records accepted so far are settled. After an error the book is as before.
    pub fn accept(&mut self, event: Checked) -> Result<Receipt, Refusal>
        requires passed { fault_of self.old.validator.setting.charter accepts_all event ≡ None }
        // The error is Down exactly where the book is down.
        ensures down { IsErrOf result Refusal.Down ↔ IsTrue self.old.down }
        ensures new { IfOk result (λ receipt. receipt.new ≡ true → TakesNew (node_of S.scheme self.old.validator.setting) self.old self.new event) }
        ensures known { IfOk result (λ receipt. receipt.new ≡ false → TakesKnown (node_of S.scheme self.old.validator.setting) self.old self.new event) }
        ensures ticket { IfOk result (λ receipt. receipt.ticket ≡ self.new.accepted) }
        ensures limit { IfOk result (λ receipt. receipt.ticket ≤ MAX_ACCEPTED) }
        ensures refused { let node = node_of S.scheme self.old.validator.setting in IfErr result (λ refusal. (run : Run) → Stands node run self.old
            → MayRefuse node run self.old event refusal) }
        ensures err { OnErr result (self.new ≡ self.old) }
        ensures setting { self.new.validator.setting ≡ self.old.validator.setting }
    {
        event.message().limits_hold();
        if self.down {
            return Err(Refusal::Down);
        }
        if self.has_no_place(&event) {
            return Err(Refusal::StoreFull);
        }
        let len = record_len(&event);
        // What can run out of memory comes first, so that an error changes nothing.
        make_room(
            &mut self.pending,
            &mut self.queue,
            &mut self.reached,
            &event,
            len,
        )?;
        let ordered = self.validator.order().len();
        match self.validator.step(event) {
            Ok(Step::New(outputs)) => {
                self.accepted += 1;
                note_order(
                    &mut self.reached,
                    self.accepted,
                    ordered,
                    self.validator.order().len(),
                );
                enqueue(&mut self.queue, self.accepted, outputs);
                Ok(Receipt {
                    ticket: self.accepted,
                    new: true,
                })
            }
            Ok(Step::Known(outputs)) => {
                self.pending.take_back(len);
                enqueue(&mut self.queue, self.accepted, outputs);
                Ok(Receipt {
                    ticket: self.accepted,
                    new: false,
                })
            }
            Err(refusal) => {
                self.pending.take_back(len);
                Err(refusal)
            }
        }
    }

    // Whether the run has accepted as many records as it may, and this event would be new.
    fn has_no_place(&self, event: &Checked) -> bool
        requires passed { fault_of self.now.validator.setting.charter accepts_all event.now ≡ None }
        ensures full { let node = node_of S.scheme self.now.validator.setting in result ≡ true → (run : Run) → Stands node run self.now → IsFull node run self.now event.now }
        ensures room { result ≡ false → HasPlace (node_of S.scheme self.now.validator.setting) self.now event.now }
    {
        self.validator.limits_hold();
        self.accepted == MAX_ACCEPTED && self.validator.is_new(event)
    }

    /// Takes the longest prefix of the pending records that fits a group; None where nothing is pending. On `AllocError` an allocation
    /// failed, and nothing was taken.
    pub fn take(&mut self) -> Result<Option<Group>, AllocError>
        ensures none { IfOk result (λ group. IsNone group ↔ (self.old.pending ≡ [])) }
        ensures group { IfOk result (λ group. IfSome group (λ group. IsLongestBeginning self.old.pending group self.new.pending)) }
        ensures taken { IfOk result (λ group. IfSome group (λ group. self.new ≡ record self.old { pending = self.new.pending; taken = self.old.taken + length group })) }
        ensures stands { let node = node_of S.scheme self.old.validator.setting in IfOk result (λ group. IfSome group (λ group. (run : Run) → Stands node run self.old
            → Stands node (with_taken run (length group)) self.new)) }
        // The group has the records of exactly those events that the call adds to the taken ones.
        ensures records { IfOk result (λ group. IfSome group (λ group. (run : Run) → Stands (node_of S.scheme self.old.validator.setting) run self.old
            → group ≡ map record_of (drop (length run.taken) (with_taken run (length group)).taken))) }
        ensures nothing { IfOk result (λ group. IsNone group → self.new ≡ self.old) }
        ensures err { OnErr result (self.new ≡ self.old) }
    {
        let Some(group) = self.pending.take()? else {
            return Ok(None);
        };
        self.taken += group.records_count();
        Ok(Some(group))
    }

    /// Whether a record is pending.
    pub fn has_pending(&self) -> bool
        ensures { IsTrue result ↔ (self.now.pending ≢ []) }
    {
        !self.pending.is_empty()
    }

    /// Takes all accepted records at once, for a checkpoint of the state after them. The journal is to be rewritten to this checkpoint. The
    /// rewriting is in flight until `settle` says that it is on the disk; groups may be taken meanwhile. On `AllocError` an allocation
    /// failed, and nothing was taken.
    pub fn take_all(&mut self) -> Result<Snapshot, AllocError>
        // No group is in flight, and no other rewriting.
        requires free { self.old.taken ≡ self.old.settled }
        requires none { self.old.rewriting ≡ None }
        ensures snapshot { let node = node_of S.scheme self.old.validator.setting in IfOk result (λ snapshot. Describes node self.old.validator.tables snapshot) }
        // For each run at which the book stands, these records are a checkpoint of the state after all accepted events.
        ensures checkpoint { let node = node_of S.scheme self.old.validator.setting in IfOk result (λ snapshot. IsCheckpointOfAll node self.old snapshot) }
        ensures writable { IfOk result CanBeWritten }
        ensures taken { OnOk result (self.new ≡ record self.old { pending = []; taken = self.old.accepted; rewriting = Some self.old.accepted }) }
        ensures stands { let node = node_of S.scheme self.old.validator.setting in OnOk result ((run : Run) → Stands node run self.old
            → Stands node (with_all_taken run) self.new) }
        ensures err { OnErr result (self.new ≡ self.old) }
    {
        let snapshot = self.validator.snapshot()?;
        snapshot.limits_hold();
        self.pending = Pending::new(self.alloc);
        self.taken = self.accepted;
        self.rewriting = Some(self.accepted);
        Ok(snapshot)
    }

    /// Notes that records are durable. If a rewriting is in flight, they are those of its checkpoint, and what was taken when it began is
    /// settled. Otherwise they are the first records that are taken and not settled, and are settled now.
    pub fn settle(&mut self, synced: Synced)
        requires { SettlesNext (node_of S.scheme self.old.validator.setting) self.old synced }
        ensures stands { let node = node_of S.scheme self.old.validator.setting in (run : Run) → Stands node run self.old
            → Settles node run self.old.rewriting synced
            → Stands node (settled_by run self.old.rewriting (length synced)) self.new }
        ensures settled { self.new.settled ≡ settled_to self.old.rewriting (self.old.settled + length synced) }
        ensures rest { self.new ≡ record self.old { settled = self.new.settled; ordered = self.new.ordered; reached = self.new.reached; rewriting = None } }
    {
        self.settled = settled_with(self.rewriting, self.settled, synced.records());
        self.rewriting = None;
        self.ordered = leave_to(&mut self.reached, self.settled, self.ordered);
    }

    /// Takes out the first output that waits, if its ticket is settled and the book isn't down.
    pub fn release(&mut self) -> Option<Output>
        ensures output { result ≡ releasable self.old }
        ensures queue { self.new ≡ (if is_some result then record self.old { queue = drop 1 self.old.queue } else self.old) }
        ensures stands { let node = node_of S.scheme self.old.validator.setting in StandsAsBefore node self.old self.new }
        // This output may be given out after the settled events.
        ensures goes_out { let node = node_of S.scheme self.old.validator.setting in IfSome result (λ output. (run : Run) → Stands node run self.old
            → GoesOutSettled node run output) }
    {
        spec_laws::given_grows();
        if self.down {
            return None;
        }
        if !has_settled_head(&self.queue, self.settled) {
            return None;
        }
        dequeue(&mut self.queue)
    }

    /// Moves the outputs that may leave to the end of `outputs`, oldest first, as many as that has room for. The call allocates no memory.
    pub fn release_into(&mut self, outputs: &mut VecDeque<Output>)
        // A deque can't be longer than its capacity.
        ensures outputs { let room = deque_capacity outputs.old - deque_len outputs.old in
            outputs.new.items ≡ outputs.old.items ++ releasable_within room self.old }
        ensures queue { let room = deque_capacity outputs.old - deque_len outputs.old in
            self.new ≡ record self.old { queue = drop (length (releasable_within room self.old)) self.old.queue } }
        ensures capacity { deque_capacity outputs.new ≡ deque_capacity outputs.old }
        // If the deque isn't full afterwards, no output is left in the book that may leave.
        ensures all { deque_len outputs.new < deque_capacity outputs.new → releasable self.new ≡ None }
        ensures stands { let node = node_of S.scheme self.old.validator.setting in StandsAsBefore node self.old self.new }
        // Each moved output may be given out after the settled events.
        ensures goes_out { let node = node_of S.scheme self.old.validator.setting in let room = deque_capacity outputs.old - deque_len outputs.old in
            (run : Run) → Stands node run self.old → All (GoesOutSettled node run) (releasable_within room self.old) }
    {
        spec_laws::given_grows();
        if self.down {
            return;
        }
        move_settled(&mut self.queue, self.settled, outputs);
    }

    /// Takes the book down, because a device call failed or the journal is full. From now on the book accepts no event and releases no
    /// output.
    pub fn fail(&mut self)
        ensures down { self.new ≡ record self.old { down = true } }
        ensures stands { let node = node_of S.scheme self.old.validator.setting in StandsAsBefore node self.old self.new }
    {
        self.down = true;
    }

    /// Whether the book is down: `fail` was called.
    pub fn is_down(&self) -> bool
        ensures { result ≡ self.now.down }
    {
        self.down
    }

    /// How many records were accepted in this run.
    pub fn accepted(&self) -> u64
        ensures value { result ≡ self.now.accepted }
        ensures limit { result ≤ MAX_ACCEPTED }
    {
        self.accepted
    }

    /// How many of the accepted records were taken.
    pub fn taken(&self) -> u64
        ensures { result ≡ self.now.taken }
    {
        self.taken
    }

    /// How many of the accepted records are settled.
    pub fn settled(&self) -> u64
        ensures { result ≡ self.now.settled }
    {
        self.settled
    }

    /// Whether a rewriting is in flight: `take_all` was called, and the records that it took aren't settled yet.
    pub fn is_rewriting(&self) -> bool
        ensures { result ≡ is_some self.now.rewriting }
    {
        self.rewriting.is_some()
    }

    /// The validator's round after all accepted events.
    pub fn round_now(&self) -> u64
        ensures { let node = node_of S.scheme self.now.validator.setting in (run : Run) → Stands node run self.now
            → result ≡ round_in node (state_in node run) }
    {
        self.validator.round()
    }

    /// The order after the settled events, from this place on: the digests of the ordered certificates. The list is empty where the place
    /// is past the end.
    ///
    /// # Errors
    /// `Down` where the book is down, `Memory` where an allocation failed.
    pub fn order(&self, from: u64) -> Result<Vec<Digest>, Refusal>
        ensures order { let node = node_of S.scheme self.now.validator.setting in IfOk result (λ digests. (run : Run) → Stands node run self.now
            → digests.items ≡ drop from (settled_in node run).order) }
        ensures down { IsErrOf result Refusal.Down ↔ IsTrue self.now.down }
        ensures errors { IfErr result (λ refusal. (refusal ≡ Refusal.Down) ⊎ (refusal ≡ Refusal.Memory)) }
    {
        if self.down {
            return Err(Refusal::Down);
        }
        let order = self.validator.order();
        let end = order.len().min(self.ordered as usize);
        let start = end.min(from as usize);
        match order[start..end].to_vec(self.alloc) {
            Ok(digests) => Ok(digests),
            Err(_) => Err(Refusal::Memory),
        }
    }
}

// How many records are settled once a rewriting, or otherwise a group of this many records, is settled.
fn settled_with(rewriting: Option<u64>, settled: u64, records: u64) -> u64
    requires { rewriting ≡ None → settled + records < 2 ^ 64 }
    ensures { result ≡ settled_to rewriting (settled + records) }
{
    match rewriting {
        Some(all) => all,
        None => settled + records,
    }
}

// Adds the record of an event to the pending ones, and makes room for the event's outputs and for a new length of the order.
fn make_room(
    pending: &mut Pending,
    queue: &mut VecDeque<Queued>,
    reached: &mut VecDeque<Reached>,
    event: &Checked,
    len: usize,
) -> Result<(), Refusal>
    requires short { LENGTH_BYTES + len ≤ MAX_GROUP_BYTES }
    requires len { len ≡ length (record_of event.now) }
    ensures ok { OnOk result (pending.new ≡ pending.old ++ record_of event.now ∷ []) }
    ensures err { OnErr result (pending.new ≡ pending.old) }
    ensures errors { IfErr result (λ refusal. refusal ≡ Refusal.Memory) }
    ensures queue { queue.new.items ≡ queue.old.items }
    ensures reached { reached.new.items ≡ reached.old.items }
    ensures queue_room { OnOk result (deque_len queue.new < deque_capacity queue.new) }
    ensures reached_room { OnOk result (deque_len reached.new < deque_capacity reached.new) }
{
    match put_with_room(pending, queue, reached, event, len) {
        Ok(()) => Ok(()),
        Err(_) => Err(Refusal::Memory),
    }
}

fn put_with_room(
    pending: &mut Pending,
    queue: &mut VecDeque<Queued>,
    reached: &mut VecDeque<Reached>,
    event: &Checked,
    len: usize,
) -> Result<(), AllocError>
    requires short { LENGTH_BYTES + len ≤ MAX_GROUP_BYTES }
    requires len { len ≡ length (record_of event.now) }
    ensures ok { OnOk result (pending.new ≡ pending.old ++ record_of event.now ∷ []) }
    ensures err { OnErr result (pending.new ≡ pending.old) }
    ensures queue { queue.new.items ≡ queue.old.items }
    ensures reached { reached.new.items ≡ reached.old.items }
    ensures queue_room { OnOk result (deque_len queue.new < deque_capacity queue.new) }
    ensures reached_room { OnOk result (deque_len reached.new < deque_capacity reached.new) }
{
    queue.reserve(1)?;
    reached.reserve(1)?;
    pending.put(event, len)
}
