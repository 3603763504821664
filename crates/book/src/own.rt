//! The book of a node that has one owner, who takes a group, appends it to the journal and settles it.

mod error;

use crate::book::{Book, Receipt};
use crate::rewrite::rewrite_to_all;
use committee::Committee;
use diskmodel::Disk;
pub use error::FlushError;
use header::Checked;
use journal::{Group, Journal, JournalError, Synced};
use sigface::Sign;
use std::alloc::{AllocError, Global};
use std::collections::VecDeque;
use std::marker::Model;
use validator::{Refusal, Validator};
use wire::{Digest, Output};

/// A book that always stands at some run, so that its owner need not say at which. Contracts see it as a book.
pub struct OwnBook<'a, S: Sign> {
    book: Book<'a, S>,
}

impl<'a, S: Sign> Drop for OwnBook<'a, S> {
    fn drop(self) {
        let OwnBook { book: _ } = self;
    }
}

impl<'a, S: Sign> Model for OwnBook<'a, S> {
    ghost use Rattle.std.specs.Coded.{codes};
    ghost use Rattle.votebook.specs.contracts.book.VoteBook as votes;
    ghost use Rattle.book.specs.Book.{BookView};
    ghost use Rattle.validator.specs.Setting.{node_of};
    ghost use Rattle.book.specs.InFlight.{StandsSomewhere, RewritesOnlyDown};

    ghost Value = { BookView S };

    ghost coded = { Prim.hlevel (codes, S.code, votes.the_row.coded) };

    ghost view = { λ own. own.book };

    ghost invariant = { λ own. StandsSomewhere (node_of S.scheme own.book.validator.setting) own.book × RewritesOnlyDown own.book };
}

impl<'a, S: Sign> OwnBook<'a, S> {
    ghost use Rattle.std.specs.Prelude.{◌≡◌, ◌≢◌, ◌⊎◌, ◌↔◌, ◌+◌, ◌-◌, ◌<◌, ◌≤◌, ◌==◌, ◌&&◌, not, drop, false, is_some, if◌then◌else◌, All, IsNone, ◌++◌, ◌∷◌, [], List, ℕ, length, true, Some, None, Ok, IfOk, IfErr, IfSome, IsSome, OnOk, OnErr, IsErrOf, IsTrue};
    ghost use Rattle.std.specs.VecDeque.{deque_len, deque_capacity};
    ghost use Rattle.diskmodel.specs.Disk.{AtEachMoment, ReportsFault};
    ghost use Rattle.header.specs.Checks.{fault_of, accepts_all};
    ghost use Rattle.journal.specs.Areas.{reports};
    ghost use Rattle.journal.specs.Journal.{disk_of, spare_of, IsAlive};
    ghost use Rattle.journal.specs.Pairs.{HaveKeptPlaces, generation_in, spare_disk, rewritten_disk, untouched_disk};
    ghost use Rattle.journal.specs.declared.layout.TheConstants.{CLOSED};
    ghost use Rattle.validator.specs.Setting.{node_of};
    ghost use Rattle.validator.specs.Standing.{AreAtSound};
    ghost use Rattle.book.specs.Book.{Run, Stands, StandsAsBefore, run_on, Settles, SettlesNext, settled_by, settled_to, TakesNew, TakesKnown, MayRefuse, GoesOutSettled, releasable, releasable_within, state_in, settled_in};
    ghost use Rattle.book.specs.declared.book.TheConstants.{MAX_ACCEPTED};
    ghost use Rattle.spec_machine.specs.Machine.{round_in};
    ghost use Rattle.spec_model.specs.States.{State};
    ghost use Rattle.book.specs.Checkpoints.{Checkpoints, FindsNoRoomToRewrite, FailsToRewrite, StandsAsOrForAll};
    ghost use Rattle.book.specs.InFlight.{AreInFlight, Flushes, FindsNoRoom, FailsWithRoom, IsWithOrWithout};
    ghost use Rattle.book.specs.Pending.{IsLongestBeginning};

    /// A book over this validator, for a run that has accepted nothing.
    pub fn new(alloc: Global, validator: Validator<'a, S>) -> OwnBook<'a, S>
        ensures stands { let node = node_of S.scheme validator.entry.setting in (base : State) → AreAtSound node validator.entry.tables base
            → Stands node (run_on base) result }
        ensures validator { result.validator ≡ validator.entry }
        ensures pending { result.pending ≡ [] }
        ensures queue { result.queue ≡ [] }
        ensures up { result.down ≡ false }
    {
        validator.limits_hold();
        OwnBook {
            book: Book::new(alloc, validator),
        }
    }

    /// Accepts an event, which passed the checks under the book's committee, as `Book::accept` does.
    pub fn accept(&mut self, event: Checked) -> Result<Receipt, Refusal>
        requires passed { fault_of self.old.validator.setting.charter accepts_all event ≡ None }
        ensures down { IsErrOf result Refusal.Down ↔ IsTrue self.old.down }
        ensures new { IfOk result (λ receipt. receipt.new ≡ true → TakesNew (node_of S.scheme self.old.validator.setting) self.old self.new event) }
        ensures known { IfOk result (λ receipt. receipt.new ≡ false → TakesKnown (node_of S.scheme self.old.validator.setting) self.old self.new event) }
        ensures ticket { IfOk result (λ receipt. receipt.ticket ≡ self.new.accepted) }
        ensures limit { IfOk result (λ receipt. receipt.ticket ≤ MAX_ACCEPTED) }
        ensures refused { let node = node_of S.scheme self.old.validator.setting in IfErr result (λ refusal. (run : Run) → Stands node run self.old
            → MayRefuse node run self.old event refusal) }
        ensures err { OnErr result (self.new ≡ self.old) }
        ensures way { let node = node_of S.scheme self.old.validator.setting in (groups : List (List (List ℕ))) → AreInFlight node self.old groups
            → AreInFlight node self.new groups }
        ensures setting { self.new.validator.setting ≡ self.old.validator.setting }
    {
        self.book.accept(event)
    }

    /// Takes the longest prefix of the pending records that fits a group; None where nothing is pending. The group is then the last one in
    /// flight. Groups have to be appended in the order in which they were taken. On `AllocError` an allocation failed, and nothing was
    /// taken.
    pub fn take(&mut self) -> Result<Option<Group>, AllocError>
        ensures none { IfOk result (λ taken. IsNone taken ↔ (self.old.pending ≡ [])) }
        ensures group { IfOk result (λ taken. IfSome taken (λ group. IsLongestBeginning self.old.pending group self.new.pending)) }
        ensures taken { IfOk result (λ taken. IfSome taken (λ group. self.new ≡ record self.old { pending = self.new.pending; taken = self.old.taken + length group })) }
        ensures nothing { IfOk result (λ taken. IsNone taken → self.new ≡ self.old) }
        ensures err { OnErr result (self.new ≡ self.old) }
        ensures way { let node = node_of S.scheme self.old.validator.setting in IfOk result (λ taken. IfSome taken (λ group. (groups : List (List (List ℕ))) → AreInFlight node self.old groups
            → AreInFlight node self.new (groups ++ group ∷ []))) }
        ensures setting { self.new.validator.setting ≡ self.old.validator.setting }
    {
        self.book.take()
    }

    /// Settles the first group in flight. If the book went down during a rewriting, it settles that rewriting instead.
    pub fn settle(&mut self, synced: Synced)
        requires { SettlesNext (node_of S.scheme self.old.validator.setting) self.old synced }
        ensures stands { let node = node_of S.scheme self.old.validator.setting in (run : Run) → Stands node run self.old
            → Settles node run self.old.rewriting synced
            → Stands node (settled_by run self.old.rewriting (length synced)) self.new }
        ensures settled { self.new.settled ≡ settled_to self.old.rewriting (self.old.settled + length synced) }
        ensures rest { self.new ≡ record self.old { settled = self.new.settled; ordered = self.new.ordered; reached = self.new.reached; rewriting = None } }
        ensures way { let node = node_of S.scheme self.old.validator.setting in (groups : List (List (List ℕ))) → AreInFlight node self.old (synced ∷ groups)
            → AreInFlight node self.new groups }
        ensures setting { self.new.validator.setting ≡ self.old.validator.setting }
    {
        self.book.settle(synced);
    }

    /// Whether no group is in flight, and no rewriting is in flight.
    pub fn is_settled(&self) -> bool
        ensures value { result ≡ ((self.now.taken == self.now.settled) && not (is_some self.now.rewriting)) }
        ensures way { IsTrue result → AreInFlight (node_of S.scheme self.now.validator.setting) self.now [] }
    {
        self.book.taken() == self.book.settled() && !self.book.is_rewriting()
    }

    /// Takes out the next output that may leave, if there is one.
    pub fn release(&mut self) -> Option<Output>
        ensures output { result ≡ releasable self.old }
        ensures queue { self.new ≡ (if is_some result then record self.old { queue = drop 1 self.old.queue } else self.old) }
        ensures stands { let node = node_of S.scheme self.old.validator.setting in StandsAsBefore node self.old self.new }
        ensures goes_out { let node = node_of S.scheme self.old.validator.setting in IfSome result (λ output. (run : Run) → Stands node run self.old
            → GoesOutSettled node run output) }
        ensures way { let node = node_of S.scheme self.old.validator.setting in (groups : List (List (List ℕ))) → AreInFlight node self.old groups
            → AreInFlight node self.new groups }
        ensures setting { self.new.validator.setting ≡ self.old.validator.setting }
    {
        self.book.release()
    }

    /// Moves the outputs that may leave to the end of `outputs`, as `Book::release_into` does.
    pub fn release_into(&mut self, outputs: &mut VecDeque<Output>)
        ensures outputs { let room = deque_capacity outputs.old - deque_len outputs.old in
            outputs.new.items ≡ outputs.old.items ++ releasable_within room self.old }
        ensures queue { let room = deque_capacity outputs.old - deque_len outputs.old in
            self.new ≡ record self.old { queue = drop (length (releasable_within room self.old)) self.old.queue } }
        ensures capacity { deque_capacity outputs.new ≡ deque_capacity outputs.old }
        ensures all { deque_len outputs.new < deque_capacity outputs.new → releasable self.new ≡ None }
        ensures stands { let node = node_of S.scheme self.old.validator.setting in StandsAsBefore node self.old self.new }
        ensures goes_out { let node = node_of S.scheme self.old.validator.setting in let room = deque_capacity outputs.old - deque_len outputs.old in
            (run : Run) → Stands node run self.old → All (GoesOutSettled node run) (releasable_within room self.old) }
        ensures way { let node = node_of S.scheme self.old.validator.setting in (groups : List (List (List ℕ))) → AreInFlight node self.old groups
            → AreInFlight node self.new groups }
        ensures setting { self.new.validator.setting ≡ self.old.validator.setting }
    {
        self.book.release_into(outputs);
    }

    /// Takes the book down. From now on it accepts no event and releases no output.
    pub fn fail(&mut self)
        ensures down { self.new ≡ record self.old { down = true } }
        ensures way { let node = node_of S.scheme self.old.validator.setting in (groups : List (List (List ℕ))) → AreInFlight node self.old groups
            → AreInFlight node self.new groups }
        ensures setting { self.new.validator.setting ≡ self.old.validator.setting }
    {
        self.book.fail();
    }

    /// Makes one round of take, append and settle: takes a group, appends it to the journal and settles it. Gives the number of the group's
    /// records; 0 where nothing is pending.
    ///
    /// # Errors
    /// Any of `FlushError`, in the cases that are described there.
    pub fn flush<D: Disk>(&mut self, journal: &mut Journal<D>) -> Result<u64, FlushError>
        requires alive { IsAlive D.device journal.old }
        // On two disks, the journal has its configuration, so that a group of records can follow.
        requires begun { IsSome (spare_of journal.old) → D.device.content (disk_of journal.old) ≢ CLOSED ∷ [] }
        // The longest prefix of the pending records that fits a group is taken; it is then on the disk and settled.
        ensures idle { OnOk result (self.old.pending ≡ [] → (result ≡ Ok 0) × (self.new ≡ self.old) × (journal.new ≡ journal.old)) }
        ensures flushed { IfOk result (λ count. self.old.pending ≢ [] → Flushes (node_of S.scheme self.old.validator.setting) self.old self.new (D.device.content (disk_of journal.old)) (D.device.content (disk_of journal.new)) count) }
        ensures way { OnOk result (AreInFlight (node_of S.scheme self.old.validator.setting) self.new []) }
        // A book that is down, or that has a group in flight, is left as it was; so is any book where an allocation fails.
        ensures down { IsErrOf result FlushError.Down ↔ (IsTrue self.old.down ⊎ (self.old.taken ≢ self.old.settled)) }
        ensures unchanged { IfErr result (λ error. (error ≡ FlushError.Down) ⊎ (error ≡ FlushError.Memory) → (self.new ≡ self.old) × (journal.new ≡ journal.old)) }
        // Where the journal has no room for the group, or a device call fails, the group stays in flight and the book is down.
        ensures full { IsErrOf result FlushError.Full → FindsNoRoom (node_of S.scheme self.old.validator.setting) self.old self.new (D.device.content (disk_of journal.old)) }
        ensures full_same { IsErrOf result FlushError.Full → journal.new ≡ journal.old }
        ensures fails { IsErrOf result FlushError.Device → FailsWithRoom (node_of S.scheme self.old.validator.setting) self.old self.new (D.device.content (disk_of journal.old)) }
        // What a crash at any moment leaves of the disk decodes to the earlier records, with the whole group or without it.
        ensures any_moment { AtEachMoment D.device (disk_of journal.old) (disk_of journal.new) (IsWithOrWithout self.old.pending (D.device.content (disk_of journal.old))) }
        // The journal can be appended to afterwards, except where the error is Device.
        ensures alive { (IsErrOf result FlushError.Device) ⊎ IsAlive D.device journal.new }
        ensures dead { IsErrOf result FlushError.Device → ¬ IsAlive D.device journal.new }
        ensures spare { spare_of journal.new ≡ spare_of journal.old }
        // The error is Device exactly if a device call failed.
        ensures cause { ReportsFault FlushError.Device (D.device.faults (disk_of journal.old)) (D.device.faults (disk_of journal.new)) result }
        ensures setting { self.new.validator.setting ≡ self.old.validator.setting }
    {
        if self.is_down() {
            return Err(FlushError::Down);
        }
        // A group may be in flight that the owner took by `take`.
        if !self.is_settled() {
            return Err(FlushError::Down);
        }
        let Some(group) = self.take()? else {
            return Ok(0);
        };
        let count = group.records_count();
        match journal.append(group) {
            Ok(synced) => {
                self.settle(synced);
                Ok(count)
            }
            Err(JournalError::Full) => {
                self.fail();
                Err(FlushError::Full)
            }
            Err(_) => {
                self.fail();
                Err(FlushError::Device)
            }
        }
    }

    /// Takes all accepted records, rewrites the journal to a checkpoint of the state after them, and settles them. The checkpoint is
    /// written to the journal's spare disk, which is the one that is read from then on. Gives the journal's new generation.
    ///
    /// # Errors
    /// Any of `FlushError`, in the cases that are described there.
    pub fn checkpoint<D: Disk>(&mut self, journal: &mut Journal<D>) -> Result<u64, FlushError>
        requires alive { IsAlive D.device journal.old }
        requires pair { IsSome (spare_of journal.old) }
        // The area that is read has its first group, so that its generation is known.
        requires begun { reports (D.device.content (disk_of journal.old)) ≡ Some (Some (generation_in journal.old)) }
        // All accepted events are settled, and the journal is a checkpoint of the state after them.
        ensures settled { IfOk result (λ generation. Checkpoints (node_of S.scheme self.old.validator.setting) D.device self.old self.new journal.old journal.new) }
        ensures answer { IfOk result (λ generation. generation ≡ generation_in journal.new) }
        ensures way { OnOk result (AreInFlight (node_of S.scheme self.old.validator.setting) self.new []) }
        // A book that is down, or that has a group in flight, is left as it was; so is any book where an allocation fails.
        ensures down { IsErrOf result FlushError.Down ↔ (IsTrue self.old.down ⊎ (self.old.taken ≢ self.old.settled)) }
        ensures unchanged { IfErr result (λ error. (error ≡ FlushError.Down) ⊎ (error ≡ FlushError.Memory) → (self.new ≡ self.old) × (journal.new ≡ journal.old)) }
        // Where the journal has no room for the checkpoint, or a device call fails, the rewriting stays in flight and the book is down.
        ensures full { IsErrOf result FlushError.Full → FindsNoRoomToRewrite (node_of S.scheme self.old.validator.setting) self.old self.new journal.old }
        ensures full_same { IsErrOf result FlushError.Full → journal.new ≡ journal.old }
        ensures fails { IsErrOf result FlushError.Device → FailsToRewrite (node_of S.scheme self.old.validator.setting) self.old self.new journal.old }
        // What a crash at any moment leaves of the two disks decodes to the earlier records, or to the checkpoint.
        ensures any_moment { AtEachMoment D.device (spare_disk journal.old) (rewritten_disk result journal.new) (StandsAsOrForAll (node_of S.scheme self.old.validator.setting) D.device self.old journal.old) }
        // The disk that was read before stays as it was, whatever the result. After an error it is still the one that is read.
        ensures untouched { untouched_disk result journal.new ≡ disk_of journal.old }
        ensures keeps { OnErr result (HaveKeptPlaces journal.old journal.new) }
        // The journal can be appended to afterwards, except where the error is Device.
        ensures alive { (IsErrOf result FlushError.Device) ⊎ IsAlive D.device journal.new }
        ensures dead { IsErrOf result FlushError.Device → ¬ IsAlive D.device journal.new }
        // The error is Device exactly if a device call on the spare disk failed.
        ensures cause { ReportsFault FlushError.Device (D.device.faults (spare_disk journal.old)) (D.device.faults (rewritten_disk result journal.new)) result }
        ensures setting { self.new.validator.setting ≡ self.old.validator.setting }
    {
        if !self.is_free() {
            return Err(FlushError::Down);
        }
        rewrite_to_all(&mut self.book, journal)
    }

    // Whether the book isn't down, and neither a group nor a rewriting is in flight.
    fn is_free(&self) -> bool
        ensures value { IsTrue result ↔ ((self.now.down ≡ false) × (self.now.taken ≡ self.now.settled)) }
        ensures alone { IsTrue result → self.now.rewriting ≡ None }
    {
        !self.is_down() && self.is_settled()
    }

    /// Whether the book is down.
    pub fn is_down(&self) -> bool
        ensures value { result ≡ self.now.down }
        // A book that isn't down has no rewriting in flight.
        ensures up { result ≡ false → self.now.rewriting ≡ None }
    {
        self.book.is_down()
    }

    /// Whether a record is pending.
    pub fn has_pending(&self) -> bool
        ensures { IsTrue result ↔ (self.now.pending ≢ []) }
    {
        self.book.has_pending()
    }

    /// The book's validator, which is in the state after all accepted events.
    pub fn validator(&self) -> &Validator<'a, S>
        ensures { result.now ≡ self.now.validator }
    {
        self.book.validator()
    }

    /// The committee of the book's validator.
    pub fn committee(&self) -> &Committee
        ensures { result.now ≡ self.now.validator.setting.charter }
    {
        self.book.committee()
    }

    /// The validator's round after all accepted events.
    pub fn round_now(&self) -> u64
        ensures { let node = node_of S.scheme self.now.validator.setting in (run : Run) → Stands node run self.now
            → result ≡ round_in node (state_in node run) }
    {
        self.book.round_now()
    }

    /// The order after the settled events, from this place on. The list is empty where the place is past the end.
    ///
    /// # Errors
    /// `Down` where the book is down, `Memory` where an allocation failed.
    pub fn order(&self, from: u64) -> Result<Vec<Digest>, Refusal>
        ensures order { let node = node_of S.scheme self.now.validator.setting in IfOk result (λ digests. (run : Run) → Stands node run self.now
            → digests.items ≡ drop from (settled_in node run).order) }
        ensures down { IsErrOf result Refusal.Down ↔ IsTrue self.now.down }
        ensures errors { IfErr result (λ refusal. (refusal ≡ Refusal.Down) ⊎ (refusal ≡ Refusal.Memory)) }
    {
        self.book.order(from)
    }
}
