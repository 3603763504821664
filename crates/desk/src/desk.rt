//! A desk: a node of one owner, which needs no lock.

ghost use Rattle.desk.specs.Disks.{HaveStopped};

use book::{FlushError, OwnBook, Receipt};
use committee::Committee;
use diskmodel::{Disk, StopDisk};
use header::Checked;
use journal::{Failed, Journal, JournalError, Store};
use opening::{reopen, reopen_store};
use sigface::Sign;
use std::alloc::{AllocError, Global};
use std::marker::Model;
use validator::{Config, Refusal, Validator};
use wire::{Digest, Header, Output};

/// A node of one owner: a book, and the journal to which its records go. No call waits for another thread.
pub struct Desk<'a, S: Sign, D: Disk> {
    book: OwnBook<'a, S>,
    journal: Journal<D>,
}

impl<'a, S: Sign, D: Disk + Drop> Drop for Desk<'a, S, D> {
    fn drop(self) {
        let Desk {
            book: _,
            journal: _,
        } = self;
    }
}

impl<'a, S: Sign, D: Disk> Model for Desk<'a, S, D> {
    ghost use Rattle.std.specs.Coded.{codes};
    ghost use Rattle.votebook.specs.contracts.book.VoteBook as votes;
    ghost use Rattle.desk.specs.Desk.{DeskView, IsSound};

    ghost Value = { DeskView S D };

    ghost coded = { Prim.hlevel (codes, S.code, D.code, votes.the_row.coded) };

    ghost view = { λ desk. record { book = desk.book; journal = desk.journal } };

    ghost invariant = { λ desk. IsSound D.device (record { book = desk.book; journal = desk.journal }) };
}

impl<'a, S: Sign, D: Disk> Desk<'a, S, D> {
    ghost use Rattle.std.specs.Prelude.{◌≡◌, ◌≢◌, ◌⊎◌, ◌↔◌, ◌+◌, ◌^◌, ◌<◌, ◌≤◌, ◌∷◌, [], ◌++◌, List, ℕ, length, drop, not, true, false, is_some, None, Ok, IfOk, IfErr, IfSome, IsSome, OnOk, OnErr, IsErrOf, IsTrue, if◌then◌else◌};
    ghost use Rattle.diskmodel.specs.Disk.{AtEachMoment, ReportsFault};
    ghost use Rattle.header.specs.Checks.{fault_of, accepts_all};
    ghost use Rattle.journal.specs.Journal.{disk_of, spare_of, ReportsFaultBack, IsAlive};
    ghost use Rattle.journal.specs.Pairs.{HaveKeptPlaces, areas_in, generation_in, side_in, spare_disk, rewritten_disk, untouched_disk, store_of};
    ghost use Rattle.journal.specs.Spares.{by_area};
    ghost use Rattle.book.specs.Checkpoints.{Checkpoints, FindsNoRoomToRewrite, FailsToRewrite, StandsAsOrForAll};
    ghost use Rattle.book.specs.Book.{Run, Stands, run_on, StandsAsBefore, TakesNew, TakesKnown, MayRefuse, GoesOutSettled, releasable, state_in, settled_in};
    ghost use Rattle.book.specs.InFlight.{Flushes, FindsNoRoom, FailsWithRoom, IsWithOrWithout};
    ghost use Rattle.book.specs.declared.book.TheConstants.{MAX_ACCEPTED};
    ghost use Rattle.spec_machine.specs.Machine.{is_ready, proposed, round_in};
    ghost use Rattle.spec_world.specs.Steps.{accept as accept_event, take_to, take_all, device_call, settle, read_order, release as release_output};
    ghost use Rattle.spec_model.specs.Giving.{kept};
    ghost use Rattle.spec_model.specs.Histories.{History};
    ghost use Rattle.spec_world.specs.Runs.{AreKeys, HasJustBegun};
    ghost use Rattle.spec_world.specs.World.{World};
    ghost use Rattle.opening.specs.Renewing.{HasBegun};
    ghost use Rattle.opening.specs.Decoded.{decoded, decoded_in};
    ghost use Rattle.validator.specs.Setting.{node_of};
    ghost use Rattle.validator.specs.Standing.{AreAtSound};
    ghost use Rattle.spec_model.specs.States.{State};
    ghost use Rattle.journal.specs.Areas.{alone, pair};
    ghost use Rattle.opening.specs.Laws.{IsOpening, IsOpeningOn, IsReadIn, with_store};
    ghost use Rattle.desk.specs.Desk.{IsOpened, IsNotOpened};
    ghost use Rattle.desk.specs.AtWorld.{IsBeside, IsAt, LeadsTo, CheckpointsAt};

    /// Opens a node on one disk. Its book has accepted nothing in this run.
    ///
    /// # Errors
    /// Those of `reopen`. The disk is handed back.
    pub fn open(
        alloc: Global,
        config: &'a Config<S>,
        disk: D,
    ) -> Result<Desk<'a, S, D>, Failed<JournalError, D>>
        ensures setting { IfOk result (λ desk. desk.book.validator.setting ≡ config.now) }
        ensures ok { IfOk result (λ desk. IsOpened (node_of S.scheme config.now) D.device (alone (D.device.content disk)) desk) }
        ensures err { IfErr result (λ failed. IsNotOpened (node_of S.scheme config.now) failed.error (D.device.content disk) (D.device.outcome disk) (D.device.outcome failed.disk)) }
        // Take any world in which a run has just begun with some history. If the disk decodes to the state kept of that history, the desk
        // stands at that world. Each legal history begins some run.
        ensures world { let node = node_of S.scheme config.now in IfOk result (λ desk. (world : World) (history : History) → HasJustBegun node world history
            → decoded node (D.device.content disk) ≡ Ok (kept node history) → IsAt node D.device world desk) }
        // What the errors say, and what a stop at any moment of the opening may leave.
        ensures opening { IsOpening (node_of S.scheme config.now) D.device (λ desk. disk_of desk.journal) disk result }
    {
        match reopen(alloc, config, disk) {
            Ok((validator, journal)) => Ok(Desk::over(alloc, validator, journal)),
            Err(failed) => Err(failed),
        }
    }

    /// Opens a node on one disk or on two. Its book has accepted nothing in this run.
    ///
    /// # Errors
    /// Those of `reopen_store`. The disks are handed back.
    pub fn open_store(
        alloc: Global,
        config: &'a Config<S>,
        store: Store<D>,
    ) -> Result<Desk<'a, S, D>, Failed<JournalError, Store<D>>>
        ensures setting { IfOk result (λ desk. desk.book.validator.setting ≡ config.now) }
        ensures ok { IfOk result (λ desk. IsOpened (node_of S.scheme config.now) D.device (areas_in D.device store) desk) }
        // Of two disks the one with the greater generation is read; but if that journal was in version 1 it was rewritten, so the other one
        // is read.
        ensures read { IfOk result (λ desk. IsReadIn (node_of S.scheme config.now) D.device store desk.journal) }
        // Take any world in which a run has just begun with some history, on disks of which the same one is read, with the same generation.
        // If the disks that were opened decode to the state kept of that history, the desk stands at that world. Each legal history begins
        // such a run.
        ensures world { let node = node_of S.scheme config.now in IfOk result (λ desk. (world : World) (history : History) → HasJustBegun node world history
            → (IsSome (spare_of desk.journal) → IsBeside world desk.journal) → decoded_in node (areas_in D.device store) ≡ Ok (kept node history) → IsAt node D.device world desk) }
        // What the errors say, and what a stop at any moment of the opening may leave.
        ensures opening { IsOpeningOn (node_of S.scheme config.now) D.device (λ desk. store_of desk.journal) store result }
    {
        match reopen_store(alloc, config, store) {
            Ok((validator, journal)) => Ok(Desk::over(alloc, validator, journal)),
            Err(failed) => Err(failed),
        }
    }

    /// Opens a node on two disks, given in the order of their areas.
    ///
    /// # Errors
    /// Those of `reopen_pair`. Both disks are handed back.
    pub fn open_pair(
        alloc: Global,
        config: &'a Config<S>,
        first: D,
        second: D,
    ) -> Result<Desk<'a, S, D>, Failed<JournalError, (D, D)>>
        ensures setting { IfOk result (λ desk. desk.book.validator.setting ≡ config.now) }
        ensures ok { IfOk result (λ desk. IsOpened (node_of S.scheme config.now) D.device (pair (D.device.content first) (D.device.content second)) desk) }
        ensures read { IfOk result (λ desk. IsReadIn (node_of S.scheme config.now) D.device (Store.Two first second) desk.journal) }
        ensures world { let node = node_of S.scheme config.now in IfOk result (λ desk. (world : World) (history : History) → HasJustBegun node world history
            → IsBeside world desk.journal → decoded_in node (pair (D.device.content first) (D.device.content second)) ≡ Ok (kept node history) → IsAt node D.device world desk) }
        ensures opening { IsOpeningOn (node_of S.scheme config.now) D.device (λ desk. store_of desk.journal) (Store.Two first second) (with_store result) }
    {
        match Desk::open_store(alloc, config, Store::Two(first, second)) {
            Ok(desk) => Ok(desk),
            Err(Failed { error, disk }) => match disk {
                Store::Two(first, second) => Err(Failed {
                    error,
                    disk: (first, second),
                }),
                Store::One(_) => unreachable!(),
            },
        }
    }

    // A desk with a new book, made of the validator and the journal that an opening returned.
    fn over(alloc: Global, validator: Validator<'a, S>, journal: Journal<D>) -> Desk<'a, S, D>
        requires alive { IsAlive D.device journal }
        requires begun { HasBegun D.device journal }
        requires stands { (state : State) × AreAtSound (node_of S.scheme validator.setting) validator.tables state }
        ensures setting { result.book.validator.setting ≡ validator.entry.setting }
        ensures journal { result.journal ≡ journal }
        ensures up { result.book.down ≡ false }
        ensures waits { result.book.queue ≡ [] }
        ensures free { result.book.rewriting ≡ None }
        ensures stands { let node = node_of S.scheme validator.entry.setting in (base : State) → AreAtSound node validator.entry.tables base → Stands node (run_on base) result.book }
        ensures small { generation_in journal < 2 ^ 64 }
    {
        let generation = journal.generation();
        let book = OwnBook::new(alloc, validator);
        // While a book is up, no rewriting is in flight.
        let down = book.is_down();
        prove!(!down);
        Desk { book, journal }
    }

    /// Accepts an event that passed the checks of the node's committee.
    ///
    /// # Errors
    /// The refusals of admission; `Down` if and only if the desk is down. A refusal changes nothing.
    pub fn accept(&mut self, event: Checked) -> Result<Receipt, Refusal>
        requires passed { fault_of self.old.book.validator.setting.charter accepts_all event ≡ None }
        ensures down { IsErrOf result Refusal.Down ↔ IsTrue self.old.book.down }
        ensures new { IfOk result (λ receipt. receipt.new ≡ true → TakesNew (node_of S.scheme self.old.book.validator.setting) self.old.book self.new.book event) }
        ensures known { IfOk result (λ receipt. receipt.new ≡ false → TakesKnown (node_of S.scheme self.old.book.validator.setting) self.old.book self.new.book event) }
        ensures ticket { IfOk result (λ receipt. receipt.ticket ≡ self.new.book.accepted) }
        ensures limit { IfOk result (λ receipt. receipt.ticket ≤ MAX_ACCEPTED) }
        ensures refused { let node = node_of S.scheme self.old.book.validator.setting in IfErr result (λ refusal. (run : Run) → Stands node run self.old.book
            → MayRefuse node run self.old.book event refusal) }
        ensures err { OnErr result (self.new ≡ self.old) }
        ensures same { self.new.journal ≡ self.old.journal }
        ensures setting { self.new.book.validator.setting ≡ self.old.book.validator.setting }
        // In the desk's world this is the move `accept`.
        ensures step { let node = node_of S.scheme self.old.book.validator.setting in OnOk result ((world : World) → IsAt node D.device world self.old
            → LeadsTo node D.device world (accept_event event ∷ []) self.new) }
    {
        book::accept_is_a_step::<S>();
        self.book.accept(event)
    }

    /// Makes one round: takes the longest prefix of the pending records that fits a group, appends it to the journal and settles it.
    /// Returns the number of its records, which is 0 if nothing is pending.
    ///
    /// # Errors
    /// `Down` if and only if the desk is down already, or `Memory`: nothing was changed. `Full` if the journal has no room, or `Device` if
    /// the disk fails: the group stays in flight, and the desk is down.
    pub fn flush(&mut self) -> Result<u64, FlushError>
        ensures idle { OnOk result (self.old.book.pending ≡ [] → (result ≡ Ok 0) × (self.new ≡ self.old)) }
        ensures flushed { IfOk result (λ count. self.old.book.pending ≢ [] → Flushes (node_of S.scheme self.old.book.validator.setting) self.old.book self.new.book (D.device.content (disk_of self.old.journal)) (D.device.content (disk_of self.new.journal)) count) }
        ensures down { IsErrOf result FlushError.Down ↔ IsTrue self.old.book.down }
        ensures unchanged { IfErr result (λ error. (error ≡ FlushError.Down) ⊎ (error ≡ FlushError.Memory) → self.new ≡ self.old) }
        ensures full { IsErrOf result FlushError.Full → FindsNoRoom (node_of S.scheme self.old.book.validator.setting) self.old.book self.new.book (D.device.content (disk_of self.old.journal)) }
        ensures full_same { IsErrOf result FlushError.Full → self.new.journal ≡ self.old.journal }
        ensures fails { IsErrOf result FlushError.Device → FailsWithRoom (node_of S.scheme self.old.book.validator.setting) self.old.book self.new.book (D.device.content (disk_of self.old.journal)) }
        // What a stop at any moment leaves is read as the earlier records, with all of the group after them or without it.
        ensures any_moment { self.old.book.down ≡ false → AtEachMoment D.device (disk_of self.old.journal) (disk_of self.new.journal) (IsWithOrWithout self.old.book.pending (D.device.content (disk_of self.old.journal))) }
        ensures alive { OnOk result (IsAlive D.device self.new.journal) }
        // The spare disk, if there is one, is untouched.
        ensures spare { spare_of self.new.journal ≡ spare_of self.old.journal }
        ensures accepted { self.new.book.accepted ≡ self.old.book.accepted }
        // The error is Device if and only if the disk has counted a failed call.
        ensures cause { ReportsFault FlushError.Device (D.device.faults (disk_of self.old.journal)) (D.device.faults (disk_of self.new.journal)) result }
        ensures setting { self.new.book.validator.setting ≡ self.old.book.validator.setting }
        // In the world of the desk's runs a round is these moves: `count` events are taken, the four device calls of an append are made,
        // and the events are settled.
        ensures steps { let node = node_of S.scheme self.old.book.validator.setting in IfOk result (λ count. self.old.book.pending ≢ [] → (world : World) → IsAt node D.device world self.old
            → LeadsTo node D.device world (take_to (length world.settled + count) ∷ device_call ∷ device_call ∷ device_call ∷ device_call ∷ settle ∷ []) self.new) }
        // If the desk goes down, its world has made the move that takes the events.
        ensures fails_step { let node = node_of S.scheme self.old.book.validator.setting in IfErr result (λ error. (error ≡ FlushError.Full) ⊎ (error ≡ FlushError.Device) → (world : World) → IsAt node D.device world self.old
            → (count : ℕ) × LeadsTo node D.device world (take_to count ∷ []) self.new) }
    {
        book::flush_is_steps::<S>();
        book::fail_is_a_step::<S>();
        if self.book.is_down() {
            return Err(FlushError::Down);
        }
        self.book.flush(&mut self.journal)
    }

    /// Makes a checkpoint, on two disks: takes all accepted records, rewrites the spare disk to the state after them, and settles them.
    /// From then on the rewritten disk is read. Returns the journal's new generation.
    ///
    /// # Errors
    /// `Down` if and only if the desk is down already, or `Memory`: nothing was changed. `Full` if the checkpoint is too long for a journal
    /// or the generation is the last one, or `Device` if the disk fails: all was taken, the rewriting stays in flight, and the desk is
    /// down.
    pub fn checkpoint(&mut self) -> Result<u64, FlushError>
        requires pair { IsSome (spare_of self.old.journal) }
        // All accepted events are settled, and the journal is a checkpoint of the state after them.
        ensures settled { IfOk result (λ generation. Checkpoints (node_of S.scheme self.old.book.validator.setting) D.device self.old.book self.new.book self.old.journal self.new.journal) }
        ensures answer { IfOk result (λ generation. generation ≡ generation_in self.new.journal) }
        ensures down { IsErrOf result FlushError.Down ↔ IsTrue self.old.book.down }
        ensures unchanged { IfErr result (λ error. (error ≡ FlushError.Down) ⊎ (error ≡ FlushError.Memory) → self.new ≡ self.old) }
        ensures full { IsErrOf result FlushError.Full → FindsNoRoomToRewrite (node_of S.scheme self.old.book.validator.setting) self.old.book self.new.book self.old.journal }
        ensures full_same { IsErrOf result FlushError.Full → self.new.journal ≡ self.old.journal }
        ensures fails { IsErrOf result FlushError.Device → FailsToRewrite (node_of S.scheme self.old.book.validator.setting) self.old.book self.new.book self.old.journal }
        // What a stop at any moment leaves is read as the earlier records, or as a checkpoint of all accepted events.
        ensures any_moment { self.old.book.down ≡ false → AtEachMoment D.device (spare_disk self.old.journal) (rewritten_disk result self.new.journal) (StandsAsOrForAll (node_of S.scheme self.old.book.validator.setting) D.device self.old.book self.old.journal) }
        // The disk that was read before is untouched, whatever the result. After an error it is still the one that is read.
        ensures untouched { untouched_disk result self.new.journal ≡ disk_of self.old.journal }
        ensures keeps { OnErr result (HaveKeptPlaces self.old.journal self.new.journal) }
        ensures alive { OnOk result (IsAlive D.device self.new.journal) }
        ensures accepted { self.new.book.accepted ≡ self.old.book.accepted }
        // The error is Device if and only if the disk that is written has counted a failed call.
        ensures cause { ReportsFault FlushError.Device (D.device.faults (spare_disk self.old.journal)) (D.device.faults (rewritten_disk result self.new.journal)) result }
        ensures setting { self.new.book.validator.setting ≡ self.old.book.validator.setting }
        // If the node's keys have 32 bytes each: in the desk's world all accepted events are taken, the eight device calls of a rewriting
        // are made, and all is settled.
        ensures steps { let node = node_of S.scheme self.old.book.validator.setting in OnOk result (AreKeys node → (world : World) → IsAt node D.device world self.old
            → CheckpointsAt node D.device world self.new) }
        // If the desk goes down, its world has made the move that takes all accepted events, unless the generation was the last one.
        ensures fails_step { let node = node_of S.scheme self.old.book.validator.setting in IfErr result (λ error. (error ≡ FlushError.Full) ⊎ (error ≡ FlushError.Device)
            → AreKeys node → generation_in self.old.journal + 1 < 2 ^ 64 → (world : World) → IsAt node D.device world self.old
            → (bytes : List ℕ) × LeadsTo node D.device world (take_all bytes ∷ []) self.new) }
    {
        book::checkpoint_is_steps::<S>();
        book::take_all_is_a_step::<S>();
        spec_world::snapshots_are_checkpoints();
        if self.book.is_down() {
            return Err(FlushError::Down);
        }
        self.book.checkpoint(&mut self.journal)
    }

    /// Takes the next output that may leave; None if there is none, or if the desk is down.
    pub fn release(&mut self) -> Option<Output>
        ensures output { result ≡ releasable self.old.book }
        ensures queue { self.new.book ≡ (if is_some result then record self.old.book { queue = drop 1 self.old.book.queue } else self.old.book) }
        ensures stands { let node = node_of S.scheme self.old.book.validator.setting in StandsAsBefore node self.old.book self.new.book }
        ensures goes_out { let node = node_of S.scheme self.old.book.validator.setting in IfSome result (λ output. (run : Run) → Stands node run self.old.book
            → GoesOutSettled node run output) }
        ensures same { self.new.journal ≡ self.old.journal }
        ensures setting { self.new.book.validator.setting ≡ self.old.book.validator.setting }
        // In the desk's world this is the move `release`.
        ensures step { let node = node_of S.scheme self.old.book.validator.setting in IfSome result (λ output. (world : World) → IsAt node D.device world self.old
            → (ticket : ℕ) × LeadsTo node D.device world (release_output (record { ticket = ticket; output = output }) ∷ []) self.new) }
    {
        book::release_is_a_step::<S>();
        self.book.release()
    }

    /// The order that the settled records lead to, from this place on. The list is empty if the place is past the order's end.
    ///
    /// # Errors
    /// `Down` if and only if the desk is down; `Memory` if an allocation failed.
    pub fn order(&self, from: u64) -> Result<Vec<Digest>, Refusal>
        ensures order { let node = node_of S.scheme self.now.book.validator.setting in IfOk result (λ digests. (run : Run) → Stands node run self.now.book
            → digests.items ≡ drop from (settled_in node run).order) }
        ensures down { IsErrOf result Refusal.Down ↔ IsTrue self.now.book.down }
        ensures errors { IfErr result (λ refusal. (refusal ≡ Refusal.Down) ⊎ (refusal ≡ Refusal.Memory)) }
        // In the desk's world this is the move `read_order`.
        ensures step { let node = node_of S.scheme self.now.book.validator.setting in OnOk result ((world : World) → IsAt node D.device world self.now
            → LeadsTo node D.device world (read_order ∷ []) self.now) }
    {
        self.book.order(from)
    }

    /// The validator's round after all accepted events.
    pub fn round_now(&self) -> u64
        ensures { let node = node_of S.scheme self.now.book.validator.setting in (run : Run) → Stands node run self.now.book
            → result ≡ round_in node (state_in node run) }
    {
        self.book.round_now()
    }

    /// Whether an event that passed the checks can be answered without waiting: the answer isn't that a parent is missing.
    pub fn ready(&self, event: &Checked) -> bool
        requires passed { fault_of self.now.book.validator.setting.charter accepts_all event.now ≡ None }
        ensures { let node = node_of S.scheme self.now.book.validator.setting in (run : Run) → Stands node run self.now.book
            → result ≡ is_ready node (state_in node run) event.now }
    {
        self.book.validator().ready(event)
    }

    /// The header that the node proposes after all accepted events. None if it has an own header of its round, or the round is above
    /// `Round::MAX`. On `AllocError` an allocation failed.
    pub fn propose(&self) -> Result<Option<Header>, AllocError>
        ensures { let node = node_of S.scheme self.now.book.validator.setting in IfOk result (λ found. (run : Run) → Stands node run self.now.book
            → found ≡ proposed node (state_in node run)) }
    {
        self.book.validator().propose()
    }

    /// Whether the desk is down, since a round or a checkpoint failed.
    pub fn is_down(&self) -> bool
        ensures { result ≡ self.now.book.down }
    {
        self.book.is_down()
    }

    /// The committee of the desk's node.
    pub fn committee(&self) -> &Committee
        ensures { result.now ≡ self.now.book.validator.setting.charter }
    {
        self.book.committee()
    }

    /// Ends a desk on one disk, and returns the disk. What wasn't settled is lost.
    pub fn into_disk(self) -> D
        requires { spare_of self.journal ≡ None }
        ensures { result ≡ disk_of self.entry.journal }
    {
        let Desk { book: _, journal } = self;
        journal.into_disk()
    }

    /// Ends a desk on two disks, and returns both in the order of their areas. What wasn't settled is lost.
    pub fn into_disks(self) -> (D, D)
        requires { IsSome (spare_of self.journal) }
        ensures { result ≡ by_area (side_in self.entry.journal) (disk_of self.entry.journal) (spare_disk self.entry.journal) }
    {
        let Desk { book: _, journal } = self;
        journal.into_disks()
    }

    /// Ends a desk, and returns its disks, one or two. What wasn't settled is lost.
    pub fn into_store(self) -> Store<D>
        ensures { result ≡ store_of self.entry.journal }
    {
        let Desk { book: _, journal } = self;
        journal.into_store()
    }

    /// Whether the desk is on two disks, so that it can make checkpoints.
    pub fn is_pair(&self) -> bool
        ensures { IsTrue result ↔ IsSome (spare_of self.now.journal) }
    {
        self.journal.is_pair()
    }
}

impl<'a, S: Sign, D: StopDisk> Desk<'a, S, D> {
    ghost use Rattle.std.specs.Prelude.{◌≡◌, ◌≢◌, ◌<◌, List, ℕ, None, IfOk, IfErr, Err};
    ghost use Rattle.journal.specs.Areas.{Areas, alone};
    ghost use Rattle.journal.specs.Journal.{disk_of, spare_of, ReportsFaultBack};
    ghost use Rattle.journal.specs.Pairs.{store_of, areas_in};
    ghost use Rattle.journal.specs.Stores.{faults_in, ReportsFaultsBack};
    ghost use Rattle.validator.specs.Setting.{node_of};
    ghost use Rattle.spec_world.specs.Steps.{Move};
    ghost use Rattle.spec_world.specs.World.{World};
    ghost use Rattle.book.specs.Book.{Run};
    ghost use Rattle.opening.specs.Laws.{IsNoRefusal, IsOpeningOn};
    ghost use Rattle.desk.specs.AtWorld.{IsAt, LeadsTo, IsStop};
    ghost use Rattle.desk.specs.Desk.{IsOf, IsOpened, IsNotOpened};
    ghost use Rattle.desk.specs.Disks.{MayLeave, HaveStopped};

    /// Stops the machine of a node on one disk, and opens the node again on what the stop left.
    ///
    /// # Errors
    /// Those of `reopen`. The disk is handed back.
    pub fn stop(
        self,
        alloc: Global,
        config: &'a Config<S>,
    ) -> Result<Desk<'a, S, D>, Failed<JournalError, D>>
        requires alone { spare_of self.journal ≡ None }
        ensures setting { IfOk result (λ next. next.book.validator.setting ≡ config.now) }
        ensures ok { IfOk result (λ next. (found : List ℕ) × D.device.outcome (disk_of self.entry.journal) found × IsOpened (node_of S.scheme config.now) D.device (alone found) next) }
        ensures err { IfErr result (λ failed. (found : List ℕ) × D.device.outcome (disk_of self.entry.journal) found × IsNotOpened (node_of S.scheme config.now) failed.error found (D.device.outcome (disk_of self.entry.journal)) (D.device.outcome failed.disk)) }
        // In the desk's world these are the moves of a stop: the machine stops, and what that left is opened.
        ensures steps { let node = node_of S.scheme config.now in IfOk result (λ next. (world : World) → IsAt node D.device world self.entry
            → (moves : List Move) × IsStop world moves × LeadsTo node D.device world moves next) }
        ensures cause { ReportsFaultBack D.device (λ next. disk_of next.journal) JournalError.Device (disk_of self.entry.journal) result }
    {
        let mut disk = self.into_disk();
        disk.stop();
        Desk::open(alloc, config, disk)
    }

    /// Stops the machine of a node on one disk or on two, and opens the node again on what the stop left.
    ///
    /// # Errors
    /// Those of `reopen_store`. The disks are handed back.
    pub fn stop_store(
        self,
        alloc: Global,
        config: &'a Config<S>,
    ) -> Result<Desk<'a, S, D>, Failed<JournalError, Store<D>>>
        ensures setting { IfOk result (λ next. next.book.validator.setting ≡ config.now) }
        ensures ok { IfOk result (λ next. (found : Areas) × MayLeave D.device self.entry.journal found × IsOpened (node_of S.scheme config.now) D.device found next) }
        ensures err { IfErr result (λ failed. (stopped : Store D) × HaveStopped D.device (store_of self.entry.journal) stopped × IsOpeningOn (node_of S.scheme config.now) D.device (λ next. store_of next.journal) stopped result) }
        // What a stop leaves of a desk that belongs to a run can be opened, unless an allocation or a disk fails.
        ensures never_refused { IfErr result (λ failed. (run : Run) → IsOf (node_of S.scheme config.now) D.device run self.entry → IsNoRefusal failed.error) }
        // In the desk's world these are the moves of a stop: the machine stops, and what that left is opened.
        ensures steps { let node = node_of S.scheme config.now in IfOk result (λ next. (world : World) → IsAt node D.device world self.entry
            → (moves : List Move) × IsStop world moves × LeadsTo node D.device world moves next) }
        ensures cause { ReportsFaultsBack (faults_in D.device) (λ next. store_of next.journal) JournalError.Device (store_of self.entry.journal) result }
    {
        config.keys_hold();
        spec_world::histories_begin_on_two();
        Desk::open_store(alloc, config, stopped(self.into_store()))
    }
}

// Stops the machine of these disks, and returns them as the stop left them.
fn stopped<D: StopDisk>(store: Store<D>) -> Store<D>
    ensures { HaveStopped D.device store result }
{
    match store {
        Store::One(mut disk) => {
            disk.stop();
            Store::One(disk)
        }
        Store::Two(mut first, mut second) => {
            first.stop();
            second.stop();
            Store::Two(first, second)
        }
    }
}
