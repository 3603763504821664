//! The flusher, which writes groups of accepted events to the disk and settles them.

ghost use Rattle.std.specs.Prelude.{◌≡◌, ◌⊎◌, ◌↔◌, ◌+◌, ◌<◌, true, false, length, IfOk, IfErr, IfSome, IsErrOf, IsNone, IsTrue, OnOk, OnErr};
ghost use Rattle.diskmodel.specs.Disk.{AtEachMoment, ReportsFault};
ghost use Rattle.journal.specs.Format.{file_with, group_bytes};
ghost use Rattle.journal.specs.Journal.{disk_of, spare_of, IsAlive};
ghost use Rattle.journal.specs.Pairs.{areas_of};
ghost use Rattle.journal.specs.declared.layout.TheConstants.{MAX_JOURNAL_BYTES};
ghost use Rattle.wire.specs.Lists.{Begins};
ghost use Rattle.spec_machine.specs.After.{IsLegalAfter};
ghost use Rattle.spec_model.specs.States.{State};
ghost use Rattle.validator.specs.Setting.{node_of};
ghost use Rattle.node_seats.specs.Views.{events, informed};
ghost use Rattle.node_shared.specs.Home.{IsBase, IsOf, IsFlushOf, group_of};
ghost use Rattle.flusher.specs.Rounds.{journal_of, seat_of, is_down, settled_in, taken_in, areas_at, IsFlusherOf, HoldsAfter, HoldsEither, KeepsEarlier, GoesDown, IsReportedOf, TakesAndSettles, ReportsRoom, StaysAsIs, AddsSettled};

use book::FlushError;
use diskmodel::Disk;
use journal::{Group, Journal, JournalError};
use node_shared::{FlushSeat, Node, Seat};
use sigface::Sign;
use std::sync::Wait;

/// The journal on a node's disks, and the seat by which the flusher takes events for it and settles them.
pub struct Flusher<D: Disk> {
    pub(crate) journal: Journal<D>,
    pub(crate) seat: FlushSeat,
    // Whether the node is down since a round or a checkpoint of this flusher failed.
    pub(crate) down: bool,
}

impl<D: Disk + Drop> Drop for Flusher<D> {
    fn drop(self) {
        let Flusher {
            journal: _,
            seat: _,
            down: _,
        } = self;
    }
}

impl<D: Disk> Flusher<D> {
    /// A flusher made of the node's flush seat and of a journal that can be appended to and has the state with which the node began.
    pub fn new(journal: Journal<D>, seat: FlushSeat) -> Flusher<D>
        ensures journal { journal_of result ≡ journal }
        ensures seat { seat_of result ≡ seat }
        ensures up { is_down result ≡ false }
    {
        Flusher {
            journal,
            seat,
            down: false,
        }
    }

    /// Ends the flusher, and returns its journal.
    pub fn into_journal(self) -> Journal<D>
        ensures { result ≡ journal_of self }
    {
        let Flusher {
            journal,
            seat: _,
            down: _,
        } = self;
        journal
    }

    /// The length of the journal's area that is read, in bytes. None if the node is down since a round or a checkpoint failed.
    pub fn len<'a, S: Sign>(&self, node: &Node<'a, S>) -> Option<u64>
        requires flusher { IsFlusherOf S.scheme D.device node.now self.now }
        ensures down { IsNone result ↔ IsTrue (is_down self.now) }
        ensures len { IfSome result (λ len. len ≡ length (D.device.content (disk_of (journal_of self.now)))) }
    {
        match self.down {
            true => None,
            false => Some(self.journal.len()),
        }
    }

    /// Makes one round: takes a group of accepted events, appends it to the journal, and settles it. The lock is held for the take and for
    /// the settle only, not while the disk is written. All events that the seat had seen are among those that can be taken. After the round
    /// the seat knows what is settled, and, if the round took the node down, that too. Returns the number of the group's records, which is
    /// 0 if all were settled already.
    ///
    /// # Errors
    /// Each of `FlushError`, as described there.
    pub fn round<'a, S: Sign, R: Wait>(
        &mut self,
        rt: &R,
        node: &Node<'a, S>,
        seat: &mut Seat,
    ) -> Result<u64, FlushError>
        requires flusher { IsFlusherOf S.scheme D.device node.now self.old }
        requires of { IsOf node.now seat.old }
        ensures flusher { IsFlusherOf S.scheme D.device node.now self.new }
        ensures of { IsOf node.now seat.new }
        ensures down { GoesDown self.old self.new result }
        ensures reported { IsReportedOf seat.old seat.new result }
        ensures settles { TakesAndSettles seat.old seat.new self.old self.new result }
        ensures room { ReportsRoom D.device self.old self.new result }
        ensures cause { ReportsFault FlushError.Device (D.device.faults (disk_of (journal_of self.old))) (D.device.faults (disk_of (journal_of self.new))) result }
        // A round that has nothing to take leaves the journal unchanged.
        ensures nothing { IfOk result (λ count. count ≡ 0 → journal_of self.new ≡ journal_of self.old) }
        // A round that takes something adds one group to the area that is read: the records of the events that the round settled.
        ensures adds { IfOk result (λ count. 0 < count → AddsSettled D.device self.old self.new) }
        // The spare disk, if there is one, is untouched.
        ensures spare { spare_of (journal_of self.new) ≡ spare_of (journal_of self.old) }

        // What a stop at any moment leaves has what was settled before, with the group or without it; once the group is settled, always
        // with it.
        ensures any_moment { IsErrOf result FlushError.Down ⊎ AtEachMoment D.device (disk_of (journal_of self.old)) (disk_of (journal_of self.new)) (λ left. HoldsEither S.scheme node.now (settled_in self.old) (taken_in self.new) (areas_of D.device (journal_of self.old)) (areas_at D.device (journal_of self.old) left)) }
        // If from some state on the journal had what was settled before the call, then from the same state on it has what is settled now.
        ensures earlier { OnOk result (KeepsEarlier S.scheme node.now (settled_in self.old) (settled_in self.new) (areas_of D.device (journal_of self.old)) (areas_of D.device (journal_of self.new))) }
    {
        if self.down {
            return Err(FlushError::Down);
        }
        let found = match node.take(rt, &mut self.seat, seat) {
            Ok(found) => found,
            Err(_) => return Err(FlushError::Memory),
        };
        let count = match found {
            Some(group) => self.add(rt, node, seat, group)?,
            None => 0,
        };
        node.report_settled(rt, &mut self.seat, seat);
        Ok(count)
    }

    /// Lets the flusher's own seat know as settled all that the given seat knows as settled. Nothing is written.
    pub fn cover<'a, S: Sign, R: Wait>(&mut self, rt: &R, node: &Node<'a, S>, seat: &mut Seat)
        requires flusher { IsFlusherOf S.scheme D.device node.now self.old }
        requires of { IsOf node.now seat.old }
        ensures flusher { IsFlusherOf S.scheme D.device node.now self.new }
        ensures stays { StaysAsIs self.old self.new }
        ensures seat { seat.new ≡ seat.old }
        ensures covers { Begins seat.old.view.durable (settled_in self.new) }
    {
        node.cover(rt, &mut self.seat, seat);
    }

    // Appends the group that was taken to the journal, and settles it. If that fails the node goes down, which the seat then knows.
    fn add<'a, S: Sign, R: Wait>(
        &mut self,
        rt: &R,
        node: &Node<'a, S>,
        seat: &mut Seat,
        group: Group,
    ) -> Result<u64, FlushError>
        requires flush_seat { IsFlushOf node.now (seat_of self.old) }
        requires right { (seat_of self.old).seat.view.may_fail ≡ true }
        requires up { is_down self.old ≡ false }
        requires alive { IsAlive D.device (journal_of self.old) }
        requires idle { (seat_of self.old).rewriting ≡ false }
        requires holds { HoldsAfter S.scheme node.now (settled_in self.old) (areas_of D.device (journal_of self.old)) }
        requires legal { (base : State) → IsBase S.scheme node.now base → IsLegalAfter (node_of S.scheme node.now.setting) base (events (seat_of self.old).seat.view.seen) }
        requires group { group ≡ group_of (seat_of self.old) }
        requires of { IsOf node.now seat.old }
        ensures flusher { IsFlusherOf S.scheme D.device node.now self.new }
        ensures taken { taken_in self.new ≡ taken_in self.old }
        ensures content { OnOk result (D.device.content (disk_of (journal_of self.new)) ≡ file_with (D.device.content (disk_of (journal_of self.old))) group) }
        ensures any_moment { AtEachMoment D.device (disk_of (journal_of self.old)) (disk_of (journal_of self.new)) (λ left. HoldsEither S.scheme node.now (settled_in self.old) (taken_in self.old) (areas_of D.device (journal_of self.old)) (areas_at D.device (journal_of self.old) left)) }
        ensures earlier { OnOk result (KeepsEarlier S.scheme node.now (settled_in self.old) (taken_in self.old) (areas_of D.device (journal_of self.old)) (areas_of D.device (journal_of self.new))) }
        ensures some { IfOk result (λ count. 0 < count) }
        ensures ok { IfOk result (λ count. (count ≡ length group) × (settled_in self.new ≡ taken_in self.old) × (is_down self.new ≡ false)) }
        ensures err { OnErr result ((settled_in self.new ≡ settled_in self.old) × (is_down self.new ≡ true)) }
        ensures seat { OnOk result (seat.new ≡ seat.old) }
        ensures seat_err { OnErr result (seat.new ≡ record seat.old { view = informed seat.old.view (seat_of self.new).seat.view }) }
        ensures reported_err { OnErr result ((seat_of self.new).seat.view.down ≡ true) }
        ensures errors { IfErr result (λ error. (error ≡ FlushError.Device) ⊎ (error ≡ FlushError.Full)) }
        ensures full { IsErrOf result FlushError.Full ↔ (MAX_JOURNAL_BYTES < length (D.device.content (disk_of (journal_of self.old))) + length (group_bytes group)) }
        ensures full_same { IsErrOf result FlushError.Full → journal_of self.new ≡ journal_of self.old }
        ensures spare { spare_of (journal_of self.new) ≡ spare_of (journal_of self.old) }
        ensures cause { ReportsFault FlushError.Device (D.device.faults (disk_of (journal_of self.old))) (D.device.faults (disk_of (journal_of self.new))) result }
    {
        let count = group.records_count();
        match self.journal.append(group) {
            Ok(synced) => {
                node.settle(rt, &mut self.seat, synced);
                Ok(count)
            }
            Err(error) => {
                node.fail(&mut self.seat, seat);
                self.down = true;
                match error {
                    JournalError::Full => Err(FlushError::Full),
                    _ => Err(FlushError::Device),
                }
            }
        }
    }
}
