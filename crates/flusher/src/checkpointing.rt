//! How a flusher rewrites the journal to a checkpoint.

ghost use Rattle.std.specs.Prelude.{◌≡◌, ◌⊎◌, ◌↔◌, ◌∷◌, true, false, IfOk, IfErr, IsErrOf, IsSome, OnOk, OnErr};
ghost use Rattle.book.specs.Checkpoints.{HasNoRoomFor};
ghost use Rattle.diskmodel.specs.Disk.{AtEachMoment, ReportsFault};
ghost use Rattle.journal.specs.Journal.{disk_of, spare_of, IsAlive};
ghost use Rattle.journal.specs.Pairs.{HaveChangedPlaces, HaveKeptPlaces, areas_of, areas_with, generation_in, spare_disk, rewritten_disk, untouched_disk};
ghost use Rattle.journal.specs.Snapshot.{bytes_for};
ghost use Rattle.journal.specs.declared.layout.TheConstants.{OPEN};
ghost use Rattle.spec_machine.specs.After.{IsLegalAfter};
ghost use Rattle.spec_model.specs.States.{State};
ghost use Rattle.validator.specs.Setting.{node_of};
ghost use Rattle.node_seats.specs.Views.{events, informed};
ghost use Rattle.node_shared.specs.Home.{IsBase, IsOf, IsFlushOf, IsCheckpointAfter};
ghost use Rattle.flusher.specs.Rounds.{journal_of, seat_of, is_down, settled_in, taken_in, IsFlusherOf, HoldsAfter, HoldsEither, KeepsEarlier, GoesDown, IsReportedOf, TakesAllAndSettles, ReportsRoomToRewrite, IsAtCheckpoint};

use crate::flusher::Flusher;
use book::FlushError;
use diskmodel::Disk;
use journal::{JournalError, Snapshot};
use node_shared::{Node, Seat};
use sigface::Sign;
use std::sync::Wait;

impl<D: Disk> Flusher<D> {
    /// Takes all events that the node has accepted, rewrites the journal to a checkpoint of the state after them, and settles them. The
    /// journal's spare disk is written, and is read from then on. The lock is held for the take and for the settle only, so threads can
    /// submit events while the disk is written; these events wait for the next round. All events that the seat had seen are among those
    /// taken. After the call the seat knows what is settled, and, if the checkpoint took the node down, that too. Returns the journal's new
    /// generation.
    ///
    /// # Errors
    /// Each of `FlushError`, as described there. After `Full` or `Device`, which come after the take, the node is down.
    pub fn checkpoint<'a, S: Sign, R: Wait>(
        &mut self,
        rt: &R,
        node: &Node<'a, S>,
        seat: &mut Seat,
    ) -> Result<u64, FlushError>
        requires flusher { IsFlusherOf S.scheme D.device node.now self.old }
        requires of { IsOf node.now seat.old }
        requires pair { IsSome (spare_of (journal_of self.old)) }
        ensures flusher { IsFlusherOf S.scheme D.device node.now self.new }
        ensures of { IsOf node.now seat.new }
        ensures down { GoesDown self.old self.new result }
        ensures reported { IsReportedOf seat.old seat.new result }
        ensures settles { TakesAllAndSettles seat.old seat.new self.old self.new result }
        ensures answer { IfOk result (λ generation. generation ≡ generation_in (journal_of self.new)) }
        // After success the area that is read has what the checkpoint took, and nothing else.
        ensures writes { OnOk result (IsAtCheckpoint S.scheme D.device node.now self.new) }
        // The disks have changed places if and only if the checkpoint succeeded.
        ensures swapped { OnOk result (HaveChangedPlaces (journal_of self.old) (journal_of self.new)) }
        ensures keeps { OnErr result (HaveKeptPlaces (journal_of self.old) (journal_of self.new)) }
        ensures room { IsErrOf result FlushError.Down ⊎ IsErrOf result FlushError.Memory ⊎ ReportsRoomToRewrite S.scheme node.now self.old self.new result }
        // The error is Device if and only if the disk that is written has counted a failed call. The other disk is untouched, whatever the
        // result.
        ensures cause { ReportsFault FlushError.Device (D.device.faults (spare_disk (journal_of self.old))) (D.device.faults (rewritten_disk result (journal_of self.new))) result }
        ensures untouched { untouched_disk result (journal_of self.new) ≡ disk_of (journal_of self.old) }

        // A stop at any moment may leave the spare area half written. Both areas together then have what was settled before, or all that
        // the checkpoint took.
        ensures any_moment { IsErrOf result FlushError.Down ⊎ AtEachMoment D.device (spare_disk (journal_of self.old)) (rewritten_disk result (journal_of self.new)) (λ left. HoldsEither S.scheme node.now (settled_in self.old) (taken_in self.new) (areas_of D.device (journal_of self.old)) (areas_with D.device (journal_of self.old) left)) }
        // For each state: if the journal before the call held the state that follows from it with the events that were settled then, the
        // journal now holds the state that follows from it with the events that are settled now.
        ensures earlier { OnOk result (KeepsEarlier S.scheme node.now (settled_in self.old) (settled_in self.new) (areas_of D.device (journal_of self.old)) (areas_of D.device (journal_of self.new))) }
    {
        if self.down {
            return Err(FlushError::Down);
        }
        let snapshot = match node.take_all(rt, &mut self.seat, seat) {
            Ok(snapshot) => snapshot,
            Err(_) => return Err(FlushError::Memory),
        };
        let generation = self.rewrite(rt, node, seat, snapshot)?;
        node.report_settled(rt, &mut self.seat, seat);
        Ok(generation)
    }

    // Rewrites the journal to the checkpoint that was taken, and settles it. If that fails the node goes down, which the seat then knows.
    fn rewrite<'a, S: Sign, R: Wait>(
        &mut self,
        rt: &R,
        node: &Node<'a, S>,
        seat: &mut Seat,
        snapshot: Snapshot,
    ) -> Result<u64, FlushError>
        requires flush_seat { IsFlushOf node.now (seat_of self.old) }
        requires right { (seat_of self.old).seat.view.may_fail ≡ true }
        requires rewriting { (seat_of self.old).rewriting ≡ true }
        requires up { is_down self.old ≡ false }
        requires alive { IsAlive D.device (journal_of self.old) }
        requires pair { IsSome (spare_of (journal_of self.old)) }
        requires holds { HoldsAfter S.scheme node.now (settled_in self.old) (areas_of D.device (journal_of self.old)) }
        requires legal { (base : State) → IsBase S.scheme node.now base → IsLegalAfter (node_of S.scheme node.now.setting) base (events (seat_of self.old).seat.view.seen) }
        requires checkpoint { IsCheckpointAfter S.scheme node.now (taken_in self.old) snapshot }
        requires of { IsOf node.now seat.old }
        ensures flusher { IsFlusherOf S.scheme D.device node.now self.new }
        ensures taken { taken_in self.new ≡ taken_in self.old }
        ensures any_moment { AtEachMoment D.device (spare_disk (journal_of self.old)) (rewritten_disk result (journal_of self.new)) (λ left. HoldsEither S.scheme node.now (settled_in self.old) (taken_in self.old) (areas_of D.device (journal_of self.old)) (areas_with D.device (journal_of self.old) left)) }
        ensures earlier { OnOk result (KeepsEarlier S.scheme node.now (settled_in self.old) (taken_in self.old) (areas_of D.device (journal_of self.old)) (areas_of D.device (journal_of self.new))) }
        ensures ok { IfOk result (λ generation. (generation ≡ generation_in (journal_of self.new)) × (settled_in self.new ≡ taken_in self.old) × (is_down self.new ≡ false)) }
        ensures err { OnErr result ((settled_in self.new ≡ settled_in self.old) × (is_down self.new ≡ true)) }
        ensures content { OnOk result (D.device.content (disk_of (journal_of self.new)) ≡ OPEN ∷ bytes_for (generation_in (journal_of self.new)) snapshot) }
        ensures swapped { OnOk result (HaveChangedPlaces (journal_of self.old) (journal_of self.new)) }
        ensures keeps { OnErr result (HaveKeptPlaces (journal_of self.old) (journal_of self.new)) }
        ensures seat { OnOk result (seat.new ≡ seat.old) }
        ensures seat_err { OnErr result (seat.new ≡ record seat.old { view = informed seat.old.view (seat_of self.new).seat.view }) }
        ensures reported_err { OnErr result ((seat_of self.new).seat.view.down ≡ true) }
        ensures errors { IfErr result (λ error. (error ≡ FlushError.Device) ⊎ (error ≡ FlushError.Full)) }
        ensures full { IsErrOf result FlushError.Full ↔ HasNoRoomFor (journal_of self.old) snapshot }
        ensures full_same { IsErrOf result FlushError.Full → journal_of self.new ≡ journal_of self.old }
        ensures cause { ReportsFault FlushError.Device (D.device.faults (spare_disk (journal_of self.old))) (D.device.faults (rewritten_disk result (journal_of self.new))) result }
        ensures untouched { untouched_disk result (journal_of self.new) ≡ disk_of (journal_of self.old) }
    {
        match self.journal.rewrite(snapshot) {
            Ok(synced) => {
                node.settle(rt, &mut self.seat, synced);
                Ok(self.journal.generation())
            }
            Err(error) => {
                node.fail(&mut self.seat, seat);
                self.down = true;
                match error {
                    JournalError::Full => Err(FlushError::Full),
                    _ => Err(FlushError::Device),
                }
            }
        }
    }
}
