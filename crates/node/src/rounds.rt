//! Rounds: what the flushing thread uses to write a node's records to the disks.

ghost use Rattle.std.specs.Prelude.{◌≡◌, ◌⊎◌, ◌↔◌, ◌<◌, false, length, IsOk, IfOk, IfSome, IsNone, IsSome, IsTrue, IsErrOf, OnOk, OnErr};
ghost use Rattle.diskmodel.specs.Disk.{AtEachMoment, ReportsFault};
ghost use Rattle.journal.specs.Journal.{disk_of, spare_of, IsAlive};
ghost use Rattle.journal.specs.Pairs.{HaveChangedPlaces, HaveKeptPlaces, areas_of, areas_with, generation_in, spare_disk, store_of, rewritten_disk, untouched_disk};
ghost use Rattle.wire.specs.Lists.{Begins};
ghost use Rattle.validator.specs.Setting.{node_of};
ghost use Rattle.node_shared.specs.Calls.{IsBeside};
ghost use Rattle.node_shared.specs.Home.{IsOf};
ghost use Rattle.flusher.specs.Rounds.{journal_of, is_down, settled_in, taken_in, areas_at, IsFlusherOf, HoldsEither, KeepsEarlier, GoesDown, IsReportedOf, TakesAndSettles, TakesAllAndSettles, ReportsRoom, ReportsRoomToRewrite, StaysAsIs, AddsSettled, IsAtCheckpoint};
ghost use Rattle.node.specs.Rounds.{Flushes};

use crate::caller::Caller;
use diskmodel::Disk;
use flusher::{FlushError, Flusher};
use journal::Store;
use node_shared::{Node, Seat};
use sigface::Sign;
use std::alloc::AllocError;
use std::marker::Model;
use std::sync::Wait;
use validator::Config;

/// A node's flusher, together with the node and the seat with which the flusher calls the node. Contracts see all three.
pub struct Rounds<'n, 'a, S: Sign, D: Disk> {
    node: &'n Node<'a, S>,
    seat: Seat,
    flusher: Flusher<D>,
}

impl<'n, 'a, S: Sign, D: Disk + Drop> Drop for Rounds<'n, 'a, S, D> {
    fn drop(self) {
        let Rounds {
            node: _,
            seat: _,
            flusher: _,
        } = self;
    }
}

impl<'n, 'a, S: Sign, D: Disk> Model for Rounds<'n, 'a, S, D> {
    ghost use Rattle.std.specs.Coded.{codes};
    ghost use Rattle.votebook.specs.contracts.book.VoteBook as votes;
    ghost use Rattle.validator.specs.Setting.{node_of};
    ghost use Rattle.node_shared.specs.Home.{IsOf};
    ghost use Rattle.flusher.specs.Rounds.{IsFlusherOf};
    ghost use Rattle.node.specs.Callers.{RoundsView};

    ghost Value = { RoundsView S D };

    ghost coded = { Prim.hlevel (codes, S.code, D.code, votes.the_row.coded) };

    ghost view = { λ r. record { node = r.node.now; seat = r.seat; flusher = r.flusher } };

    ghost invariant = { λ r. IsOf r.node.now r.seat × IsFlusherOf S.scheme D.device r.node.now r.flusher };
}

impl<'n, 'a, S: Sign, D: Disk> Rounds<'n, 'a, S, D> {
    /// The rounds of a node with this flusher, which calls the node with this seat.
    pub fn new(node: &'n Node<'a, S>, seat: Seat, flusher: Flusher<D>) -> Rounds<'n, 'a, S, D>
        requires of { IsOf node.now seat }
        requires flusher { IsFlusherOf S.scheme D.device node.now flusher }
        ensures node { result.node ≡ node.now }
        ensures seat { result.seat ≡ seat }
        ensures flusher { result.flusher ≡ flusher }
    {
        Rounds {
            node,
            seat,
            flusher,
        }
    }

    /// Makes a caller of the node, which has this configuration. The caller has seen what the flusher's seat has seen. The call allocates
    /// no memory.
    pub fn caller(&mut self, config: &'a Config<S>) -> Result<Caller<'n, 'a, S>, AllocError>
        requires setting { self.old.node.setting ≡ config.now }
        ensures ok { IsOk result }
        ensures same { self.new ≡ self.old }
        ensures setting { IfOk result (λ caller. caller.setting ≡ config.now) }
        ensures node { IfOk result (λ caller. caller.node ≡ self.old.node) }
        ensures knows { IfOk result (λ caller. IsBeside self.old.node self.old.seat caller.seat) }
    {
        let seat = self.node.split(&mut self.seat)?;
        Ok(Caller::new(self.node, config, seat))
    }

    /// Makes one round of take, append and settle. Gives the number of records that were written and settled; 0 where all were settled
    /// already.
    pub fn round<R: Wait>(&mut self, rt: &R) -> Result<u64, FlushError>
        ensures node { self.new.node ≡ self.old.node }
        ensures down { GoesDown self.old.flusher self.new.flusher result }
        ensures reported { IsReportedOf self.old.seat self.new.seat result }
        ensures settles { TakesAndSettles self.old.seat self.new.seat self.old.flusher self.new.flusher result }
        ensures room { ReportsRoom D.device self.old.flusher self.new.flusher result }
        ensures cause { ReportsFault FlushError.Device (D.device.faults (disk_of (journal_of self.old.flusher))) (D.device.faults (disk_of (journal_of self.new.flusher))) result }
        ensures alive { is_down self.old.flusher ≡ false → IsAlive D.device (journal_of self.old.flusher) }
        ensures nothing { IfOk result (λ count. count ≡ 0 → journal_of self.new.flusher ≡ journal_of self.old.flusher) }
        ensures adds { IfOk result (λ count. 0 < count → AddsSettled D.device self.old.flusher self.new.flusher) }
        ensures spare { spare_of (journal_of self.new.flusher) ≡ spare_of (journal_of self.old.flusher) }
        ensures any_moment { IsErrOf result FlushError.Down ⊎ AtEachMoment D.device (disk_of (journal_of self.old.flusher)) (disk_of (journal_of self.new.flusher)) (λ left. HoldsEither S.scheme self.old.node (settled_in self.old.flusher) (taken_in self.new.flusher) (areas_of D.device (journal_of self.old.flusher)) (areas_at D.device (journal_of self.old.flusher) left)) }
        ensures earlier { OnOk result (KeepsEarlier S.scheme self.old.node (settled_in self.old.flusher) (settled_in self.new.flusher) (areas_of D.device (journal_of self.old.flusher)) (areas_of D.device (journal_of self.new.flusher))) }
        // The same as the clauses above, stated at once for a journal on one disk and on two.
        ensures flushes { Flushes S.scheme D.device self.old.node self.old.flusher self.new.flusher result }
    {
        self.flusher.round(rt, self.node, &mut self.seat)
    }

    /// Makes one checkpoint: rewrites the journal to the state after all accepted events, and settles these. Gives the journal's new
    /// generation.
    pub fn checkpoint<R: Wait>(&mut self, rt: &R) -> Result<u64, FlushError>
        requires pair { IsSome (spare_of (journal_of self.old.flusher)) }
        ensures node { self.new.node ≡ self.old.node }
        ensures down { GoesDown self.old.flusher self.new.flusher result }
        ensures reported { IsReportedOf self.old.seat self.new.seat result }
        ensures settles { TakesAllAndSettles self.old.seat self.new.seat self.old.flusher self.new.flusher result }
        ensures answer { IfOk result (λ generation. generation ≡ generation_in (journal_of self.new.flusher)) }
        ensures alive { is_down self.old.flusher ≡ false → IsAlive D.device (journal_of self.old.flusher) }
        ensures writes { OnOk result (IsAtCheckpoint S.scheme D.device self.old.node self.new.flusher) }
        ensures swapped { OnOk result (HaveChangedPlaces (journal_of self.old.flusher) (journal_of self.new.flusher)) }
        ensures keeps { OnErr result (HaveKeptPlaces (journal_of self.old.flusher) (journal_of self.new.flusher)) }
        ensures room { IsErrOf result FlushError.Down ⊎ IsErrOf result FlushError.Memory ⊎ ReportsRoomToRewrite S.scheme self.old.node self.old.flusher self.new.flusher result }
        ensures cause { ReportsFault FlushError.Device (D.device.faults (spare_disk (journal_of self.old.flusher))) (D.device.faults (rewritten_disk result (journal_of self.new.flusher))) result }
        ensures untouched { untouched_disk result (journal_of self.new.flusher) ≡ disk_of (journal_of self.old.flusher) }
        ensures any_moment { IsErrOf result FlushError.Down ⊎ AtEachMoment D.device (spare_disk (journal_of self.old.flusher)) (rewritten_disk result (journal_of self.new.flusher)) (λ left. HoldsEither S.scheme self.old.node (settled_in self.old.flusher) (taken_in self.new.flusher) (areas_of D.device (journal_of self.old.flusher)) (areas_with D.device (journal_of self.old.flusher) left)) }
        ensures earlier { OnOk result (KeepsEarlier S.scheme self.old.node (settled_in self.old.flusher) (settled_in self.new.flusher) (areas_of D.device (journal_of self.old.flusher)) (areas_of D.device (journal_of self.new.flusher))) }
        // The same as the clauses above, stated at once for a journal on one disk and on two.
        ensures flushes { Flushes S.scheme D.device self.old.node self.old.flusher self.new.flusher result }
    {
        self.flusher.checkpoint(rt, self.node, &mut self.seat)
    }

    /// The length, in bytes, of the area of the journal that is read. None where a round or a checkpoint took the node down.
    pub fn len(&self) -> Option<u64>
        ensures down { IsNone result ↔ IsTrue (is_down self.now.flusher) }
        ensures len { IfSome result (λ len. len ≡ length (D.device.content (disk_of (journal_of self.now.flusher)))) }
    {
        self.flusher.len(self.node)
    }

    /// After this call the flusher's seat knows as settled all events that this caller knows as settled. So the outputs that the caller
    /// took out rest on records that are on the disks after every stop.
    pub fn cover<R: Wait>(&mut self, rt: &R, caller: &mut Caller<'n, 'a, S>)
        requires node { caller.old.node ≡ self.old.node }
        ensures node { self.new.node ≡ self.old.node }
        ensures seat { self.new.seat ≡ self.old.seat }
        ensures stays { StaysAsIs self.old.flusher self.new.flusher }
        ensures caller { caller.new ≡ caller.old }
        ensures covers { Begins caller.old.seat.view.durable (settled_in self.new.flusher) }
    {
        self.flusher.cover(rt, self.node, &mut caller.seat);
    }

    /// Gives back the disks on which the journal was opened.
    pub fn into_store(self) -> Store<D>
        ensures { result ≡ store_of (journal_of self.entry.flusher) }
    {
        let Rounds {
            node: _,
            seat: _,
            flusher,
        } = self;
        flusher.into_journal().into_store()
    }
}
