//! The flushing thread, which writes records to the disks.

ghost use Rattle.std.specs.Prelude.{◌≡◌, ◌↔◌, true, false, Some, None, IsSome, IsTrue};
ghost use Rattle.journal.specs.Journal.{spare_of};
ghost use Rattle.journal.specs.Pairs.{areas_of, store_of};
ghost use Rattle.journal.specs.Stores.{faults_in};
ghost use Rattle.node.specs.Disks.{AtEachMomentOn};
ghost use Rattle.wire.specs.Lists.{Begins};
ghost use Rattle.flusher.specs.Rounds.{journal_of, is_down, settled_in, taken_in, KeepsEarlier};
ghost use Rattle.node_run.specs.Ends.{faults_after, ReportsRounds, ReportsJournal};
ghost use Rattle.node_run.specs.Flushing.{FlushesOnce};
ghost use Rattle.node_run.specs.Rewriting.{length_in, point_of, ByTheRule, HasCheckpoint, RewritesWhereDue, HasNoPlace};
ghost use Rattle.node_run.specs.Runs.{HoldsMore, LeavesSettled};

use crate::bell::Bell;
use crate::rule::Rule;
use diskmodel::Disk;
use journal::JournalError;
use node::{FlushError, Rounds};
use node_io::Faults;
use sigface::Sign;
use std::sync::Wait;

/// The work of the flushing thread. Each time that the bell `pending` is rung, it writes all pending records to the disks, and rings the
/// bell `settled` after each round. It ends once `pending` is closed and all records are written. It rewrites the journal to a checkpoint
/// where the rule says so. If an allocation for a checkpoint fails, it goes on without that checkpoint, and reports the failure at the end.
pub(crate) fn flush_all<S: Sign, D: Disk, R: Wait>(
    rt: &R,
    rounds: &mut Rounds<'_, '_, S, D>,
    mut rule: Rule,
    pending: &Bell,
    settled: &Bell,
) -> Faults
    // Only a journal on two disks is rewritten.
    requires pair { IsSome rule.every → IsSome (spare_of (journal_of rounds.old.flusher)) }
    ensures journal { ReportsJournal (faults_in D.device (store_of (journal_of rounds.old.flusher))) (faults_in D.device (store_of (journal_of rounds.new.flusher))) (is_down rounds.old.flusher) (is_down rounds.new.flusher) result.journal (HasNoPlace S.scheme D.device rounds.old.node rule result.memory (point_of rounds.old.flusher) rounds.new.flusher) }
    ensures others { (result.output ≡ false) × (result.input ≡ false) }
    ensures node { rounds.new.node ≡ rounds.old.node }
    // Unless a fault of the journal is reported, a checkpoint was made exactly after each round after which one was due. A checkpoint may
    // have been skipped only where a failed allocation is reported.
    ensures by_rule { is_down rounds.old.flusher ≡ false → result.journal ≡ None → (later : Rule) × ByTheRule D.device (HasCheckpoint S.scheme D.device rounds.old.node) rule result.memory (point_of rounds.old.flusher) later (point_of rounds.new.flusher) }
    // Unless the node is down or a failed allocation is reported, all events are settled that the rounds' seat had seen before the call.
    ensures settles { is_down rounds.new.flusher ≡ false → result.memory ≡ false → Begins rounds.old.seat.view.seen (settled_in rounds.new.flusher) }
    // A stop at any moment leaves on the disks what was settled before the call, and perhaps more.
    ensures any_moment { is_down rounds.old.flusher ≡ false → AtEachMomentOn D.device (HoldsMore S.scheme rounds.old.node (settled_in rounds.old.flusher) (areas_of D.device (journal_of rounds.old.flusher))) (store_of (journal_of rounds.old.flusher)) (store_of (journal_of rounds.new.flusher)) }
    // A stop at the end leaves on the disks all that is settled.
    ensures at_end { is_down rounds.old.flusher ≡ false → LeavesSettled S.scheme D.device rounds.old.node rounds.old.flusher (settled_in rounds.new.flusher) (store_of (journal_of rounds.new.flusher)) }
{
    let mut faults = Faults::none();
    let mut missed = false;
    for _ in rt.forever() {
        let may_go_on = pending.wait(rt);
        faults = faults.and(flush_pending(rt, rounds, &mut rule, &mut missed, settled));
        if !may_go_on {
            settled.close(rt);
            return Faults {
                memory: faults.memory || missed,
                ..faults
            };
        }
    }
    unreachable!()
}

// Makes rounds, and the checkpoints that are due after them, until all records are on the disks or a round fails. If an allocation for a
// checkpoint fails, `missed` is set, and the rounds go on.
fn flush_pending<S: Sign, D: Disk, R: Wait>(
    rt: &R,
    rounds: &mut Rounds<'_, '_, S, D>,
    rule: &mut Rule,
    missed: &mut bool,
    settled: &Bell,
) -> Faults
    requires pair { IsSome rule.old.every → IsSome (spare_of (journal_of rounds.old.flusher)) }
    ensures pair { IsSome rule.new.every → IsSome (spare_of (journal_of rounds.new.flusher)) }
    ensures rounds { ReportsRounds (faults_in D.device (store_of (journal_of rounds.old.flusher))) (faults_in D.device (store_of (journal_of rounds.new.flusher))) result.journal }

    // If a round takes the node down, a fault of the journal is reported: that a device call failed, or that the journal has no room.
    ensures down { is_down rounds.old.flusher ≡ false → IsSome result.journal ↔ IsTrue (is_down rounds.new.flusher) }
    ensures stays { IsTrue (is_down rounds.old.flusher) → (result.journal ≡ None) × (rounds.new.flusher ≡ rounds.old.flusher) }
    ensures full { is_down rounds.old.flusher ≡ false → result.journal ≡ Some JournalError.Full → HasNoPlace S.scheme D.device rounds.old.node rule.old missed.new (point_of rounds.old.flusher) rounds.new.flusher }

    // Unless a fault of the journal is reported, a checkpoint was made exactly after each round after which one was due, or `missed` says
    // that one was skipped.
    ensures by_rule { is_down rounds.old.flusher ≡ false → result.journal ≡ None → ByTheRule D.device (HasCheckpoint S.scheme D.device rounds.old.node) rule.old missed.new (point_of rounds.old.flusher) rule.new (point_of rounds.new.flusher) }
    ensures missed { missed.old ≡ true → missed.new ≡ true }

    ensures seen { Begins rounds.old.seat.view.seen rounds.new.seat.view.seen }
    // Unless the node is down or an allocation of a round failed, all events are settled that the rounds' seat had seen. This holds also
    // where an allocation for a checkpoint failed.
    ensures all { is_down rounds.new.flusher ≡ false → result.memory ≡ false → Begins rounds.old.seat.view.seen (settled_in rounds.new.flusher) }
    // After a failed allocation, nothing is taken that isn't settled.
    ensures memory { result.memory ≡ true → taken_in rounds.new.flusher ≡ settled_in rounds.new.flusher }
    ensures others { (result.output ≡ false) × (result.input ≡ false) }
    ensures node { rounds.new.node ≡ rounds.old.node }
    ensures more { Begins (settled_in rounds.old.flusher) (settled_in rounds.new.flusher) }
    // If the journal had some state followed by what was settled before the call, it now has the same state followed by what is settled
    // now.
    ensures earlier { is_down rounds.new.flusher ≡ false → KeepsEarlier S.scheme rounds.old.node (settled_in rounds.old.flusher) (settled_in rounds.new.flusher) (areas_of D.device (journal_of rounds.old.flusher)) (areas_of D.device (journal_of rounds.new.flusher)) }
    ensures any_moment { is_down rounds.old.flusher ≡ false → AtEachMomentOn D.device (HoldsMore S.scheme rounds.old.node (settled_in rounds.old.flusher) (areas_of D.device (journal_of rounds.old.flusher))) (store_of (journal_of rounds.old.flusher)) (store_of (journal_of rounds.new.flusher)) }
    ensures at_end { is_down rounds.old.flusher ≡ false → LeavesSettled S.scheme D.device rounds.old.node rounds.old.flusher (settled_in rounds.new.flusher) (store_of (journal_of rounds.new.flusher)) }
{
    for _ in rt.forever() {
        match flush_once(rt, rounds, rule, missed, settled) {
            Ok(0) => return Faults::none(),
            Ok(_) => (),
            Err(error) => return faults_of(error),
        }
    }
    unreachable!()
}

// Makes a round, and the checkpoint that is due after it, if one is. Gives the number of records that the round settled; 0 where all were
// settled already. If an allocation for the checkpoint fails, `missed` is set, and the checkpoint is due again after the next round.
fn flush_once<S: Sign, D: Disk, R: Wait>(
    rt: &R,
    rounds: &mut Rounds<'_, '_, S, D>,
    rule: &mut Rule,
    missed: &mut bool,
    settled: &Bell,
) -> Result<u64, FlushError>
    requires pair { IsSome rule.old.every → IsSome (spare_of (journal_of rounds.old.flusher)) }
    ensures once { FlushesOnce S.scheme D.device rule.old rule.new missed.new rounds.old rounds.new result }
    ensures missed { missed.old ≡ true → missed.new ≡ true }
{
    let round = rounds.round(rt);
    settled.ring(rt);
    match round {
        Ok(0) => Ok(0),
        Ok(count) => match rewrite_if_due(rt, rounds, rule, settled) {
            Ok(()) => Ok(count),
            Err(FlushError::Memory) => {
                *missed = true;
                Ok(count)
            }
            Err(error) => Err(error),
        },
        Err(error) => Err(error),
    }
}

// Rewrites the journal to a checkpoint, if one is due by the rule.
fn rewrite_if_due<S: Sign, D: Disk, R: Wait>(
    rt: &R,
    rounds: &mut Rounds<'_, '_, S, D>,
    rule: &mut Rule,
    settled: &Bell,
) -> Result<(), FlushError>
    requires up { is_down rounds.old.flusher ≡ false }
    requires pair { IsSome rule.old.every → IsSome (spare_of (journal_of rounds.old.flusher)) }
    ensures rewrites { RewritesWhereDue S.scheme D.device rule.old rule.new rounds.old rounds.new result }
{
    if !rule.is_due(length_of(rounds)) {
        return Ok(());
    }
    let rewritten = rounds.checkpoint(rt);
    settled.ring(rt);
    rewritten?;
    rule.since = length_of(rounds);
    Ok(())
}

/// The length, in bytes, of the area of the journal that is read. The node isn't down.
pub(crate) fn length_of<S: Sign, D: Disk>(rounds: &Rounds<'_, '_, S, D>) -> u64
    requires { is_down rounds.now.flusher ≡ false }
    ensures { result ≡ length_in D.device (journal_of rounds.now.flusher) }
{
    match rounds.len() {
        Some(len) => len,
        None => unreachable!(),
    }
}

// The faults that a run reports of a round that failed with this error. Of `Down` nothing is reported: the fault that took the node down
// was reported before.
fn faults_of(error: FlushError) -> Faults
    ensures { result ≡ faults_after error }
{
    match error {
        FlushError::Memory => Faults::of_memory(),
        FlushError::Device => Faults::of_journal(JournalError::Device),
        FlushError::Full => Faults::of_journal(JournalError::Full),
        FlushError::Down => Faults::none(),
    }
}
