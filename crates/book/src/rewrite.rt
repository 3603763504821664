//! How the journal of a book is rewritten to a checkpoint.

ghost use Rattle.std.specs.Prelude.{◌≡◌, ◌⊎◌, ◌+◌, None, Some, true, IfOk, OnErr, IsSome, IsErrOf};
ghost use Rattle.diskmodel.specs.Disk.{AtEachMoment, ReportsFault};
ghost use Rattle.journal.specs.Areas.{reports};
ghost use Rattle.journal.specs.Journal.{disk_of, spare_of, IsAlive};
ghost use Rattle.journal.specs.Pairs.{HaveKeptPlaces, generation_in, spare_disk, rewritten_disk, untouched_disk};
ghost use Rattle.validator.specs.Setting.{node_of};
ghost use Rattle.book.specs.InFlight.{StandsSomewhere, RewritesOnlyDown};
ghost use Rattle.book.specs.Checkpoints.{Checkpoints, FindsNoRoomToRewrite, FailsToRewrite, StandsAsOrForAll};

use crate::book::Book;
use crate::own::FlushError;
use diskmodel::Disk;
use journal::{Journal, JournalError};
use sigface::Sign;

/// Takes all accepted records, rewrites the journal, which is on two disks, to a checkpoint of the state after them, and settles them.
/// Gives the journal's new generation.
pub(crate) fn rewrite_to_all<S: Sign, D: Disk>(
    book: &mut Book<'_, S>,
    journal: &mut Journal<D>,
) -> Result<u64, FlushError>
    requires alive { IsAlive D.device journal.old }
    requires pair { IsSome (spare_of journal.old) }
    requires begun { reports (D.device.content (disk_of journal.old)) ≡ Some (Some (generation_in journal.old)) }
    requires free { book.old.taken ≡ book.old.settled }
    requires none { book.old.rewriting ≡ None }
    requires stands { StandsSomewhere (node_of S.scheme book.old.validator.setting) book.old }
    ensures settled { IfOk result (λ generation. Checkpoints (node_of S.scheme book.old.validator.setting) D.device book.old book.new journal.old journal.new) }
    ensures answer { IfOk result (λ generation. generation ≡ generation_in journal.new) }
    ensures never_down { IsErrOf result FlushError.Down → ⊥ }
    ensures unchanged { IsErrOf result FlushError.Memory → (book.new ≡ book.old) × (journal.new ≡ journal.old) }
    ensures full { IsErrOf result FlushError.Full → FindsNoRoomToRewrite (node_of S.scheme book.old.validator.setting) book.old book.new journal.old }
    ensures full_same { IsErrOf result FlushError.Full → journal.new ≡ journal.old }
    ensures fails { IsErrOf result FlushError.Device → FailsToRewrite (node_of S.scheme book.old.validator.setting) book.old book.new journal.old }
    ensures any_moment { AtEachMoment D.device (spare_disk journal.old) (rewritten_disk result journal.new) (StandsAsOrForAll (node_of S.scheme book.old.validator.setting) D.device book.old journal.old) }
    ensures untouched { untouched_disk result journal.new ≡ disk_of journal.old }
    ensures keeps { OnErr result (HaveKeptPlaces journal.old journal.new) }
    ensures alive { (IsErrOf result FlushError.Device) ⊎ IsAlive D.device journal.new }
    ensures dead { IsErrOf result FlushError.Device → ¬ IsAlive D.device journal.new }
    ensures cause { ReportsFault FlushError.Device (D.device.faults (spare_disk journal.old)) (D.device.faults (rewritten_disk result journal.new)) result }
    ensures somewhere { StandsSomewhere (node_of S.scheme book.old.validator.setting) book.new }
    ensures only_down { RewritesOnlyDown book.new }
    ensures setting { book.new.validator.setting ≡ book.old.validator.setting }
{
    let snapshot = book.take_all()?;
    match journal.rewrite(snapshot) {
        Ok(synced) => {
            book.settle(synced);
            Ok(journal.generation())
        }
        Err(JournalError::Full) => {
            book.fail();
            Err(FlushError::Full)
        }
        Err(_) => {
            book.fail();
            Err(FlushError::Device)
        }
    }
}
