//! Writes checkpoints of a validator to its journal on two disks.

ghost use Rattle.std.specs.Prelude.{◌≡◌, ◌≢◌, ◌⊎◌, ◌+◌, [], Ok, IfOk, IfErr, OnOk, OnErr, IsSome};
ghost use Rattle.diskmodel.specs.Disk.{AtEachMoment, ReportsFault};
ghost use Rattle.journal.specs.Areas.{stands_in};
ghost use Rattle.journal.specs.Journal.{disk_of, spare_of, IsAlive};
ghost use Rattle.journal.specs.Pairs.{HaveChangedPlaces, HaveKeptPlaces, spare_disk, generation_in, areas_of, areas_with, rewritten_disk, untouched_disk};
ghost use Rattle.validator.specs.Setting.{node_of};
ghost use Rattle.opening.specs.Renewing.{KeepsStatesIn, IsNewest, IsFullAt, HasRoomAt};
ghost use Rattle.opening.specs.Decoded.{decoded_in, StandsAt};
ghost use Rattle.spec_world.specs.Runs.{AreKeys};

use crate::configuration::keys_hold;
use diskmodel::Disk;
use journal::{Journal, JournalError};
use sigface::Sign;
use validator::Validator;

/// Writes a checkpoint of a validator to the spare area of its journal; that area is read from then on. Returns its generation. The journal
/// decodes to the same state before the call, at every moment of it, and after it.
///
/// # Errors
/// `Memory` if an allocation failed, and `Full` if the checkpoint has no room; both change nothing. `Device` if the disk that is written
/// failed: nothing can be written any more then, and both disks have to be opened again.
pub fn checkpoint<S: Sign, D: Disk>(
    validator: &Validator<'_, S>,
    journal: &mut Journal<D>,
) -> Result<u64, JournalError>
    requires alive { IsAlive D.device journal.old }
    requires pair { IsSome (spare_of journal.old) }
    requires configured { stands_in (areas_of D.device journal.old) ≢ Ok [] }
    requires stands { let node = node_of S.scheme validator.now.setting in StandsAt node (decoded_in node (areas_of D.device journal.old)) validator.now.tables }

    ensures generation { IfOk result (λ generation. generation ≡ generation_in journal.new) }
    ensures next { OnOk result (generation_in journal.new ≡ generation_in journal.old + 1) }
    ensures alive { OnOk result (IsAlive D.device journal.new) }
    ensures swapped { OnOk result (HaveChangedPlaces journal.old journal.new) }
    ensures same { let node = node_of S.scheme validator.now.setting in OnOk result (decoded_in node (areas_of D.device journal.new) ≡ decoded_in node (areas_of D.device journal.old)) }
    // After success the journal is a proper one of the node, in version 2, with each state that it stood for before.
    ensures configured { OnOk result (stands_in (areas_of D.device journal.new) ≢ Ok []) }
    ensures newest { OnOk result (IsNewest (areas_of D.device journal.new)) }
    ensures kept { OnOk result (KeepsStatesIn (node_of S.scheme validator.now.setting) (areas_of D.device journal.old) (areas_of D.device journal.new)) }

    // What a stop at any moment leaves of the spare area decodes, together with the area that was read so far, to the same state.
    ensures any_moment { let node = node_of S.scheme validator.now.setting in AtEachMoment D.device (spare_disk journal.old) (rewritten_disk result journal.new)
        (λ left. decoded_in node (areas_with D.device journal.old left) ≡ decoded_in node (areas_of D.device journal.old)) }
    ensures untouched { untouched_disk result journal.new ≡ disk_of journal.old }

    ensures errors { IfErr result (λ error. (error ≡ JournalError.Device) ⊎ (error ≡ JournalError.Memory) ⊎ (error ≡ JournalError.Full)) }
    // The error is Full only if the checkpoint has no room, and the call succeeds only if it has room.
    ensures full { IfErr result (λ error. error ≡ JournalError.Full → IsFullAt (node_of S.scheme validator.now.setting) D.device journal.old) }
    ensures room { OnOk result (HasRoomAt (node_of S.scheme validator.now.setting) D.device journal.old) }
    // The error is Device if and only if the disk that is written has counted a failed call.
    ensures cause { ReportsFault JournalError.Device (D.device.faults (spare_disk journal.old)) (D.device.faults (rewritten_disk result journal.new)) result }
    ensures unchanged { IfErr result (λ error. error ≢ JournalError.Device → journal.new ≡ journal.old) }
    ensures keeps { OnErr result (HaveKeptPlaces journal.old journal.new) }
{
    validator.limits_hold();
    keys_hold(validator.committee());
    let snapshot = validator.snapshot()?;
    let _ = journal.rewrite(snapshot)?.records();
    Ok(journal.generation())
}
