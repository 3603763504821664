//! What the bytes of a journal are read as: laws for all bytes.

ghost use Rattle.std.specs.Prelude.{◌≡◌, ◌↔◌, ℕ, ◌≤◌, ◌<◌, ◌^◌, List, [], ◌∷◌, ◌++◌, length, map, Ok, Err};
ghost use Rattle.std.specs.List.{All};
ghost use Rattle.diskmodel.specs.Outcomes.{AreBytes};
ghost use Rattle.journal.specs.declared.layout.TheConstants.{CLOSED, OPEN, LENGTH_BYTES, MAX_GROUP_RECORDS, MAX_GROUP_BYTES, MAX_JOURNAL_BYTES};
ghost use Rattle.journal.specs.declared.record.Record.{Record};
ghost use Rattle.journal.specs.Areas.{pair, stands_in};
ghost use Rattle.journal.specs.Journal.{IsAsOneOf};
ghost use Rattle.journal.specs.Format.{FitsGroup, Gated, IsOpen, in_turn, file_with, file_bytes, all_kept, stands, AreGroups, IsDamagedAt};

use diskmodel::Disk;

/// The constants of the format, as numbers. The call does nothing: it is a theorem.
pub fn layout_in_numbers()
    ensures length { LENGTH_BYTES ≡ 4 }
    ensures group_records { MAX_GROUP_RECORDS ≡ 1024 }
    ensures group_bytes { MAX_GROUP_BYTES ≡ 4194304 }
    ensures journal_bytes { MAX_JOURNAL_BYTES ≡ 2 ^ 40 }
    ensures closed { CLOSED ≡ 0 }
    ensures opened { OPEN ≡ 1 }
{}

/// Bytes that are groups after open gates, and then a closed gate, are read as the records of these groups, each with the place of its
/// group's gate, whatever follows. Conversely, if bytes are read as records they are of this form, or are at most one byte and no records.
pub fn groups_stand()
    ensures stand { (groups : List Gated) (after : List ℕ) → All IsOpen groups → stands (in_turn groups ++ CLOSED ∷ after) ≡ Ok (all_kept 0 (map (λ group. group.records) groups)) }
    ensures only { (bytes : List ℕ) (records : List Record) → AreBytes bytes → 2 ≤ length bytes → stands bytes ≡ Ok records → AreGroups bytes records }
    ensures short { (bytes : List ℕ) → length bytes < 2 → stands bytes ≡ Ok [] }
{}

/// Two bytes or more are read as damaged at a place if and only if the bytes before it are whole groups, each after an open gate, and the
/// gate at that place is open too but has no whole group after it.
pub fn damage_is_found()
    ensures { (bytes : List ℕ) (place : ℕ) → AreBytes bytes → (stands bytes ≡ Err place) ↔ IsDamagedAt bytes place }
{}

/// The bytes of groups within their limits, with anything after the last closed gate, are read as the records of these groups, each with
/// the place of its group's gate. So to append a group is to write one group more.
pub fn written_groups_stand()
    ensures stand { (groups : List (List (List ℕ))) (after : List ℕ) → All FitsGroup groups → stands (file_bytes groups ++ after) ≡ Ok (all_kept 0 groups) }
    ensures one_more { (groups : List (List (List ℕ))) (group : List (List ℕ)) → file_with (file_bytes groups) group ≡ file_bytes (groups ++ group ∷ []) }
{}

/// Let each of two areas be a possible outcome of its disk, or have the generation and the records of an undamaged outcome. Then both areas
/// together are read as some two outcomes of the disks are.
pub fn both_stand_as_before<D: Disk>()
    ensures { (first second : D) (left right : List ℕ) → IsAsOneOf (D.device.outcome first) left → IsAsOneOf (D.device.outcome second) right → (one : List ℕ) × (other : List ℕ) × D.device.outcome first one × D.device.outcome second other × (stands_in (pair left right) ≡ stands_in (pair one other)) }
{}
