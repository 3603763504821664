//! Chooses which of a journal's two files is read, and reads its records, by the definitions that an opening of a node obeys too.

ghost use Rattle.std.specs.Prelude.{◌≡◌, ◌<◌, ◌^◌, Ok, All, map, IfOk, IfErr};
ghost use Rattle.journal.specs.Areas.{reports, chosen, pair, stands_in, moved, moved_by};
ghost use Rattle.journal.specs.Format.{FailsAs, stands};
ghost use Rattle.journal.specs.declared.layout.TheConstants.{SECOND_AREA};

use crate::flaw::{Flaw, Why};
use journal::{JournalError, Record, SECOND_AREA, Side, reports, stands};
use opening::is_text;
use std::alloc::Global;

/// The file that is read, of two files with these bytes: the one of the greater generation. None if neither begins with an open gate.
///
/// # Errors
/// `Damaged` at the first gate of a file whose first group is not that of a journal, or of the second file if both have the same
/// generation; `Memory` if an allocation failed.
pub fn side_read(alloc: Global, first: &[u8], second: &[u8]) -> Result<Option<Side>, Flaw>
    ensures ok { IfOk result (λ side. chosen (reports first.now) (reports second.now) ≡ Ok side) }
    ensures err { IfErr result (λ flaw. FailsAs flaw.error (chosen (reports first.now) (reports second.now))) }
{
    let one = reports(alloc, first)?;
    let other = reports(alloc, second)?;
    choose(one, other)
}

/// The records of a journal with these bytes in its two files. The call takes the bytes over and frees them.
///
/// # Errors
/// Those of `side_read`; `Damaged` at an open gate that no whole group follows; `Memory` if an allocation failed.
#[tactic(auto, unfolding(journal::specs::Areas::stands_in))]
pub fn records_in(alloc: Global, first: Vec<u8>, second: Vec<u8>) -> Result<Vec<Record>, Flaw>
    ensures ok { IfOk result (λ records. stands_in (pair first.items second.items) ≡ Ok records.items) }
    ensures err { IfErr result (λ flaw. FailsAs flaw.error (stands_in (pair first.items second.items))) }
{
    match side_read(alloc, &first, &second)? {
        None => Ok(Vec::new(alloc)),
        Some(Side::First) => first_records(alloc, first),
        Some(Side::Second) => second_records(alloc, second),
    }
}

// Chooses the file that is read, by what the first groups of both files say of their generations.
#[tactic(auto, unfolding(journal::specs::Areas::chosen))]
fn choose(first: Option<Option<u64>>, second: Option<Option<u64>>) -> Result<Option<Side>, Flaw>
    ensures ok { IfOk result (λ side. chosen first second ≡ Ok side) }
    ensures err { IfErr result (λ flaw. FailsAs flaw.error (chosen first second)) }
{
    match (first, second) {
        (None, None) => Ok(None),
        (Some(None), _) => Err(Flaw::at(0, Why::FirstGroup)),
        (_, Some(None)) => Err(Flaw::at(SECOND_AREA, Why::FirstGroup)),
        (Some(Some(_)), None) => Ok(Some(Side::First)),
        (None, Some(Some(_))) => Ok(Some(Side::Second)),
        (Some(Some(one)), Some(Some(other))) => {
            if one == other {
                Err(Flaw::at(SECOND_AREA, Why::Same))
            } else if other < one {
                Ok(Some(Side::First))
            } else {
                Ok(Some(Side::Second))
            }
        }
    }
}

// The records of the first file, given its bytes.
fn first_records(alloc: Global, bytes: Vec<u8>) -> Result<Vec<Record>, Flaw>
    ensures ok { IfOk result (λ records. stands bytes.items ≡ Ok records.items) }
    ensures err { IfErr result (λ flaw. FailsAs flaw.error (stands bytes.items)) }
{
    match stands(alloc, &bytes) {
        Ok(records) => Ok(records),
        Err(error) => Err(Flaw {
            error,
            why: Why::of_reading(error),
        }),
    }
}

// The records of the second file, given its bytes. Places in it are counted from `SECOND_AREA`.
fn second_records(alloc: Global, bytes: Vec<u8>) -> Result<Vec<Record>, Flaw>
    ensures ok { IfOk result (λ records. moved SECOND_AREA (stands bytes.items) ≡ Ok records.items) }
    ensures err { IfErr result (λ flaw. FailsAs flaw.error (moved SECOND_AREA (stands bytes.items))) }
{
    journal::damage_is_found();
    is_text(&bytes, 0);
    let len = bytes.len() as u64;
    match stands(alloc, &bytes) {
        Ok(mut records) => {
            move_all(&mut records, len);
            Ok(records)
        }
        Err(JournalError::Damaged(gate)) => Err(Flaw::at(SECOND_AREA + gate, Why::Group)),
        Err(_) => Err(Flaw::memory()),
    }
}

// Adds `SECOND_AREA` to the places of these records. All of the places are below `len` before.
fn move_all(records: &mut Vec<Record>, len: u64)
    requires below { All (λ one. one.gate < len) records.old.items }
    requires room { len < 2 ^ 63 }
    ensures { records.new.items ≡ map (moved_by SECOND_AREA) records.old.items }
{
    for one in records.iter_mut() {
        one.gate += SECOND_AREA;
    }
}

impl Why {
    // Why no records were read.
    fn of_reading(error: JournalError) -> Why {
        match error {
            JournalError::Memory => Why::Memory,
            _ => Why::Group,
        }
    }
}
