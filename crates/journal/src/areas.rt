//! How the two areas of a journal on two disks are opened: which one is read, and what the opening leaves of both.

ghost use Rattle.std.specs.Prelude.{◌≡◌, ◌≢◌, ◌⊎◌, ◌+◌, ℕ, Some, None, Ok, Err, IfOk, IfErr, OnOk, IsErrOf, length, take};
ghost use Rattle.diskmodel.specs.Disk.{LeavesOnly, AtEachMoment, NoneNew, ReportsFault};
ghost use Rattle.journal.specs.Areas.{reports, chosen, pair, pair_of, stands_at, stands_in};
ghost use Rattle.journal.specs.Format.{stands, FailsAs};
ghost use Rattle.journal.specs.Reader.{TakesAll};
ghost use Rattle.journal.specs.Journal.{EndsClosed, IsClosedUp, IsSameAs, IsAsOneOf};
ghost use Rattle.journal.specs.Opened.{IsChoice, IsChosen, IsRested, AreOpened, is_shut, on_side, off_side};

use crate::error::JournalError;
use crate::journal::close_end;
use crate::layout::{SECOND_AREA, WINDOW_BYTES};
use crate::reader::Reader;
use crate::reading::reports;
use crate::side::Side;
use crate::window::read_area;
use diskmodel::Disk;
use std::alloc::Global;

// The first `most` bytes of a disk; all of its bytes, if it has fewer.
fn read_front<D: Disk>(alloc: Global, disk: &mut D, most: u64) -> Result<Vec<u8>, JournalError>
    ensures bytes { IfOk result (λ bytes. bytes.items ≡ take most (D.device.content disk.old)) }
    ensures content { D.device.content disk.new ≡ D.device.content disk.old }
    ensures outcomes { NoneNew (D.device.outcome disk.old) (D.device.outcome disk.new) }
    ensures any_moment { AtEachMoment D.device disk.old disk.new (D.device.outcome disk.old) }
    ensures errors { IfErr result (λ error. (error ≡ JournalError.Memory) ⊎ (error ≡ JournalError.Device)) }
    ensures cause { ReportsFault JournalError.Device (D.device.faults disk.old) (D.device.faults disk.new) result }
{
    let whole = disk.len()?;
    let len = whole.min(most) as usize;
    let mut bytes = vec![in alloc; 0; len]?;
    disk.read_at(0, &mut bytes)?;
    Ok(bytes)
}

// Reads from an area's first group what it says of the area's generation (`reports`). Afterwards the area's disk is durable.
fn reported_by<D: Disk>(alloc: Global, disk: &mut D) -> Result<Option<Option<u64>>, JournalError>
    ensures reported { IfOk result (λ reported. reported ≡ reports (D.device.content disk.old)) }
    ensures content { D.device.content disk.new ≡ D.device.content disk.old }
    ensures durable { OnOk result (LeavesOnly (D.device.content disk.new) (D.device.outcome disk.new)) }
    ensures any_moment { AtEachMoment D.device disk.old disk.new (D.device.outcome disk.old) }
    ensures errors { IfErr result (λ error. (error ≡ JournalError.Memory) ⊎ (error ≡ JournalError.Device)) }
    ensures cause { ReportsFault JournalError.Device (D.device.faults disk.old) (D.device.faults disk.new) result }
{
    // The gate has to be durable before it is read.
    disk.sync()?;
    let bytes = read_front(alloc, disk, WINDOW_BYTES)?;
    Ok(reports(alloc, &bytes)?)
}

// Chooses the area that is read, by what the first groups of both say, and its generation. In a new pair that is the first area.
#[tactic(auto, unfolding(crate::specs::Areas::chosen))]
fn choose(
    first: Option<Option<u64>>,
    second: Option<Option<u64>>,
) -> Result<(Side, u64), JournalError>
    ensures ok { IfOk result (λ choice. IsChoice choice.0 choice.1 first second) }
    ensures err { IfErr result (λ error. FailsAs error (chosen first second)) }
{
    match (first, second) {
        (None, None) => Ok((Side::First, 0)),
        (Some(None), _) => Err(JournalError::Damaged(0)),
        (_, Some(None)) => Err(JournalError::Damaged(SECOND_AREA)),
        (Some(Some(one)), None) => Ok((Side::First, one)),
        (None, Some(Some(other))) => Ok((Side::Second, other)),
        (Some(Some(one)), Some(Some(other))) => {
            if one == other {
                Err(JournalError::Damaged(SECOND_AREA))
            } else if other < one {
                Ok((Side::First, one))
            } else {
                Ok((Side::Second, other))
            }
        }
    }
}

// Gives the records of the area that is read to a reader. Leaves the file with a closed gate at its end, and returns its length.
fn open_area<D: Disk, R: Reader>(
    alloc: Global,
    side: Side,
    disk: &mut D,
    reader: &mut R,
) -> Result<u64, JournalError>
    requires { LeavesOnly (D.device.content disk.old) (D.device.outcome disk.old) }
    ensures ends_closed { OnOk result (EndsClosed (D.device.content disk.new)) }
    ensures len { IfOk result (λ len. len ≡ length (D.device.content disk.new)) }
    ensures records { OnOk result (TakesAll (λ records. R.takes reader.old records reader.new) (stands_at side (D.device.content disk.old))) }
    ensures same { OnOk result (stands (D.device.content disk.new) ≡ stands (D.device.content disk.old)) }
    ensures reports { OnOk result (reports (D.device.content disk.new) ≡ reports (D.device.content disk.old)) }
    ensures content { OnOk result (IsClosedUp (D.device.content disk.old) (D.device.content disk.new)) }
    ensures unchanged { IfErr result (λ error. error ≢ JournalError.Device → D.device.content disk.new ≡ D.device.content disk.old) }
    ensures durable { OnOk result (LeavesOnly (D.device.content disk.new) (D.device.outcome disk.new)) }
    ensures any_moment { AtEachMoment D.device disk.old disk.new (IsSameAs (D.device.content disk.old)) }
    ensures damaged { (place : ℕ) → IsErrOf result (JournalError.Damaged place) → stands_at side (D.device.content disk.old) ≡ Err place }
    ensures cause { ReportsFault JournalError.Device (D.device.faults disk.old) (D.device.faults disk.new) result }
    ensures never_full { IfErr result (λ error. error ≢ JournalError.Full) }
    ensures never_config { IfErr result (λ error. error ≢ JournalError.ConfigMismatch) }
{
    let (gate, len) = read_area(alloc, side, disk, reader)?;
    close_end(disk, len, gate)?;
    Ok(gate + 1)
}

// Cuts an area whose first gate is closed to that one gate.
fn shut_area<D: Disk>(disk: &mut D) -> Result<(), JournalError>
    requires shut { reports (D.device.content disk.old) ≡ None }
    requires durable { LeavesOnly (D.device.content disk.old) (D.device.outcome disk.old) }
    ensures len { OnOk result (length (D.device.content disk.new) ≡ 1) }
    ensures content { OnOk result (IsClosedUp (D.device.content disk.old) (D.device.content disk.new)) }
    ensures reports { OnOk result (reports (D.device.content disk.new) ≡ reports (D.device.content disk.old)) }
    ensures same { OnOk result (stands (D.device.content disk.new) ≡ stands (D.device.content disk.old)) }
    ensures durable { OnOk result (LeavesOnly (D.device.content disk.new) (D.device.outcome disk.new)) }
    ensures any_moment { AtEachMoment D.device disk.old disk.new (IsSameAs (D.device.content disk.old)) }
    ensures errors { IfErr result (λ error. error ≡ JournalError.Device) }
    ensures cause { ReportsFault JournalError.Device (D.device.faults disk.old) (D.device.faults disk.new) result }
{
    let len = disk.len()?;
    close_end(disk, len, 0)
}

// Leaves the spare area at rest: one closed gate if its first gate is closed (`shut`), and otherwise all its bytes.
fn rest_area<D: Disk>(disk: &mut D, shut: bool) -> Result<(), JournalError>
    requires shut { shut ≡ is_shut (D.device.content disk.old) }
    requires durable { LeavesOnly (D.device.content disk.old) (D.device.outcome disk.old) }
    ensures rested { OnOk result (IsRested (D.device.content disk.old) (D.device.content disk.new)) }
    ensures durable { OnOk result (LeavesOnly (D.device.content disk.new) (D.device.outcome disk.new)) }
    ensures any_moment { AtEachMoment D.device disk.old disk.new (IsSameAs (D.device.content disk.old)) }
    ensures errors { IfErr result (λ error. error ≡ JournalError.Device) }
    ensures cause { ReportsFault JournalError.Device (D.device.faults disk.old) (D.device.faults disk.new) result }
{
    disk.end_reading();
    if shut {
        return shut_area(disk);
    }
    Ok(())
}

// Opens both areas, once it is known which one is read: the one on this side, with this generation.
fn settle<D: Disk, R: Reader>(
    alloc: Global,
    side: Side,
    generation: u64,
    live: &mut D,
    other: &mut D,
    shut: bool,
    reader: &mut R,
) -> Result<u64, JournalError>
    requires chosen { IsChosen side generation (D.device.content live.old) (D.device.content other.old) }
    requires shut { shut ≡ is_shut (D.device.content other.old) }
    requires durable { LeavesOnly (D.device.content live.old) (D.device.outcome live.old) }
    requires other_durable { LeavesOnly (D.device.content other.old) (D.device.outcome other.old) }
    ensures opened { OnOk result (AreOpened D.device side generation live.old other.old live.new other.new) }
    ensures records { OnOk result (TakesAll (λ records. R.takes reader.old records reader.new) (stands_in (pair_of side (D.device.content live.old) (D.device.content other.old)))) }
    ensures len { IfOk result (λ len. len ≡ length (D.device.content live.new)) }
    ensures live_same { IfErr result (λ error. error ≢ JournalError.Device → D.device.content live.new ≡ D.device.content live.old) }
    ensures other_same { IfErr result (λ error. error ≢ JournalError.Device → D.device.content other.new ≡ D.device.content other.old) }
    ensures any_moment { AtEachMoment D.device live.old live.new (IsSameAs (D.device.content live.old)) }
    ensures other_moment { AtEachMoment D.device other.old other.new (IsSameAs (D.device.content other.old)) }
    ensures damaged { (place : ℕ) → IsErrOf result (JournalError.Damaged place) → stands_in (pair_of side (D.device.content live.old) (D.device.content other.old)) ≡ Err place }
    ensures cause { ReportsFault JournalError.Device (D.device.faults live.old + D.device.faults other.old) (D.device.faults live.new + D.device.faults other.new) result }
    ensures never_full { IfErr result (λ error. error ≢ JournalError.Full) }
    ensures never_config { IfErr result (λ error. error ≢ JournalError.ConfigMismatch) }
{
    let len = open_area(alloc, side, live, reader)?;
    rest_area(other, shut)?;
    Ok(len)
}

// What opening both areas has found.
pub(crate) struct Opened {
    // The side of the area that is read, and its generation.
    pub(crate) side: Side,
    pub(crate) generation: u64,
    // The length of the area that is read, in bytes.
    pub(crate) len: u64,
}

// Opens both areas. The one on this side, of this generation, is read; the two flags say whether the first gates are closed.
fn settle_side<D: Disk, R: Reader>(
    alloc: Global,
    choice: (Side, u64),
    first: &mut D,
    second: &mut D,
    first_shut: bool,
    second_shut: bool,
    reader: &mut R,
) -> Result<Opened, JournalError>
    requires choice { IsChoice choice.0 choice.1 (reports (D.device.content first.old)) (reports (D.device.content second.old)) }
    requires first_shut { first_shut ≡ is_shut (D.device.content first.old) }
    requires second_shut { second_shut ≡ is_shut (D.device.content second.old) }
    requires first_durable { LeavesOnly (D.device.content first.old) (D.device.outcome first.old) }
    requires second_durable { LeavesOnly (D.device.content second.old) (D.device.outcome second.old) }
    ensures chosen { IfOk result (λ opened. IsChoice opened.side opened.generation (reports (D.device.content first.old)) (reports (D.device.content second.old))) }
    ensures opened { IfOk result (λ opened. AreOpened D.device opened.side opened.generation (on_side opened.side first.old second.old) (off_side opened.side first.old second.old) (on_side opened.side first.new second.new) (off_side opened.side first.new second.new)) }
    ensures records { OnOk result (TakesAll (λ records. R.takes reader.old records reader.new) (stands_in (pair (D.device.content first.old) (D.device.content second.old)))) }
    ensures len { IfOk result (λ opened. opened.len ≡ length (D.device.content (on_side opened.side first.new second.new))) }
    ensures first_same { IfErr result (λ error. error ≢ JournalError.Device → D.device.content first.new ≡ D.device.content first.old) }
    ensures second_same { IfErr result (λ error. error ≢ JournalError.Device → D.device.content second.new ≡ D.device.content second.old) }
    ensures first_moment { AtEachMoment D.device first.old first.new (IsSameAs (D.device.content first.old)) }
    ensures second_moment { AtEachMoment D.device second.old second.new (IsSameAs (D.device.content second.old)) }
    ensures damaged { (place : ℕ) → IsErrOf result (JournalError.Damaged place) → stands_in (pair (D.device.content first.old) (D.device.content second.old)) ≡ Err place }
    ensures cause { ReportsFault JournalError.Device (D.device.faults first.old + D.device.faults second.old) (D.device.faults first.new + D.device.faults second.new) result }
    ensures never_full { IfErr result (λ error. error ≢ JournalError.Full) }
    ensures never_config { IfErr result (λ error. error ≢ JournalError.ConfigMismatch) }
{
    let (side, generation) = choice;
    let len = match side {
        Side::First => settle(
            alloc,
            Side::First,
            generation,
            first,
            second,
            second_shut,
            reader,
        )?,
        Side::Second => settle(
            alloc,
            Side::Second,
            generation,
            second,
            first,
            first_shut,
            reader,
        )?,
    };
    Ok(Opened {
        side,
        generation,
        len,
    })
}

// Opens both areas, and chooses by their first groups which one is read.
pub(crate) fn open_areas<D: Disk, R: Reader>(
    alloc: Global,
    first: &mut D,
    second: &mut D,
    reader: &mut R,
) -> Result<Opened, JournalError>
    ensures chosen { IfOk result (λ opened. IsChoice opened.side opened.generation (reports (D.device.content first.old)) (reports (D.device.content second.old))) }
    ensures opened { IfOk result (λ opened. AreOpened D.device opened.side opened.generation (on_side opened.side first.old second.old) (off_side opened.side first.old second.old) (on_side opened.side first.new second.new) (off_side opened.side first.new second.new)) }
    ensures records { OnOk result (TakesAll (λ records. R.takes reader.old records reader.new) (stands_in (pair (D.device.content first.old) (D.device.content second.old)))) }
    ensures len { IfOk result (λ opened. opened.len ≡ length (D.device.content (on_side opened.side first.new second.new))) }
    ensures first_same { IfErr result (λ error. error ≢ JournalError.Device → D.device.content first.new ≡ D.device.content first.old) }
    ensures second_same { IfErr result (λ error. error ≢ JournalError.Device → D.device.content second.new ≡ D.device.content second.old) }
    ensures first_moment { AtEachMoment D.device first.old first.new (IsAsOneOf (D.device.outcome first.old)) }
    ensures second_moment { AtEachMoment D.device second.old second.new (IsAsOneOf (D.device.outcome second.old)) }
    ensures damaged { (place : ℕ) → IsErrOf result (JournalError.Damaged place) → stands_in (pair (D.device.content first.old) (D.device.content second.old)) ≡ Err place }
    ensures cause { ReportsFault JournalError.Device (D.device.faults first.old + D.device.faults second.old) (D.device.faults first.new + D.device.faults second.new) result }
    ensures never_full { IfErr result (λ error. error ≢ JournalError.Full) }
    ensures never_config { IfErr result (λ error. error ≢ JournalError.ConfigMismatch) }
{
    let reported = reported_by(alloc, first)?;
    let also = reported_by(alloc, second)?;
    let choice = choose(reported, also)?;
    settle_side(
        alloc,
        choice,
        first,
        second,
        reported.is_none(),
        also.is_none(),
        reader,
    )
}
