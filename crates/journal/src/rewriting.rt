//! How an area is rewritten: it is cut to one closed gate, its groups are written after that gate, and then the gate is opened.

ghost use Rattle.std.specs.Prelude.{◌≡◌, ◌++◌, ◌∷◌, [], ℕ, IfErr, OnOk, OnErr};
ghost use Rattle.diskmodel.specs.Disk.{LeavesOnly, AtEachMoment, ReportsFault};
ghost use Rattle.journal.specs.Areas.{IsAtRest, IsOlder, IsOlderOrNew, clear_calls, fill_calls, rewrite_calls};
ghost use Rattle.journal.specs.Journal.{MadeSome};
ghost use Rattle.journal.specs.declared.layout.TheConstants.{CLOSED, OPEN};

use crate::error::JournalError;
use crate::layout::{CLOSED, OPEN};
use diskmodel::Disk;

/// Rewrites an area to an open gate and these bytes. A stop at any moment of the call leaves an area that will not be read, since its first
/// gate is closed or its generation lower, or it leaves the new bytes after an open gate.
pub(crate) fn rewrite_area<D: Disk>(disk: &mut D, bytes: &[u8]) -> Result<(), JournalError>
    requires { LeavesOnly (D.device.content disk.old) (D.device.outcome disk.old) }
    ensures content { OnOk result (D.device.content disk.new ≡ OPEN ∷ bytes.now) }
    ensures durable { OnOk result (LeavesOnly (D.device.content disk.new) (D.device.outcome disk.new)) }
    ensures any_moment { (above : ℕ) → IsAtRest above (D.device.content disk.old) → AtEachMoment D.device disk.old disk.new (IsOlderOrNew above bytes.now) }
    ensures errors { IfErr result (λ error. error ≡ JournalError.Device) }
    ensures cause { ReportsFault JournalError.Device (D.device.faults disk.old) (D.device.faults disk.new) result }
    ensures calls { OnOk result (D.device.calls disk.new ≡ D.device.calls disk.old ++ rewrite_calls bytes.now) }
    ensures calls_err { OnErr result (MadeSome (rewrite_calls bytes.now) (D.device.calls disk.old) (D.device.calls disk.new)) }
{
    clear(disk)?;
    fill(disk, bytes)
}

// Cuts an area to one closed gate.
fn clear<D: Disk>(disk: &mut D) -> Result<(), JournalError>
    requires { LeavesOnly (D.device.content disk.old) (D.device.outcome disk.old) }
    ensures content { OnOk result (D.device.content disk.new ≡ CLOSED ∷ []) }
    ensures durable { OnOk result (LeavesOnly (D.device.content disk.new) (D.device.outcome disk.new)) }
    ensures any_moment { (above : ℕ) → IsAtRest above (D.device.content disk.old) → AtEachMoment D.device disk.old disk.new (IsOlder above) }
    ensures errors { IfErr result (λ error. error ≡ JournalError.Device) }
    ensures cause { ReportsFault JournalError.Device (D.device.faults disk.old) (D.device.faults disk.new) result }
    ensures calls { OnOk result (D.device.calls disk.new ≡ D.device.calls disk.old ++ clear_calls) }
    ensures calls_err { OnErr result (MadeSome clear_calls (D.device.calls disk.old) (D.device.calls disk.new)) }
{
    disk.write_at(0, &[CLOSED])?;
    // The closed gate has to be durable before the bytes after it are cut off.
    disk.sync()?;
    disk.cut(1)?;
    disk.sync()?;
    Ok(())
}

// Writes these bytes after the only gate of an area, which is closed, and then opens that gate.
fn fill<D: Disk>(disk: &mut D, bytes: &[u8]) -> Result<(), JournalError>
    requires cleared { D.device.content disk.old ≡ CLOSED ∷ [] }
    requires durable { LeavesOnly (D.device.content disk.old) (D.device.outcome disk.old) }
    ensures content { OnOk result (D.device.content disk.new ≡ OPEN ∷ bytes.now) }
    ensures durable { OnOk result (LeavesOnly (D.device.content disk.new) (D.device.outcome disk.new)) }
    ensures any_moment { (above : ℕ) → AtEachMoment D.device disk.old disk.new (IsOlderOrNew above bytes.now) }
    ensures errors { IfErr result (λ error. error ≡ JournalError.Device) }
    ensures cause { ReportsFault JournalError.Device (D.device.faults disk.old) (D.device.faults disk.new) result }
    ensures calls { OnOk result (D.device.calls disk.new ≡ D.device.calls disk.old ++ fill_calls bytes.now) }
    ensures calls_err { OnErr result (MadeSome (fill_calls bytes.now) (D.device.calls disk.old) (D.device.calls disk.new)) }
{
    disk.write_at(1, bytes)?;
    // The groups have to be durable before their first gate is opened.
    disk.sync()?;
    disk.write_at(0, &[OPEN])?;
    disk.sync()?;
    Ok(())
}
