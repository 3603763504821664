//! The checkpoint of a book, made on two new disks.

ghost use Rattle.std.specs.Prelude.{◌≤◌, length, IsSome};
ghost use Rattle.journal.specs.Journal.{disk_of, spare_of, IsAlive};

use crate::memory::{disk_with, failing_disk};
use crate::store::area_runs::{add_first, own_configuration};
use crate::store::words::{Reported, bad, put_count, put_shown};
use book::OwnBook;
use diskmodel::{CallKind, Disk, MemDisk};
use journal::Journal;
use sigface::HashSign;
use std::alloc::Global;
use validator::Config;

/// Makes a checkpoint of a book on two new disks, which have nothing but the node's configuration. The `count`-th write to the spare disk
/// is set to fail; 0 sets none. Adds the new generation, and the length of the area that is read from then on.
pub fn put_checkpoint(
    alloc: Global,
    config: &Config<HashSign>,
    own: &mut OwnBook<'_, HashSign>,
    count: u64,
    answer: &mut String,
) -> Reported {
    let first = disk_with(alloc, &[])?;
    let other = failing_disk(alloc, &[], CallKind::Write, count)?;
    let Ok((mut journal, _)) = Journal::open_pair(alloc, first, other) else {
        bad(answer);
        return Ok(());
    };
    let configuration = own_configuration(alloc, config)?;
    match add_first(alloc, &mut journal, configuration)? {
        true => rewrite(own, &mut journal, answer),
        false => bad(answer),
    }
    Ok(())
}

/// Makes a checkpoint of a book on these two disks. The area that is read has a first group already.
fn rewrite(own: &mut OwnBook<'_, HashSign>, journal: &mut Journal<MemDisk>, answer: &mut String)
    requires alive { IsAlive ⟦<MemDisk as Disk>⟧.device journal.old }
    requires pair { IsSome (spare_of journal.old) }
{
    if journal.len() < 2 {
        return bad(answer);
    }
    rewrite_begun(own, journal, answer)
}

/// Makes the checkpoint, when the area that is read has more than one byte, and adds the result.
#[tactic(auto, using(crate::proofs::Begun::begun))]
fn rewrite_begun(
    own: &mut OwnBook<'_, HashSign>,
    journal: &mut Journal<MemDisk>,
    answer: &mut String,
)
    requires alive { IsAlive ⟦<MemDisk as Disk>⟧.device journal.old }
    requires pair { IsSome (spare_of journal.old) }
    requires begun { 2 ≤ length (⟦<MemDisk as Disk>⟧.device.content (disk_of journal.old)) }
{
    match own.checkpoint(journal) {
        Ok(generation) => {
            put_count(answer, "generation ", generation, "");
            put_count(answer, ", ", journal.len(), " bytes\n");
        }
        Err(error) => put_shown(answer, "", &error, "\n"),
    }
}
