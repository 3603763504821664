//! Openings of a node, or runs of a script, in which a call of the disk fails, and the openings on whatever a stop may leave after that.

use crate::memory::{failing_disk, stop_with};
use crate::store::openings::opened;
use crate::store::scripts::Script;
use crate::store::words::{Reported, put, put_once};
use diskmodel::{CallKind, MemDisk};
use sigface::HashSign;
use std::alloc::{AllocError, Global};
use validator::Config;

/// A byte that occurs in no journal here.
const OTHER: u8 = 0x99;

/// In how many ways the places are filled that were written and not synced when the machine stops.
const FILLS: usize = 4;

/// An attempt to open a node on a file, and to carry out a script if there is one, with the `count`-th call of this kind set to fail.
#[derive(Clone, Copy)]
pub struct Trial<'a> {
    pub alloc: Global,
    pub config: &'a Config<HashSign>,
    pub file: &'a [u8],
    pub kind: CallKind,
    pub count: u64,
    pub script: Option<Script<'a>>,
}

impl Trial<'_> {
    /// Adds the answer of the opening or of the script; then, for each outcome that a stop may leave after that, the answer of an opening
    /// on it. No answer is added twice.
    pub fn write_to(&self, answer: &mut String) -> Reported {
        let disk = self.play(answer)?;
        put(answer, "\n");
        let longest = disk.bytes().len().max(disk.durable().len());
        for fill in 0..FILLS {
            for length in 0..=longest {
                if length % FILLS == fill || length == longest {
                    self.report_outcome(&disk, length, fill, answer)?;
                }
            }
        }
        Ok(())
    }

    /// Adds how a node is opened after a stop that leaves the bytes of this length and fill, if a stop may leave them.
    fn report_outcome(
        &self,
        disk: &MemDisk,
        length: usize,
        fill: usize,
        answer: &mut String,
    ) -> Reported {
        let bytes = outcome(self.alloc, disk, length, fill)?;
        if disk.can_leave(&bytes) {
            self.report_after(&bytes, answer)?;
        }
        Ok(())
    }

    /// The disk after the opening, or after the script.
    fn play(&self, text: &mut String) -> Result<MemDisk, AllocError> {
        let disk = failing_disk(self.alloc, self.file, self.kind, self.count)?;
        match &self.script {
            Some(script) => script.left_by(disk, text),
            None => Ok(opened(self.alloc, self.config, disk, text)),
        }
    }

    /// Adds how a node is opened after a stop that leaves these bytes, unless the same was added already.
    fn report_after(&self, outcome: &[u8], answer: &mut String) -> Reported {
        let mut text = String::new(self.alloc);
        let mut disk = self.play(&mut text)?;
        stop_with(self.alloc, &mut disk, outcome)?;
        text.clear();
        put(
            &mut text,
            if disk.bytes() == outcome {
                "then "
            } else {
                "other bytes, "
            },
        );
        let _ = opened(self.alloc, self.config, disk, &mut text);
        put(&mut text, "\n");
        put_once(answer, text.as_str());
        Ok(())
    }
}

/// Bytes of this length that a stop may leave. By `fill`, the places that were written since the last sync hold what a read returns there,
/// what the last sync left, another byte, or in turn another byte and what a read returns.
fn outcome(
    alloc: Global,
    disk: &MemDisk,
    length: usize,
    fill: usize,
) -> Result<Vec<u8>, AllocError> {
    let (read, durable) = (disk.bytes(), disk.durable());
    let mut bytes = Vec::new(alloc);
    for place in 0..length {
        let was = durable.get(place).copied();
        let is_free = disk.is_written(place as u64);
        let byte = match (was, fill) {
            (Some(byte), _) if !is_free => byte,
            (_, 0) => read.get(place).copied().unwrap_or(OTHER),
            (_, 1) => was.unwrap_or(0),
            (_, 2) => OTHER,
            _ if place % 2 == 0 => OTHER,
            _ => read.get(place).copied().unwrap_or(0),
        };
        bytes.push(byte)?;
    }
    Ok(bytes)
}
