//! The summary of a journal, in numbers.

ghost use Rattle.std.specs.Prelude.{◌≡◌, Ok, IfOk, IfErr};
ghost use Rattle.journal.specs.Areas.{Areas, stands_in};
ghost use Rattle.spec_world.specs.World.{IsPair};
ghost use Rattle.validator.specs.Setting.{node_of};
ghost use Rattle.opening.specs.Decoded.{decoded_in, Reports};
ghost use Rattle.journal_account.specs.Accounts.{Sums};

use crate::flaw::Flaw;
use crate::parts::{checkpoint_in, events_of};
use crate::reading::after_records;
use journal::{Record, Side};
use sigface::Sign;
use std::alloc::Global;
use validator::Config;

/// The summary of a journal.
#[derive(Clone, Copy, Debug, PartialEq, Eq)]
pub struct Summary {
    /// How many events the journal has; if it has a checkpoint, how many after that.
    pub events: u64,
    /// How many certificates are in the order.
    pub order: u64,
    /// The round of the node.
    pub round: u64,
    /// The garbage-collection round (the floor).
    pub floor: u64,
    /// The generation of the checkpoint with which the journal begins, and the file that has it. None if it has no checkpoint.
    pub checkpoint: Option<(u64, Side)>,
}

impl Summary {
    /// The summary of a journal without events.
    pub fn empty() -> Summary {
        Summary {
            events: 0,
            order: 0,
            round: 1,
            floor: 0,
            checkpoint: None,
        }
    }
}

/// The summary of a journal with these records; the first one has to be this configuration.
///
/// # Errors
/// Those of an opening of a node: `Damaged` with a place in bytes, `ConfigMismatch`, or `Memory` where an allocation failed.
pub fn summary_of<S: Sign>(
    alloc: Global,
    config: &Config<S>,
    records: &[Record],
) -> Result<Summary, Flaw>
    ensures ok { (areas : Areas) → IsPair areas → stands_in areas ≡ Ok records.now → IfOk result (λ summary. Sums (node_of S.scheme config.now) areas summary) }
    ensures err { (areas : Areas) → IsPair areas → stands_in areas ≡ Ok records.now → IfErr result (λ flaw. Reports flaw.error (decoded_in (node_of S.scheme config.now) areas)) }
{
    let validator = after_records(alloc, config, records)?;
    let events = events_of(records).len() as u64;
    let order = validator.order().len() as u64;
    let round = validator.round();
    let floor = validator.floor().number();
    Ok(Summary {
        events,
        order,
        round,
        floor,
        checkpoint: checkpoint_in(records),
    })
}
