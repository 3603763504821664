//! The records of a whole checkpoint: a node's configuration, and what its tables hold.

ghost use Rattle.std.specs.Prelude.{◌≡◌, IfOk};
ghost use Rattle.journal.specs.Format.{contents};
ghost use Rattle.spec_machine.specs.Sound.{IsSound};
ghost use Rattle.spec_model.specs.Nodes.{Node, IsNode};
ghost use Rattle.spec_model.specs.States.{State};
ghost use Rattle.admission.specs.Standing.{AreAt};
ghost use Rattle.checkpoint.specs.Describes.{Describes};

use crate::checkpoint_is_state;
use crate::configuration::configuration_record;
use crate::parts::parts_of;
use crate::records::put_records;
use admission::Tables;
use journal::Version;
use std::alloc::{AllocError, Global};
use wire::Author;

/// The records of a member's tables: its configuration in the second version, and what the tables hold. If the tables hold a sound state of
/// the member, a node that loads these records is in the same state. On `AllocError` an allocation failed.
pub fn kept_records(alloc: Global, own: Author, tables: &Tables) -> Result<Vec<Vec<u8>>, AllocError>
    ensures { IfOk result (λ rows. (node : Node) (state : State) → node.own ≡ own → IsNode node → IsSound node state → AreAt node state tables.now
        → Describes node tables.now (contents rows.items)) }
{
    checkpoint_is_state();
    let committee = tables.sequencer().dag().committee();
    let mut rows = Vec::new(alloc);
    rows.push(configuration_record(alloc, Version::Second, committee, own)?)?;
    let kept = parts_of(alloc, tables)?;
    put_records(alloc, &mut rows, &kept)?;
    Ok(rows)
}
