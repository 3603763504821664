//! The checkpoint of a node's tables, in the form in which a journal writes it.

ghost use Rattle.std.specs.Prelude.{◌≡◌, IfOk};
ghost use Rattle.spec_machine.specs.Sound.{IsSound};
ghost use Rattle.spec_model.specs.Nodes.{Node, IsNode};
ghost use Rattle.spec_model.specs.States.{State};
ghost use Rattle.admission.specs.Standing.{AreAt};
ghost use Rattle.checkpoint.specs.Describes.{Describes, StandFor};

use crate::checkpoint_is_state;
use crate::configuration::configuration_record;
use crate::parts::parts_of;
use crate::records::put_records;
use admission::Tables;
use journal::{Snapshot, SnapshotDraft, Version};
use std::alloc::{AllocError, Global};
use wire::Author;

/// The checkpoint of a member's tables: its configuration in the second version, and what the tables hold. If the tables hold a sound state
/// of the member, a node that reads the checkpoint back is in the same state. On `AllocError` an allocation failed.
pub fn snapshot_of(alloc: Global, own: Author, tables: &Tables) -> Result<Snapshot, AllocError>
    requires { (node : Node) × (state : State) × StandFor own tables.now node state }
    ensures { IfOk result (λ snapshot. (node : Node) (state : State) → node.own ≡ own → IsNode node → IsSound node state → AreAt node state tables.now
        → Describes node tables.now snapshot) }
{
    checkpoint_is_state();
    let committee = tables.sequencer().dag().committee();
    let configuration = configuration_record(alloc, Version::Second, committee, own)?;
    let mut draft = SnapshotDraft::new(alloc, configuration.as_slice())?;
    let kept = parts_of(alloc, tables)?;
    put_records(alloc, &mut draft, &kept)?;
    Ok(draft.close())
}
