//! Checkpoints: the state that a validator's tables hold is written as records, and such records are read back to the parts from which a
//! validator's tables are restored.
#![tactic(auto)]

mod configuration;
mod describing;
mod error;
mod judging;
mod parts;
mod reader;
mod reading;
mod records;
mod sink;
mod snapshot;

ghost use Rattle.checkpoint.specs.Describes.{KeptIsLoaded};
ghost use Rattle.checkpoint.specs.Kept.{CheckpointIsState};

pub use configuration::configuration_record;
pub use describing::kept_records;
pub use error::LoadError;
pub use parts::parts_of;
pub use reader::CheckpointReader;
pub use records::records_of;
pub use snapshot::snapshot_of;

/// The law that a checkpoint keeps the state. The checkpoint that is made of a sound state is one that a node may write, and it is read
/// back as the same state. The call does nothing.
pub fn checkpoint_is_state()
    ensures { CheckpointIsState }
{}

/// The law that a checkpoint can be loaded: records that describe a validator's tables have no fault, and tables that are loaded from them
/// hold the same state. The call does nothing.
pub fn kept_is_loaded()
    ensures { KeptIsLoaded }
{
    spec_checkpoint::read_as_written();
    spec_checkpoint::loads_the_sound();
}
