//! What a checkpoint holds: the state of a node as plain data, the records that it has in a journal, the state that it stands for, and what
//! records decode to. Each law is the contract of an empty function.
#![tactic(auto)]

ghost use Rattle.spec_checkpoint.specs.Laws.{BlankIsFresh, NoFaultIsSound, SoundHasNoFault, KeptHasNoFault, ReadAsWritten, OneCheckpoint, FailsAtFirst, LoadsTheSound};

/// The checkpoint of a node without events stands for the fresh state.
pub fn blank_is_fresh()
    ensures { BlankIsFresh }
{}

/// A canonical checkpoint of which no record is at fault, nor the whole, stands for a sound state of the node.
pub fn no_fault_is_sound()
    ensures { NoFaultIsSound }
{}

/// A checkpoint that a node writes of a sound state has no fault.
pub fn sound_has_no_fault()
    ensures { SoundHasNoFault }
{}

/// A checkpoint that a node writes of the state kept of a legal history has no fault: a node's own checkpoint is never refused.
pub fn kept_has_no_fault()
    ensures { KeptHasNoFault }
{
    spec_machine::kept_is_sound();
}

/// Records are read as this checkpoint if and only if it is canonical and they are its records.
pub fn read_as_written()
    ensures { ReadAsWritten }
{}

/// No two different canonical checkpoints have the same records.
pub fn one_checkpoint()
    ensures { OneCheckpoint }
{}

/// Reading fails at the place of the first record that breaks the format; there is only one such place.
pub fn fails_at_first()
    ensures { FailsAtFirst }
{}

/// Loading finds no fault in records if and only if they are the node's configuration, and then those that a node writes of a sound state.
pub fn loads_the_sound()
    ensures { LoadsTheSound }
{}
