//! The records of a journal. No two different events or configurations have the same record. Each law is the contract of an empty function.
#![tactic(auto)]

ghost use Rattle.spec_records.specs.Records.{OneRecord, NoConfiguration, OneConfiguration};

/// No two different events that passed the checks of one committee have the same record.
pub fn one_record()
    ensures { OneRecord }
{}

/// No event has the same record as a node's configuration, in any version.
pub fn no_configuration()
    ensures { NoConfiguration }
{}

/// No two different configurations have the same record in version 2, which has the own number, the keys, the stakes and each limit. In
/// version 1 the same holds of committees whose stakes are all 1.
pub fn one_configuration()
    ensures { OneConfiguration }
{}
