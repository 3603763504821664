//! The constants of the journal's format, and its limits.

/// The length of a length field, in bytes. There is one before each group's body, and one before each record.
pub const LENGTH_BYTES: usize = 4;

/// The greatest number of records in a group.
pub const MAX_GROUP_RECORDS: usize = 1_024;

/// The greatest length of a group's body, in bytes: its records, each after its length field.
pub const MAX_GROUP_BYTES: usize = 4_194_304;

/// How many bytes of a file an opening holds in memory at once: a gate, the longest group, and the gate after that.
pub const WINDOW_BYTES: u64 = 4_194_310;

/// The greatest length of a journal, in bytes.
pub const MAX_JOURNAL_BYTES: u64 = 1 << 40;

/// The number from which the places of the second area are counted, in bytes.
pub const SECOND_AREA: u64 = 1 << 40;

/// The value of a closed gate (the commit byte before a group). A gate with any other value is open.
pub const CLOSED: u8 = 0;

/// The value that is written to open a gate.
pub const OPEN: u8 = 1;
