//! The journal: groups of records on a disk. At every moment, also after a crash, a group is there as a whole or not at all.
#![tactic(auto)]

mod areas;
mod configuration;
mod draft;
mod durable;
mod error;
mod group;
mod journal;
mod laws;
mod layout;
mod reader;
mod reading;
mod record;
mod rewriting;
mod side;
mod snapshot;
mod spare;
mod store;
mod version;
mod window;

pub use configuration::{
    CONFIGURATION, HEAD, HEAD_BYTES, KEY_BYTES, SETTINGS_BYTES, STAKE_BYTES, head_in, number_of,
    shaped_version,
};
pub use draft::SnapshotDraft;
pub use error::{Failed, JournalError};
pub use group::Group;
pub use journal::{Journal, Synced};
pub use laws::{
    both_stand_as_before, damage_is_found, groups_stand, layout_in_numbers, written_groups_stand,
};
pub use layout::{
    CLOSED, LENGTH_BYTES, MAX_GROUP_BYTES, MAX_GROUP_RECORDS, MAX_JOURNAL_BYTES, OPEN, SECOND_AREA,
};
pub use reader::Reader;
pub use reading::{reports, stands};
pub use record::{Record, RecordRef};
pub use side::Side;
pub use snapshot::Snapshot;
pub use store::Store;
pub use version::Version;
