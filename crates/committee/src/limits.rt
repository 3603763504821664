//! The limits that a committee file may set, and their bounds.

ghost use Rattle.std.specs.Prelude.{◌≡◌};
ghost use Rattle.toml.specs.Data.{get_member};
ghost use Rattle.toml.specs.View.{table_view};
ghost use Rattle.committee.specs.File.{number_within, limit, depth_in, workers_in, batches_in};

use toml::Table;

/// The smallest depth that a committee may have, in rounds: how far below a leader a certificate may be to be ordered with it.
pub const MIN_DEPTH: u64 = 2;

/// The greatest depth that a committee may have, in rounds.
pub const MAX_DEPTH: u64 = 1000;

/// The depth of a committee whose file names none, in rounds.
pub const DEFAULT_DEPTH: u64 = 50;

/// The smallest number of workers that a member may have.
pub const MIN_WORKERS: u16 = 1;

/// The greatest number of workers that a member may have.
pub const MAX_WORKERS: u16 = 16;

/// The number of workers of each member if the file names none.
pub const DEFAULT_WORKERS: u16 = 1;

/// The smallest number to which a committee may limit the batches that a node holds, of all members together.
pub const MIN_HELD_BATCHES: u32 = 1;

/// The greatest number to which a committee may limit the batches that a node holds, of all members together.
pub const MAX_HELD_BATCHES: u32 = 1_048_576;

/// How many batches a node may hold, of all members together, if the file names no number.
pub const DEFAULT_HELD_BATCHES: u32 = 1_048_576;

pub(crate) fn number_within(number: i64, least: u64, greatest: u64) -> Option<u64>
    ensures { result ≡ number_within least greatest number }
{
    if number < 0 {
        return None;
    }
    let number = number as u64;
    if least <= number && number <= greatest {
        Some(number)
    } else {
        None
    }
}

fn limit(table: &Table, name: &str, least: u64, greatest: u64, default: u64) -> Option<u64>
    ensures { result ≡ limit least greatest default (get_member name.now (table_view table.now)) }
{
    match table.get(name) {
        Some(value) => match value.as_integer() {
            Some(number) => number_within(number, least, greatest),
            None => None,
        },
        None => Some(default),
    }
}

/// The depth that the file says, or the default one. None if it is no whole number within its bounds.
pub(crate) fn depth_in(table: &Table) -> Option<u64>
    ensures { result ≡ depth_in (table_view table.now) }
{
    limit(table, "depth", MIN_DEPTH, MAX_DEPTH, DEFAULT_DEPTH)
}

/// The number of workers that the file says, or the default one. None if it is no whole number within its bounds.
pub(crate) fn workers_in(table: &Table) -> Option<u64>
    ensures { result ≡ workers_in (table_view table.now) }
{
    limit(
        table,
        "workers",
        MIN_WORKERS as u64,
        MAX_WORKERS as u64,
        DEFAULT_WORKERS as u64,
    )
}

/// The number of batches that the file says, or the default one. None if it is no whole number within its bounds.
pub(crate) fn batches_in(table: &Table) -> Option<u64>
    ensures { result ≡ batches_in (table_view table.now) }
{
    limit(
        table,
        "batches",
        MIN_HELD_BATCHES as u64,
        MAX_HELD_BATCHES as u64,
        DEFAULT_HELD_BATCHES as u64,
    )
}
