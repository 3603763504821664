//! Reads the list of members.

ghost use Rattle.std.specs.Prelude.{◌≡◌, map, option_map};
ghost use Rattle.toml.specs.View.{view, table_view};
ghost use Rattle.committee.specs.File.{members_in, is_size};

use toml::{Table, Value};

/// The smallest number of members that a committee may have.
pub const MIN_MEMBERS: u16 = 4;

/// The greatest number of members that a committee may have.
pub const MAX_MEMBERS: u16 = 31;

/// The elements of the file's list of members; None if there is no such list.
pub(crate) fn members_in(table: &Table) -> Option<&[Value]>
    ensures { option_map (λ elements. map view elements.now) result ≡ members_in (table_view table.now) }
{
    match table.get("members") {
        Some(value) => match value.as_array() {
            Some(array) => Some(array.as_slice()),
            None => None,
        },
        None => None,
    }
}

/// Whether a committee may have this many members: from 4 to 31; without stakes in the file the number also has to be 3f + 1.
pub(crate) fn is_size(staked: bool, members: usize) -> bool
    ensures { result ≡ is_size staked members }
{
    MIN_MEMBERS as usize <= members
        && members <= MAX_MEMBERS as usize
        && (staked || members % 3 == 1)
}
