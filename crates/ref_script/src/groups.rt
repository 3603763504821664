//! Finds the longest prefix of events whose records fit a group.

ghost use Rattle.std.specs.Prelude.{◌≡◌, ◌+◌, ◌≤◌, length, map, take};
ghost use Rattle.journal.specs.Format as format;
ghost use Rattle.journal.specs.declared.layout.TheConstants.{MAX_GROUP_RECORDS};
ghost use Rattle.spec_records.specs.Records.{record_of};
ghost use Rattle.wire.specs.declared.limits.TheConstants.{MAX_BATCH_BYTES};
ghost use Rattle.spec_world.specs.Text as script;

use header::Event;
use journal::{LENGTH_BYTES, MAX_GROUP_BYTES, MAX_GROUP_RECORDS};
use wire::encoded_len;

/// How many bytes of an event's record come before the message: the kind, and the sender's number.
const FRONT_BYTES: usize = 3;

/// How many bytes the record of an event has.
fn record_len(event: &Event) -> usize
    ensures value { result ≡ length (record_of event.now) }
    ensures limit { result ≤ 4 + MAX_BATCH_BYTES }
{
    FRONT_BYTES + encoded_len(&event.message)
}

/// How many bytes the body of a group with the records of these events has.
fn body_len(events: &[Event]) -> usize
    requires few { length events.now ≤ MAX_GROUP_RECORDS }
    ensures { result ≡ format.body_len (map record_of events.now) }
{
    let mut total = 0;
    for event in events {
        total += LENGTH_BYTES + record_len(event);
    }
    total
}

/// Whether the records of these events are within the limits of a group.
fn fits_group(events: &[Event]) -> bool
    ensures { result ≡ script.fits_group (map record_of events.now) }
{
    !events.is_empty() && events.len() <= MAX_GROUP_RECORDS && body_len(events) <= MAX_GROUP_BYTES
}

/// The longest prefix of these events whose records fit a group.
pub fn group_of(events: &[Event]) -> &[Event]
    ensures value { result.now ≡ script.group_of events.now }
    ensures beginning { result.now ≡ take (length result.now) events.now }
{
    for count in 0..events.len() {
        if !fits_group(&events[..count + 1]) {
            return &events[..count];
        }
    }
    events
}
