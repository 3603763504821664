//! Takes a journal's records apart: those of the first group, those of a checkpoint's state, and those of events.

ghost use Rattle.std.specs.Prelude.{◌≡◌, ◌≤◌, length, take, drop};
ghost use Rattle.std.specs.Option.{option_copied, option_map};
ghost use Rattle.opening.specs.Decoded.{is_event as is_event_of, state_part, events_part};
ghost use Rattle.journal_account.specs.Accounts.{after_head, events_in, generation_in, side_in};

use journal::{Record, SECOND_AREA, Side, head_in};
use opening::EVENT;

/// The records of events: those after the first group and, if there is a checkpoint, after the records of its state.
#[tactic(auto, unfolding(crate::specs::Accounts::events_in))]
pub(crate) fn events_of(records: &[Record]) -> &[Record]
    ensures { result.now ≡ events_in records.now }
{
    match records.split_first() {
        Some((first, rest)) => match after_head(first, rest) {
            Some(others) => {
                let (_, events) = others.split_at(state_count(others));
                events
            }
            None => rest,
        },
        None => &[],
    }
}

/// The generation of the checkpoint with which these records begin, and the file that has it. None if they begin with a configuration
/// alone.
pub(crate) fn checkpoint_in(records: &[Record]) -> Option<(u64, Side)>
    ensures { result ≡ option_map (λ generation. (generation, side_in records.now)) (generation_in records.now) }
{
    match generation_in(records) {
        Some(generation) => Some((generation, side_in(records))),
        None => None,
    }
}

/// The file that these records are from. It is the second one if their places are counted from that file's base, `SECOND_AREA`.
#[tactic(auto, unfolding(crate::specs::Accounts::side_in))]
fn side_in(records: &[Record]) -> Side
    ensures { result ≡ side_in records.now }
{
    match records {
        [first, ..] if first.gate >= SECOND_AREA => Side::Second,
        _ => Side::First,
    }
}

/// The generation in the head of the first group; None if that group has no head.
#[tactic(auto, unfolding(crate::specs::Accounts::generation_in))]
fn generation_in(records: &[Record]) -> Option<u64>
    ensures { result ≡ generation_in records.now }
{
    match records {
        [first, head, ..] if head.gate == first.gate => head_in(head.bytes.as_slice()),
        _ => None,
    }
}

/// The records after a checkpoint's head. A head is the second record of a journal, in the same group as the first record; None if there is
/// none.
#[tactic(auto, unfolding(crate::specs::Accounts::after_head))]
pub(crate) fn after_head<'r>(first: &Record, rest: &'r [Record]) -> Option<&'r [Record]>
    ensures { option_copied result ≡ after_head first.now rest.now }
{
    match rest.split_first() {
        Some((head, others)) if head.gate == first.gate => Some(others),
        _ => None,
    }
}

/// How many of these records come before the first one that holds an event.
pub(crate) fn state_count(records: &[Record]) -> usize
    ensures state { take result records.now ≡ state_part records.now }
    ensures events { drop result records.now ≡ events_part records.now }
    ensures within { result ≤ length records.now }
{
    let mut count = 0;
    while count < records.len() && !is_event(&records[count]) {
        count += 1;
    }
    count
}

// Whether a record holds an event, by its first byte.
fn is_event(one: &Record) -> bool
    ensures { result ≡ is_event_of one.now }
{
    match one.bytes.as_slice().first() {
        Some(kind) => *kind == EVENT,
        None => false,
    }
}
