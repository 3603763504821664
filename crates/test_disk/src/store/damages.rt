//! Openings of a node on a file that is cut or changed at each of several places.

use crate::store::openings::reported;
use crate::store::words::{Reported, put, put_count, put_other};
use sigface::HashSign;
use std::alloc::{AllocError, Global};
use std::ops::RangeInclusive;
use validator::Config;

/// Opens the prefixes of a file with each of these lengths. A line is added wherever the answer changes.
pub fn lengths(
    alloc: Global,
    config: &Config<HashSign>,
    file: &[u8],
    lengths: RangeInclusive<u64>,
    answer: &mut String,
) -> Reported {
    let mut before = String::new(alloc);
    for length in lengths {
        if let Some(bytes) = file.get(..length as usize) {
            let text = reported(alloc, config, bytes)?;
            put_other(answer, length, text, &mut before);
        }
    }
    Ok(())
}

/// An answer, and how often it was given.
#[derive(Drop)]
struct Count {
    text: String,
    times: u64,
}

/// Changes each of these places of a file to this many other values, at equal distances, and opens a node on each changed file. Adds how
/// often each answer was given.
pub fn changes(
    alloc: Global,
    config: &Config<HashSign>,
    file: &[u8],
    places: RangeInclusive<u64>,
    values: u64,
    answer: &mut String,
) -> Reported {
    let mut counts = Vec::new(alloc);
    let step = 256 / values.clamp(1, 255).saturating_add(1);
    for place in places {
        for turn in 1..=values {
            let more = (turn.wrapping_mul(step) % 256) as u8;
            let text = reported_changed(alloc, config, file, place, more)?;
            add_one(&mut counts, text)?;
        }
    }
    report_counts(&counts, answer);
    Ok(())
}

fn report_counts(counts: &[Count], answer: &mut String) {
    for Count { text, times } in counts {
        put_count(answer, "", *times, " ");
        put(answer, text.as_str());
        put(answer, "\n");
    }
}

/// The answer of opening a node on a file, to one byte of which this number is added.
fn reported_changed(
    alloc: Global,
    config: &Config<HashSign>,
    file: &[u8],
    place: u64,
    more: u8,
) -> Result<String, AllocError> {
    let mut bytes = file.to_vec(alloc)?;
    if let Some(byte) = bytes.get_mut(place as usize) {
        *byte = byte.wrapping_add(more);
    }
    reported(alloc, config, &bytes)
}

fn add_one(counts: &mut Vec<Count>, text: String) -> Reported {
    for one in counts.iter_mut() {
        if one.text.as_str() == text.as_str() {
            one.times = one.times.saturating_add(1);
            return Ok(());
        }
    }
    counts.push(Count { text, times: 1 })?;
    Ok(())
}
