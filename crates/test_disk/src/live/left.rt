//! What runs of a node leave on their disks.

ghost use Rattle.std.specs.Prelude.{◌≡◌};

use crate::committees::{FOUR, own_config};
use crate::live::ending::Ending;
use crate::live::journals::{Found, found_on};
use crate::live::words::{put, put_count, put_sum};
use diskmodel::MemDisk;
use journal::Store;
use node::{Caller, start};
use std::alloc::Global;
use std::sync::Wait;

/// Opens a node on these disks, and adds the node's order and round.
pub fn report_node<R: Wait>(
    rt: &R,
    alloc: Global,
    store: Store<MemDisk>,
    answer: &mut String,
) -> Result<(), Ending> {
    let config = own_config(alloc, &FOUR)?;
    let (node, seat, _) = start(alloc, &config, store)?;
    let mut caller = Caller::new(&node, &config, seat);
    let order = caller.order(rt, 0)?;
    let mut bytes = Vec::new(alloc);
    for digest in &order {
        bytes.extend_from_slice(&digest.0)?;
    }
    put_count(answer, "order ", order.len() as u64, ", ");
    put_sum(answer, &bytes);
    put_count(answer, ", round ", caller.round_now(rt), "\n");
    Ok(())
}

/// Adds whether the journal was rewritten at least as many times as the first of two words says, or else how many times; and whether fewer
/// bytes of events follow its checkpoint than the second word says, or else how many bytes.
pub fn report_rewritten(alloc: Global, store: Store<MemDisk>, words: &str, answer: &mut String) {
    let (least, most) = words.split_once(' ').unwrap_or((words, ""));
    let (least, most) = (least.parse().unwrap_or(u64::MAX), most.parse().unwrap_or(0));
    match found_on(alloc, store) {
        Some(found) => report_found(&found, least, most, answer),
        None => put(answer, "no journal\n"),
    }
}

fn report_found(found: &Found, least: u64, most: u64, answer: &mut String) {
    let (_, bytes) = found.events();
    match found.generation >= least {
        true => put_count(answer, "rewritten at least ", least, " times"),
        false => put_count(answer, "rewritten ", found.generation, " times"),
    }
    match bytes < most {
        true => put_count(answer, ", less than ", most, " bytes of events since\n"),
        false => put_count(answer, ", ", bytes, " bytes of events since\n"),
    }
}
