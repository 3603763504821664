//! The commands of a test case with threads.

use crate::live::crowd::crowd;
use crate::live::ending::Ending;
use crate::live::failing::{fail_each, go_down};
use crate::live::holding::hold;
use crate::live::words::Reported;
use std::alloc::Global;
use std::sync::Wait;
use std::thread::Threads;

/// Carries out a command, which is a test of its own, and adds the lines of its answer.
pub fn obey_threads<R>(
    rt: &R,
    alloc: Global,
    name: &str,
    words: &str,
    answer: &mut String,
) -> Reported
where
    R: Threads + Wait + Sync,
{
    let ended = match name {
        "hold" => hold(rt, alloc, words, answer),
        "crowd" => crowd(rt, alloc, words, answer),
        "down" => go_down(rt, alloc, answer),
        "fail" => fail_each(rt, alloc, words, answer),
        _ => Err(Ending::Unexpected),
    };
    Ending::write_to(ended, answer)
}
