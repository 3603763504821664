//! Runs of a node over files.

use crate::live::answers::report_errors;
use crate::live::words::{Reported, put_number};
use node_run::{CHECKPOINT_BYTES, run};
use std::alloc::Global;
use std::fs::File;
use std::io;
use std::rt::Files;
use std::sync::Wait;
use std::thread::Threads;

/// Runs a node with these arguments, and without input. Its files are in the folder in which the test runs.
pub fn run_files<R: Files<File = File> + AllocGlobal + Threads + Wait + Sync>(
    rt: &R,
    alloc: Global,
    words: &str,
    answer: &mut String,
) -> Reported {
    let mut args = Vec::new(alloc);
    for word in words.split_whitespace() {
        args.push(String::from_str(alloc, word)?)?;
    }
    let mut errors = Vec::new(alloc);
    let (reader, writer) = (io::empty(), io::sink());
    let ran = run(
        rt,
        alloc,
        &args,
        CHECKPOINT_BYTES,
        reader,
        writer,
        &mut errors,
    );
    report_errors(&errors, answer);
    put_number(answer, "status", ran.ending.status() as u64);
    Ok(())
}
