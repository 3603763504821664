//! The commands of a test case that runs a script on the simulator.

use crate::committees::{FOUR, OWN, own_config};
use crate::live::script_ends::{Input, Taker};
use crate::live::scripts::Script;
use crate::live::words::{
    Reported, bad, put, put_count, put_hex, put_len, put_number, put_shown, put_text,
};
use header::check;
use sha2::{Digest, Sha256};
use sigface::HashVerify;
use sim_run::{disks_after, run, vote_after};
use std::alloc::Global;
use std::cell::Cell;
use std::sync::Wait;
use wire::{Message, Vote};

/// Carries out a command of a test case with a script. After `|` stands a line of the script; `keep` keeps the script, and `first` begins a
/// later script with lines of the kept one. The other commands change how the script is run, or run it.
pub fn obey_script<R: Wait>(
    rt: &R,
    alloc: Global,
    script: &mut Script,
    kept: &mut Vec<u8>,
    name: &str,
    rest: &str,
    answer: &mut String,
) -> Reported {
    match name {
        "|" => return script.add_lines(1, rest),
        "keep" => return keep(script, kept),
        "first" => {
            if !script.add_first(kept, rest)? {
                bad(answer);
            }
        }
        "play" => play(rt, alloc, script, answer),
        "sum" => sum(rt, alloc, script, answer),
        "watch" => watch(rt, alloc, script, answer),
        "count" => count(rt, alloc, script, answer),
        "journal" => journal(rt, alloc, script, answer),
        "vote" => vote(rt, alloc, script, answer),
        _ => {
            if !script.change(name, rest)? {
                bad(answer);
            }
        }
    }
    Ok(())
}

fn keep(script: &Script, kept: &mut Vec<u8>) -> Reported {
    kept.clear();
    kept.extend_from_slice(&script.bytes)
}

// What a run of a script leaves: the exit status, and what was written to the output and to the errors.
#[derive(Drop)]
struct Outcome {
    notes: String,
    printed: Vec<u8>,
    calls: u64,
    lines: u64,
    errors: Vec<u8>,
    status: u8,
}

fn outcome_of<R: Wait>(rt: &R, alloc: Global, script: &Script) -> Outcome {
    let lines = Cell::new(0);
    let mut input = Input {
        rest: &script.bytes,
        is_typed: script.is_typed,
        is_broken: script.is_broken,
        lines: &lines,
        notes: String::new(alloc),
    };
    let mut output = Taker::new(alloc, script.room, &lines);
    let mut errors = Vec::new(alloc);
    let status = run(rt, alloc, &mut input, &mut output, &mut errors);
    Outcome {
        notes: input.notes,
        printed: output.bytes,
        calls: output.calls,
        lines: lines.get(),
        errors,
        status,
    }
}

// Runs the script, and adds what it writes to the output and to the errors, and the exit status.
fn play<R: Wait>(rt: &R, alloc: Global, script: &Script, answer: &mut String) {
    let outcome = outcome_of(rt, alloc, script);
    put_text(answer, &outcome.printed);
    if !outcome.errors.is_empty() {
        put(answer, "error: ");
        put_text(answer, &outcome.errors);
    }
    put_number(answer, "status", outcome.status as u64);
}

// Runs the script, and adds the SHA-256 of what `play` would add.
fn sum<R: Wait>(rt: &R, alloc: Global, script: &Script, answer: &mut String) {
    let mut lines = String::new(alloc);
    play(rt, alloc, script, &mut lines);
    put_hex(answer, &Sha256::digest(lines.as_bytes()));
    put(answer, "\n");
}

// Runs the script, and adds how many lines were written before each read.
fn watch<R: Wait>(rt: &R, alloc: Global, script: &Script, answer: &mut String) {
    let outcome = outcome_of(rt, alloc, script);
    put(answer, &outcome.notes);
}

// Runs the script, and adds how many lines it writes, and whether it makes no more calls of the writer than lines.
fn count<R: Wait>(rt: &R, alloc: Global, script: &Script, answer: &mut String) {
    let outcome = outcome_of(rt, alloc, script);
    let few = outcome.calls <= outcome.lines;
    put_count(answer, "", outcome.lines, " lines");
    put_shown(answer, ", at most as many calls: ", &few, "\n");
}

// Runs the script, and adds how many bytes each area of the journal has after it.
fn journal<R: Wait>(rt: &R, alloc: Global, script: &Script, answer: &mut String) {
    match disks_after(rt, alloc, &script.bytes) {
        Some((first, second)) => {
            put_len(answer, first.bytes());
            put_len(answer, second.bytes());
        }
        None => put(answer, "not played to its end\n"),
    }
}

// Runs the script, and adds whether a vote may leave the node after it, and whether the vote passes the checks.
fn vote<R: Wait>(rt: &R, alloc: Global, script: &Script, answer: &mut String) {
    match vote_after(rt, alloc, &script.bytes) {
        Some(vote) if passes(alloc, vote) => put(answer, "passes\n"),
        Some(_) => put(answer, "fails\n"),
        None => put(answer, "no vote goes out\n"),
    }
}

fn passes(alloc: Global, vote: Vote) -> bool {
    match own_config(alloc, &FOUR) {
        Ok(config) => check(config.committee(), &HashVerify, OWN, Message::Vote(vote)).is_ok(),
        Err(_) => false,
    }
}
