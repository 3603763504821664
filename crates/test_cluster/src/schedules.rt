//! Schedules: lists of moves that are drawn at random. `oracles/schedules.py` defines them, and plays them by plain rules.

mod dishonest;
mod draws;
mod headers;
mod nodes;
mod premises;
mod report;
mod schedule;
mod wishes;

use crate::BATCHES;
use report::Report;
use schedule::{Honest, Schedule};
use sim_members::Settings;
use std::alloc::Global;
use test_cases::{Reported, bad};

/// What a command asks for: how many schedules to play, how many moves each has, the seed of the random numbers, and the committee's depth.
#[derive(Clone, Copy)]
struct Task {
    count: u64,
    moves: u64,
    start: u64,
    depth: u64,
}

/// `schedules COUNT MOVES START DEPTH` plays random schedules with as many dishonest members as the committee tolerates (one of four), and
/// adds the results of the moves.
pub fn play_tolerated(alloc: Global, words: &str, answer: &mut String) -> Reported {
    play_all(alloc, Honest::Three, words, answer)
}

/// `broken COUNT MOVES START DEPTH` does the same as `schedules`, with one dishonest member more than the committee tolerates.
pub fn play_broken(alloc: Global, words: &str, answer: &mut String) -> Reported {
    play_all(alloc, Honest::Two, words, answer)
}

fn play_all(alloc: Global, honest: Honest, words: &str, answer: &mut String) -> Reported {
    let Some(task) = task_of(words) else {
        bad(answer);
        return Ok(());
    };
    let settings = Settings::new(alloc, task.depth, BATCHES)?;
    let mut report = Report::new(alloc);
    for number in 0..task.count {
        play(alloc, &settings, honest, task, number, &mut report)?;
    }
    report.write_to(task.start, answer);
    Ok(())
}

/// Reads what to play from the words `COUNT MOVES START DEPTH`.
fn task_of(words: &str) -> Option<Task> {
    let (count, words) = words.split_once(' ')?;
    let (moves, words) = words.split_once(' ')?;
    let (start, depth) = words.split_once(' ')?;
    Some(Task {
        count: count.parse().ok()?,
        moves: moves.parse().ok()?,
        start: start.parse().ok()?,
        depth: depth.parse().ok()?,
    })
}

/// Plays the schedule with this number, and adds its results to the report.
fn play(
    alloc: Global,
    settings: &Settings,
    honest: Honest,
    task: Task,
    number: u64,
    report: &mut Report,
) -> Reported {
    let start = task.start.wrapping_add(number);
    let mut schedule = Schedule::new(alloc, settings, honest, task.depth, start)?;
    move_all(&mut schedule, task.moves, report)?;
    report.end(&schedule);
    Ok(())
}

fn move_all(schedule: &mut Schedule<'_>, moves: u64, report: &mut Report) -> Reported {
    for _ in 0..moves {
        schedule.advance(report)?;
    }
    Ok(())
}
