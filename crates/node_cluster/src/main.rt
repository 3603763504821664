//! An example: a committee of four in one process plays some waves, during which one member stops. It shows the order of each member.
#![tactic(auto)]

mod ending;
mod play;
mod reporting;

use ending::Ending;
use play::Play;
use reporting::{report_coin, report_end, report_growth, report_round, report_stop};
use sim_members::Settings;
use sim_script::{BATCHES, DEPTH};
use std::process::ExitCode;

/// How many waves are played.
const WAVES: u64 = 3;

/// The round in which the last member stops.
const STOPPING: u64 = WAVES + 1;

fn main(rt: HostRuntime) -> ExitCode {
    match run(&rt) {
        Ok(true) => ExitCode::SUCCESS,
        Ok(false) => ExitCode::FAILURE,
        Err(ending) => {
            let _ = eprintln!(rt; "{ending}");
            ExitCode::FAILURE
        }
    }
}

/// Plays all waves. Returns whether the members' orders agree afterwards.
fn run<R: AllocGlobal + Print>(rt: &R) -> Result<bool, Ending> {
    let settings = Settings::new(rt.alloc(), DEPTH, BATCHES)?;
    let mut play = Play::new(rt.alloc(), &settings)?;
    println!(rt; "four members of one committee, each over a disk in memory, for {WAVES} waves")?;
    play_all(rt, &mut play)?;
    report_end(rt, &play)
}

/// Plays the rounds of all waves, and the round after them, in which the last wave's coin is shown.
fn play_all(rt: &impl Print, play: &mut Play<'_>) -> Result<(), Ending> {
    for round in 1..=2 * WAVES + 1 {
        play_round(rt, play, round)?;
        if round % 2 == 1 && round > 1 {
            play_coin(rt, play, round / 2)?;
        }
    }
    Ok(())
}

/// Plays a round: each member proposes a header, and all outputs reach all other members.
fn play_round(rt: &impl Print, play: &mut Play<'_>, round: u64) -> Result<(), Ending> {
    play.propose()?;
    if round == STOPPING {
        let (lost, found) = play.stop_last()?;
        report_stop(rt, lost, found)?;
    }
    play.deliver()?;
    report_round(rt, play, round)?;
    report_growth(rt, play)
}

/// Gives the coin of a wave to each member.
fn play_coin(rt: &impl Print, play: &mut Play<'_>, wave: u64) -> Result<(), Ending> {
    let taken = play.toss(wave)?;
    report_coin(rt, wave, taken)?;
    play.deliver()?;
    report_growth(rt, play)
}
