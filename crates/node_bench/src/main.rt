//! `narwhal-bench` does a known amount of work of one layer, so that it can be timed from outside. It prints a checksum over the results.
#![tactic(auto)]

mod ending;
mod events;
mod fold;
mod lacking;
mod messages;
mod playing;
mod putting;
mod rounds;
mod saving;
mod settings;
mod sharer;
mod sharing;
mod stepping;
mod storing;
mod task;
mod working;

use ending::Ending;
use fold::Fold;
use settings::config_of;
use std::env;
use std::process::ExitCode;
use std::rt::Env;
use std::sync::Wait;
use std::thread::Threads;
use task::{Kind, Step, Task, WORKS, sized, task_of};

/// The error for arguments that name no work.
const USAGE: &str =
    "usage: narwhal-bench [prepare-]WORK COUNT [SIZE], where WORK is hash, decode-FORM, encode-FORM, \
    check-FORM, recheck-FORM, frames, step-header, step-vote, step-certificate, step-batch, step-late-vote, order, append, book, reopen, \
    checkpoint, load, node, submit, put, run, waiting, waiting-many, in-order, reversed, deep, behind or late, and FORM is header, \
    certificate or batch, and but for recheck also vote, ack or coin";

fn main(rt: HostRuntime) -> ExitCode {
    match run(&rt) {
        Ok(()) => ExitCode::SUCCESS,
        Err(ending) => {
            if matches!(ending, Ending::Usage) {
                let _ = rt.eprintln(USAGE);
            }
            ExitCode::from(ending.status())
        }
    }
}

fn run<R: Env + AllocGlobal + Print + Threads + Wait + Sync>(rt: &R) -> Result<(), Ending> {
    let words: Vec<String> = env::args(rt)?.collect(rt.alloc())?;
    let [_, word, ..] = words.as_slice() else {
        return run_little(rt);
    };
    report(rt, word.as_str(), task_of(rt.alloc(), &words[1..]))
}

// Does a little of each kind of work, for a run without arguments.
fn run_little<R: AllocGlobal + Print + Threads + Wait + Sync>(rt: &R) -> Result<(), Ending> {
    for (word, _, count, _) in &WORKS {
        report(rt, word, sized(rt.alloc(), word, *count, None))?;
    }
    Ok(())
}

// Does the work that the arguments ask for, and prints its checksum. Arguments that ask for none are an error.
fn report<R>(rt: &R, word: &str, task: Option<Task>) -> Result<(), Ending>
where
    R: AllocGlobal + Print + Threads + Wait + Sync,
{
    let Some(task) = task else {
        return Err(Ending::Usage);
    };
    let (count, digest) = (task.count, digest_of(rt, task)?);
    let line = format!(in rt.alloc(); "{word} {count} {digest:016x}")?;
    rt.println(line.as_str())?;
    Ok(())
}

// Does the work of a task, and returns the checksum over its results.
fn digest_of<R: Threads + Wait + Sync>(rt: &R, task: Task) -> Result<u64, Ending> {
    let config = config_of(task)?;
    let mut fold = Fold::new();
    match task.kind {
        Kind::Hash => Ok(working::hash(task, &mut fold)),
        Kind::Message(act, form) => working::work_on(task, &config, act, form, &mut fold),
        Kind::Frames => working::cut_frames(task, &config, &mut fold),
        Kind::Steps(step) => stepping::take_all(task, &config, step, &mut fold),
        Kind::LateVote => stepping::repeat_vote(task, &config, &mut fold),
        Kind::Append => storing::append_groups(task, &mut fold),
        Kind::Book => storing::keep_book(task, &config, &mut fold),
        Kind::Reopen => storing::reopen_journal(task, &config, &mut fold),
        Kind::Checkpoint => saving::write_checkpoint(task, &config, &mut fold),
        Kind::Load => saving::load_checkpoint(task, &config, &mut fold),
        Kind::Node => sharing::share_node(rt, task, &config, &mut fold),
        Kind::Submit => sharing::submit_alone(rt, task, &config, &mut fold),
        Kind::Put => putting::put_batches(task, &config, &mut fold),
        Kind::Run | Kind::Waiting | Kind::InOrder | Kind::Reversed => playing::run_stream(
            rt, task, &config, &mut fold,
        ),
        Kind::Deep => stepping::take_all(task, &config, Step::All, &mut fold),
        Kind::Behind => lacking::take_after(task, &config, &mut fold),
        Kind::Late => lacking::commit_late(task, &config, &mut fold),
    }?;
    Ok(fold.value())
}
