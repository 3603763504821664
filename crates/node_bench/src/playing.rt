//! Measured work of a running node that reads a stream of frames.

use crate::ending::Ending;
use crate::fold::Fold;
use crate::messages::{PEER, small_batch};
use crate::rounds::Rounds;
use crate::storing::empty_disk;
use crate::task::{Kind, Task};
use crate::working::put_frame;
use journal::Store;
use node_run::{CHECKPOINT_BYTES, Ending as RunEnding, Ran, run_over};
use sigface::HashSign;
use sim_script::member_list;
use std::io::{self, Write};
use std::sync::{Mutex, Wait};
use std::thread::Threads;
use validator::Config;
use wire::{Author, Message, certificate_digest, encode};

/// The number of the node's own member, as an argument of the program.
const OWN_NUMBER: &str = "0";

/// Runs a node on a stream of frames. For two kinds of work, `size` certificates come first that wait for parents; then `count` small
/// batches of another member, or `count` certificates that need not wait. The other two kinds read `count` certificates in order or in
/// reversed order. The preparation alone reads the certificates that wait, or nothing.
pub fn run_stream<R: Threads + Wait + Sync>(
    rt: &R,
    task: Task,
    config: &Config<HashSign>,
    fold: &mut Fold,
) -> Result<(), Ending> {
    let stream = stream_of(task, config)?;
    let text = member_list(task.alloc, task.members)?;
    let store = Store::One(empty_disk(task.alloc)?);
    let (reported, errors) = (Mutex::new(Fold::new()), Mutex::new(Fold::new()));
    let writer = Reported {
        rt,
        fold: &reported,
    };
    let mut lines = Reported { rt, fold: &errors };
    let member = (text.as_bytes(), OWN_NUMBER);
    let Ran {
        ending,
        store: _,
        writer: _,
    } = run_over(
        rt,
        task.alloc,
        member,
        store,
        CHECKPOINT_BYTES,
        stream.as_slice(),
        writer,
        &mut lines,
    );
    if !matches!(ending, RunEnding::Done) {
        return Err(Ending::Refused);
    }
    fold.join(reported.into_inner());
    fold.join(errors.into_inner());
    Ok(())
}

// The frames that the node reads, as one stream of bytes.
fn stream_of(task: Task, config: &Config<HashSign>) -> Result<Vec<u8>, Ending> {
    let mut stream = Vec::new(task.alloc);
    let mut rounds = Rounds::new(task.alloc, config.committee(), true)?;
    match task.kind {
        Kind::Waiting => {
            let frames = certificates_of(task, &mut rounds)?;
            let mut high = Rounds::new(task.alloc, config.committee(), true)?;
            // The certificates that wait get rounds above those of the certificates that need not wait.
            for _ in 0..rounds.number {
                high.raise();
            }
            put_waiting(&mut stream, task, &mut high)?;
            put_frames(&mut stream, task, &frames)?;
        }
        Kind::InOrder => put_frames(&mut stream, task, &certificates_of(task, &mut rounds)?)?,
        Kind::Reversed => {
            let mut frames = certificates_of(task, &mut rounds)?;
            frames.reverse();
            put_frames(&mut stream, task, &frames)?;
        }
        _ => {
            put_waiting(&mut stream, task, &mut rounds)?;
            put_batches(&mut stream, task)?;
        }
    }
    Ok(stream)
}

fn author_of(task: Task, number: u64) -> Author {
    Author((number % u64::from(task.members.max(1))) as u16)
}

// Adds the frames of certificates whose parents never come, so that they wait for ever.
fn put_waiting(stream: &mut Vec<u8>, task: Task, rounds: &mut Rounds) -> Result<(), Ending> {
    for number in 0..task.size {
        let author = author_of(task, number);
        if author.0 == 0 {
            // From here on the certificates have a higher round, but still the parents of round 1, the genesis certificates. These don't
            // exist as certificates of the round before, so each such certificate waits for parents.
            rounds.raise();
        }
        let message = Message::Certificate(rounds.certificate(author)?);
        put_frame(stream, author, &encode(task.alloc, &message)?)?;
    }
    Ok(())
}

// Adds the frames of small batches, unless only the preparation is to be done.
fn put_batches(stream: &mut Vec<u8>, task: Task) -> Result<(), Ending> {
    if task.is_work {
        for number in 0..task.count {
            let message = Message::Batch(small_batch(task.alloc, PEER, number)?);
            put_frame(stream, PEER, &encode(task.alloc, &message)?)?;
        }
    }
    Ok(())
}

// The frames of all certificates of full rounds, in the order of the rounds.
fn certificates_of(task: Task, rounds: &mut Rounds) -> Result<Vec<Vec<u8>>, Ending> {
    let mut frames = Vec::new(task.alloc);
    for number in 0..task.count {
        let author = author_of(task, number);
        if author.0 == 0 && number > 0 {
            rounds.end();
        }
        let message = Message::Certificate(rounds.certificate(author)?);
        let mut frame = Vec::new(task.alloc);
        put_frame(&mut frame, author, &encode(task.alloc, &message)?)?;
        frames.push(frame)?;
        let digest = certificate_digest(&rounds.digest(author)?, rounds.round()?, author);
        rounds.note(author, digest)?;
    }
    Ok(frames)
}

// Adds these frames, unless only the preparation is to be done.
fn put_frames(stream: &mut Vec<u8>, task: Task, frames: &[Vec<u8>]) -> Result<(), Ending> {
    if task.is_work {
        for frame in frames {
            stream.extend_from_slice(frame)?;
        }
    }
    Ok(())
}

/// Takes the place of standard output: it keeps a checksum over what the node writes.
#[derive(Drop)]
struct Reported<'t, R: Wait> {
    rt: &'t R,
    fold: &'t Mutex<Fold>,
}

impl<'t, R: Wait> Write for Reported<'t, R> {
    fn write(&mut self, bytes: &[u8]) -> io::Result<usize> {
        let mut fold = self.fold.lock(self.rt);
        for byte in bytes {
            fold.add(u64::from(*byte));
        }
        Ok(bytes.len())
    }

    fn flush(&mut self) -> io::Result<()> {
        Ok(())
    }
}
