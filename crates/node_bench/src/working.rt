//! Measured work on single messages: hashing, decoding, encoding and checking.

use crate::ending::Ending;
use crate::events::digest_in;
use crate::fold::Fold;
use crate::messages::{Made, RING, ring_of};
use crate::task::{Act, Form, Task};
use committee::Committee;
use header::{check, recheck};
use sha2::{Digest as _, Sha256};
use sigface::{HashSign, HashVerify};
use sim_script::OWN;
use std::alloc::{AllocError, Global};
use validator::Config;
use wire::{Author, Message, encode};
use wire_read::{FrameReader, decode};

/// The bytes that one compression of SHA-256 takes.
const BLOCK: &[u8; 64] = b"0123456789abcdefghijklmnopqrstuvwxyzABCDEFGHIJKLMNOPQRSTUVWXYZ-_";

/// Hashes `count` blocks of 64 bytes: one compression for each, and one more at the end.
pub fn hash(task: Task, fold: &mut Fold) {
    let mut hasher = Sha256::new();
    if task.is_work {
        for _ in 0..task.count {
            hasher.update(BLOCK);
        }
    }
    fold.add_bytes(&hasher.finalize());
}

/// Decodes, encodes or checks messages, as the task says, over and over.
pub fn work_on(
    task: Task,
    config: &Config<HashSign>,
    act: Act,
    form: Form,
    fold: &mut Fold,
) -> Result<(), Ending> {
    let ring = ring_of(task, form, config.committee())?;
    go_round(task, act, config.committee(), &ring, fold)
}

fn go_round(
    task: Task,
    act: Act,
    committee: &Committee,
    ring: &[Made],
    fold: &mut Fold,
) -> Result<(), Ending> {
    for piece in 0..task.count {
        let Some(made) = ring.get((piece % RING) as usize) else {
            return Err(Ending::Refused);
        };
        work_once(task, act, committee, made, fold)?;
    }
    Ok(())
}

// Decodes, encodes or checks one of the messages.
fn work_once(
    task: Task,
    act: Act,
    committee: &Committee,
    made: &Made,
    fold: &mut Fold,
) -> Result<(), Ending> {
    match (act, task.is_work) {
        (Act::Decode, true) => decode_once(task.alloc, &made.bytes, fold),
        (Act::Encode, true) => Ok(encode_once(task.alloc, &made.message, fold)?),
        (Act::Check | Act::Recheck, _) => test_once(task, act, committee, made, fold),
        (Act::Decode | Act::Encode, false) => {
            fold.add_message(&made.message);
            Ok(())
        }
    }
}

fn decode_once(alloc: Global, bytes: &[u8], fold: &mut Fold) -> Result<(), Ending> {
    fold.add_message(&decode(alloc, bytes)?);
    Ok(())
}

fn encode_once(alloc: Global, message: &Message, fold: &mut Fold) -> Result<(), AllocError> {
    let bytes = encode(alloc, message)?;
    fold.add_bytes(&bytes);
    fold.add_bytes(&bytes[bytes.len() / 2..]);
    Ok(())
}

fn test_once(
    task: Task,
    act: Act,
    committee: &Committee,
    made: &Made,
    fold: &mut Fold,
) -> Result<(), Ending> {
    let message = decode(task.alloc, &made.bytes)?;
    if !task.is_work {
        fold.add_message(&message);
        return Ok(());
    }
    let tested = match act {
        Act::Check => check(committee, &HashVerify, made.sender, message),
        _ => recheck(committee, made.sender, message),
    };
    fold.add_bytes(&digest_in(&tested?).0);
    Ok(())
}

/// Cuts a stream of frames, each with a sender and a header, into their bodies. The stream is read in pieces of `size` bytes.
pub fn cut_frames(task: Task, config: &Config<HashSign>, fold: &mut Fold) -> Result<(), Ending> {
    let ring = ring_of(task, Form::Header, config.committee())?;
    let stream = stream_of(task, &ring)?;
    if task.is_work {
        return cut(task, &stream, fold);
    }
    fold.add_bytes(&stream);
    Ok(())
}

fn cut(task: Task, stream: &[u8], fold: &mut Fold) -> Result<(), Ending> {
    let mut reader = FrameReader::new(task.alloc);
    for piece in stream.chunks(task.size.max(1) as usize) {
        feed(&mut reader, piece, fold)?;
    }
    Ok(())
}

fn feed(reader: &mut FrameReader, piece: &[u8], fold: &mut Fold) -> Result<(), Ending> {
    for body in &reader.feed(piece)? {
        fold.add_bytes(body);
    }
    Ok(())
}

fn stream_of(task: Task, ring: &[Made]) -> Result<Vec<u8>, Ending> {
    let mut stream = Vec::new(task.alloc);
    for piece in 0..task.count {
        let Some(made) = ring.get((piece % RING) as usize) else {
            return Err(Ending::Refused);
        };
        put_frame(&mut stream, OWN, &made.bytes)?;
    }
    Ok(stream)
}

/// Adds a frame to the stream: its length, the sender, and these bytes.
pub fn put_frame(stream: &mut Vec<u8>, sender: Author, bytes: &[u8]) -> Result<(), Ending> {
    let Ok(len) = u32::try_from(bytes.len().saturating_add(2)) else {
        return Err(Ending::Refused);
    };
    stream.extend_from_slice(&len.to_be_bytes())?;
    stream.extend_from_slice(&sender.0.to_be_bytes())?;
    stream.extend_from_slice(bytes)?;
    Ok(())
}
