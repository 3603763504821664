//! How much of the process's memory the bodies of batches take, as the operating system reports it. A validator's table and its output
//! share one body of each batch; no contract says so, since a contract sees only the bytes.

ghost use Rattle.std.specs.Prelude.{◌≡◌, None};
ghost use Rattle.header.specs.Checks.{fault_of, accepts_all};

use committee::Committee;
use header::{Checked, Refusal, check};
use sigface::{HashSign, HashVerify};
use sim_script::{FormError, OWN, signer};
use std::alloc::{AllocError, Global};
use std::fs;
use validator::{Config, Step, Validator};
use wire::{Batch, MAX_TRANSACTION_BYTES, Message, OpenBatch, Output};

/// The folder in which the operating system reports on its processes; the entry `self` is this process.
const PROCESSES: &str = "/proc";

/// The place, in the report, of the number of pages that the process may write to.
const WRITABLE: usize = 5;

/// The size of a page, in bytes.
const PAGE_BYTES: u64 = 4096;

/// How often the bodies are copied at most, to use up the memory that the process has already been given.
const ROUNDS: u64 = 16;

/// How many bytes of memory the process may write to, by the pages that the operating system reports; 0 if it doesn't report them.
fn memory(rt: &HostRuntime) -> u64 {
    let Ok(file) = format!(in rt.alloc(); "{PROCESSES}/self/statm") else {
        return 0;
    };
    let Ok(text) = fs::read_to_string(rt, &file) else {
        return 0;
    };
    let pages = text.split_whitespace().nth(WRITABLE).unwrap_or("");
    pages.parse::<u64>().unwrap_or(0).saturating_mul(PAGE_BYTES)
}

/// Makes this many own batches, each of this many transactions of the greatest length. Shows whether the process's memory grows by at least
/// half of the size of their bodies, first when each body is copied, and then when a validator takes the batches and all its outputs are
/// kept.
pub fn report_bodies(
    rt: &HostRuntime,
    committee: Committee,
    count: u64,
    transactions: u64,
    answer: &mut String,
) -> Result<(), FormError> {
    let batches = batches_of(rt.alloc(), count, transactions)?;
    // The copies are kept, so that none of their memory is free again.
    let mut copies = Vec::new(rt.alloc());
    let grown = grows_by_copies(rt, &batches, &mut copies)?;
    writeln!(answer, "copied: grown {grown}")?;
    match Config::new(committee, OWN, signer(OWN)) {
        Some(config) => report_steps(rt, &config, &batches, answer),
        None => Err(FormError::BadCommand),
    }
}

fn report_steps(
    rt: &HostRuntime,
    config: &Config<HashSign>,
    batches: &[Batch],
    answer: &mut String,
) -> Result<(), FormError> {
    let mut validator = Validator::new(rt.alloc(), config)?;
    let mut steps = Vec::new(rt.alloc());
    let grown = grows_by_steps(rt, &mut validator, batches, &mut steps)?;
    let out = put_out(&steps);
    Ok(writeln!(answer, "taken, and put out {out}: grown {grown}")?)
}

/// Own batches, no two of which have the same transactions.
fn batches_of(alloc: Global, count: u64, transactions: u64) -> Result<Vec<Batch>, AllocError> {
    let mut batches = Vec::new(alloc);
    for byte in 0..count.min(255) as u8 {
        let transaction = vec![in alloc; byte; MAX_TRANSACTION_BYTES]?;
        batches.push(batch_of(alloc, &transaction, transactions)?)?;
    }
    Ok(batches)
}

/// An own batch that has this transaction this many times.
fn batch_of(alloc: Global, transaction: &[u8], count: u64) -> Result<Batch, AllocError> {
    let mut open = OpenBatch::new(alloc, OWN, 0)?;
    for _ in 0..count {
        fill(&mut open, transaction)?;
    }
    Ok(open.close()?)
}

fn fill(open: &mut OpenBatch, transaction: &[u8]) -> Result<(), AllocError> {
    let len = transaction.len();
    if len <= MAX_TRANSACTION_BYTES && open.has_room(len) {
        open.push(transaction)?;
    }
    Ok(())
}

/// The size of the bodies of all these batches, in bytes.
fn bytes_of(batches: &[Batch]) -> u64 {
    let mut bytes = 0u64;
    for batch in batches {
        bytes = bytes.saturating_add(batch.body().len() as u64);
    }
    bytes
}

/// Copies the bodies until the memory that the process already had is used up. Returns whether the last copy let memory grow by at least
/// half of the bodies' size.
fn grows_by_copies(
    rt: &HostRuntime,
    batches: &[Batch],
    copies: &mut Vec<Vec<u8>>,
) -> Result<bool, AllocError> {
    for _ in 0..ROUNDS {
        let before = memory(rt);
        copy_each(rt.alloc(), batches, copies)?;
        if has_grown(rt, before, batches) {
            return Ok(true);
        }
    }
    Ok(false)
}

/// Gives the batches to the validator, and keeps its answers. Returns whether memory has grown by at least half of the size of the bodies.
fn grows_by_steps(
    rt: &HostRuntime,
    validator: &mut Validator<'_, HashSign>,
    batches: &[Batch],
    steps: &mut Vec<Result<Step, Refusal>>,
) -> Result<bool, FormError> {
    let before = memory(rt);
    for batch in batches {
        take(validator, batch.share()?, steps)?;
    }
    Ok(has_grown(rt, before, batches))
}

/// Whether memory has grown by at least half of the size of these batches' bodies.
fn has_grown(rt: &HostRuntime, before: u64, batches: &[Batch]) -> bool {
    memory(rt).saturating_sub(before) >= bytes_of(batches) / 2
}

fn copy_each(
    alloc: Global,
    batches: &[Batch],
    copies: &mut Vec<Vec<u8>>,
) -> Result<(), AllocError> {
    for batch in batches {
        copies.push(batch.body().to_vec(alloc)?)?;
    }
    Ok(())
}

fn take(
    validator: &mut Validator<'_, HashSign>,
    batch: Batch,
    steps: &mut Vec<Result<Step, Refusal>>,
) -> Result<(), FormError> {
    match check(
        validator.committee(),
        &HashVerify,
        OWN,
        Message::Batch(batch),
    ) {
        Ok(checked) => step(validator, checked, steps),
        Err(_) => Err(FormError::BadCommand),
    }
}

fn step(
    validator: &mut Validator<'_, HashSign>,
    checked: Checked,
    steps: &mut Vec<Result<Step, Refusal>>,
) -> Result<(), FormError>
    requires { fault_of validator.old.setting.charter accepts_all checked ≡ None }
{
    Ok(steps.push(validator.step(checked))?)
}

/// How many batches are in the outputs of the events that were new.
fn put_out(steps: &[Result<Step, Refusal>]) -> u64 {
    let mut count = 0u64;
    for step in steps {
        if let Ok(Step::New(outputs)) = step {
            count = count.saturating_add(batches_in(outputs));
        }
    }
    count
}

fn batches_in(outputs: &[Output]) -> u64 {
    let mut count = 0u64;
    for output in outputs {
        if matches!(output, Output::Batch(_)) {
            count = count.saturating_add(1);
        }
    }
    count
}
