//! Tests each record of a checkpoint, in the order of the records, and finds the first that is at fault.

ghost use Rattle.std.specs.Prelude.{◌≡◌, ◌++◌, [], map, not, IfOk, OnOk};
ghost use Rattle.std.specs.List.{position_from};
ghost use Rattle.spec_checkpoint.specs.Faults as faults;
ghost use Rattle.spec_checkpoint.specs.Records.{cut};
ghost use Rattle.spec_model.specs.Nodes.{node_view};

use crate::faults::{is_batch_sound, is_certificate_sound, is_header_sound, is_vote_sound};
use crate::kept::{Checkpoint, KeptBatch, KeptHeader, KeptVote};
use crate::pieces::{COINS_PIECE, ORDER_PIECE};
use header::Node;
use sigface::Sign;
use std::alloc::{AllocError, Global};
use wire::{Certificate, Digest};

/// Adds the test of each piece of the order, which always passes: a piece can't be unsound by itself.
fn put_order_tests(tests: &mut Vec<bool>, digests: &[Digest]) -> Result<(), AllocError>
    ensures { OnOk result (tests.new.items ≡ tests.old.items ++ faults.piece_tests (cut ORDER_PIECE digests.now)) }
{
    let size = ORDER_PIECE as usize;
    for _ in 0..(digests.len() + (size - 1)) / size {
        tests.push(true)?;
    }
    Ok(())
}

/// Adds the test of each batch.
fn put_batch_tests<S: Sign>(
    tests: &mut Vec<bool>,
    node: &Node<S>,
    batches: &[KeptBatch],
) -> Result<(), AllocError>
    ensures { OnOk result (tests.new.items ≡ tests.old.items ++ faults.batch_tests (node_view S.scheme node.now) [] batches.now) }
{
    for place in 0..batches.len() {
        tests.push(is_batch_sound(node, &batches[..place], &batches[place])?)?;
    }
    Ok(())
}

/// Adds the test of each vote.
fn put_vote_tests<S: Sign>(
    tests: &mut Vec<bool>,
    node: &Node<S>,
    checkpoint: &Checkpoint,
    votes: &[KeptVote],
) -> Result<(), AllocError>
    ensures { OnOk result (tests.new.items ≡ tests.old.items ++ map (faults.is_vote_sound (node_view S.scheme node.now) checkpoint.now) votes.now) }
{
    for vote in votes {
        tests.push(is_vote_sound(node, checkpoint, vote))?;
    }
    Ok(())
}

/// Adds the test of each own header.
fn put_header_tests<S: Sign>(
    alloc: Global,
    tests: &mut Vec<bool>,
    node: &Node<S>,
    checkpoint: &Checkpoint,
    headers: &[KeptHeader],
) -> Result<(), AllocError>
    ensures { OnOk result (tests.new.items ≡ tests.old.items ++ map (faults.is_header_sound (node_view S.scheme node.now) checkpoint.now) headers.now) }
{
    for kept in headers {
        tests.push(is_header_sound(alloc, node, checkpoint, kept)?)?;
    }
    Ok(())
}

/// Adds the test of each certificate.
fn put_certificate_tests<S: Sign>(
    alloc: Global,
    tests: &mut Vec<bool>,
    node: &Node<S>,
    checkpoint: &Checkpoint,
    certificates: &[Certificate],
) -> Result<(), AllocError>
    ensures { OnOk result (tests.new.items ≡ tests.old.items ++ map (faults.is_certificate_sound (node_view S.scheme node.now) checkpoint.now) certificates.now) }
{
    for certificate in certificates {
        tests.push(is_certificate_sound(alloc, node, checkpoint, certificate)?)?;
    }
    Ok(())
}

/// Adds the test of each piece of the coins, which always passes: a piece can't be unsound by itself.
fn put_coin_tests(tests: &mut Vec<bool>, coins: &[u64]) -> Result<(), AllocError>
    ensures { OnOk result (tests.new.items ≡ tests.old.items ++ faults.piece_tests (cut COINS_PIECE coins.now)) }
{
    let size = COINS_PIECE as usize;
    for _ in 0..(coins.len() + (size - 1)) / size {
        tests.push(true)?;
    }
    Ok(())
}

/// The results of the tests of all records of a checkpoint's state, in the order of the records.
fn record_tests<S: Sign>(
    alloc: Global,
    node: &Node<S>,
    checkpoint: &Checkpoint,
) -> Result<Vec<bool>, AllocError>
    ensures { IfOk result (λ tests. tests.items ≡ faults.record_tests (node_view S.scheme node.now) checkpoint.now) }
{
    let mut tests = Vec::new(alloc);
    put_order_tests(&mut tests, &checkpoint.order)?;
    put_batch_tests(&mut tests, node, &checkpoint.batches)?;
    put_vote_tests(&mut tests, node, checkpoint, &checkpoint.votes)?;
    put_header_tests(alloc, &mut tests, node, checkpoint, &checkpoint.headers)?;
    put_certificate_tests(
        alloc,
        &mut tests,
        node,
        checkpoint,
        &checkpoint.certificates,
    )?;
    put_coin_tests(&mut tests, &checkpoint.coins)?;
    Ok(tests)
}

/// The place of the first test that failed, counted from 1; None if all passed.
fn first_failing(tests: &[bool]) -> Option<u64>
    ensures { result ≡ position_from not 1 tests.now }
{
    let mut place: u64 = 1;
    for sound in tests {
        if !*sound {
            return Some(place);
        }
        place += 1;
    }
    None
}

/// The place of the first unsound record of a checkpoint's state, counted from 1; None if all are sound.
pub fn first_unsound<S: Sign>(
    alloc: Global,
    node: &Node<S>,
    checkpoint: &Checkpoint,
) -> Result<Option<u64>, AllocError>
    ensures { IfOk result (λ found. found ≡ position_from not 1 (faults.record_tests (node_view S.scheme node.now) checkpoint.now)) }
{
    Ok(first_failing(&record_tests(alloc, node, checkpoint)?))
}
