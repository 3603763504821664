//! Writing the records of a state, in the order that a checkpoint has.

pub(crate) mod batch;
pub(crate) mod messages;
pub(crate) mod pieces;

ghost use Rattle.std.specs.Prelude.{◌≡◌, ◌++◌, All, map, IfOk, OnOk};
ghost use Rattle.journal.specs.Format.{contents};
ghost use Rattle.spec_checkpoint.specs.Records as records;
ghost use Rattle.checkpoint.specs.Kept.{checkpoint_of, batch_of, vote_of, header_of, certificate_of};

use crate::sink::{RecordSink, put_row};
use admission::{Kept, VotedHeader};
use batch::put_batch;
use batchstore::Held;
use messages::{certificate_record, header_record, vote_record};
use pieces::{COINS_PIECE, ORDER_PIECE, coins_record, order_record, piece_at};
use sequencer::Coins;
use std::alloc::{AllocError, Global};
use votebook::Slot;
use wire::{Certificate, Digest};

/// The records of a state: the order in pieces, the batches, the votes for other members' headers, the own headers, the certificates, the
/// coins in pieces. On `AllocError` an allocation failed.
pub fn records_of(alloc: Global, kept: &Kept) -> Result<Vec<Vec<u8>>, AllocError>
    ensures { IfOk result (λ rows. contents rows.items ≡ records.state_records (checkpoint_of kept.now)) }
{
    let mut rows = Vec::new(alloc);
    put_records(alloc, &mut rows, kept)?;
    Ok(rows)
}

/// Adds the records of a state to the sink.
pub fn put_records<S: RecordSink>(
    alloc: Global,
    sink: &mut S,
    kept: &Kept,
) -> Result<(), AllocError>
    requires { All S.fits (records.state_records (checkpoint_of kept.now)) }
    ensures { OnOk result (S.records sink.new ≡ S.records sink.old ++ records.state_records (checkpoint_of kept.now)) }
{
    put_order(alloc, sink, &kept.order)?;
    put_batches(alloc, sink, &kept.batches)?;
    put_votes(alloc, sink, &kept.votes)?;
    put_headers(alloc, sink, &kept.headers)?;
    put_certificates(alloc, sink, &kept.certificates)?;
    put_coins(alloc, sink, &kept.coins)
}

/// Adds to the sink the records of the pieces of the order.
fn put_order<S: RecordSink>(alloc: Global, sink: &mut S, order: &[Digest]) -> Result<(), AllocError>
    requires { All S.fits (map records.order_record (records.cut ORDER_PIECE order.now)) }
    ensures { OnOk result (S.records sink.new ≡ S.records sink.old ++ map records.order_record (records.cut ORDER_PIECE order.now)) }
{
    let count = (order.len() + (ORDER_PIECE - 1)) / ORDER_PIECE;
    for piece in 0..count {
        let row = order_record(alloc, piece_at(order, ORDER_PIECE, piece))?;
        put_row(alloc, sink, row.as_slice())?;
    }
    Ok(())
}

/// Adds to the sink the records of batches.
fn put_batches<S: RecordSink>(
    alloc: Global,
    sink: &mut S,
    batches: &[(Digest, Held)],
) -> Result<(), AllocError>
    requires { All S.fits (map records.batch_record (map batch_of batches.now)) }
    ensures { OnOk result (S.records sink.new ≡ S.records sink.old ++ map records.batch_record (map batch_of batches.now)) }
{
    for entry in batches {
        put_batch(alloc, sink, &entry.1)?;
    }
    Ok(())
}

/// Adds to the sink the records of votes for other members' headers.
fn put_votes<S: RecordSink>(
    alloc: Global,
    sink: &mut S,
    votes: &[(Slot, Digest)],
) -> Result<(), AllocError>
    requires { All S.fits (map records.vote_record (map vote_of votes.now)) }
    ensures { OnOk result (S.records sink.new ≡ S.records sink.old ++ map records.vote_record (map vote_of votes.now)) }
{
    for vote in votes {
        let row = vote_record(alloc, vote)?;
        put_row(alloc, sink, row.as_slice())?;
    }
    Ok(())
}

/// Adds to the sink the records of own headers.
fn put_headers<S: RecordSink>(
    alloc: Global,
    sink: &mut S,
    headers: &[VotedHeader],
) -> Result<(), AllocError>
    requires { All S.fits (map records.header_record (map header_of headers.now)) }
    ensures { OnOk result (S.records sink.new ≡ S.records sink.old ++ map records.header_record (map header_of headers.now)) }
{
    for voted in headers {
        let row = header_record(alloc, voted)?;
        put_row(alloc, sink, row.as_slice())?;
    }
    Ok(())
}

/// Adds to the sink the records of certificates.
fn put_certificates<S: RecordSink>(
    alloc: Global,
    sink: &mut S,
    certificates: &[(Certificate, Digest)],
) -> Result<(), AllocError>
    requires { All S.fits (map records.certificate_record (map certificate_of certificates.now)) }
    ensures { OnOk result (S.records sink.new ≡ S.records sink.old ++ map records.certificate_record (map certificate_of certificates.now)) }
{
    for entry in certificates {
        let row = certificate_record(alloc, &entry.0)?;
        put_row(alloc, sink, row.as_slice())?;
    }
    Ok(())
}

/// Adds to the sink the records of the pieces of the coins.
fn put_coins<S: RecordSink>(alloc: Global, sink: &mut S, coins: &Coins) -> Result<(), AllocError>
    requires { All S.fits (map records.coins_record (records.cut COINS_PIECE coins.now)) }
    ensures { OnOk result (S.records sink.new ≡ S.records sink.old ++ map records.coins_record (records.cut COINS_PIECE coins.now)) }
{
    let count = (coins.count() + (COINS_PIECE - 1)) / COINS_PIECE;
    for piece in 0..count {
        let row = coins_record(alloc, coins, COINS_PIECE * piece)?;
        put_row(alloc, sink, row.as_slice())?;
    }
    Ok(())
}
