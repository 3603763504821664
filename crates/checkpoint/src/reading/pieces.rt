//! Reading the records of pieces of the order and of the coins in a checkpoint.

ghost use Rattle.std.specs.Prelude.{◌≡◌};
ghost use Rattle.std.specs.Int.{w32, w64};
ghost use Rattle.spec_checkpoint.specs.Reading.{counted_at, digests_at, coins_at};
ghost use Rattle.wire.specs.Reading.{Gives, digest_at, number_at};

use crate::records::pieces::{COINS_PIECE, ORDER_PIECE};
use std::alloc::Global;
use wire::{Digest, WireError};
use wire_read::Reader;

/// Reads the digests of one piece of the order. A piece has at least one.
#[tactic(auto, unfolding(spec_checkpoint::specs::Reading::digests_at))]
pub fn digests_of(alloc: Global, reader: &mut Reader) -> Result<Vec<Digest>, WireError>
    ensures { Gives (λ x. (x.items, reader.new)) result (digests_at reader.old) }
{
    let digests = counted_digests_of(alloc, reader)?;
    if digests.is_empty() {
        return Err(WireError::NotCanonical);
    }
    Ok(digests)
}

/// Reads digests after their count.
fn counted_digests_of(alloc: Global, reader: &mut Reader) -> Result<Vec<Digest>, WireError>
    ensures { Gives (λ x. (x.items, reader.new)) result (counted_at w32 ORDER_PIECE (λ before. digest_at) reader.old) }
{
    let count = reader.count_u32(ORDER_PIECE as u32)?;
    let mut digests = Vec::new(alloc);
    for _ in 0..count {
        let digest = reader.digest()?;
        digests.push(digest)?;
    }
    Ok(digests)
}

/// Reads the values of one piece of the coins. A piece has at least one.
#[tactic(auto, unfolding(spec_checkpoint::specs::Reading::coins_at))]
pub fn coins_of(alloc: Global, reader: &mut Reader) -> Result<Vec<u64>, WireError>
    ensures { Gives (λ x. (x.items, reader.new)) result (coins_at reader.old) }
{
    let coins = counted_coins_of(alloc, reader)?;
    if coins.is_empty() {
        return Err(WireError::NotCanonical);
    }
    Ok(coins)
}

/// Reads values of coins after their count.
fn counted_coins_of(alloc: Global, reader: &mut Reader) -> Result<Vec<u64>, WireError>
    ensures { Gives (λ x. (x.items, reader.new)) result (counted_at w32 COINS_PIECE (λ before. number_at w64) reader.old) }
{
    let count = reader.count_u32(COINS_PIECE as u32)?;
    let mut coins = Vec::new(alloc);
    for _ in 0..count {
        let coin = reader.u64()?;
        coins.push(coin)?;
    }
    Ok(coins)
}
