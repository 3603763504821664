//! Writing the records of pieces of the order and of the coins.

ghost use Rattle.std.specs.Prelude.{◌≡◌, ◌<◌, ◌≤◌, ◌+◌, ◌*◌, ◌^◌, ◌++◌, length, take, drop, flat_map, IfOk, OnOk};
ghost use Rattle.std.specs.Int.{w64, to_be_bytes};
ghost use Rattle.spec_checkpoint.specs.Records as records;

use sequencer::Coins;
use std::alloc::{AllocError, Global};
use wire::Digest;

/// The kind byte of the record of a piece of the order.
pub const ORDER: u8 = 3;

/// The kind byte of the record of a piece of the coins.
pub const COINS: u8 = 8;

/// How many digests a full piece of the order has: they are 2 MiB. Only the last piece may have fewer.
pub const ORDER_PIECE: usize = 65_536;

/// How many values a full piece of the coins has: they are 1 MiB. Only the last piece may have fewer.
pub const COINS_PIECE: usize = 131_072;

/// The piece with this number, counted from 0, of a list that is cut into pieces of this size.
pub fn piece_at<T>(list: &[T], size: usize, piece: usize) -> &[T]
    requires { size * piece < length list.now }
    ensures value { result.now ≡ take size (drop (size * piece) list.now) }
    ensures few { length result.now ≤ size }
{
    let rest = &list[size * piece..];
    &rest[..size.min(rest.len())]
}

/// The record of a piece of the order: the kind, the number of digests, and the digests.
pub fn order_record(alloc: Global, digests: &[Digest]) -> Result<Vec<u8>, AllocError>
    requires { length digests.now ≤ ORDER_PIECE }
    ensures { IfOk result (λ bytes. bytes.items ≡ records.order_record digests.now) }
{
    let mut bytes = Vec::with_capacity(alloc, 5 + 32 * digests.len())?;
    bytes.push(ORDER)?;
    bytes.extend_from_slice(&(digests.len() as u32).to_be_bytes())?;
    put_digests(&mut bytes, digests)?;
    Ok(bytes)
}

/// Adds digests to the bytes.
fn put_digests(bytes: &mut Vec<u8>, digests: &[Digest]) -> Result<(), AllocError>
    ensures { OnOk result (bytes.new.items ≡ bytes.old.items ++ flat_map (λ digest. digest.0) digests.now) }
{
    for digest in digests {
        bytes.extend_from_slice(&digest.0)?;
    }
    Ok(())
}

/// The record of a piece of the coins, which begins at this place: the kind, the number of values, and the values.
pub fn coins_record(alloc: Global, coins: &Coins, from: usize) -> Result<Vec<u8>, AllocError>
    requires { from < length coins.now }
    ensures { IfOk result (λ bytes. bytes.items ≡ records.coins_record (take COINS_PIECE (drop from coins.now))) }
{
    let count = COINS_PIECE.min(coins.count() - from);
    let mut bytes = Vec::with_capacity(alloc, 5 + 8 * count)?;
    bytes.push(COINS)?;
    bytes.extend_from_slice(&(count as u32).to_be_bytes())?;
    put_values(&mut bytes, coins, from, count)?;
    Ok(bytes)
}

/// Adds this many values of the coins, from this place on, to the bytes.
fn put_values(
    bytes: &mut Vec<u8>,
    coins: &Coins,
    from: usize,
    count: usize,
) -> Result<(), AllocError>
    requires within { from + count ≤ length coins.now }
    requires small { from + count < 2 ^ 63 }
    ensures { OnOk result (bytes.new.items ≡ bytes.old.items ++ flat_map (to_be_bytes w64) (take count (drop from coins.now))) }
{
    for offset in 0..count {
        if let Some(value) = coins.nth(from + offset) {
            bytes.extend_from_slice(&value.to_be_bytes())?;
        }
    }
    Ok(())
}
