//! Reads the records of a checkpoint's state, one after the other.

ghost use Rattle.std.specs.Prelude.{◌≡◌, ◌<◌, ◌++◌, [], ◌∷◌, List, ℕ, length, not, IfOk, IfErr, option_map};
ghost use Rattle.spec_checkpoint.specs.Data.{blank};
ghost use Rattle.spec_checkpoint.specs.Reading.{digests_at, coins_at, kept_batch_at, kept_vote_at, kept_header_at, kept_certificate_at};
ghost use Rattle.spec_checkpoint.specs.Reading as reading;
ghost use Rattle.spec_model.specs.Nodes.{node_view};
ghost use Rattle.wire.specs.Reading.{Gives, Read};
ghost use Rattle.ref_checkpoint.specs.Lists.{contents};

use crate::kept::Checkpoint;
use crate::parts::{kept_batch_of, kept_certificate_of, kept_header_of, kept_vote_of};
use crate::pieces::{COINS_PIECE, ORDER_PIECE, coins_of, digests_of};
use header::Node;
use sigface::Sign;
use std::alloc::{AllocError, Global};
use wire::WireError;
use wire_read::Reader;

/// The value of a reading, if it succeeded and no byte is left; None otherwise.
fn whole<T: Drop>(read: Result<T, WireError>, reader: &Reader) -> Result<Option<T>, AllocError>
    ensures { (text : Read T) → Gives (λ x. (x, reader.now)) read text → IfOk result (λ found. found ≡ reading.whole text) }
{
    match read {
        Ok(found) => {
            if reader.rest().is_empty() {
                return Ok(Some(found));
            }
            Ok(None)
        }
        Err(WireError::Memory) => Err(AllocError),
        Err(_) => Ok(None),
    }
}

/// The list of a reading, if it succeeded and no byte is left; None otherwise.
fn whole_list<T: Drop>(
    read: Result<Vec<T>, WireError>,
    reader: &Reader,
) -> Result<Option<Vec<T>>, AllocError>
    ensures { (text : Read (List T)) → Gives (λ x. (x.items, reader.now)) read text → IfOk result (λ found. option_map (λ list. list.items) found ≡ reading.whole text) }
{
    match read {
        Ok(found) => {
            if reader.rest().is_empty() {
                return Ok(Some(found));
            }
            Ok(None)
        }
        Err(WireError::Memory) => Err(AllocError),
        Err(_) => Ok(None),
    }
}

/// The checkpoint of a node that has taken no event.
fn blank(alloc: Global) -> Checkpoint
    ensures { result ≡ blank }
{
    Checkpoint {
        order: Vec::new(alloc),
        batches: Vec::new(alloc),
        votes: Vec::new(alloc),
        headers: Vec::new(alloc),
        certificates: Vec::new(alloc),
        coins: Vec::new(alloc),
    }
}

/// The kind of the last record of a checkpoint's state; 0 if there is none.
#[tactic(auto, using(crate::proofs::LastKinds::kinds))]
fn last_kind(checkpoint: &Checkpoint) -> u8
    ensures { result ≡ reading.last_kind checkpoint.now }
{
    if !checkpoint.coins.is_empty() {
        8
    } else if !checkpoint.certificates.is_empty() {
        7
    } else if !checkpoint.headers.is_empty() {
        6
    } else if !checkpoint.votes.is_empty() {
        5
    } else if !checkpoint.batches.is_empty() {
        4
    } else if !checkpoint.order.is_empty() {
        3
    } else {
        0
    }
}

/// The checkpoint so far with one more piece of the order; None if these bytes are none.
fn with_order(
    alloc: Global,
    mut so_far: Checkpoint,
    bytes: &[u8],
) -> Result<Option<Checkpoint>, AllocError>
    ensures { IfOk result (λ found. found ≡ option_map (λ digests. record so_far { order = so_far.order ++ digests }) (reading.whole (digests_at bytes.now))) }
{
    let mut reader = Reader::new(bytes);
    let read = digests_of(alloc, &mut reader);
    match whole_list(read, &reader)? {
        None => Ok(None),
        Some(mut digests) => {
            so_far.order.append(&mut digests)?;
            Ok(Some(so_far))
        }
    }
}

/// The checkpoint so far with one more batch; None if these bytes are none.
fn with_batch<S: Sign>(
    alloc: Global,
    node: &Node<S>,
    mut so_far: Checkpoint,
    bytes: &[u8],
) -> Result<Option<Checkpoint>, AllocError>
    ensures { IfOk result (λ found. found ≡ option_map (λ kept. record so_far { batches = so_far.batches ++ kept ∷ [] }) (reading.whole (kept_batch_at (node_view S.scheme node.now) bytes.now))) }
{
    let mut reader = Reader::new(bytes);
    let read = kept_batch_of(alloc, node, &mut reader);
    match whole(read, &reader)? {
        None => Ok(None),
        Some(kept) => {
            so_far.batches.push(kept)?;
            Ok(Some(so_far))
        }
    }
}

/// The checkpoint so far with one more vote; None if these bytes are none.
fn with_vote(mut so_far: Checkpoint, bytes: &[u8]) -> Result<Option<Checkpoint>, AllocError>
    ensures { IfOk result (λ found. found ≡ option_map (λ kept. record so_far { votes = so_far.votes ++ kept ∷ [] }) (reading.whole (kept_vote_at so_far.votes bytes.now))) }
{
    let mut reader = Reader::new(bytes);
    let read = kept_vote_of(&so_far.votes, &mut reader);
    match whole(read, &reader)? {
        None => Ok(None),
        Some(kept) => {
            so_far.votes.push(kept)?;
            Ok(Some(so_far))
        }
    }
}

/// The checkpoint so far with one more own header; None if these bytes are none.
fn with_header<S: Sign>(
    alloc: Global,
    node: &Node<S>,
    mut so_far: Checkpoint,
    bytes: &[u8],
) -> Result<Option<Checkpoint>, AllocError>
    ensures { IfOk result (λ found. found ≡ option_map (λ kept. record so_far { headers = so_far.headers ++ kept ∷ [] }) (reading.whole (kept_header_at (node_view S.scheme node.now) so_far.headers bytes.now))) }
{
    let mut reader = Reader::new(bytes);
    let read = kept_header_of(alloc, node, &so_far.headers, &mut reader);
    match whole(read, &reader)? {
        None => Ok(None),
        Some(kept) => {
            so_far.headers.push(kept)?;
            Ok(Some(so_far))
        }
    }
}

/// The checkpoint so far with one more certificate; None if these bytes are none.
fn with_certificate(
    alloc: Global,
    mut so_far: Checkpoint,
    bytes: &[u8],
) -> Result<Option<Checkpoint>, AllocError>
    ensures { IfOk result (λ found. found ≡ option_map (λ kept. record so_far { certificates = so_far.certificates ++ kept ∷ [] }) (reading.whole (kept_certificate_at so_far.certificates bytes.now))) }
{
    let mut reader = Reader::new(bytes);
    let read = kept_certificate_of(alloc, &so_far.certificates, &mut reader);
    match whole(read, &reader)? {
        None => Ok(None),
        Some(kept) => {
            so_far.certificates.push(kept)?;
            Ok(Some(so_far))
        }
    }
}

/// The checkpoint so far with one more piece of the coins; None if these bytes are none.
fn with_coins(
    alloc: Global,
    mut so_far: Checkpoint,
    bytes: &[u8],
) -> Result<Option<Checkpoint>, AllocError>
    ensures { IfOk result (λ found. found ≡ option_map (λ coins. record so_far { coins = so_far.coins ++ coins }) (reading.whole (coins_at bytes.now))) }
{
    let mut reader = Reader::new(bytes);
    let read = coins_of(alloc, &mut reader);
    match whole_list(read, &reader)? {
        None => Ok(None),
        Some(mut coins) => {
            so_far.coins.append(&mut coins)?;
            Ok(Some(so_far))
        }
    }
}

/// The checkpoint so far with one more record; None if the record breaks the format.
#[tactic(auto, unfolding(spec_checkpoint::specs::Reading::with_record))]
fn with_record<S: Sign>(
    alloc: Global,
    node: &Node<S>,
    so_far: Checkpoint,
    record: &[u8],
) -> Result<Option<Checkpoint>, AllocError>
    ensures { IfOk result (λ found. found ≡ reading.with_record (node_view S.scheme node.now) so_far record.now) }
{
    let Some((kind, bytes)) = record.split_first() else {
        return Ok(None);
    };
    if *kind < last_kind(&so_far) {
        return Ok(None);
    }
    match *kind {
        3 => with_order(alloc, so_far, bytes),
        4 => with_batch(alloc, node, so_far, bytes),
        5 => with_vote(so_far, bytes),
        6 => with_header(alloc, node, so_far, bytes),
        7 => with_certificate(alloc, so_far, bytes),
        8 => with_coins(alloc, so_far, bytes),
        _ => Ok(None),
    }
}

/// The kind of a record, which is its first byte.
fn kind_of(record: &[u8]) -> u8
    ensures { result ≡ reading.kind_of record.now }
{
    match record.first() {
        None => 0,
        Some(kind) => *kind,
    }
}

/// Whether the last record is a piece that isn't full, so that one more piece of this kind would make it a fault.
fn is_cut_short(checkpoint: &Checkpoint, kind: u8) -> bool
    ensures { result ≡ reading.is_cut_short checkpoint.now kind }
{
    if last_kind(checkpoint) != kind {
        return false;
    }
    match kind {
        3 => checkpoint.order.len() % ORDER_PIECE as usize != 0,
        8 => checkpoint.coins.len() % COINS_PIECE as usize != 0,
        _ => false,
    }
}

/// The checkpoint that these records decode to, or the place of the first record that breaks the format.
///
/// # Errors
/// An allocation failed.
pub fn checkpoint_read<S: Sign>(
    alloc: Global,
    node: &Node<S>,
    records: &[Vec<u8>],
) -> Result<Result<Checkpoint, u64>, AllocError>
    ensures read { IfOk result (λ read. read ≡ reading.checkpoint_read (node_view S.scheme node.now) (contents records.now)) }
    ensures within { IfOk result (λ read. IfErr read (λ place. place < length records.now)) }
{
    let mut so_far = blank(alloc);
    let mut place: u64 = 0;
    for record in records {
        if is_cut_short(&so_far, kind_of(record)) {
            return Ok(Err(place.saturating_sub(1)));
        }
        match with_record(alloc, node, so_far, record)? {
            None => return Ok(Err(place)),
            Some(next) => so_far = next,
        }
        place += 1;
    }
    Ok(Ok(so_far))
}
