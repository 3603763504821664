//! Reading the records of a checkpoint's state, one after the other, without judging whether they are sound.

mod batch;
mod certificate;
mod own_header;
mod pieces;
mod place;
mod vote;

ghost use Rattle.std.specs.Prelude.{◌≡◌, ◌++◌, [], ◌∷◌, List, ℕ, false, Some, None, IfOk, OnErr, option_map, if◌then◌else◌};
ghost use Rattle.checkpoint.specs.Kept.{vote_of};
ghost use Rattle.spec_checkpoint.specs.Data.{blank, KeptVote};
ghost use Rattle.spec_checkpoint.specs.Reading.{digests_at, coins_at, kept_batch_at, kept_vote_at, kept_header_at, kept_certificate_at, with_record};
ghost use Rattle.spec_checkpoint.specs.Reading as reading;
ghost use Rattle.spec_model.specs.Nodes.{node_view};
ghost use Rattle.wire.specs.Reading.{Gives, Read};

use crate::records::batch::BATCH;
use crate::records::messages::{CERTIFICATE, HEADER, VOTE};
use crate::records::pieces::{COINS, COINS_PIECE, ORDER, ORDER_PIECE};
pub use batch::ReadBatch;
use batch::read_batch_of;
use certificate::read_certificate_of;
use header::Node;
use own_header::read_header_of;
pub use own_header::{ReadHeader, has_vote_of};
use pieces::{coins_of, digests_of};
use sigface::Sign;
use std::alloc::{AllocError, Global};
use std::marker::Model;
use vote::read_vote_of;
use votebook::Slot;
use wire::{Certificate, Digest, WireError};
use wire_read::Reader;

/// What the records of a checkpoint that were read so far decode to. Contracts see it as a checkpoint.
#[derive(Drop)]
pub struct ReadSoFar {
    /// The order.
    pub order: Vec<Digest>,
    /// The batches, in the order of acceptance.
    pub batches: Vec<ReadBatch>,
    /// The votes for other authors' headers, sorted by round and then author.
    pub votes: Vec<(Slot, Digest)>,
    /// The own headers, sorted by round.
    pub headers: Vec<ReadHeader>,
    /// The certificates above the genesis, sorted by round and then author.
    pub certificates: Vec<Certificate>,
    /// The values of the coins, that of wave 1 first.
    pub coins: Vec<u64>,
}

impl Model for ReadSoFar {
    ghost use Rattle.std.specs.Prelude.{map};
    ghost use Rattle.spec_checkpoint.specs.Data.{Checkpoint};
    ghost use Rattle.checkpoint.specs.Kept.{vote_of};

    ghost Value = { Checkpoint };

    ghost view = { λ r. record { order = r.order.items; batches = r.batches.items; votes = map vote_of r.votes.items; headers = r.headers.items; certificates = r.certificates.items; coins = r.coins.items } };
}

impl ReadSoFar {
    /// What was read before the first record: nothing.
    pub fn new(alloc: Global) -> ReadSoFar
        ensures { result ≡ blank }
    {
        ReadSoFar {
            order: Vec::new(alloc),
            batches: Vec::new(alloc),
            votes: Vec::new(alloc),
            headers: Vec::new(alloc),
            certificates: Vec::new(alloc),
            coins: Vec::new(alloc),
        }
    }

    /// Reads one more record, and gives whether the record follows the format. On `AllocError` an allocation failed. A record that isn't
    /// read changes nothing.
    #[tactic(auto, unfolding(spec_checkpoint::specs::Reading::with_record))]
    pub fn put<S: Sign>(
        &mut self,
        alloc: Global,
        node: &Node<S>,
        bytes: &[u8],
    ) -> Result<bool, AllocError>
        ensures read { IfOk result (λ put. with_record (node_view S.scheme node.now) self.old bytes.now ≡ (if put then Some self.new else None)) }
        ensures same { IfOk result (λ put. put ≡ false → self.new ≡ self.old) }
        ensures err { OnErr result (self.new ≡ self.old) }
    {
        let Some((kind, rest)) = bytes.split_first() else {
            return Ok(false);
        };
        if *kind < self.last_kind() {
            return Ok(false);
        }
        match *kind {
            ORDER => self.put_order(alloc, rest),
            BATCH => self.put_batch(alloc, node, rest),
            VOTE => self.put_vote(rest),
            HEADER => self.put_header(alloc, node, rest),
            CERTIFICATE => self.put_certificate(alloc, rest),
            COINS => self.put_coins(alloc, rest),
            _ => Ok(false),
        }
    }

    /// Whether the last record is a piece of the order or of the coins that isn't full, and a record of this kind would be one more such
    /// piece.
    pub fn is_cut_short(&self, kind: u8) -> bool
        ensures { result ≡ reading.is_cut_short self.now kind }
    {
        if self.last_kind() != kind {
            return false;
        }
        match kind {
            ORDER => self.order.len() % ORDER_PIECE != 0,
            COINS => self.coins.len() % COINS_PIECE != 0,
            _ => false,
        }
    }

    /// The kind of the last record that was read, 0 where none was.
    #[tactic(auto, using(crate::proofs::LastKinds::kinds))]
    fn last_kind(&self) -> u8
        ensures { result ≡ reading.last_kind self.now }
    {
        if !self.coins.is_empty() {
            COINS
        } else if !self.certificates.is_empty() {
            CERTIFICATE
        } else if !self.headers.is_empty() {
            HEADER
        } else if !self.votes.is_empty() {
            VOTE
        } else if !self.batches.is_empty() {
            BATCH
        } else if !self.order.is_empty() {
            ORDER
        } else {
            0
        }
    }

    // Reads a record with a piece of the order, and gives whether it follows the format.
    fn put_order(&mut self, alloc: Global, bytes: &[u8]) -> Result<bool, AllocError>
        ensures read { IfOk result (λ put. option_map (λ digests. record self.old { order = self.old.order ++ digests }) (reading.whole (digests_at bytes.now)) ≡ (if put then Some self.new else None)) }
        ensures same { IfOk result (λ put. put ≡ false → self.new ≡ self.old) }
        ensures err { OnErr result (self.new ≡ self.old) }
    {
        let mut reader = Reader::new(bytes);
        let read = digests_of(alloc, &mut reader);
        match whole_list(read, &reader)? {
            None => Ok(false),
            Some(mut digests) => {
                self.order.append(&mut digests)?;
                Ok(true)
            }
        }
    }

    // Reads a record with a batch, and gives whether it follows the format.
    fn put_batch<S: Sign>(
        &mut self,
        alloc: Global,
        node: &Node<S>,
        bytes: &[u8],
    ) -> Result<bool, AllocError>
        ensures read { IfOk result (λ put. option_map (λ kept. record self.old { batches = self.old.batches ++ kept ∷ [] }) (reading.whole (kept_batch_at (node_view S.scheme node.now) bytes.now)) ≡ (if put then Some self.new else None)) }
        ensures same { IfOk result (λ put. put ≡ false → self.new ≡ self.old) }
        ensures err { OnErr result (self.new ≡ self.old) }
    {
        let mut reader = Reader::new(bytes);
        let read = read_batch_of(alloc, node, &mut reader);
        match whole(read, &reader)? {
            None => Ok(false),
            Some(batch) => {
                self.batches.push(batch)?;
                Ok(true)
            }
        }
    }

    // Reads a record with a vote, and gives whether it follows the format.
    fn put_vote(&mut self, bytes: &[u8]) -> Result<bool, AllocError>
        ensures read { IfOk result (λ put. option_map (λ kept. record self.old { votes = self.old.votes ++ kept ∷ [] }) (reading.whole (kept_vote_at self.old.votes bytes.now)) ≡ (if put then Some self.new else None)) }
        ensures same { IfOk result (λ put. put ≡ false → self.new ≡ self.old) }
        ensures err { OnErr result (self.new ≡ self.old) }
    {
        let mut reader = Reader::new(bytes);
        let read = read_vote_of(&self.votes, &mut reader);
        match whole_vote(read, &reader)? {
            None => Ok(false),
            Some(vote) => {
                self.votes.push(vote)?;
                Ok(true)
            }
        }
    }

    // Reads a record with an own header, and gives whether it follows the format.
    fn put_header<S: Sign>(
        &mut self,
        alloc: Global,
        node: &Node<S>,
        bytes: &[u8],
    ) -> Result<bool, AllocError>
        ensures read { IfOk result (λ put. option_map (λ kept. record self.old { headers = self.old.headers ++ kept ∷ [] }) (reading.whole (kept_header_at (node_view S.scheme node.now) self.old.headers bytes.now)) ≡ (if put then Some self.new else None)) }
        ensures same { IfOk result (λ put. put ≡ false → self.new ≡ self.old) }
        ensures err { OnErr result (self.new ≡ self.old) }
    {
        let mut reader = Reader::new(bytes);
        let read = read_header_of(alloc, node, &self.headers, &mut reader);
        match whole(read, &reader)? {
            None => Ok(false),
            Some(header) => {
                self.headers.push(header)?;
                Ok(true)
            }
        }
    }

    // Reads a record with a certificate, and gives whether it follows the format.
    fn put_certificate(&mut self, alloc: Global, bytes: &[u8]) -> Result<bool, AllocError>
        ensures read { IfOk result (λ put. option_map (λ kept. record self.old { certificates = self.old.certificates ++ kept ∷ [] }) (reading.whole (kept_certificate_at self.old.certificates bytes.now)) ≡ (if put then Some self.new else None)) }
        ensures same { IfOk result (λ put. put ≡ false → self.new ≡ self.old) }
        ensures err { OnErr result (self.new ≡ self.old) }
    {
        let mut reader = Reader::new(bytes);
        let read = read_certificate_of(alloc, &self.certificates, &mut reader);
        match whole(read, &reader)? {
            None => Ok(false),
            Some(certificate) => {
                self.certificates.push(certificate)?;
                Ok(true)
            }
        }
    }

    // Reads a record with a piece of the coins, and gives whether it follows the format.
    fn put_coins(&mut self, alloc: Global, bytes: &[u8]) -> Result<bool, AllocError>
        ensures read { IfOk result (λ put. option_map (λ coins. record self.old { coins = self.old.coins ++ coins }) (reading.whole (coins_at bytes.now)) ≡ (if put then Some self.new else None)) }
        ensures same { IfOk result (λ put. put ≡ false → self.new ≡ self.old) }
        ensures err { OnErr result (self.new ≡ self.old) }
    {
        let mut reader = Reader::new(bytes);
        let read = coins_of(alloc, &mut reader);
        match whole_list(read, &reader)? {
            None => Ok(false),
            Some(mut coins) => {
                self.coins.append(&mut coins)?;
                Ok(true)
            }
        }
    }
}

/// The kind of a record: its first byte.
pub fn kind_of(bytes: &[u8]) -> u8
    ensures { result ≡ reading.kind_of bytes.now }
{
    match bytes.first() {
        None => 0,
        Some(kind) => *kind,
    }
}

/// The value that was read, if the bytes follow the format and no byte is left after it. On `AllocError` an allocation failed.
fn whole<T: Drop>(read: Result<T, WireError>, reader: &Reader) -> Result<Option<T>, AllocError>
    ensures { (text : Read T) → Gives (λ x. (x, reader.now)) read text → IfOk result (λ found. found ≡ reading.whole text) }
{
    match read {
        Ok(found) => {
            if reader.rest().is_empty() {
                return Ok(Some(found));
            }
            Ok(None)
        }
        Err(WireError::Memory) => Err(AllocError),
        Err(_) => Ok(None),
    }
}

/// The list that was read, if the bytes follow the format and no byte is left after it. On `AllocError` an allocation failed.
fn whole_list<T: Drop>(
    read: Result<Vec<T>, WireError>,
    reader: &Reader,
) -> Result<Option<Vec<T>>, AllocError>
    ensures { (text : Read (List T)) → Gives (λ x. (x.items, reader.now)) read text → IfOk result (λ found. option_map (λ list. list.items) found ≡ reading.whole text) }
{
    match read {
        Ok(found) => {
            if reader.rest().is_empty() {
                return Ok(Some(found));
            }
            Ok(None)
        }
        Err(WireError::Memory) => Err(AllocError),
        Err(_) => Ok(None),
    }
}

/// The vote that was read, if the bytes follow the format and no byte is left after it. On `AllocError` an allocation failed.
fn whole_vote(
    read: Result<(Slot, Digest), WireError>,
    reader: &Reader,
) -> Result<Option<(Slot, Digest)>, AllocError>
    ensures { (text : Read KeptVote) → Gives (λ x. (vote_of x, reader.now)) read text → IfOk result (λ found. option_map vote_of found ≡ reading.whole text) }
{
    match read {
        Ok(found) => {
            if reader.rest().is_empty() {
                return Ok(Some(found));
            }
            Ok(None)
        }
        Err(WireError::Memory) => Err(AllocError),
        Err(_) => Ok(None),
    }
}
