//! Cuts a stream that comes in pieces into frames.

ghost use Rattle.std.specs.Prelude.{◌≡◌, ◌+◌, ◌<◌, ◌≤◌, ◌++◌, ◌∷◌, [], List, ℕ, length, take, drop, IsTrue, ◌↔◌, ◌⊎◌, IfOk, IfErr, OnErr};
ghost use Rattle.std.specs.Int.{w32, to_be_bytes};
ghost use Rattle.std.specs.Option.{MatchOption};
ghost use Rattle.wire_read.specs.Frames.{IsFrameBody, IsPartial, IsTooLong, Splits, Breaks, bodies_bytes, frame, length_field};

use std::alloc::{AllocError, Global};
use std::marker::Model;
use std::mem;
use wire::{MAX_FRAME_BYTES, WireError};

/// The length of a frame's length field, in bytes.
const LENGTH_BYTES: usize = 4;

// At most one part in this many of a body's memory may be unused.
const SPARE_PART: usize = 8;

/// Cuts a stream into the bodies of its frames. A frame is a length in four big-endian bytes, and that many bytes, at most
/// `MAX_FRAME_BYTES`.
#[derive(Debug, Drop)]
pub struct FrameReader {
    alloc: Global,
    // The bytes of the next frame that have come so far. Those of its body stand apart from its length, so that the body that these bytes
    // were collected for is moved out, and not copied, once it is whole.
    field: LengthField,
    body: Vec<u8>,
}

impl Model for FrameReader {
    ghost use Rattle.std.specs.Prelude.{◌++◌, ℕ, List};
    ghost use Rattle.wire_read.specs.Frames.{HasBegun};

    ghost Value = { List ℕ };

    ghost view = { λ reader. reader.field ++ reader.body.items };

    ghost invariant = { λ reader. HasBegun reader.field reader.body.items };
}

impl FrameReader {
    /// A reader that has got no bytes yet.
    pub fn new(alloc: Global) -> FrameReader
        ensures { result ≡ [] }
    {
        FrameReader {
            alloc,
            field: LengthField::new(),
            body: Vec::new(alloc),
        }
    }

    /// Whether the reader holds no bytes of the next frame.
    pub fn is_empty(&self) -> bool
        ensures { IsTrue result ↔ (self.now ≡ []) }
    {
        self.field.is_empty()
    }

    /// Takes the next piece of the stream, and returns the bodies of the frames that are whole now, in their order. `TooMany` if there is a
    /// length above the limit where a frame has to start; `Memory` if an allocation failed. After an error the reader is as before the
    /// piece, and none of the piece's frames is returned.
    pub fn feed(&mut self, piece: &[u8]) -> Result<Vec<Vec<u8>>, WireError>
        // If the stream before was frames of some bodies and then the held bytes, then with the piece it is frames of those bodies and the
        // new ones, and then the bytes that are held now.
        ensures ok { IfOk result (λ bodies. (stream : List ℕ) (before : List (List ℕ)) → Splits stream before self.old → Splits (stream ++ piece.now) (before ++ bodies_bytes bodies.items) self.new) }
        ensures too_many { IfErr result (λ e. (e ≡ WireError.Memory) ⊎ ((e ≡ WireError.TooMany) × ((stream : List ℕ) (before : List (List ℕ)) → Splits stream before self.old → Breaks (stream ++ piece.now)))) }
        ensures never { IfOk result (λ _. Breaks (self.old ++ piece.now) → ⊥) }
        ensures err { OnErr result (self.new ≡ self.old) }
    {
        let (field, rest) = self.field.with(piece);
        match field.end_of_body(&self.body, rest)? {
            Some((end, after)) => self.complete(end, after),
            None => {
                // The memory grows with the bytes that come, since a length field may be false.
                self.body.extend_from_slice(rest)?;
                self.field = field;
                Ok(Vec::new(self.alloc))
            }
        }
    }

    // Completes the body that has begun, by its end, and cuts the bytes after it into frames. Returns the bodies of all these frames.
    fn complete(&mut self, end: &[u8], after: &[u8]) -> Result<Vec<Vec<u8>>, WireError>
        ensures splits { IfOk result (λ bodies. (more : List (List ℕ)) × (bodies_bytes bodies.items ≡ (drop 4 self.old ++ end.now) ∷ more) × Splits after.now more self.new) }
        ensures breaks { IfErr result (λ e. (e ≡ WireError.Memory) ⊎ ((e ≡ WireError.TooMany) × Breaks after.now)) }
        ensures err { OnErr result (self.new ≡ self.old) }
    {
        let (mut bodies, taken) = bodies_of(self.alloc, after)?;
        let (field, rest) = LengthField::new().with(&after[taken..]);
        let next = copied(self.alloc, rest)?;
        bodies.reserve(1)?;
        self.body.reserve_exact(end.len())?;
        // Nothing fails from here on, so the reader changes only if every allocation has succeeded.
        self.body.extend_from_slice(end).unwrap();
        let mut body = mem::replace(&mut self.body, next);
        self.field = field;
        release_spare_room(&mut body);
        bodies.insert(0, body).unwrap();
        Ok(bodies)
    }
}

// The bytes of a length field that have come so far.
#[derive(Debug, Drop)]
struct LengthField {
    bytes: [u8; LENGTH_BYTES],
    count: usize,
}

impl Model for LengthField {
    ghost use Rattle.std.specs.Prelude.{◌≤◌, ℕ, List, take};

    ghost Value = { List ℕ };

    ghost view = { λ field. take field.count field.bytes };

    ghost invariant = { λ field. field.count ≤ 4 };
}

impl LengthField {
    fn new() -> LengthField
        ensures { result ≡ [] }
    {
        LengthField {
            bytes: [0; LENGTH_BYTES],
            count: 0,
        }
    }

    fn is_empty(&self) -> bool
        ensures { IsTrue result ↔ (self.now ≡ []) }
    {
        self.count == 0
    }

    // The field with the bytes of a piece that belong to it, and the rest of the piece.
    fn with<'a>(&self, piece: &'a [u8]) -> (LengthField, &'a [u8])
        ensures parts { self.now ++ piece.now ≡ result.0 ++ result.1.now }
        ensures within { length result.0 ≤ 4 }
        ensures whole { 4 ≤ length self.now → (result.0 ≡ self.now) × (result.1.now ≡ piece.now) }
        ensures first { length result.0 < 4 → result.1.now ≡ [] }
    {
        let (front, rest) = piece.split_at(piece.len().min(LENGTH_BYTES - self.count));
        let count = self.count + front.len();
        let mut bytes = self.bytes;
        bytes[self.count..count].copy_from_slice(front);
        (LengthField { bytes, count }, rest)
    }

    // The part of these bytes with which the body that has begun is whole, and the bytes after it; `None` if they don't complete the frame.
    fn end_of_body<'a>(
        &self,
        body: &[u8],
        bytes: &'a [u8],
    ) -> Result<Option<(&'a [u8], &'a [u8])>, WireError>
        requires { length body.now ≤ length_field self.now }
        ensures whole { IfOk result (λ found. MatchOption found (4 ≤ length self.now → IsPartial (self.now ++ (body.now ++ bytes.now))) (λ parts. (bytes.now ≡ parts.0.now ++ parts.1.now) × IsFrameBody (body.now ++ parts.0.now) × (self.now ++ (body.now ++ parts.0.now) ≡ frame (body.now ++ parts.0.now)))) }
        ensures err { IfErr result (λ e. (e ≡ WireError.TooMany) × IsTooLong self.now) }
    {
        match body_len(&self.bytes[..self.count])? {
            Some(len) => Ok(bytes.split_at_checked(len - body.len())),
            None => Ok(None),
        }
    }
}

// The length of a frame's body by the length field at the front of these bytes; `None` if the field isn't whole.
fn body_len(bytes: &[u8]) -> Result<Option<usize>, WireError>
    ensures whole { IfOk result (λ found. MatchOption found (length bytes.now < 4) (λ len. (4 ≤ length bytes.now) × (len ≡ length_field bytes.now) × (to_be_bytes w32 len ≡ take 4 bytes.now) × (len ≤ MAX_FRAME_BYTES))) }
    ensures err { IfErr result (λ e. (e ≡ WireError.TooMany) × IsTooLong bytes.now) }
{
    let Some((field, _)) = bytes.split_first_chunk::<LENGTH_BYTES>() else {
        return Ok(None);
    };
    let len = u32::from_be_bytes(*field) as usize;
    if len > MAX_FRAME_BYTES {
        return Err(WireError::TooMany);
    }
    Ok(Some(len))
}

// Gives back the memory that a body doesn't use, if that is more than an eighth of all it has. If no smaller block can be allocated the
// body keeps its own, so nothing can fail here.
fn release_spare_room(body: &mut Vec<u8>)
    ensures { body.new.items ≡ body.old.items }
{
    let spare = body.capacity() - body.len();
    if spare > body.capacity() / SPARE_PART {
        body.shrink_to_fit();
    }
}

fn copied(alloc: Global, bytes: &[u8]) -> Result<Vec<u8>, AllocError>
    ensures { IfOk result (λ copy. copy.items ≡ bytes.now) }
{
    let mut copy = Vec::with_capacity(alloc, bytes.len())?;
    copy.extend_from_slice(bytes)?;
    Ok(copy)
}

// The bodies of the whole frames at the front of these bytes, and the length of these frames together.
fn bodies_of(alloc: Global, stream: &[u8]) -> Result<(Vec<Vec<u8>>, usize), WireError>
    ensures within { IfOk result (λ found. found.1 ≤ length stream.now) }
    ensures splits { IfOk result (λ found. Splits stream.now (bodies_bytes found.0.items) (drop found.1 stream.now)) }
    ensures breaks { IfErr result (λ e. (e ≡ WireError.Memory) ⊎ ((e ≡ WireError.TooMany) × Breaks stream.now)) }
{
    let mut bodies = Vec::new(alloc);
    let mut taken = 0;
    while let Some(body) = body_at(&stream[taken..])? {
        bodies.push(copied(alloc, body)?)?;
        taken += LENGTH_BYTES + body.len();
    }
    Ok((bodies, taken))
}

// The body of the frame at the front of these bytes; `None` if the frame isn't whole.
fn body_at(bytes: &[u8]) -> Result<Option<&[u8]>, WireError>
    ensures whole { IfOk result (λ found. MatchOption found (IsPartial bytes.now) (λ body. IsFrameBody body.now × (bytes.now ≡ frame body.now ++ drop (4 + length body.now) bytes.now))) }
    ensures err { IfErr result (λ e. (e ≡ WireError.TooMany) × IsTooLong bytes.now) }
{
    let Some(len) = body_len(bytes)? else {
        return Ok(None);
    };
    let rest = &bytes[LENGTH_BYTES..];
    if rest.len() < len {
        return Ok(None);
    }
    Ok(Some(&rest[..len]))
}

/// A law: a stream can be cut into frames in only one way, and never both consists of frames and breaks the limit. So the result of a
/// reader doesn't depend on the pieces in which the stream came.
pub fn one_split()
    ensures same { (stream : List ℕ) (a b : List (List ℕ)) (x y : List ℕ) → Splits stream a x → Splits stream b y → (a ≡ b) × (x ≡ y) }
    ensures either { (stream : List ℕ) (a : List (List ℕ)) (x : List ℕ) → Splits stream a x → Breaks stream → ⊥ }
{}
