//! Reads fields of fixed size.

ghost use Rattle.std.specs.Prelude.{◌≡◌, ◌≤◌, length, take, drop, IfOk};
ghost use Rattle.std.specs.Int.{w16, w32, w64};
ghost use Rattle.wire.specs.Reading.{Gives, number_at, bytes_at, author_at, digest_at, signature_at, round_at, wave_at, count_at};

use std::marker::Model;
use wire::{Author, Digest, Round, Signature, Wave, WireError};

/// The bytes that are still to be read. After a fault, contracts say nothing of them.
#[derive(Drop)]
pub struct Reader<'a> {
    rest: &'a [u8],
}

impl<'a> Model for Reader<'a> {
    ghost use Rattle.std.specs.Prelude.{ℕ, List};

    ghost Value = { List ℕ };

    ghost view = { λ r. r.rest.now };
}

impl<'a> Reader<'a> {
    /// A reader that starts at the front of these bytes.
    pub fn new(bytes: &'a [u8]) -> Reader<'a>
        ensures { result ≡ bytes.now }
    {
        Reader { rest: bytes }
    }

    /// The bytes that are not read yet.
    pub fn rest(&self) -> &[u8]
        ensures { result.now ≡ self.now }
    {
        self.rest
    }

    /// Reads the next `len` bytes. `Short` if there are fewer.
    pub fn slice(&mut self, len: usize) -> Result<&'a [u8], WireError>
        ensures reads { Gives (λ x. (x.now, self.new)) result (bytes_at len self.old) }
        ensures len { IfOk result (λ x. length x.now ≡ len) }
    {
        if self.rest.len() < len {
            return Err(WireError::Short);
        }
        Ok(self.front(len))
    }

    // Reads the next `len` bytes, which have to be there.
    pub(crate) fn front(&mut self, len: usize) -> &'a [u8]
        requires { len ≤ length self.old }
        ensures front { result.now ≡ take len self.old }
        ensures rest { self.new ≡ drop len self.old }
        ensures len { length result.now ≡ len }
    {
        let (front, rest) = self.rest.split_at(len);
        self.rest = rest;
        front
    }

    fn array<const N: usize>(&mut self) -> Result<[u8; N], WireError>
        ensures { Gives (λ x. (x, self.new)) result (bytes_at N self.old) }
    {
        let mut array = [0; N];
        array.copy_from_slice(self.slice(N)?);
        Ok(array)
    }

    /// Reads a big-endian number of two bytes. `Short` if they are missing.
    pub fn u16(&mut self) -> Result<u16, WireError>
        ensures { Gives (λ x. (x, self.new)) result (number_at w16 self.old) }
    {
        Ok(u16::from_be_bytes(self.array()?))
    }

    /// Reads a big-endian number of four bytes. `Short` if they are missing.
    pub fn u32(&mut self) -> Result<u32, WireError>
        ensures { Gives (λ x. (x, self.new)) result (number_at w32 self.old) }
    {
        Ok(u32::from_be_bytes(self.array()?))
    }

    /// Reads a big-endian number of eight bytes. `Short` if they are missing.
    pub fn u64(&mut self) -> Result<u64, WireError>
        ensures { Gives (λ x. (x, self.new)) result (number_at w64 self.old) }
    {
        Ok(u64::from_be_bytes(self.array()?))
    }

    /// Reads a member's number, of two bytes. `Short` if they are missing.
    #[tactic(auto, unfolding(wire::specs::Reading::author_at))]
    pub fn author(&mut self) -> Result<Author, WireError>
        ensures { Gives (λ x. (x, self.new)) result (author_at self.old) }
    {
        Ok(Author(self.u16()?))
    }

    /// Reads a digest, of 32 bytes. `Short` if they are missing.
    #[tactic(auto, unfolding(wire::specs::Reading::digest_at))]
    pub fn digest(&mut self) -> Result<Digest, WireError>
        ensures { Gives (λ x. (x, self.new)) result (digest_at self.old) }
    {
        Ok(Digest(self.array()?))
    }

    /// Reads a signature, of 64 bytes. `Short` if they are missing.
    #[tactic(auto, unfolding(wire::specs::Reading::signature_at))]
    pub fn signature(&mut self) -> Result<Signature, WireError>
        ensures { Gives (λ x. (x, self.new)) result (signature_at self.old) }
    {
        Ok(Signature(self.array()?))
    }

    /// Reads a round, of eight bytes. `Short` if they are missing, `BadRound` if it is above the greatest one.
    #[tactic(auto, unfolding(wire::specs::Reading::round_at))]
    pub fn round(&mut self) -> Result<Round, WireError>
        ensures { Gives (λ x. (x, self.new)) result (round_at self.old) }
    {
        Round::new(self.u64()?)
    }

    /// Reads a wave, of eight bytes. `Short` if they are missing, `BadRound` if it is 0 or above the greatest one.
    #[tactic(auto, unfolding(wire::specs::Reading::wave_at))]
    pub fn wave(&mut self) -> Result<Wave, WireError>
        ensures { Gives (λ x. (x, self.new)) result (wave_at self.old) }
    {
        Wave::new(self.u64()?)
    }

    /// Reads the number of a list's entries, in two bytes. `Short` if they are missing, `TooMany` if it is above this limit.
    #[tactic(auto, unfolding(wire::specs::Reading::count_at))]
    pub fn count_u16(&mut self, limit: u16) -> Result<u16, WireError>
        ensures reads { Gives (λ x. (x, self.new)) result (count_at w16 limit self.old) }
        ensures limit { IfOk result (λ count. count ≤ limit) }
    {
        let count = self.u16()?;
        if count > limit {
            return Err(WireError::TooMany);
        }
        Ok(count)
    }

    /// Reads the number of a list's entries, in four bytes. `Short` if they are missing, `TooMany` if it is above this limit.
    #[tactic(auto, unfolding(wire::specs::Reading::count_at))]
    pub fn count_u32(&mut self, limit: u32) -> Result<u32, WireError>
        ensures reads { Gives (λ x. (x, self.new)) result (count_at w32 limit self.old) }
        ensures limit { IfOk result (λ count. count ≤ limit) }
    {
        let count = self.u32()?;
        if count > limit {
            return Err(WireError::TooMany);
        }
        Ok(count)
    }
}
