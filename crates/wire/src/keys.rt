//! Values of fixed size: members' numbers, digests, keys and signatures.

ghost use Rattle.std.specs.Prelude.{[], ◌∷◌};
ghost use Rattle.std.specs.Cmp.Rules.{hashing};
ghost use Rattle.std.proofs.Common.{rules};
ghost use Rattle.wire.specs.Fields.{AreBytes, IsAuthor, IsDigest, IsSignature};

use crate::numbers::fits_two_bytes;
use std::hash::{Hash, Hasher};

/// A member of the committee, named by its number from 0 on. In bytes that came in it may be any number of two bytes.
#[derive(Clone, Copy, Debug, PartialEq, Eq, PartialOrd, Ord, Hash)]
pub struct Author(pub u16);

/// A digest of 32 bytes: SHA-256 (FIPS 180-4).
#[derive(Clone, Copy, Debug, PartialEq, Eq, PartialOrd, Ord)]
pub struct Digest(pub [u8; 32]);

// Hashes the digest in one write; a derived implementation would hash its bytes one by one.
impl Hash for Digest {
    ghost hash_input = { λ digest. digest.0 ∷ [] };

    ghost respects_eq = { Prim.search (hashing, rules) };

    fn hash<H: Hasher>(&self, state: &mut H) {
        state.write(&self.0);
    }
}

/// A member's public key of 32 bytes.
#[derive(Clone, Copy, Debug, PartialEq, Eq)]
pub struct Key(pub [u8; 32]);

/// A signature of 64 bytes.
#[derive(Clone, Copy, Debug, PartialEq, Eq)]
pub struct Signature(pub [u8; 64]);

// A law: each of these bytes is a number below 256. The call does nothing.
fn are_bytes(bytes: &[u8])
    ensures { AreBytes bytes.now }
{
    let _ = bytes;
}

impl Author {
    /// A law: every author's number fits two bytes. The call does nothing.
    pub fn limits_hold(&self)
        ensures { IsAuthor self.now }
    {
        fits_two_bytes(self.0);
    }
}

impl Digest {
    /// A law: every digest has 32 bytes. The call does nothing.
    pub fn limits_hold(&self)
        ensures { IsDigest self.now }
    {
        are_bytes(&self.0);
    }
}

impl Signature {
    /// A law: every signature has 64 bytes. The call does nothing.
    pub fn limits_hold(&self)
        ensures { IsSignature self.now }
    {
        are_bytes(&self.0);
    }
}
