//! The seed of a node's hash tables: bytes that only the node's signer can make.

ghost use Rattle.std.specs.Prelude.{◌≡◌};
ghost use Rattle.sigface.specs.Seeds.{seed_of};

use crate::signature::Sign;
use sha2::{Digest as Hashing, Sha256};
use std::hash::{BuildHasher, DefaultHasher, Hasher};
use wire::Digest;

/// The letter L, which is hashed and then signed for a seed. No other digest that is signed is one of bytes that begin with this letter.
const SEED_LETTER: u8 = 0x4c;

/// The seed of a hash table: SipHash-1-3 (Aumasson and Bernstein, 2012) that has read secret bytes. Who doesn't know these bytes can't
/// choose keys that collide. The seed needs no randomness, and is the same in each run.
#[derive(Clone, Copy)]
pub struct TableSeed {
    begun: DefaultHasher,
}

impl TableSeed {
    /// The seed that this signer gives: a hasher that has read its signature of the SHA-256 (FIPS 180-4) of the letter L. It is as secret
    /// as the signer's key.
    pub fn of<S: Sign>(signer: &S) -> TableSeed
        ensures { result ≡ seed_of (S.scheme.signature_of signer.now) }
    {
        let signature = signer.sign(&Digest(Sha256::digest([SEED_LETTER])));
        let mut begun = DefaultHasher::new();
        begun.write(&signature.0);
        TableSeed { begun }
    }
}

impl BuildHasher for TableSeed {
    type Hasher = DefaultHasher;

    ghost build_hasher = { λ seed. seed.begun };

    fn build_hasher(&self) -> DefaultHasher {
        self.begun
    }
}
