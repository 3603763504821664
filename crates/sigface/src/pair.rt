//! A signer and a verifier for tests. They are insecure: whoever knows the key can sign.

ghost use Rattle.std.specs.Prelude.{◌≡◌, ◌↔◌, ◌∷◌, ◌++◌, IsTrue};
ghost use Rattle.std.proofs.lemmas.Cmp.{nat_list_eq_equiv};
ghost use Rattle.sha2.specs.Sha256.{sha256};
ghost use Rattle.sigface.specs.PairBytes.{pair_signature-bytes};
ghost use Rattle.sigface.specs.Pair.{pair_signature, is_pair_signature};
ghost use Rattle.sigface.specs.Tied.{AreAccepted};

use crate::signature::{Sign, Verify};
use sha2::{Digest as Hasher, Sha256};
use std::marker::Model;
use wire::{Digest, Key, Signature};

/// The letter S, which is hashed before the key and the digest for the first half of a signature.
const FIRST_LETTER: u8 = 0x53;

/// The letter T, which is hashed before the key and the digest for the second half of a signature.
const SECOND_LETTER: u8 = 0x54;

/// Signs by hashing the key and the digest. INSECURE, for tests only: whoever knows the key can sign, and a verifier needs the same key.
#[derive(Clone, Copy, Debug, PartialEq, Eq)]
pub struct HashSign {
    key: Key,
}

impl Model for HashSign {
    ghost use Rattle.wire.specs.declared.keys.Key.{Key};

    ghost Value = { Key };

    ghost view = { λ s. s.key };

    ghost inverse = { λ k. record { key = k } };
}

impl HashSign {
    /// The signer with this key.
    pub fn new(key: Key) -> HashSign
        ensures { result ≡ key }
    {
        HashSign { key }
    }
}

/// Verifies the signatures of `HashSign`. INSECURE, for tests only: whoever knows the key can sign.
#[derive(Clone, Copy, Debug, PartialEq, Eq)]
pub struct HashVerify;

fn half(letter: u8, key: &Key, digest: &Digest) -> [u8; 32]
    ensures { result ≡ sha256 (letter ∷ key.now.0 ++ digest.now.0) }
{
    let mut hasher = Sha256::new();
    hasher.update([letter]);
    hasher.update(key.0);
    hasher.update(digest.0);
    hasher.finalize()
}

fn signature_by(key: &Key, digest: &Digest) -> Signature
    ensures { result ≡ pair_signature key.now digest.now }
{
    let mut bytes = [0; 64];
    bytes[..32].copy_from_slice(&half(FIRST_LETTER, key, digest));
    bytes[32..].copy_from_slice(&half(SECOND_LETTER, key, digest));
    Signature(bytes)
}

impl Sign for HashSign {
    ghost scheme = { record { own_key = λ s. s; signature_of = λ s d. pair_signature s d } };

    ghost good = { is_pair_signature };

    fn key(&self) -> Key {
        self.key
    }

    fn sign(&self, digest: &Digest) -> Signature {
        signature_by(&self.key, digest)
    }

    ghost good_for_key = { λ signer digest. nat_list_eq_equiv.refl (pair_signature signer digest).0 };

    ghost has_bytes = { pair_signature-bytes };
}

impl Verify for HashVerify {
    ghost accepts = { λ _ k d s. is_pair_signature k d s };

    fn verify(&self, key: &Key, digest: &Digest, signature: &Signature) -> bool
        ensures value { result ≡ is_pair_signature key.now digest.now signature.now }
        ensures exactly { IsTrue result ↔ (signature.now ≡ pair_signature key.now digest.now) }
    {
        signature_by(key, digest) == *signature
    }
}

/// A law: a `HashSign` and a `HashVerify` belong together. What the first signs, the second accepts for its key. The call does nothing.
pub fn pair_is_tied(signer: &HashSign, verifier: &HashVerify)
    ensures { AreAccepted (⟦<HashVerify as Verify>⟧.accepts verifier.now) (⟦<HashSign as Sign>⟧.scheme.own_key signer.now) (⟦<HashSign as Sign>⟧.scheme.signature_of signer.now) }
{}
