//! What signers and verifiers promise.

ghost use Rattle.std.specs.Prelude.{◌≡◌, Bool, IsTrue};
ghost use Rattle.sigface.specs.Scheme.{Scheme};
ghost use Rattle.wire.specs.Fields.{IsSignature};
ghost use Rattle.wire.specs.declared.keys.Digest.{Digest};
ghost use Rattle.wire.specs.declared.keys.Key.{Key};
ghost use Rattle.wire.specs.declared.keys.Signature.{Signature};

use wire::{Digest, Key, Signature};

/// A verifier, which says whether a signature is good. The answer depends only on the verifier, the key, the digest and the signature, so
/// the same question always has the same answer.
pub trait Verify {
    /// Which signatures of a digest this verifier accepts for which key.
    ghost accepts: { Self → Key → Digest → Signature → Bool };

    /// Whether the signature of the digest is good for the key.
    fn verify(&self, key: &Key, digest: &Digest, signature: &Signature) -> bool
        ensures { result ≡ accepts self.now key.now digest.now signature.now };
}

/// A signer, which signs digests with one key. A signature depends only on the signer and the digest.
pub trait Sign {
    /// The key for which a signer's signatures are good, and its signature of each digest.
    ghost scheme: { Scheme Self };

    /// Which signatures of a digest are good for which key.
    ghost good: { Key → Digest → Signature → Bool };

    /// The public key for which the signer's signatures are good.
    fn key(&self) -> Key
        ensures { result ≡ scheme.own_key self.now };

    /// The signer's signature of this digest.
    fn sign(&self, digest: &Digest) -> Signature
        ensures { result ≡ scheme.signature_of self.now digest.now };

    /// Each signature is good for the signer's key.
    ghost good_for_key: { (signer : Self) (digest : Digest) → IsTrue (good (scheme.own_key signer) digest (scheme.signature_of signer digest)) };

    /// Each signature has 64 bytes.
    ghost has_bytes: { (signer : Self) (digest : Digest) → IsSignature (scheme.signature_of signer digest) };
}
