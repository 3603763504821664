//! Tests of the committee, of signatures, and of the checks of messages.

ghost use Rattle.std.specs.Prelude.{IsTrue};
ghost use Rattle.wire.specs.declared.keys.Digest.{Digest};
ghost use Rattle.wire.specs.declared.keys.Key.{Key};
ghost use Rattle.wire.specs.declared.keys.Signature.{Signature};

use crate::parts::messages::{is_encoded, read};
use crate::parts::words::{Reported, author_of, digest_of, list, show};
use committee::Committee;
use header::{CheckError, Checked, check, recheck};
use sigface::{HashSign, HashVerify, Sign, Verify};
use std::alloc::{AllocError, Global};
use test_cases::write_hex;
use wire::{Author, Digest, Key, Signature};

/// Begins a committee file with a list of members. The key of each is 32 bytes of its number plus 1.
pub fn add_members(text: &mut String, count: u64) -> Reported {
    text.push_str("members = [")?;
    for member in 0..count.min(255) as u8 {
        text.push_str("\"")?;
        write_hex(text, &[member.saturating_add(1); 32])?;
        text.push_str("\", ")?;
    }
    Ok(())
}

/// Reads a committee from this text, and shows it.
pub fn read_committee(
    alloc: Global,
    text: &str,
    answer: &mut String,
) -> Result<Option<Committee>, AllocError> {
    match Committee::read(alloc, text) {
        Ok(committee) => report_committee(&committee, answer).map(|_| Some(committee)),
        Err(error) => writeln!(answer, "{error}").map(|_| None),
    }
}

fn report_committee(committee: &Committee, answer: &mut String) -> Reported {
    let (quorum, support) = (committee.quorum(), committee.support());
    list(
        "members",
        &[committee.size() as u64, quorum, support],
        answer,
    )?;
    let (workers, batches) = (committee.workers() as u64, committee.batches() as u64);
    list("limits", &[committee.depth(), workers, batches], answer)
}

/// Shows the key of a member.
pub fn show_key(committee: &Option<Committee>, member: u64, answer: &mut String) -> Reported {
    match committee {
        Some(committee) => match committee.key(author_of(member)) {
            Some(key) => show(&key.0, answer),
            None => answer.push_str("none\n"),
        },
        None => answer.push_str("no committee\n"),
    }
}

/// Shows the result of the checks of a message, once with those of its signatures and once without them.
pub fn check_both(
    alloc: Global,
    committee: &Option<Committee>,
    sender: u64,
    bytes: &[u8],
    answer: &mut String,
) -> Reported {
    match (committee, read(alloc, bytes), read(alloc, bytes)) {
        (Some(committee), Ok(one), Ok(two)) => {
            let sender = author_of(sender);
            let first = check(committee, &HashVerify, sender, one);
            report_check(alloc, first, sender, bytes, answer)?;
            let second = recheck(committee, sender, two);
            report_check(alloc, second, sender, bytes, answer)
        }
        _ => answer.push_str("no committee, or no message\n"),
    }
}

fn report_check(
    alloc: Global,
    checked: Result<Checked, CheckError>,
    sender: Author,
    bytes: &[u8],
    answer: &mut String,
) -> Reported {
    match checked {
        Ok(checked) => {
            let is_sender = checked.sender() == sender;
            let is_lent = is_encoded(alloc, checked.message(), bytes)?;
            let is_given = is_encoded(alloc, &checked.into_message(), bytes)?;
            let kept = [is_sender as u64, is_lent as u64, is_given as u64];
            list("passed", &kept, answer)
        }
        Err(error) => writeln!(answer, "{error}"),
    }
}

fn key_of(byte: u64) -> Key {
    Key([byte.min(255) as u8; 32])
}

/// Signs the bytes with a key of 32 bytes of this value. Shows the signature and the key, and whether the verifier accepts the signature.
pub fn sign(byte: u64, bytes: &[u8], answer: &mut String) -> Reported {
    let (signer, digest) = (HashSign::new(key_of(byte)), digest_of(bytes));
    show(&signer.sign(&digest).0, answer)?;
    show(&signer.key().0, answer)?;
    let is_taken = takes_its_signature(&signer, &HashVerify, &digest);
    list("taken", &[is_taken as u64], answer)
}

/// Shows whether the signature that stands after a digest is valid for the key of 32 bytes of this value.
pub fn verify(byte: u64, bytes: &[u8], answer: &mut String) -> Reported {
    let signature = bytes.last_chunk::<64>().copied().unwrap_or([0; 64]);
    let is_good = HashVerify.verify(&key_of(byte), &digest_of(bytes), &Signature(signature));
    list("good", &[is_good as u64], answer)
}

// Whether the verifier accepts the signer's signature. The contract says that it does if the verifier accepts all good signatures.
fn takes_its_signature<S: Sign, V: Verify>(signer: &S, verifier: &V, digest: &Digest) -> bool
    requires { (k : Key) (d : Digest) (s : Signature) → IsTrue (S.good k d s) → IsTrue (V.accepts verifier.now k d s) }
    ensures { IsTrue result }
{
    verifier.verify(&signer.key(), digest, &signer.sign(digest))
}
