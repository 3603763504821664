//! Tests of a store of batches that the words of a test case change and ask in turn.

use crate::parts::words::{Reported, author_of, list, member_in, numbers_in, parted};
use batchstore::BatchStore;
use committee::Committee;
use sigface::{HashSign, TableSeed};
use std::alloc::{AllocError, Global};
use wire::{Author, Batch, BatchReference, Digest, Key, OpenBatch, batch_digest};

// A batch of an author and a worker, with one transaction of this byte.
fn batch_of(
    alloc: Global,
    author: Author,
    worker: u16,
    byte: u8,
) -> Result<Option<Batch>, AllocError> {
    let mut open = OpenBatch::new(alloc, author, worker)?;
    if open.has_room(1) {
        open.push(&[byte])?;
    }
    Ok(open.close().ok())
}

/// Carries out these words on a member's store of batches, and shows the answers.
pub fn store(alloc: Global, committee: &Committee, words: &str, answer: &mut String) -> Reported {
    let (own, words) = parted(words, ':');
    let own = member_in(own);
    if own.0 >= committee.size() {
        return answer.push_str("no member\n");
    }
    let seed = TableSeed::of(&HashSign::new(Key([7; 32])));
    let mut store = BatchStore::new(alloc, committee, own, seed);
    let mut digests = Vec::new(alloc);
    for word in words.split_whitespace() {
        obey(alloc, &mut store, &mut digests, word, answer)?;
    }
    Ok(())
}

fn obey(
    alloc: Global,
    store: &mut BatchStore,
    digests: &mut Vec<Digest>,
    word: &str,
    answer: &mut String,
) -> Reported {
    let (name, rest) = parted(word, '-');
    let numbers = numbers_in(alloc, rest)?;
    match name {
        "put" => put_of(alloc, store, digests, &numbers, answer),
        "many" => many(alloc, store, digests, &numbers, answer),
        "all" => all(store, digests, answer),
        "least" => least(alloc, store, digests, answer),
        _ => look(store, name, digests, &numbers, answer),
    }
}

// Adds an acknowledgement of the batch with this number, or shows something of the batch.
fn look(
    store: &mut BatchStore,
    name: &str,
    digests: &[Digest],
    numbers: &[u64],
    answer: &mut String,
) -> Reported {
    match numbers {
        [place, member] if name == "ack" => {
            let digest = digest_at(digests, *place);
            ack(store, digest, author_of(*member), answer)
        }
        [place] => ask(store, name, digest_at(digests, *place), answer),
        _ => answer.push_str("bad word\n"),
    }
}

fn put_of(
    alloc: Global,
    store: &mut BatchStore,
    digests: &mut Vec<Digest>,
    numbers: &[u64],
    answer: &mut String,
) -> Reported {
    let [author, worker, byte] = numbers else {
        return answer.push_str("bad word\n");
    };
    let (worker, byte) = ((*worker).min(65_535) as u16, (*byte).min(255) as u8);
    let batch = batch_of(alloc, author_of(*author), worker, byte)?;
    put(store, digests, batch, answer)
}

// Puts one batch for each of this many workers of a member, and shows how many batches the store holds then.
fn many(
    alloc: Global,
    store: &mut BatchStore,
    digests: &mut Vec<Digest>,
    numbers: &[u64],
    answer: &mut String,
) -> Reported {
    let [author, count] = numbers else {
        return answer.push_str("bad word\n");
    };
    for worker in 0..(*count).min(65_535) as u16 {
        if let Some(batch) = batch_of(alloc, author_of(*author), worker, 0)? {
            digests.push(batch_digest(&batch))?;
            let _ = store.put(batch);
        }
    }
    list("held", &[store.len() as u64], answer)
}

// Shows how many of these batches are at the place of the store at which they were put.
fn all(store: &BatchStore, digests: &[Digest], answer: &mut String) -> Reported {
    let mut there: u64 = 0;
    for (place, digest) in digests.iter().enumerate() {
        let held = store.batch_at(place);
        let is = held.is_some_and(|held| batch_digest(held) == *digest);
        there = there.saturating_add(is as u64);
    }
    list("in the order of acceptance", &[there], answer)
}

fn digest_at(digests: &[Digest], place: u64) -> Digest {
    digests
        .get(place as usize)
        .copied()
        .unwrap_or(Digest([0; 32]))
}

fn put(
    store: &mut BatchStore,
    digests: &mut Vec<Digest>,
    batch: Option<Batch>,
    answer: &mut String,
) -> Reported {
    let Some(batch) = batch else {
        return Err(AllocError);
    };
    digests.push(batch_digest(&batch))?;
    match store.put(batch) {
        Ok(put) => write!(answer, "{put:?}")?,
        Err(refusal) => write!(answer, "{refusal}")?,
    }
    list(" of", &[store.len() as u64], answer)
}

fn ack(store: &mut BatchStore, digest: Digest, member: Author, answer: &mut String) -> Reported {
    match store.ack(member, &digest) {
        Ok(acked) => writeln!(answer, "{acked:?}"),
        Err(refusal) => writeln!(answer, "{refusal}"),
    }
}

// Shows something of the batch with a digest: whether it is held for a worker and who made it, whether it is available, or whether it was
// named by a header; or marks it as named.
fn ask(store: &mut BatchStore, name: &str, digest: Digest, answer: &mut String) -> Reported {
    match name {
        "get" => get(store, &digest, answer),
        "available" => writeln!(answer, "{}", store.available(&digest)),
        "named" => writeln!(answer, "{}", store.named(&digest)),
        "name" => {
            store.name(&[BatchReference { digest, worker: 0 }]);
            answer.push_str("named\n")
        }
        _ => answer.push_str("bad word\n"),
    }
}

fn get(store: &BatchStore, digest: &Digest, answer: &mut String) -> Reported {
    match store.get(digest) {
        Some(batch) => {
            let (author, worker) = (batch.author().0, batch.worker());
            let (one, other) = (store.holds(digest, worker), store.holds(digest, worker ^ 1));
            writeln!(answer, "of {author} {worker} {one} {other}")
        }
        None => answer.push_str("none\n"),
    }
}

// Shows the batches that an own header may name: for each the number of the word that put it first, and its worker.
fn least(alloc: Global, store: &BatchStore, digests: &[Digest], answer: &mut String) -> Reported {
    answer.push_str("least")?;
    for reference in store.least_nameable(alloc)? {
        let place = digests
            .iter()
            .position(|digest| *digest == reference.digest)
            .unwrap_or(0);
        let worker = reference.worker;
        write!(answer, " {place}/{worker}")?;
    }
    answer.push_str("\n")
}
