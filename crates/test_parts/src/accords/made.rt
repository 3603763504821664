//! The headers that the pairs of histories are made of.

use crate::definitions::label_genesis;
use crate::parts::parted;
use sim_script::{Form, FormError, Labels, Proposed, define_header};
use std::alloc::Global;
use wire::Author;

/// The number of members whose genesis certificates have labels.
const MEMBERS: u16 = 16;

/// The headers, each with the label `ROUND.AUTHOR`, as `3.1`.
#[derive(Drop)]
pub struct Made {
    labels: Labels,
}

impl Made {
    /// The state before the first header.
    pub fn new(alloc: Global) -> Made {
        Made {
            labels: Labels::new(alloc),
        }
    }

    /// Makes the headers of these words, in which each stands after its parents.
    pub fn read(alloc: Global, words: &str) -> Result<Made, FormError> {
        let mut labels = Labels::new(alloc);
        label_genesis(alloc, &mut labels, MEMBERS)?;
        for word in words.split_whitespace() {
            add(alloc, &mut labels, word)?;
        }
        Ok(Made { labels })
    }

    /// The header with this label, which is its round and its author: `3.1`.
    pub fn header(&self, label: &str) -> Option<&Proposed> {
        self.labels.header(label)
    }
}

/// Makes the header of a word: its round, its author, after which a letter may stand, and the authors of its parents.
fn add(alloc: Global, labels: &mut Labels, word: &str) -> Result<(), FormError> {
    let (round, rest) = parted(word, '.');
    let (author, parents) = parted(rest, '.');
    let round = round.parse().unwrap_or(0);
    let label = format!(in alloc; "{round}.{author}")?;
    let parents = labels_of(alloc, round, parents)?;
    let author = Author(author.trim_end_matches('b').parse().unwrap_or(u16::MAX));
    let form = Form {
        label: label.as_str(),
        author,
        round,
        parents: parents.as_str(),
        batches: "-",
    };
    define_header(alloc, labels, &form)
}

/// The labels of the certificates of these authors in the round below this one.
fn labels_of(alloc: Global, round: u64, authors: &str) -> Result<String, FormError> {
    let below = round.saturating_sub(1);
    let mut text = String::new(alloc);
    for author in authors.split('.') {
        if !text.is_empty() {
            text.push_str(",")?;
        }
        match below {
            0 => write!(text, "g{author}")?,
            _ => write!(text, "{below}.{author}")?,
        }
    }
    Ok(text)
}
