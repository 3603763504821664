//! The messages of the validators: their types, the one encoding of each message in bytes, and the digests. No value of these types breaks
//! a limit of the messages or the order of a list in them.
#![tactic(auto)]

mod batch;
mod digests;
mod encoding;
mod entries;
mod error;
mod header;
mod keys;
mod limits;
mod message;
pub mod numbers;
mod output;
mod output_bytes;
mod references;
mod round;
mod shared_bytes;
mod votes;

pub use batch::{Batch, OpenBatch};
pub use digests::{batch_digest, certificate_digest, genesis_digest, header_digest};
pub use encoding::{
    ACK_TAG, BATCH_TAG, CERTIFICATE_TAG, COIN_TAG, HEADER_TAG, VOTE_TAG, encode, encode_onto,
    encoded_len,
};
pub use error::WireError;
pub use header::{Certificate, Header, HeaderBody, Vote};
pub use keys::{Author, Digest, Key, Signature};
pub use limits::{
    MAX_BATCH_BYTES, MAX_BATCHES, MAX_FRAME_BYTES, MAX_ORDER_DIGESTS, MAX_PARENTS,
    MAX_TRANSACTION_BYTES, MAX_TRANSACTIONS, MAX_VOTES, limits_in_numbers,
};
pub use message::{BatchAck, Coin, Message};
pub use output::{OrderDigests, Output};
pub use output_bytes::{HOST, ORDER_TAG, TO_ALL, encode_output};
pub use references::{BatchReference, BatchReferences, ParentReference, ParentReferences};
pub use round::{Round, Wave};
pub use votes::{VoteEntries, VoteEntry};
