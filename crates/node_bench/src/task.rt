//! The tasks that the arguments of a command name.

use std::alloc::Global;

/// A form of a message.
#[derive(Clone, Copy)]
pub enum Form {
    Header,
    Certificate,
    Batch,
    Vote,
    Ack,
    Coin,
}

/// What is done with single messages, over and over.
#[derive(Clone, Copy)]
pub enum Act {
    Decode,
    Encode,
    /// The checks of a message, including those of its signatures.
    Check,
    /// The checks of a message, without those of its signatures.
    Recheck,
}

/// Which events a validator gets, and which of them are measured.
#[derive(Clone, Copy)]
pub enum Step {
    /// Headers of other members; each gets the node's vote.
    Header,
    /// Votes on the node's own headers, as many for each header as complete its certificate.
    Vote,
    /// Certificates; nothing is committed, since no coin comes.
    Certificate,
    /// Batches of other members.
    Batch,
    /// Rounds of all members' certificates, with a coin for each wave.
    Round,
    /// Rounds as in `Round`, with the other members' headers before the certificates.
    Event,
    /// Rounds with everything that a node meets: its own header, the headers of the other members, the votes that complete its own
    /// certificate, and then the certificates of the other members.
    All,
}

/// A kind of work that the benchmark measures.
#[derive(Clone, Copy)]
pub enum Kind {
    /// Compressions of SHA-256, with whose cost all other work is compared.
    Hash,
    /// Decoding, encoding or checking single messages.
    Message(Act, Form),
    /// Cutting a stream of bytes into frames.
    Frames,
    /// Steps of a validator.
    Steps(Step),
    /// A validator that gets a vote on an own header whose certificate is complete already.
    LateVote,
    /// Groups of records that are made and appended to a journal.
    Append,
    /// Events that go through a book, and whose records go to a journal.
    Book,
    /// Opening a journal of certificates.
    Reopen,
    /// Writing a checkpoint of a validator that holds batches to a journal.
    Checkpoint,
    /// Loading a validator from the records of a checkpoint with batches.
    Load,
    /// Batches that three threads submit to a node, while a fourth one flushes.
    Node,
    /// Batches that one thread submits to a node and flushes.
    Submit,
    /// Batches that are put into a store which holds some already.
    Put,
    /// Batches that a running node reads while certificates wait for their parents.
    Run,
    /// Certificates that a running node takes while other certificates wait for their parents.
    Waiting,
    /// Certificates that a running node reads in their order.
    InOrder,
    /// Certificates that a running node reads in the reversed order, so that each waits for its parents.
    Reversed,
    /// Rounds with all that a node meets, in a committee of a given depth.
    Deep,
    /// Certificates that a validator gets after rounds without a coin.
    Behind,
    /// Coins that commit, each after many rounds in which nothing was committed.
    Late,
}

/// A kind of work, and how much of it is to be done. A task may also ask for the preparation of the work alone.
#[derive(Clone, Copy)]
pub struct Task {
    /// The kind of work.
    pub kind: Kind,
    /// The allocator.
    pub alloc: Global,
    /// Whether the work itself is done, and not its preparation alone.
    pub is_work: bool,
    /// How many pieces of work are to be done.
    pub count: u64,
    /// A further number, the size; what it means depends on the kind of work.
    pub size: u64,
    /// How many members the committee has: four, unless the size is the number of members.
    pub members: u16,
}

/// A word with this prefix asks for the preparation of a kind of work alone.
const PREPARE: &str = "prepare-";

/// The greatest number of pieces that a task may have.
const MOST: u64 = 1_000_000_000;

/// Which sizes a kind of work may have, its default size, and its number of members (None if that number is the size).
#[derive(Clone, Copy)]
pub struct Sizes {
    usual: u64,
    least: u64,
    most: u64,
    members: Option<u16>,
}

/// The sizes of a benchmark that has no size to choose.
const NO_SIZE: Sizes = Sizes {
    usual: 0,
    least: 1,
    most: 0,
    members: Some(4),
};

/// The sizes of a benchmark whose size is the number of members: four, seven, and so on.
const MEMBERS: Sizes = Sizes {
    usual: 4,
    least: 4,
    most: 31,
    members: None,
};

/// The sizes of a benchmark whose size is the length of a batch's body, in bytes.
const BODY: Sizes = Sizes {
    usual: 100_000,
    least: 20,
    most: 500_000,
    members: Some(4),
};

/// The sizes of a benchmark whose size is the length of the pieces in which a stream is read, in bytes.
const STREAM: Sizes = Sizes {
    usual: 4_096,
    least: 1,
    most: 1_048_576,
    members: Some(4),
};

/// The sizes of a benchmark whose size is the number of records in a group.
const GROUP: Sizes = Sizes {
    usual: 1_024,
    least: 1,
    most: 1_024,
    members: Some(4),
};

/// The sizes of a benchmark whose size is the number of events between two flushes.
const FLUSH: Sizes = Sizes {
    usual: 1_024,
    least: 1,
    most: 1_000_000,
    members: Some(4),
};

/// The sizes of a benchmark whose size is the number of batches that a store holds at first.
const HELD: Sizes = Sizes {
    usual: 100,
    least: 1,
    most: 1_000_000,
    members: Some(4),
};

/// The sizes of a benchmark whose size is the number of certificates that wait for their parents.
const WAITING: Sizes = Sizes {
    usual: 16,
    least: 0,
    most: 4_096,
    members: Some(4),
};

/// The sizes of a benchmark whose size is the number of certificates that wait for their parents, with the largest committee.
const MANY_WAITING: Sizes = Sizes {
    usual: 16,
    least: 0,
    most: 4_096,
    members: Some(31),
};

/// The sizes of a benchmark whose size is the depth of the committee: how many rounds below itself a leader orders.
const DEPTH: Sizes = Sizes {
    usual: 1_000,
    least: 50,
    most: 1_000,
    members: Some(4),
};

/// The sizes of a benchmark whose size is the number of rounds that come before it.
const ROUNDS: Sizes = Sizes {
    usual: 70,
    least: 3,
    most: 1_000_000,
    members: Some(4),
};

/// The kinds of work. Each has its word, its number of pieces for a run without arguments, and the sizes that it may have.
pub const WORKS: [(&str, Kind, u64, Sizes); 45] = [
    ("hash", Kind::Hash, 1_000, NO_SIZE),
    (
        "decode-header",
        Kind::Message(Act::Decode, Form::Header),
        20,
        MEMBERS,
    ),
    (
        "decode-certificate",
        Kind::Message(Act::Decode, Form::Certificate),
        20,
        MEMBERS,
    ),
    (
        "decode-batch",
        Kind::Message(Act::Decode, Form::Batch),
        3,
        BODY,
    ),
    (
        "decode-vote",
        Kind::Message(Act::Decode, Form::Vote),
        20,
        MEMBERS,
    ),
    (
        "decode-ack",
        Kind::Message(Act::Decode, Form::Ack),
        20,
        MEMBERS,
    ),
    (
        "decode-coin",
        Kind::Message(Act::Decode, Form::Coin),
        20,
        MEMBERS,
    ),
    (
        "encode-header",
        Kind::Message(Act::Encode, Form::Header),
        20,
        MEMBERS,
    ),
    (
        "encode-certificate",
        Kind::Message(Act::Encode, Form::Certificate),
        20,
        MEMBERS,
    ),
    (
        "encode-batch",
        Kind::Message(Act::Encode, Form::Batch),
        3,
        BODY,
    ),
    (
        "encode-vote",
        Kind::Message(Act::Encode, Form::Vote),
        20,
        MEMBERS,
    ),
    (
        "encode-ack",
        Kind::Message(Act::Encode, Form::Ack),
        20,
        MEMBERS,
    ),
    (
        "encode-coin",
        Kind::Message(Act::Encode, Form::Coin),
        20,
        MEMBERS,
    ),
    (
        "check-header",
        Kind::Message(Act::Check, Form::Header),
        20,
        MEMBERS,
    ),
    (
        "check-certificate",
        Kind::Message(Act::Check, Form::Certificate),
        20,
        MEMBERS,
    ),
    (
        "check-batch",
        Kind::Message(Act::Check, Form::Batch),
        3,
        BODY,
    ),
    (
        "check-vote",
        Kind::Message(Act::Check, Form::Vote),
        20,
        MEMBERS,
    ),
    (
        "check-ack",
        Kind::Message(Act::Check, Form::Ack),
        20,
        MEMBERS,
    ),
    (
        "check-coin",
        Kind::Message(Act::Check, Form::Coin),
        20,
        MEMBERS,
    ),
    (
        "recheck-header",
        Kind::Message(Act::Recheck, Form::Header),
        20,
        MEMBERS,
    ),
    (
        "recheck-certificate",
        Kind::Message(Act::Recheck, Form::Certificate),
        20,
        MEMBERS,
    ),
    (
        "recheck-batch",
        Kind::Message(Act::Recheck, Form::Batch),
        3,
        BODY,
    ),
    ("frames", Kind::Frames, 100, STREAM),
    ("step-header", Kind::Steps(Step::Header), 60, MEMBERS),
    ("step-vote", Kind::Steps(Step::Vote), 40, MEMBERS),
    (
        "step-certificate",
        Kind::Steps(Step::Certificate),
        80,
        MEMBERS,
    ),
    ("step-batch", Kind::Steps(Step::Batch), 3, BODY),
    ("step-late-vote", Kind::LateVote, 20, MEMBERS),
    ("order", Kind::Steps(Step::Round), 70, MEMBERS),
    ("append", Kind::Append, 2, GROUP),
    ("book", Kind::Book, 1_500, FLUSH),
    ("reopen", Kind::Reopen, 1_500, MEMBERS),
    ("checkpoint", Kind::Checkpoint, 50, BODY),
    ("load", Kind::Load, 50, BODY),
    ("node", Kind::Node, 500, FLUSH),
    ("submit", Kind::Submit, 1_500, FLUSH),
    ("put", Kind::Put, 30, HELD),
    ("run", Kind::Run, 20, WAITING),
    ("waiting", Kind::Waiting, 20, WAITING),
    ("waiting-many", Kind::Waiting, 70, MANY_WAITING),
    ("in-order", Kind::InOrder, 40, MEMBERS),
    ("reversed", Kind::Reversed, 40, MEMBERS),
    ("deep", Kind::Deep, 70, DEPTH),
    ("behind", Kind::Behind, 80, ROUNDS),
    ("late", Kind::Late, 2, ROUNDS),
];

/// The task that these arguments ask for; None if they ask for none.
pub fn task_of(alloc: Global, words: &[String]) -> Option<Task> {
    match words {
        [word, count] => sized(alloc, word.as_str(), number(count.as_str())?, None),
        [word, count, size] => {
            let (count, size) = (number(count.as_str())?, number(size.as_str())?);
            sized(alloc, word.as_str(), count, Some(size))
        }
        _ => None,
    }
}

/// The task of the kind with this name, of this many pieces, and of this size or the kind's default size.
pub fn sized(alloc: Global, word: &str, count: u64, size: Option<u64>) -> Option<Task> {
    let (is_work, name) = match word.strip_prefix(PREPARE) {
        Some(name) => (false, name),
        None => (true, word),
    };
    let (kind, sizes) = work_of(name)?;
    let size = match size {
        Some(size) if size < sizes.least || sizes.most < size => return None,
        Some(size) => size,
        None => sizes.usual,
    };
    if count > MOST {
        return None;
    }
    Some(Task {
        kind,
        alloc,
        is_work,
        count,
        size,
        members: sizes
            .members
            .unwrap_or(size.min(u64::from(u16::MAX)) as u16),
    })
}

fn work_of(word: &str) -> Option<(Kind, Sizes)> {
    for (name, kind, _, sizes) in &WORKS {
        if *name == word {
            return Some((*kind, *sizes));
        }
    }
    None
}

// Reads a number in decimal digits. `parse` alone would accept a plus sign too.
fn number(word: &str) -> Option<u64> {
    if word.starts_with('+') {
        return None;
    }
    word.parse().ok()
}
