//! The node that a test case is about: its committee and its configuration.

use committee::{Committee, CommitteeError};
use header::Node;
use sigface::HashSign;
use sim_script::{member_list, signer};
use std::alloc::{AllocError, Global};
use validator::Config;
use wire::Author;

/// The node of a test case, for the reference implementation, and the configuration of its validators.
#[derive(Drop)]
pub struct Member {
    pub node: Node<HashSign>,
    pub config: Config<HashSign>,
}

/// Reads a node from words such as `0 50 16 1,1,1,1`: its own number, the depth, how many batches it may hold, and the stakes of all
/// members. None if the words are no node.
pub fn member_of(alloc: Global, words: &str) -> Result<Option<Member>, AllocError> {
    let words: Vec<&str> = words.split(' ').collect(alloc)?;
    let [own, depth, batches, stakes] = words.as_slice() else {
        return Ok(None);
    };
    let Ok(own) = own.parse::<u16>() else {
        return Ok(None);
    };
    let committee = committee_of(alloc, depth, batches, stakes)?;
    let again = committee_of(alloc, depth, batches, stakes)?;
    match (committee, again) {
        (Some(committee), Some(again)) => Ok(member_in(Author(own), committee, again)),
        _ => Ok(None),
    }
}

/// The member with this number. None if the committee has no such member. The committee is handed in twice, since it can't be copied.
fn member_in(own: Author, committee: Committee, again: Committee) -> Option<Member> {
    let config = Config::new(again, own, signer(own))?;
    let signer = signer(own);
    Some(Member {
        node: Node {
            own,
            committee,
            signer,
        },
        config,
    })
}

/// A committee of as many members as there are stakes, with one worker each.
fn committee_of(
    alloc: Global,
    depth: &str,
    batches: &str,
    stakes: &str,
) -> Result<Option<Committee>, AllocError> {
    let mut file = member_list(alloc, count_of(stakes))?;
    writeln!(
        file,
        "stakes = [{stakes}]\ndepth = {depth}\nworkers = 1\nbatches = {batches}"
    )?;
    match Committee::read(alloc, file.as_str()) {
        Ok(committee) => Ok(Some(committee)),
        Err(CommitteeError::Memory) => Err(AllocError),
        Err(_) => Ok(None),
    }
}

/// How many parts separated by commas the text has.
fn count_of(words: &str) -> u16 {
    let mut count = 1u16;
    for byte in words.as_bytes() {
        if *byte == b',' {
            count = count.saturating_add(1);
        }
    }
    count
}
