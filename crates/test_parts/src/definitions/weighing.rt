//! A committee whose members have stakes.

use committee::{Committee, CommitteeError};
use sim_script::{Form, FormError, Labels, define_header, member_list};
use std::alloc::Global;
use wire::Author;

/// The number of members whose genesis certificates have labels in every test case.
const LABELLED: u16 = 4;

/// A committee with a member for each of these stakes, which are separated by commas; all members sign with the test key pair.
pub fn committee_of(
    alloc: Global,
    stakes: &str,
    depth: u64,
    batches: u64,
) -> Result<Committee, FormError> {
    let mut file = member_list(alloc, count_of(stakes))?;
    writeln!(
        file,
        "stakes = [{stakes}]\ndepth = {depth}\nworkers = 1\nbatches = {batches}"
    )?;
    match Committee::read(alloc, file.as_str()) {
        Ok(committee) => Ok(committee),
        Err(CommitteeError::Memory) => Err(FormError::Memory),
        Err(_) => Err(FormError::BadCommand),
    }
}

/// How many words there are in a text that separates them by commas.
fn count_of(words: &str) -> u16 {
    let mut count = 1u16;
    for byte in words.as_bytes() {
        if *byte == b',' {
            count = count.saturating_add(1);
        }
    }
    count
}

/// Gives labels to the genesis certificates of this many members.
pub fn label_genesis(alloc: Global, labels: &mut Labels, members: u16) -> Result<(), FormError> {
    for member in LABELLED..members {
        let name = format!(in alloc; "g{member}")?;
        if labels.parent(name.as_str()).is_none() {
            define_header(alloc, labels, &genesis_form(name.as_str(), Author(member)))?;
        }
    }
    Ok(())
}

fn genesis_form(label: &str, author: Author) -> Form<'_> {
    Form {
        label,
        author,
        round: 0,
        parents: "-",
        batches: "-",
    }
}
