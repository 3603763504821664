//! Tests of the stakes of members, and of sets of members.

use crate::parts::words::{Reported, author_of, list};
use committee::{Committee, MAX_MEMBERS, MemberSet};

/// Shows the stake of all members together, and how much stake of faulty members is tolerated.
pub fn show_total(committee: &Option<Committee>, answer: &mut String) -> Reported {
    match committee {
        Some(committee) => list("total", &[committee.total(), committee.tolerated()], answer),
        None => answer.push_str("no committee\n"),
    }
}

/// Shows the stake of a member.
pub fn show_stake(committee: &Option<Committee>, member: u64, answer: &mut String) -> Reported {
    match committee {
        Some(committee) => match committee.stake(author_of(member)) {
            Some(stake) => list("stake", &[stake], answer),
            None => answer.push_str("none\n"),
        },
        None => answer.push_str("no committee\n"),
    }
}

/// Shows the sum of the stakes of the members with these numbers.
pub fn weigh(committee: &Option<Committee>, members: &[u64], answer: &mut String) -> Reported {
    match committee {
        Some(committee) => list("weight", &[committee.weight(&set_of(members))], answer),
        None => answer.push_str("no committee\n"),
    }
}

/// Shows whether a member's number is in the set of the members with these numbers.
pub fn is_among(number: u64, members: &[u64], answer: &mut String) -> Reported {
    let is_among = set_of(members).contains(author_of(number));
    list("among", &[is_among as u64], answer)
}

/// Shows whether a member's number is in the union of two sets, in their intersection, and in the first set without the second. The first
/// set has the first `count` of these members, the second set has the others.
pub fn is_in_both(number: u64, count: u64, members: &[u64], answer: &mut String) -> Reported {
    let (some, others) = members.split_at(members.len().min(count as usize));
    let others = set_of(others);
    let (mut united, mut common, mut rest) = (set_of(some), set_of(some), set_of(some));
    united.unite(&others);
    common.retain(&others);
    rest.remove_all(&others);
    let author = author_of(number);
    let found = [
        united.contains(author),
        common.contains(author),
        rest.contains(author),
    ];
    list("in", &found.map(|is_in| is_in as u64), answer)
}

// The set of the members with these numbers, without the numbers that no member can have.
fn set_of(members: &[u64]) -> MemberSet {
    let mut set = MemberSet::none();
    for member in members {
        let author = author_of(*member);
        if author.0 < MAX_MEMBERS {
            set.insert(author);
        }
    }
    set
}
