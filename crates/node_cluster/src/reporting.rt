//! Prints what the example shows, line by line.

use crate::ending::Ending;
use crate::play::{LAST, Named, Play};
use sim_members::MEMBERS;
use wire::{Author, Digest};

/// Prints the certificates of a round, each with its author.
pub fn report_round(rt: &impl Print, play: &mut Play<'_>, round: u64) -> Result<(), Ending> {
    print!(rt; "round {round}, certified:")?;
    for named in play.certified(round)? {
        report_named(rt, named)?;
    }
    println!(rt; "")?;
    Ok(())
}

fn report_named(rt: &impl Print, named: &Named) -> Result<(), Ending> {
    let (author, short) = (named.author.0, short(&named.digest));
    print!(rt; " {author}:{short:08x}")?;
    Ok(())
}

/// Prints that the last member stopped, how many events it lost, and how many it found again.
pub fn report_stop(rt: &impl Print, lost: u64, found: u64) -> Result<(), Ending> {
    let last = LAST.0;
    println!(rt;
        "member {last} stops, and loses {lost} events that it hadn't written; it is opened again on {found}"
    )?;
    Ok(())
}

/// Prints the value of a coin, and how many members accepted it.
pub fn report_coin(rt: &impl Print, wave: u64, taken: u64) -> Result<(), Ending> {
    println!(rt; "the coin of wave {wave} is {wave}, and {taken} members take it")?;
    Ok(())
}

/// Prints what has been added to each member's order.
pub fn report_growth(rt: &impl Print, play: &mut Play<'_>) -> Result<(), Ending> {
    for node in 0..MEMBERS {
        report_grown(rt, node, play.growth(Author(node)))?;
    }
    Ok(())
}

fn report_grown(rt: &impl Print, node: u16, grown: &[Digest]) -> Result<(), Ending> {
    if grown.is_empty() {
        return Ok(());
    }
    print!(rt; "member {node} orders")?;
    for digest in grown {
        print!(rt; " {:08x}", short(digest))?;
    }
    println!(rt; "")?;
    Ok(())
}

/// Prints each member's order, and whether all are equal. Returns whether the play succeeded: something was ordered, and of any two orders
/// one is a prefix of the other.
pub fn report_end(rt: &impl Print, play: &Play<'_>) -> Result<bool, Ending> {
    for node in 0..MEMBERS {
        report_order(rt, play, Author(node))?;
    }
    let (some, agree, equal) = (is_some(play), agree(play), are_equal(play));
    println!(rt;
        "{}",
        match (some, agree, equal) {
            (false, _, _) => "NOTHING WAS ORDERED",
            (true, false, _) => "THE ORDERS DISAGREE",
            (true, true, false) =>
                "the four orders differ in length, and of any two one begins the other",
            (true, true, true) => "the four orders are equal",
        }
    )?;
    Ok(some && agree)
}

fn report_order(rt: &impl Print, play: &Play<'_>, node: Author) -> Result<(), Ending> {
    let (own, order) = (node.0, play.order(node));
    let count = order.len();
    println!(rt; "the order of member {own}, of {count} certificates:")?;
    for digest in order {
        report_digest(rt, play, digest)?;
    }
    Ok(())
}

fn report_digest(rt: &impl Print, play: &Play<'_>, digest: &Digest) -> Result<(), Ending> {
    let short = short(digest);
    match play.name(digest) {
        Some(named) => {
            let (round, author) = (named.round, named.author.0);
            println!(rt; "  {short:08x} round {round}, member {author}")?;
        }
        None => println!(rt; "  {short:08x}")?,
    }
    Ok(())
}

// The first four bytes of a digest, as a number.
fn short(digest: &Digest) -> u32 {
    let [first, second, third, fourth, ..] = digest.0;
    u32::from_be_bytes([first, second, third, fourth])
}

fn is_some(play: &Play<'_>) -> bool {
    (0..MEMBERS).any(|node| !play.order(Author(node)).is_empty())
}

fn agree(play: &Play<'_>) -> bool {
    (0..MEMBERS).all(|one| (0..MEMBERS).all(|other| begin_alike(
        play.order(Author(one)),
        play.order(Author(other)),
    )))
}

fn are_equal(play: &Play<'_>) -> bool {
    (0..MEMBERS).all(|node| play.order(Author(node)) == play.order(Author(0)))
}

// Whether one of two orders is a prefix of the other.
fn begin_alike(one: &[Digest], other: &[Digest]) -> bool {
    one.iter().zip(other).all(|(one, other)| one == other)
}
