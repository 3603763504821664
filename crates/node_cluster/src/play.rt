//! The members of the committee, and the steps of a play.

ghost use Rattle.std.specs.Prelude.{◌≡◌, [], All, IfOk};

use crate::ending::Ending;
use cluster::{Applied, Cluster, ClusterError, Move};
use diskmodel::{Disk, MemDisk};
use sigface::{HashSign, HashVerify};
use sim_members::{MEMBERS, Settings};
use std::alloc::{AllocError, Global};
use wire::{Author, Coin, Digest, HeaderBody, Message, Wave};

/// The member of whose round the certificates are shown: those that its next header names.
const FIRST: Author = Author(0);

/// The member that stops during the play.
pub const LAST: Author = Author(MEMBERS - 1);

type Nodes<'a> = Cluster<'a, HashSign, MemDisk, HashVerify>;

/// A certificate that some header named as a parent.
#[derive(Clone, Copy)]
pub struct Named {
    pub round: u64,
    pub author: Author,
    pub digest: Digest,
}

/// How far the outputs and the order of a member have been handled.
#[derive(Clone, Copy)]
struct Followed {
    node: Author,
    /// How many of the member's outputs have been delivered to the others.
    outputs: u64,
    /// How many certificates of the member's order have been shown.
    order: usize,
}

/// A committee, each of whose members is a node in this process.
pub struct Play<'a> {
    nodes: Nodes<'a>,
    followed: Vec<Followed>,
    named: Vec<Named>,
}

impl<'a> Drop for Play<'a> {
    fn drop(self) {
        let Play {
            nodes: _,
            followed: _,
            named: _,
        } = self;
    }
}

impl<'a> Play<'a> {
    /// Opens a node for each member, on an empty disk.
    pub fn new(alloc: Global, settings: &'a Settings) -> Result<Play<'a>, Ending> {
        let (configs, disks) = (settings.all(), empty_disks(alloc)?);
        if disks.len() != configs.len() {
            return Err(Ending::Unexpected);
        }
        Ok(Play {
            nodes: Cluster::new(alloc, configs, disks, HashVerify)?,
            followed: all_followed(alloc)?,
            named: Vec::new(alloc),
        })
    }

    /// Lets each member propose a header, take it, and write it to its disk.
    pub fn propose(&mut self) -> Result<(), Ending> {
        for node in 0..MEMBERS {
            propose(&mut self.nodes, Author(node))?;
        }
        Ok(())
    }

    /// Delivers outputs to all other members and lets all members write, again and again until no new output is put out.
    pub fn deliver(&mut self) -> Result<(), Ending> {
        for _ in 0..u64::MAX {
            if !self.sweep()? {
                break;
            }
        }
        Ok(())
    }

    // Delivers the outputs that there are, and lets all members write. Returns whether there was any output.
    fn sweep(&mut self) -> Result<bool, Ending> {
        let mut any = false;
        for followed in self.followed.iter_mut() {
            any = deliver_from(&mut self.nodes, followed)? || any;
        }
        flush(&mut self.nodes)?;
        Ok(any)
    }

    /// Delivers new outputs to the last member alone, and stops it before it has written them. Returns how many events it lost, and how
    /// many it found again when it was opened.
    pub fn stop_last(&mut self) -> Result<(u64, u64), Ending> {
        let mut lost: u64 = 0;
        for followed in &self.followed {
            lost = lost.saturating_add(deliver_to(&mut self.nodes, *followed, LAST)?);
        }
        match self.nodes.apply(Move::Stop(LAST))? {
            Applied::Reopened(found) => Ok((lost, found)),
            _ => Err(Ending::Unexpected),
        }
    }

    /// Gives the coin of a wave to each member. Returns how many accepted it.
    pub fn toss(&mut self, wave: u64) -> Result<u64, Ending> {
        let coin = Coin {
            wave: Wave::new(wave)?,
            value: wave,
        };
        let mut taken: u64 = 0;
        for node in 0..MEMBERS {
            let node = Author(node);
            if is_new(self.nodes.apply(Move::Coin { node, coin })?) {
                taken = taken.saturating_add(1);
            }
        }
        Ok(taken)
    }

    /// The certificates of this round that the first member's next header names.
    pub fn certified(&mut self, round: u64) -> Result<&[Named], Ending> {
        let from = self.named.len();
        name_certified(&self.nodes, &mut self.named, round)?;
        Ok(self.named.get(from..).unwrap_or(&[]))
    }

    /// The certificate with this digest, if a header has been seen that names it.
    pub fn name(&self, digest: &Digest) -> Option<&Named> {
        self.named.iter().find(|named| named.digest == *digest)
    }

    /// The order that a member has given out.
    pub fn order(&self, node: Author) -> &[Digest] {
        self.nodes.given_order(node).unwrap_or(&[])
    }

    /// What has been added to a member's order since the last call for this member.
    pub fn growth(&mut self, node: Author) -> &[Digest] {
        let order = self.nodes.given_order(node).unwrap_or(&[]);
        let mut from = 0;
        if let Some(followed) = self.followed.get_mut(node.0 as usize) {
            from = followed.order;
            followed.order = order.len();
        }
        order.get(from..).unwrap_or(&[])
    }
}

// An empty disk for each member.
fn empty_disks(alloc: Global) -> Result<Vec<MemDisk>, AllocError>
    ensures { IfOk result (λ disks. All (λ disk. ⟦<MemDisk as Disk>⟧.device.content disk ≡ []) disks.items) }
{
    let mut disks = Vec::new(alloc);
    for _ in 0..MEMBERS {
        disks.push(MemDisk::new(alloc, Vec::new(alloc))?)?;
    }
    Ok(disks)
}

// Adds the certificates of this round that the first member's next header names.
fn name_certified(nodes: &Nodes<'_>, named: &mut Vec<Named>, round: u64) -> Result<(), Ending> {
    match nodes.propose(FIRST)? {
        Some(header) => name_parents(named, round, &header.body),
        None => Ok(()),
    }
}

// Adds the parents of a header, if they are of this round.
fn name_parents(named: &mut Vec<Named>, round: u64, body: &HeaderBody) -> Result<(), Ending> {
    if body.round.number().checked_sub(1) == Some(round) {
        for parent in body.parents.as_slice() {
            named.push(Named {
                round,
                author: parent.author,
                digest: parent.certificate,
            })?;
        }
    }
    Ok(())
}

// The state of all members before anything was delivered or shown.
fn all_followed(alloc: Global) -> Result<Vec<Followed>, AllocError> {
    let mut followed = Vec::new(alloc);
    for node in 0..MEMBERS {
        followed.push(Followed {
            node: Author(node),
            outputs: 0,
            order: 0,
        })?;
    }
    Ok(followed)
}

fn propose(nodes: &mut Nodes<'_>, node: Author) -> Result<(), Ending> {
    let Some(header) = nodes.propose(node)? else {
        return Ok(());
    };
    nodes.apply(Move::Give {
        to: node,
        sender: node,
        message: Message::Header(header),
    })?;
    nodes.apply(Move::Flush(node))?;
    Ok(())
}

fn flush(nodes: &mut Nodes<'_>) -> Result<(), Ending> {
    for node in 0..MEMBERS {
        nodes.apply(Move::Flush(Author(node)))?;
    }
    Ok(())
}

// Delivers the new outputs of a member to all others. Returns whether there was any.
fn deliver_from(nodes: &mut Nodes<'_>, followed: &mut Followed) -> Result<bool, Ending> {
    let end = nodes.outputs(followed.node).unwrap_or(0);
    for to in 0..MEMBERS {
        deliver_to(nodes, *followed, Author(to))?;
    }
    let any = followed.outputs < end;
    followed.outputs = end;
    Ok(any)
}

// Delivers the new outputs of one member to another. Returns how many of the messages were new there.
fn deliver_to(nodes: &mut Nodes<'_>, from: Followed, to: Author) -> Result<u64, Ending> {
    let mut new: u64 = 0;
    if from.node == to {
        return Ok(new);
    }
    for output in from.outputs..nodes.outputs(from.node).unwrap_or(0) {
        if deliver(nodes, from.node, output, to)? {
            new = new.saturating_add(1);
        }
    }
    Ok(new)
}

// Delivers one output. A piece of the order is for no member. Returns whether the message was new.
fn deliver(nodes: &mut Nodes<'_>, node: Author, output: u64, to: Author) -> Result<bool, Ending> {
    match nodes.apply(Move::Deliver { node, output, to }) {
        Ok(applied) => Ok(is_new(applied)),
        Err(ClusterError::NoSuchOutput) => Ok(false),
        Err(error) => Err(error.into()),
    }
}

fn is_new(applied: Applied) -> bool {
    matches!(applied, Applied::Took { new: true, .. })
}
