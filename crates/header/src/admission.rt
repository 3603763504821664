//! The answers of a node to events, with the outputs that they put out.

ghost use Rattle.std.specs.Prelude.{◌≡◌, ◌+◌, ◌*◌, ◌<◌, ◌≤◌, ◌^◌, ◌++◌, ◌∷◌, [], OnOk, OnErr, IfOk, drop, length, take};
ghost use Rattle.header.specs.Answers.{is_new, pieces};
ghost use Rattle.wire.specs.declared.limits.TheConstants.{MAX_ORDER_DIGESTS};

use crate::refusal::Refusal;
use std::alloc::{AllocError, Global};
use std::marker::Model;
use wire::{Digest, MAX_ORDER_DIGESTS, OrderDigests, Output};

// The digests of the list from this place on.
fn part_from(digests: &[Digest], place: usize) -> &[Digest]
    requires { place ≤ length digests.now }
    ensures { result.now ≡ drop place digests.now }
{
    &digests[place..]
}

// The first digests of the list, at most `most` of them.
fn first_of(digests: &[Digest], most: usize) -> &[Digest]
    ensures value { result.now ≡ take most digests.now }
    ensures few { length result.now ≤ most }
{
    if digests.len() <= most {
        return digests;
    }
    &digests[..most]
}

fn order_digests(alloc: Global, digests: &[Digest]) -> Result<OrderDigests, AllocError>
    requires { length digests.now ≤ MAX_ORDER_DIGESTS }
    ensures { IfOk result (λ found. found ≡ digests.now) }
{
    let mut found = OrderDigests::new(alloc);
    for digest in digests {
        found.push(*digest)?;
    }
    Ok(found)
}

/// The outputs that an event puts out, in their order.
#[derive(Debug)]
pub struct Outputs {
    list: Vec<Output>,
}

impl Drop for Outputs {
    fn drop(self) {
        let Outputs { list: _ } = self;
    }
}

impl Model for Outputs {
    ghost use Rattle.std.specs.Prelude.{List};
    ghost use Rattle.wire.specs.declared.output.Output.{Output};

    ghost Value = { List Output };

    ghost view = { λ o. o.list.items };
}

impl Outputs {
    /// An empty list of outputs.
    pub fn new(alloc: Global) -> Outputs
        ensures { result ≡ [] }
    {
        Outputs {
            list: Vec::new(alloc),
        }
    }

    /// Adds an output at the end of the list. On `AllocError` an allocation failed.
    pub fn push(&mut self, output: Output) -> Result<(), AllocError>
        ensures ok { OnOk result (self.new ≡ self.old ++ output ∷ []) }
        ensures err { OnErr result (self.new ≡ self.old) }
    {
        self.list.push(output)?;
        Ok(())
    }

    /// Adds other outputs at the end of the list. On `AllocError` an allocation failed.
    pub fn append(&mut self, mut others: Outputs) -> Result<(), AllocError>
        ensures ok { OnOk result (self.new ≡ self.old ++ others) }
        ensures err { OnErr result (self.new ≡ self.old) }
    {
        self.list.append(&mut others.list)?;
        Ok(())
    }

    /// Adds outputs with the digests by which an order has grown that had `start` digests before, in pieces as large as an output may be.
    /// On `AllocError` an allocation failed.
    pub fn push_order(
        &mut self,
        alloc: Global,
        start: u64,
        digests: &[Digest],
    ) -> Result<(), AllocError>
        requires start { start < 2 ^ 63 }
        requires few { length digests.now < 2 ^ 63 }
        ensures { OnOk result (self.new ≡ self.old ++ pieces start digests.now) }
    {
        for piece in 0..(digests.len() + (MAX_ORDER_DIGESTS - 1)) / MAX_ORDER_DIGESTS {
            let place = MAX_ORDER_DIGESTS * piece;
            let part = first_of(part_from(digests, place), MAX_ORDER_DIGESTS);
            let digests = order_digests(alloc, part)?;
            self.push(Output::Order {
                start: start + place as u64,
                digests,
            })?;
        }
        Ok(())
    }

    /// The outputs, in their order.
    pub fn into_vec(self) -> Vec<Output>
        ensures { result.items ≡ self }
    {
        let Outputs { list } = self;
        list
    }

    /// The outputs, in their order.
    pub fn as_slice(&self) -> &[Output]
        ensures { result.now ≡ self.now }
    {
        &self.list
    }
}

/// The answer of a node to an event.
#[derive(Debug, Drop)]
pub enum Admission {
    /// The event is new: the node accepts it and keeps its record. These are the outputs that it puts out.
    New(Outputs),
    /// The event was accepted before and changes nothing. These are the outputs that it puts out again.
    Known(Outputs),
    /// The event is refused, and changes nothing.
    Refused(Refusal),
}

impl Admission {
    /// Whether the answer is `New`.
    pub fn is_new(&self) -> bool
        ensures { result ≡ is_new self.now }
    {
        matches!(self, Admission::New(_))
    }
}
