//! Takes what may go out of a member's desk after a move, and records it.

ghost use Rattle.std.specs.Prelude.{◌≡◌, [], drop, false, true, OnOk, OnErr, IfOk};
ghost use Rattle.book.specs.Book.{releasable};
ghost use Rattle.spec_world.specs.World.{World};
ghost use Rattle.validator.specs.Setting.{node_of};
ghost use Rattle.desk.specs.AtWorld.{IsAt};
ghost use Rattle.cluster.specs.Member.{HasPutOut, HasCollected, HasCollectedSome};
ghost use Rattle.cluster.specs.Collecting.{HasRead, IsWhole, HasReleased, IsReleasedNext};

use desk::Desk;
use diskmodel::StopDisk;
use sigface::Sign;
use std::alloc::{AllocError, Global};
use std::marker::Model;
use wire::{Digest, Output};

/// What a member gave out over all its runs: its outputs by number, and the longest order.
pub(crate) struct GivenOut {
    outputs: Vec<Output>,
    order: Vec<Digest>,
}

impl Drop for GivenOut {
    fn drop(self) {
        let GivenOut {
            outputs: _,
            order: _,
        } = self;
    }
}

impl Model for GivenOut {
    ghost use Rattle.cluster.specs.Member.{GivenOutView};

    ghost Value = { GivenOutView };

    ghost view = { λ given. record { outputs = given.outputs.items; order = given.order.items } };
}

impl GivenOut {
    ghost use Rattle.std.specs.Prelude.{◌≡◌, length, slice_get, [], Some, None, IfSome, IsNone};

    /// The record of a member that has given out nothing yet.
    pub(crate) fn new(alloc: Global) -> GivenOut
        ensures outputs { result.outputs ≡ [] }
        ensures order { result.order ≡ [] }
    {
        GivenOut {
            outputs: Vec::new(alloc),
            order: Vec::new(alloc),
        }
    }

    /// The output with this number. None where the member has put out fewer.
    pub(crate) fn output(&self, number: u64) -> Option<&Output>
        ensures some { IfSome result (λ output. slice_get self.now.outputs number ≡ Some output.now) }
        ensures none { IsNone result → slice_get self.now.outputs number ≡ None }
    {
        self.outputs.get(number as usize)
    }

    /// How many outputs the member has put out.
    pub(crate) fn outputs(&self) -> u64
        ensures { result ≡ length self.now.outputs }
    {
        self.outputs.len() as u64
    }

    /// The longest order that the member has given out.
    pub(crate) fn order(&self) -> &[Digest]
        ensures { result.now ≡ self.now.order }
    {
        self.order.as_slice()
    }
}

/// Reads the settled order, and then takes all outputs that may go out. Nothing goes out of a desk that is down. On `AllocError` an
/// allocation failed, and what has not gone out still waits in the desk.
pub(crate) fn collect<S: Sign, D: StopDisk>(
    desk: &mut Desk<'_, S, D>,
    given: &mut GivenOut,
) -> Result<(), AllocError>
    ensures setting { desk.new.book.validator.setting ≡ desk.old.book.validator.setting }
    ensures journal { desk.new.journal ≡ desk.old.journal }
    ensures ok { let node = node_of S.scheme desk.old.book.validator.setting in OnOk result ((world : World) → IsAt node D.device world desk.old
        → HasPutOut node world given.old
        → HasCollected node D.device world desk.old desk.new given.old given.new) }
    ensures err { let node = node_of S.scheme desk.old.book.validator.setting in OnErr result ((world : World) → IsAt node D.device world desk.old
        → HasPutOut node world given.old
        → HasCollectedSome node D.device world desk.old desk.new given.old given.new) }
{
    if desk.is_down() {
        return Ok(());
    }
    read_order(desk, given)?;
    release_all(desk, given)
}

// Adds the part of the settled order that was not read before.
fn read_order<S: Sign, D: StopDisk>(
    desk: &Desk<'_, S, D>,
    given: &mut GivenOut,
) -> Result<(), AllocError>
    requires up { desk.now.book.down ≡ false }
    ensures ok { let node = node_of S.scheme desk.now.book.validator.setting in OnOk result ((world : World) → IsAt node D.device world desk.now
        → HasPutOut node world given.old
        → HasRead node D.device world desk.now given.new) }
    ensures outputs { given.new.outputs ≡ given.old.outputs }
    ensures err { OnErr result (given.new ≡ given.old) }
{
    match desk.order(given.order.len() as u64) {
        Ok(more) => given.order.extend_from_slice(more.as_slice()),
        Err(_) => Err(AllocError),
    }
}

// Takes all outputs that may go out. The settled order was read before.
fn release_all<S: Sign, D: StopDisk>(
    desk: &mut Desk<'_, S, D>,
    given: &mut GivenOut,
) -> Result<(), AllocError>
    ensures setting { desk.new.book.validator.setting ≡ desk.old.book.validator.setting }
    ensures journal { desk.new.journal ≡ desk.old.journal }
    ensures ok { let node = node_of S.scheme desk.old.book.validator.setting in OnOk result ((world : World) → IsAt node D.device world desk.old
        → IsWhole node world given.old
        → HasReleased node D.device world desk.old desk.new given.old given.new) }
    ensures none_left { OnOk result (releasable desk.new.book ≡ None) }
    ensures err { let node = node_of S.scheme desk.old.book.validator.setting in OnErr result ((world : World) → IsAt node D.device world desk.old
        → IsWhole node world given.old
        → HasReleased node D.device world desk.old desk.new given.old given.new) }
{
    'releasing: while release_next(desk, given)? {}
    Ok(())
}

// Takes the next output if it may go out. Returns whether there was one.
fn release_next<S: Sign, D: StopDisk>(
    desk: &mut Desk<'_, S, D>,
    given: &mut GivenOut,
) -> Result<bool, AllocError>
    ensures setting { desk.new.book.validator.setting ≡ desk.old.book.validator.setting }
    ensures journal { desk.new.journal ≡ desk.old.journal }
    ensures some { IfOk result (λ more. more ≡ true → IsReleasedNext (node_of S.scheme desk.old.book.validator.setting) D.device desk.old desk.new given.old given.new) }
    ensures none { IfOk result (λ more. more ≡ false → (releasable desk.old.book ≡ None) × (desk.new ≡ desk.old) × (given.new ≡ given.old)) }
    ensures err { OnErr result ((desk.new ≡ desk.old) × (given.new ≡ given.old)) }
{
    given.outputs.reserve(1)?;
    match desk.release() {
        Some(output) => {
            given.outputs.push_reserved(output);
            Ok(true)
        }
        None => Ok(false),
    }
}
