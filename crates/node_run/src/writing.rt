//! The writing thread, which writes the outputs that may leave.

ghost use Rattle.std.specs.Prelude.{◌≡◌, true, false};
ghost use Rattle.std.specs.Io.Buffered.{writer_contents};
ghost use Rattle.wire.specs.Lists.{Begins};
ghost use Rattle.node_seats.specs.Views.{IsSame};
ghost use Rattle.node.specs.Callers.{StaysWith};
ghost use Rattle.node_run.specs.Writing.{MayGo, WritesNext, WritesOnly};

use crate::bell::Bell;
use crate::caller::Caller;
use crate::sink::Sink;
use sigface::Sign;
use std::alloc::{AllocError, Global};
use std::collections::VecDeque;
use std::io::Write;
use std::marker::Model;
use std::sync::Wait;
use wire::Output;

/// How many outputs are taken out of the node at most in one hold of its lock.
const MAX_COLLECTED: usize = 256;

/// The outputs that were taken out of the node and that aren't written yet. Between two calls there is none, and room for at least one.
#[derive(Drop)]
pub(crate) struct Collected {
    outputs: VecDeque<Output>,
}

impl Model for Collected {
    ghost use Rattle.std.specs.Prelude.{◌≡◌, ◌<◌, ⊤, []};
    ghost use Rattle.std.specs.VecDeque.{deque_capacity};

    ghost Value = { ⊤ };

    ghost view = { λ _. tt };

    ghost invariant = { λ c. (c.outputs.items ≡ []) × (0 < deque_capacity c.outputs) };
}

impl Collected {
    /// None, and room for some. On `AllocError` an allocation failed.
    pub(crate) fn new(alloc: Global) -> Result<Collected, AllocError> {
        Ok(Collected {
            outputs: VecDeque::with_capacity(alloc, MAX_COLLECTED)?,
        })
    }
}

/// The work of the writing thread: writes a frame for each output that may leave, each time that the bell is rung, until the bell is closed
/// and all of them are written.
pub(crate) fn write_outputs<S: Sign, W: Write + Drop, R: Wait>(
    rt: &R,
    caller: &mut Caller<'_, '_, S>,
    sink: &mut Sink<W>,
    collected: &mut Collected,
    settled: &Bell,
)
    ensures stays { StaysWith caller.old caller.new }
    ensures same { IsSame caller.old.seat caller.new.seat }
    ensures more { Begins caller.old.seat.view.durable caller.new.seat.view.durable }
    ensures only { WritesOnly (MayGo S.scheme caller.old.node caller.new.seat.view) sink.old.faults sink.new.faults (writer_contents W.contents sink.old.writer) (writer_contents W.contents sink.new.writer) }
{
    for _ in rt.forever() {
        let may_go_on = settled.wait(rt);
        write_due(rt, caller, sink, collected);
        if !may_go_on {
            return;
        }
    }
    unreachable!()
}

// Writes the outputs that may leave now.
fn write_due<S: Sign, W: Write + Drop, R: Wait>(
    rt: &R,
    caller: &mut Caller<'_, '_, S>,
    sink: &mut Sink<W>,
    collected: &mut Collected,
)
    ensures stays { StaysWith caller.old caller.new }
    ensures same { IsSame caller.old.seat caller.new.seat }
    ensures more { Begins caller.old.seat.view.durable caller.new.seat.view.durable }
    ensures only { WritesOnly (MayGo S.scheme caller.old.node caller.new.seat.view) sink.old.faults sink.new.faults (writer_contents W.contents sink.old.writer) (writer_contents W.contents sink.new.writer) }
{
    for _ in rt.forever() {
        if !write_next(rt, caller, sink, collected) {
            return sink.flush();
        }
    }
    unreachable!()
}

// Takes the next outputs that may leave, as many as `collected` has room for, and writes all of them, oldest first. Gives whether there
// was one.
fn write_next<S: Sign, W: Write + Drop, R: Wait>(
    rt: &R,
    caller: &mut Caller<'_, '_, S>,
    sink: &mut Sink<W>,
    collected: &mut Collected,
) -> bool
    ensures stays { StaysWith caller.old caller.new }
    ensures same { IsSame caller.old.seat caller.new.seat }
    ensures more { Begins caller.old.seat.view.durable caller.new.seat.view.durable }
    ensures next { result ≡ true → WritesNext S.scheme caller.old.node caller.new.seat sink.old.faults sink.new.faults (writer_contents W.contents sink.old.writer) (writer_contents W.contents sink.new.writer) }
    ensures none { result ≡ false → sink.new ≡ sink.old }
{
    caller.collect_into(rt, &mut collected.outputs);
    if collected.outputs.is_empty() {
        return false;
    }
    sink.put_all(&mut collected.outputs);
    true
}
