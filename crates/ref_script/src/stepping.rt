//! What a command does to a desk, a script's node.

ghost use Rattle.std.specs.Prelude.{◌≡◌, ◌++◌, IfOk, OnOk};
ghost use Rattle.ref_machine.specs.Tables.{state_of};
ghost use Rattle.ref_script.specs.Desks.{desk_of, said};
ghost use Rattle.spec_machine.specs.After as machine;
ghost use Rattle.spec_model.specs.Nodes.{node_view};
ghost use Rattle.spec_world.specs.Steps as steps;
ghost use Rattle.spec_world.specs.Text as script;

use crate::command::Command;
use crate::desk::{Desk, Waiting};
use crate::groups::group_of;
use header::{Admission, Event, Node, Outputs};
use ref_machine::{Tables, after as after_one, answered};
use sigface::Sign;
use std::alloc::{AllocError, Global};

/// The tables after these events, of which the first is the oldest.
///
/// # Errors
/// An allocation failed.
pub fn after_all<S: Sign>(
    alloc: Global,
    node: &Node<S>,
    base: &Tables,
    events: &[Event],
) -> Result<Tables, AllocError>
    ensures { IfOk result (λ tables. state_of tables ≡ machine.after_all (node_view S.scheme node.now) (state_of base.now) events.now) }
{
    let mut tables = base.try_clone(alloc)?;
    for event in events {
        tables = after_one(alloc, node, tables, event)?;
    }
    Ok(tables)
}

/// The desk of a run that has just begun with the state of these tables.
pub fn desk_on(alloc: Global, base: Tables) -> Desk
    ensures { desk_of result ≡ script.desk_on (state_of base) }
{
    Desk {
        base,
        accepted: Vec::new(alloc),
        settled: 0,
        waiting: Vec::new(alloc),
    }
}

/// Adds outputs to those that wait, each with this ticket: how many events have to be settled before it may leave.
fn put_ticketed(
    waiting: &mut Vec<Waiting>,
    ticket: usize,
    outputs: Outputs,
) -> Result<(), AllocError>
    ensures { OnOk result (waiting.new.items ≡ waiting.old.items ++ steps.ticketed ticket outputs) }
{
    for output in outputs.into_vec() {
        waiting.push(Waiting { ticket, output })?;
    }
    Ok(())
}

/// The desk after an event with this answer. New: the event is accepted, and its outputs wait until it is settled. Known: the outputs wait
/// until all accepted events are settled. Refused: nothing changes.
fn with_event<S: Sign>(
    alloc: Global,
    node: &Node<S>,
    mut desk: Desk,
    event: Event,
) -> Result<Desk, AllocError>
    ensures { IfOk result (λ next. desk_of next ≡ script.after (node_view S.scheme node.now) (desk_of desk) (script.take_in event)) }
{
    let count = desk.accepted.len();
    let now = after_all(alloc, node, &desk.base, &desk.accepted)?;
    match answered(alloc, node, &now, &event)? {
        Admission::New(outputs) => {
            desk.accepted.push(event)?;
            put_ticketed(&mut desk.waiting, count + 1, outputs)?;
            Ok(desk)
        }
        Admission::Known(outputs) => {
            put_ticketed(&mut desk.waiting, count, outputs)?;
            Ok(desk)
        }
        Admission::Refused(_) => Ok(desk),
    }
}

/// The desk after a flush: the longest group of accepted events that aren't settled yet is settled.
fn flushed(mut desk: Desk) -> Desk
    ensures { desk_of result ≡ script.flushed (desk_of desk) }
{
    let more = group_of(&desk.accepted[desk.settled..]).len();
    desk.settled += more;
    desk
}

/// The desk after a checkpoint: all accepted events are settled.
fn settled_all(mut desk: Desk) -> Desk
    ensures { desk_of result ≡ record (desk_of desk) { settled = desk.accepted.items } }
{
    desk.settled = desk.accepted.len();
    desk
}

/// The desk after a stop: a run that has just begun with what was settled.
fn stopped<S: Sign>(alloc: Global, node: &Node<S>, desk: Desk) -> Result<Desk, AllocError>
    ensures { IfOk result (λ next. desk_of next ≡ script.desk_on (script.settled_in (node_view S.scheme node.now) (desk_of desk))) }
{
    let settled = after_all(alloc, node, &desk.base, &desk.accepted[..desk.settled])?;
    Ok(desk_on(alloc, settled))
}

/// The desk after a command, before any output is written.
///
/// # Errors
/// An allocation failed.
#[tactic(auto, unfolding(spec_world::specs::Text::after))]
pub fn after<S: Sign>(
    alloc: Global,
    node: &Node<S>,
    desk: Desk,
    command: Command,
) -> Result<Desk, AllocError>
    ensures { IfOk result (λ next. desk_of next ≡ script.after (node_view S.scheme node.now) (desk_of desk) (said command)) }
{
    match command {
        Command::Event(event) => with_event(alloc, node, desk, event),
        Command::Flush => Ok(flushed(desk)),
        Command::Checkpoint => Ok(settled_all(desk)),
        Command::Stop => stopped(alloc, node, desk),
    }
}
