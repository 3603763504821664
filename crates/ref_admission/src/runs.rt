//! The answers to events, given the history before them.

ghost use Rattle.std.specs.Prelude.{◌≡◌, ◌<◌, ◌++◌, ◌∷◌, [], IfOk, List, length};
ghost use Rattle.spec_model.specs.Admitting as admitting;
ghost use Rattle.spec_model.specs.Nodes.{node_view};
ghost use Rattle.wire.specs.Events as incoming;

use crate::admitting::answer;
use crate::arrival::Arrival;
use header::{Admission, Event, Node};
use ref_order::past::Past;
use sigface::Sign;
use std::alloc::{AllocError, Global};

/// The answer to an event that comes after this history.
pub fn admit<S: Sign>(
    alloc: Global,
    node: &Node<S>,
    arrival: &Arrival,
) -> Result<Admission, AllocError>
    ensures { IfOk result (λ answer. answer ≡ admitting.admit (node_view S.scheme node.now) arrival.now.history.now arrival.now.event.now) }
{
    let now = Past {
        node,
        history: arrival.history,
    };
    let later = Past {
        node,
        history: arrival.events,
    };
    answer(alloc, node, &now, &later, arrival.event)
}

/// The answer to the last of these events, given those before it as the history.
pub fn admit_last<S: Sign>(
    alloc: Global,
    node: &Node<S>,
    events: &[Event],
) -> Result<Admission, AllocError>
    requires { 0 < length events.now }
    ensures { (history : List incoming.Event) (event : incoming.Event) → events.now ≡ history ++ event ∷ [] → IfOk result (λ answer. answer ≡ admitting.admit (node_view S.scheme node.now) history event) }
{
    match events.split_last() {
        None => unreachable!(),
        Some((event, history)) => admit(
            alloc,
            node,
            &Arrival {
                history,
                event,
                events,
            },
        ),
    }
}

/// The answers to these events, one after the other, from the empty history on.
pub fn answers<S: Sign>(
    alloc: Global,
    node: &Node<S>,
    events: Vec<Event>,
) -> Result<Vec<Admission>, AllocError>
    ensures { IfOk result (λ found. found.items ≡ admitting.answers (node_view S.scheme node.now) [] events.items) }
{
    let mut history = Vec::new(alloc);
    let mut found = Vec::new(alloc);
    for event in events {
        history.push(event)?;
        let answer = admit_last(alloc, node, &history)?;
        if !answer.is_new() {
            history.pop();
        }
        found.push(answer)?;
    }
    Ok(found)
}

/// Whether each of these events is new after the events before it.
pub fn each_new<S: Sign>(
    alloc: Global,
    node: &Node<S>,
    events: Vec<Event>,
) -> Result<bool, AllocError>
    ensures { IfOk result (λ found. found ≡ admitting.each_new (node_view S.scheme node.now) [] events.items) }
{
    let mut history = Vec::new(alloc);
    for event in events {
        history.push(event)?;
        if !admit_last(alloc, node, &history)?.is_new() {
            return Ok(false);
        }
    }
    Ok(true)
}
