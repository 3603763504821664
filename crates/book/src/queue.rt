//! Outputs that wait until their tickets are settled.

ghost use Rattle.std.specs.Prelude.{◌≡◌, ◌-◌, ◌<◌, ◌++◌, ◌∷◌, [], MatchOption, None, drop, if◌then◌else◌, is_some, length, take, ℕ};
ghost use Rattle.std.specs.VecDeque.{deque_len, deque_capacity};
ghost use Rattle.spec_world.specs.Steps.{ticketed};
ghost use Rattle.book.specs.Queue.{queue_of, settled_head, settled_front};

use std::collections::VecDeque;
use wire::Output;

/// The outputs of one event: the first output, and the rest, oldest first. They may leave once as many records are settled as the ticket
/// says. Of the events that have outputs nearly all have one, and then `rest` has no buffer.
#[derive(Drop)]
pub struct Queued {
    pub ticket: u64,
    pub first: Output,
    pub rest: VecDeque<Output>,
}

/// Adds the outputs of an event at the end of the queue, which has room for them.
pub(crate) fn enqueue(queue: &mut VecDeque<Queued>, ticket: u64, outputs: Vec<Output>)
    requires room { deque_len queue.old < deque_capacity queue.old }
    ensures queue { queue_of queue.new.items ≡ queue_of queue.old.items ++ ticketed ticket outputs.items }
{
    let mut outputs = VecDeque::from_vec(outputs);
    let Some(first) = outputs.pop_front() else {
        return;
    };
    let rest = without_spare(outputs);
    queue.push_back_reserved(Queued {
        ticket,
        first,
        rest,
    });
}

// The same outputs. If there are none, their buffer is freed here, by the thread that hands in the event, and not by the thread that writes
// outputs.
fn without_spare(outputs: VecDeque<Output>) -> VecDeque<Output>
    ensures { result.items ≡ outputs.items }
{
    if outputs.is_empty() {
        return VecDeque::new(*outputs.allocator());
    }
    outputs
}

/// Takes the first output out.
pub(crate) fn dequeue(queue: &mut VecDeque<Queued>) -> Option<Output>
    ensures output { MatchOption result (queue_of queue.old.items ≡ [])
        (λ output. (ticket : ℕ) × (queue_of queue.old.items ≡ record { ticket = ticket; output = output } ∷ queue_of queue.new.items)) }
    ensures none { result ≡ None → queue.new.items ≡ queue.old.items }
{
    let Queued {
        ticket,
        first,
        mut rest,
    } = queue.pop_front()?;
    if let Some(next) = rest.pop_front() {
        queue.push_front_reserved(Queued {
            ticket,
            first: next,
            rest,
        });
    }
    Some(first)
}

/// Whether an output waits, and the ticket of the first one is at most this many settled records.
pub(crate) fn has_settled_head(queue: &VecDeque<Queued>, settled: u64) -> bool
    ensures { result ≡ is_some (settled_head settled (queue_of queue.now.items)) }
{
    match queue.front() {
        Some(first) => first.ticket <= settled,
        None => false,
    }
}

/// Moves the outputs whose tickets are settled to the end of `outputs`, oldest first, as many as that has room for.
pub(crate) fn move_settled(
    queue: &mut VecDeque<Queued>,
    settled: u64,
    outputs: &mut VecDeque<Output>,
)
    ensures outputs { let room = deque_capacity outputs.old - deque_len outputs.old in
        outputs.new.items ≡ outputs.old.items ++ take room (settled_front settled (queue_of queue.old.items)) }
    ensures queue { let room = deque_capacity outputs.old - deque_len outputs.old in
        queue_of queue.new.items ≡ drop (length (take room (settled_front settled (queue_of queue.old.items)))) (queue_of queue.old.items) }
    ensures capacity { deque_capacity outputs.new ≡ deque_capacity outputs.old }
{
    for _ in outputs.len()..outputs.capacity() {
        let Some(output) = next_settled(queue, settled) else {
            return;
        };
        outputs.push_back_reserved(output);
    }
}

// Takes out the first output of the queue, if its ticket is settled.
fn next_settled(queue: &mut VecDeque<Queued>, settled: u64) -> Option<Output>
    ensures output { result ≡ settled_head settled (queue_of queue.old.items) }
    ensures queue { queue_of queue.new.items ≡ (if is_some result then drop 1 (queue_of queue.old.items) else queue_of queue.old.items) }
{
    if !has_settled_head(queue, settled) {
        return None;
    }
    dequeue(queue)
}
