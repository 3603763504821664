//! Members that run in threads, and the router between them.

ghost use Rattle.std.specs.Prelude.{◌≡◌, vec_len, map, Ok, IfOk};
ghost use Rattle.std.specs.List.{AllZip};
ghost use Rattle.cluster.specs.Threads.{HasRun};

use crate::member::Member;
use crate::routing::{Envelope, Inbox, route};
use crate::threads::{Runner, run_in_threads};
use crate::worker::Worker;
use crossbeam_channel::{Sender, unbounded};
use diskmodel::{Gate, StopDisk};
use sigface::{Sign, Verify};
use std::alloc::{AllocError, Global};
use std::sync::Wait;
use std::thread::Threads;

// What all threads share: the inboxes, in the order of the members, and how many turns each thread makes.
#[derive(Drop)]
struct Shared<'o, R, V> {
    rt: &'o R,
    verifier: &'o V,
    inboxes: &'o [Inbox],
    turns: u64,
}

impl<'o, 'a, R, S, D, V, G> Runner<R, Worker<'a, S, D, G>, Result<Member<'a, S, D>, AllocError>>
    for Shared<'o, R, V>
where
    R: Wait,
    S: Sign,
    D: StopDisk + Drop,
    V: Verify,
    G: Gate + Drop,
{
    ghost use Rattle.std.specs.Prelude.{IfOk};
    ghost use Rattle.cluster.specs.Threads.{HasRun};

    ghost ran = { λ shared worker ended. IfOk ended (λ later. HasRun S.scheme D.device (V.accepts shared.verifier.now) shared.turns worker.member later) };

    fn run(&self, worker: Worker<'a, S, D, G>) -> Result<Member<'a, S, D>, AllocError> {
        let Some(inbox) = self.inboxes.get(worker.place()) else {
            return Err(AllocError);
        };
        match worker.run(self.rt, self.verifier, inbox, self.turns) {
            Ok(member) => Ok(member),
            Err(_) => Err(AllocError),
        }
    }
}

/// Runs each member in a thread of its own for this many turns, while the calling thread routes their messages. On `AllocError` an
/// allocation failed, or a thread couldn't be made.
pub(crate) fn run_members<'a, R, S, D, V, G>(
    rt: &R,
    alloc: Global,
    verifier: &V,
    members: Vec<Member<'a, S, D>>,
    gates: Vec<G>,
    turns: u64,
) -> Result<Vec<Member<'a, S, D>>, AllocError>
where
    R: Threads + Wait + Sync,
    S: Sign + Send + Sync + Drop,
    D: StopDisk + Drop + Send,
    V: Verify + Sync,
    G: Gate + Drop + Send,
    requires gates { vec_len gates ≡ vec_len members }
    ensures { IfOk result (λ later. AllZip (HasRun S.scheme D.device (V.accepts verifier.now) turns) members.entry.items later.items) }
{
    let inboxes = inboxes_of(alloc, &members)?;
    let (router, envelopes) = unbounded(alloc)?;
    let workers = workers_of(alloc, members, gates, router)?;
    let shared = Shared {
        rt,
        verifier,
        inboxes: &inboxes,
        turns,
    };
    let ended = run_in_threads(
        rt,
        alloc,
        &shared,
        workers,
        || route(rt, envelopes, &inboxes),
    )?;
    all_members(alloc, ended)
}

// Makes an empty inbox for each member.
fn inboxes_of<S: Sign, D: StopDisk>(
    alloc: Global,
    members: &[Member<'_, S, D>],
) -> Result<Vec<Inbox>, AllocError> {
    let mut inboxes = Vec::new(alloc);
    for member in members {
        inboxes.push(Inbox::new(alloc, member.own()))?;
    }
    Ok(inboxes)
}

// The members as their threads get them: each with its place in the list, its gate, and its channel to the router.
fn workers_of<'a, S: Sign, D: StopDisk + Drop, G: Gate + Drop>(
    alloc: Global,
    members: Vec<Member<'a, S, D>>,
    gates: Vec<G>,
    router: Sender<Envelope>,
) -> Result<Vec<Worker<'a, S, D, G>>, AllocError>
    requires gates { vec_len gates ≡ vec_len members }
    ensures { IfOk result (λ workers. map (λ worker. worker.member) workers.items ≡ members.entry.items) }
{
    let (mut members, mut gates) = (members, gates);
    let mut workers = Vec::new(alloc);
    'places: for place in 0..members.len() {
        workers.reserve(1)?;
        let router = router.clone()?;
        let worker = Worker::new(place, members.remove(0), gates.remove(0), router);
        workers.push_reserved(worker);
    }
    Ok(workers)
}

// The members that the threads gave back, in the order of the threads; or the first error that a thread gave back in place of a member.
fn all_members<'a, S: Sign, D: StopDisk + Drop>(
    alloc: Global,
    ended: Vec<Result<Member<'a, S, D>, AllocError>>,
) -> Result<Vec<Member<'a, S, D>>, AllocError>
    ensures { IfOk result (λ members. AllZip (λ one member. one ≡ Ok member) ended.entry.items members.items) }
{
    let mut members = Vec::new(alloc);
    'ended: for member in ended {
        members.reserve(1)?;
        members.push_reserved(member?);
    }
    Ok(members)
}
