//! The three threads of a running node.

ghost use Rattle.std.specs.Prelude.{◌≡◌, Bool, true, false, [], Some, None, IfOk, IfSome, IsSome};
ghost use Rattle.std.specs.Io.Buffered.{writer_buffer, writer_contents, writer_inner};
ghost use Rattle.journal.specs.Journal.{spare_of};
ghost use Rattle.journal.specs.Pairs.{areas_of, store_of};
ghost use Rattle.journal.specs.Stores.{faults_in};
ghost use Rattle.node.specs.Disks.{AtEachMomentOn};
ghost use Rattle.flusher.specs.Rounds.{journal_of, is_down, settled_in};
ghost use Rattle.wire.specs.Lists.{Begins};
ghost use Rattle.node_io.specs.Endings.{after_input};
ghost use Rattle.node_io.specs.declared.input.End.{End};
ghost use Rattle.node_run.specs.Ends.{ReportsRounds};
ghost use Rattle.node_run.specs.Rewriting.{point_of, HasCheckpoint};
ghost use Rattle.node_run.specs.Runs.{HoldsMore, AreSettled, ComesByRule, IsFullUp};
ghost use Rattle.node_run.specs.Writing.{no_faults, no_memory, HasWritten};

use crate::bell::{Bell, Bells};
use crate::beside::{Work, do_beside};
use crate::caller::Caller;
use crate::flushing::flush_all;
use crate::intake::Intake;
use crate::reading::read_all;
use crate::rule::Rule;
use crate::sink::Sink;
use crate::writing::{Collected, write_outputs};
use diskmodel::Disk;
use journal::{JournalError, Store};
use node::Rounds;
use node_io::{Faults, Input};
use sigface::Sign;
use std::alloc::{AllocError, Global};
use std::io::{BufWriter, Read, Write};
use std::marker::{Model, PhantomData};
use std::sync::Wait;
use std::thread::Threads;
use validator::Config;

// The work of the flushing thread. When it ends it gives its rounds back.
#[derive(Drop)]
struct Flushing<'n, 'a, S: Sign, D: Disk> {
    rounds: Rounds<'n, 'a, S, D>,
    rule: Rule,
    bells: &'n Bells,
    // This tells the compiler that the signer lives as long as the node's configuration.
    config: PhantomData<&'a Config<S>>,
}

impl<'n, 'a, S: Sign, D: Disk> Model for Flushing<'n, 'a, S, D> {
    ghost use Rattle.std.specs.Prelude.{IsSome};
    ghost use Rattle.std.specs.Coded.{codes};
    ghost use Rattle.votebook.specs.contracts.book.VoteBook as votes;
    ghost use Rattle.flusher.specs.Rounds.{journal_of};
    ghost use Rattle.journal.specs.Journal.{spare_of};
    ghost use Rattle.node_run.specs.Runs.{FlushingView};

    ghost Value = { FlushingView S D };

    ghost coded = { Prim.hlevel (codes, S.code, D.code, votes.the_row.coded) };

    ghost view = { λ f. record { rounds = f.rounds; rule = f.rule } };

    ghost invariant = { λ f. IsSome f.rule.every → IsSome (spare_of (journal_of f.rounds.flusher)) };
}

impl<'n, 'a, R: Wait, S: Sign, D: Disk + Drop> Work<R, (Faults, Rounds<'n, 'a, S, D>)>
    for Flushing<'n, 'a, S, D> {
    ghost use Rattle.node_run.specs.Runs.{HasFlushed};

    ghost does = { λ work result. HasFlushed S.scheme D.device work.rule work.rounds result.1 result.0 };

    fn work(self, rt: &R) -> (Faults, Rounds<'n, 'a, S, D>) {
        let Flushing {
            mut rounds,
            rule,
            bells,
            config: _,
        } = self;
        let faults = flush_all(rt, &mut rounds, rule, &bells.pending, &bells.settled);
        (faults, rounds)
    }
}

// The work of the writing thread. When it ends it gives back its writer, and the caller with which it called the node.
#[derive(Drop)]
struct Writing<'n, 'a, S: Sign, W: Write + Drop> {
    caller: Caller<'n, 'a, S>,
    sink: Sink<W>,
    collected: Collected,
    settled: &'n Bell,
}

// What the writing thread gives back.
#[derive(Drop)]
struct Wrote<'n, 'a, S: Sign, W> {
    caller: Caller<'n, 'a, S>,
    writer: W,
    faults: Faults,
}

impl<'n, 'a, R: Wait, S: Sign, W: Write + Drop> Work<R, Wrote<'n, 'a, S, W>>
    for Writing<'n, 'a, S, W> {
    ghost use Rattle.std.specs.Prelude.{◌≡◌, All, false};
    ghost use Rattle.std.specs.Io.Buffered.{writer_contents};
    ghost use Rattle.node.specs.Callers.{StaysWith};
    ghost use Rattle.node_run.specs.Writing.{HasWritten, MayGo};

    ghost does = { λ work result. StaysWith work.caller result.caller
        × HasWritten (All (MayGo S.scheme work.caller.node result.caller.seat.view)) (result.faults.output ≡ false) (writer_contents W.contents work.sink.writer) (W.contents result.writer)
        × (result.faults ≡ record work.sink.faults { output = result.faults.output; memory = result.faults.memory }) };

    fn work(self, rt: &R) -> Wrote<'n, 'a, S, W> {
        let Writing {
            mut caller,
            mut sink,
            mut collected,
            settled,
        } = self;
        write_outputs(rt, &mut caller, &mut sink, &mut collected, settled);
        let (faults, writer) = sink.finish();
        Wrote {
            caller,
            writer,
            faults,
        }
    }
}

// The work of the reading thread. When it ends it closes the bell `pending`, since no more records will come.
#[derive(Drop)]
struct Reading<'n, 'a, 'e, S: Sign, I: Read + Drop, E: Write> {
    input: Input<I>,
    intake: Intake<'n, 'a, S>,
    errors: BufWriter<&'e mut E>,
    pending: &'n Bell,
}

impl<'n, 'a, 'e, R: Wait, S: Sign, I: Read + Drop, E: Write> Work<R, Faults>
    for Reading<'n, 'a, 'e, S, I, E> {
    ghost use Rattle.std.specs.Prelude.{◌≡◌, Bool};
    ghost use Rattle.node_io.specs.Endings.{after_input};
    ghost use Rattle.node_io.specs.declared.input.End.{End};

    ghost does = { λ work result. (end : End) × (lacked_memory : Bool) × (result ≡ after_input end lacked_memory) };

    fn work(self, rt: &R) -> Faults {
        let Reading {
            mut input,
            mut intake,
            mut errors,
            pending,
        } = self;
        let faults = read_all(rt, &mut input, &mut intake, &mut errors);
        pending.close(rt);
        faults
    }
}

/// What the reading and the writing thread work with.
#[derive(Drop)]
pub(crate) struct Desks<'n, 'a, 'e, S: Sign, I: Read + Drop, W: Write + Drop, E: Write> {
    reading: Reading<'n, 'a, 'e, S, I, E>,
    writing: Writing<'n, 'a, S, W>,
    bells: &'n Bells,
}

impl<'n, 'a, 'e, S: Sign, I: Read + Drop, W: Write + Drop, E: Write> Desks<'n, 'a, 'e, S, I, W, E> {
    /// Makes what the reading and the writing thread work with. On `AllocError` an allocation failed.
    pub(crate) fn new<D: Disk>(
        alloc: Global,
        config: &'a Config<S>,
        bells: &'n Bells,
        rounds: &mut Rounds<'n, 'a, S, D>,
        reader: I,
        writer: W,
        errors: &'e mut E,
    ) -> Result<Desks<'n, 'a, 'e, S, I, W, E>, AllocError>
        requires setting { rounds.old.node.setting ≡ config.now }
        ensures same { rounds.new ≡ rounds.old }
        ensures faults { IfOk result (λ desks. desks.writing.sink.faults ≡ no_faults) }
        ensures node { IfOk result (λ desks. desks.writing.caller.node ≡ rounds.old.node) }
        ensures writer { IfOk result (λ desks. (writer_inner desks.writing.sink.writer ≡ writer) × (writer_buffer desks.writing.sink.writer ≡ [])) }
    {
        Ok(Desks {
            reading: Reading {
                input: Input::new(alloc, reader)?,
                intake: Intake::new(alloc, Caller::new(rounds.caller(config)?), &bells.pending)?,
                errors: buffered(alloc, errors)?,
                pending: &bells.pending,
            },
            writing: Writing {
                caller: Caller::new(rounds.caller(config)?),
                sink: Sink::new(alloc, buffered(alloc, writer)?),
                collected: Collected::new(alloc)?,
                settled: &bells.settled,
            },
            bells,
        })
    }
}

fn buffered<W: Write + Drop>(alloc: Global, writer: W) -> Result<BufWriter<W>, AllocError>
    ensures { IfOk result (λ buffered. (writer_inner buffered ≡ writer) × (writer_buffer buffered ≡ [])) }
{
    match BufWriter::new(alloc, writer) {
        Ok(writer) => Ok(writer),
        Err(_) => Err(AllocError),
    }
}

/// Runs the three threads of a node: reads in this thread, and flushes and writes in two others, until everything was read, flushed and
/// written. Gives the faults; the disks of the journal, unless they were lost with a thread that couldn't be made; and the writer, unless
/// it was lost in the same way.
pub(crate) fn run_threads<'n, 'a, 'e, R, S, D, I, W, E>(
    rt: &R,
    rounds: Rounds<'n, 'a, S, D>,
    rule: Rule,
    desks: Desks<'n, 'a, 'e, S, I, W, E>,
) -> (Faults, Option<Store<D>>, Option<W>)
where
    R: Threads + Wait + Sync,
    S: Sign + Send + Sync + Drop,
    D: Disk + Drop + Send,
    I: Read + Drop,
    W: Write + Drop + Send,
    E: Write,
    requires faults { desks.writing.sink.faults ≡ no_faults }
    // Only a journal on two disks is rewritten.
    requires pair { IsSome rule.every → IsSome (spare_of (journal_of rounds.flusher)) }
    requires node { desks.writing.caller.node ≡ rounds.node }
    ensures reported { IfSome result.1 (λ left. ReportsRounds (faults_in D.device (store_of (journal_of rounds.entry.flusher))) (faults_in D.device left) result.0.journal) }
    // If a full journal is reported, the disks were written by the rule for checkpoints, and have no room for what was to be written next.
    ensures full { result.0.journal ≡ Some JournalError.Full → IfSome result.1 (IsFullUp S.scheme D.device rounds.entry.node rule result.0.memory (point_of rounds.entry.flusher)) }
    ensures lost { result.1 ≡ None → result.0 ≡ no_memory }
    // If the writer is lost, a failed allocation is reported.
    ensures unwritten { result.2 ≡ None → (result.0.output ≡ false) × (result.0.memory ≡ true) }
    // A stop at any moment leaves on the disks what was settled before the call, and perhaps more.
    ensures any_moment { is_down rounds.entry.flusher ≡ false → IfSome result.1 (λ left. AtEachMomentOn D.device (HoldsMore S.scheme rounds.entry.node (settled_in rounds.entry.flusher) (areas_of D.device (journal_of rounds.entry.flusher))) (store_of (journal_of rounds.entry.flusher)) left) }
    // Unless a fault of the journal is reported, the disks were written by the rule for checkpoints.
    ensures by_rule { is_down rounds.entry.flusher ≡ false → result.0.journal ≡ None → IfSome result.1 (ComesByRule D.device (HasCheckpoint S.scheme D.device rounds.entry.node) rule result.0.memory (point_of rounds.entry.flusher)) }
    // The outputs that were written rest on records that are on the disks.
    ensures given { is_down rounds.entry.flusher ≡ false → IfSome result.1 (λ left. IfSome result.2 (λ later. HasWritten (AreSettled S.scheme D.device rounds.entry.node rounds.entry.flusher left) (result.0.output ≡ false) (writer_contents W.contents desks.entry.writing.sink.writer) (W.contents later))) }
{
    let Desks {
        reading,
        writing,
        bells,
    } = desks;
    let flushing = Flushing {
        rounds,
        rule,
        bells,
        config: PhantomData,
    };
    let close = || bells.pending.close(rt);
    let Some(((flushed, rounds), others)) = read_beside(rt, flushing, writing, reading, close)
    else {
        return (Faults::of_memory(), None, None);
    };
    let Some((wrote, read)) = others else {
        return (
            Faults::of_memory().and(flushed),
            Some(rounds.into_store()),
            None,
        );
    };
    let faults = read.and(wrote.faults).and(flushed);
    let (store, writer) = give_back(rt, rounds, wrote);
    (faults, Some(store), Some(writer))
}

// Gives back the disks of the journal, and the writer. The outputs that were written then rest on records that are surely on these disks.
fn give_back<'n, 'a, R, S, D, W>(
    rt: &R,
    mut rounds: Rounds<'n, 'a, S, D>,
    wrote: Wrote<'n, 'a, S, W>,
) -> (Store<D>, W)
where
    R: Wait,
    S: Sign,
    D: Disk + Drop,
    W: Write + Drop,
    requires node { wrote.caller.node ≡ rounds.node }
    ensures store { result.0 ≡ store_of (journal_of rounds.entry.flusher) }
    ensures writer { result.1 ≡ wrote.entry.writer }
    ensures covers { Begins wrote.entry.caller.seat.view.durable (settled_in rounds.entry.flusher) }
{
    let Wrote {
        mut caller,
        writer,
        faults: _,
    } = wrote;
    caller.cover(rt, &mut rounds);
    (rounds.into_store(), writer)
}

// Reads in this thread, beside two other pieces of work in threads of their own. This is a function of its own because the prover searches
// too long for the lifetimes of all three pieces of work at once.
fn read_beside<R, S, F, G, I, E, C, X, Y>(
    rt: &R,
    first: F,
    second: G,
    reading: Reading<'_, '_, '_, S, I, E>,
    instead: C,
) -> Option<(X, Option<(Y, Faults)>)>
where
    R: Threads + Wait + Sync,
    S: Sign,
    F: Work<R, X> + Send + Drop,
    G: Work<R, Y> + Send + Drop,
    I: Read + Drop,
    E: Write,
    C: FnOnce() + Drop,
    X: Send + Drop,
    Y: Send + Drop,
    requires { C.pre instead }
    ensures first { IfSome result (λ done. F.does first done.0) }
    ensures others { IfSome result (λ done. IfSome done.1 (λ two. G.does second two.0 × ((end : End) × (lacked_memory : Bool) × (two.1 ≡ after_input end lacked_memory)))) }
{
    do_beside(rt, first, second, reading, instead)
}
