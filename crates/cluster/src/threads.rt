//! Jobs that are done in threads, one thread for each job.

ghost use Rattle.std.specs.Prelude.{IfOk};
ghost use Rattle.std.specs.List.{AllZip};
ghost use Rattle.std.specs.Thread.{IsSend, IsSync};

use std::alloc::{AllocError, Global};
use std::marker::PhantomData;
use std::snapshot::Snapshot;
use std::sync::Wait;
use std::thread::{self, Promise, Scope, Threads};

/// What does the jobs, one in each thread.
pub(crate) trait Runner<R: Wait, J, X> {
    /// How the result of a job is related to the job: the contract of `run`.
    ghost ran: { Self → J → X → Type 0 };

    /// Does a job, and returns its result.
    fn run(&self, job: J) -> X
        ensures { ran self.now job result };
}

// What the end of a thread promises: it did its job, so its result is related to the job by `ran`.
struct Ran<R, O, J> {
    runtime: PhantomData<R>,
    runner: Snapshot<O>,
    job: Snapshot<J>,
}

impl<R, O, J> Drop for Ran<R, O, J> {
    fn drop(self) {
        let Ran {
            runtime: _,
            runner: _,
            job: _,
        } = self;
    }
}

impl<R: Wait, O: Runner<R, J, X>, J, X> Promise<X> for Ran<R, O, J> {
    ghost kept_by = { λ ran result. O.ran ran.runner.value ran.job.value result };
}

/// Does each job in a thread of its own, while this thread does something else. Returns the results in the order of the jobs once all
/// threads have ended. On `AllocError` an allocation failed, a thread couldn't be made, or the work of this thread failed so.
pub(crate) fn run_in_threads<R, O, J, X, B>(
    rt: &R,
    alloc: Global,
    runner: &O,
    jobs: Vec<J>,
    beside: B,
) -> Result<Vec<X>, AllocError>
where
    R: Threads + Wait + Sync,
    O: Runner<R, J, X> + Sync,
    J: Send + Drop,
    X: Send + Drop,
    B: FnOnce() -> Result<(), AllocError>,
    requires { B.pre beside }
    ensures { IfOk result (λ results. AllZip (O.ran runner.now) jobs.items results.items) }
{
    thread::scope(
        thread::scope_env(),
        rt,
        move |scope| -> Result<Vec<X>, AllocError>
            requires { IsSync R.row × IsSync O.row × IsSend J.row × IsSend X.row × B.pre beside }
            ensures { IfOk result (λ results. AllZip (O.ran runner.entry.now) jobs.items results.items) }
        { run_each(scope, rt, alloc, runner, jobs, beside) },
    )
}

// Starts a thread for the last job, and then, by recursion, threads for the jobs before it. Once all are started, this thread calls
// `beside`, and then it waits for the results of the other threads.
fn run_each<'s, E, R, O, J, X, B>(
    scope: &Scope<'s, E>,
    rt: &'s R,
    alloc: Global,
    runner: &'s O,
    jobs: Vec<J>,
    beside: B,
) -> Result<Vec<X>, AllocError>
where
    R: Threads + Wait + Sync + 's,
    O: Runner<R, J, X> + Sync + 's,
    J: Send + Drop + 's,
    X: Send + Drop + 's,
    B: FnOnce() -> Result<(), AllocError>,
    requires { B.pre beside }
    ensures { IfOk result (λ results. AllZip (O.ran runner.now) jobs.items results.items) }
{
    let mut jobs = jobs;
    let Some(job) = jobs.pop() else {
        beside()?;
        return Ok(Vec::new(alloc));
    };
    let ran = Ran {
        runtime: PhantomData,
        runner: Snapshot::of(runner),
        job: Snapshot::of(&job),
    };
    let Ok(thread) = scope.spawn_with(ran, move || runner.run(job)) else {
        return Err(AllocError);
    };
    let mut results = run_each(scope, rt, alloc, runner, jobs, beside)?;
    results.reserve(1)?;
    results.push_reserved(thread.join(rt));
    Ok(results)
}
