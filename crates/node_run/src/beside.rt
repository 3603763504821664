//! Doing three pieces of work at once, two of them in threads of their own.

ghost use Rattle.std.specs.Prelude.{◌≡◌, true, IfSome};
ghost use Rattle.std.specs.Thread.{IsSend, IsSync};

use std::marker::PhantomData;
use std::snapshot::Snapshot;
use std::sync::Wait;
use std::thread::{self, Promise, Scope, Threads};

/// A piece of work for a thread.
pub(crate) trait Work<R: Wait, X> {
    /// What holds of the work and its result, once the work is done.
    ghost does: { Self → X → Type 0 };

    /// Does the work.
    fn work(self, rt: &R) -> X
        ensures { does self result };
}

// What a thread that does this work promises: its result is one that the work may have.
struct Done<R, F> {
    runtime: PhantomData<R>,
    work: Snapshot<F>,
}

impl<R, F> Drop for Done<R, F> {
    fn drop(self) {
        let Done {
            runtime: _,
            work: _,
        } = self;
    }
}

impl<R: Wait, F: Work<R, X>, X> Promise<X> for Done<R, F> {
    ghost kept_by = { λ done result. F.does done.work.value result };
}

/// Does two pieces of work, `first` and `second`, in threads of their own, and a third, `here`, in this thread. Gives their results once
/// all have ended. The result is None where the first thread couldn't be made. Where the second couldn't be made, `instead` is done in
/// place of `here`, and only the result of `first` is given.
pub(crate) fn do_beside<R, F, G, H, I, X, Y, Z>(
    rt: &R,
    first: F,
    second: G,
    here: H,
    instead: I,
) -> Option<(X, Option<(Y, Z)>)>
where
    R: Threads + Wait + Sync,
    F: Work<R, X> + Send + Drop,
    G: Work<R, Y> + Send + Drop,
    H: Work<R, Z> + Drop,
    I: FnOnce() + Drop,
    X: Send + Drop,
    Y: Send + Drop,
    Z: Drop,
    requires { I.pre instead }
    ensures first { IfSome result (λ done. F.does first done.0) }
    ensures others { IfSome result (λ done. IfSome done.1 (λ two. G.does second two.0 × H.does here two.1)) }
{
    thread::scope(
        thread::scope_env(),
        rt,
        move |scope| -> Option<(X, Option<(Y, Z)>)>
            requires { IsSync R.row × IsSend F.row × IsSend G.row × IsSend X.row × IsSend Y.row × I.pre instead }
            ensures first { IfSome result (λ done. F.does first done.0) }
            ensures others { IfSome result (λ done. IfSome done.1 (λ two. G.does second two.0 × H.does here two.1)) }
        { begin(scope, rt, first, second, here, instead) },
    )
}

fn begin<'s, E, R, F, G, H, I, X, Y, Z>(
    scope: &Scope<'s, E>,
    rt: &'s R,
    first: F,
    second: G,
    here: H,
    instead: I,
) -> Option<(X, Option<(Y, Z)>)>
where
    R: Threads + Wait + Sync + 's,
    F: Work<R, X> + Send + Drop + 's,
    G: Work<R, Y> + Send + Drop + 's,
    H: Work<R, Z> + Drop,
    I: FnOnce() + Drop,
    X: Send + Drop + 's,
    Y: Send + Drop + 's,
    Z: Drop,
    requires { I.pre instead }
    ensures first { IfSome result (λ done. F.does first done.0) }
    ensures others { IfSome result (λ done. IfSome done.1 (λ two. G.does second two.0 × H.does here two.1)) }
{
    let done = Done {
        runtime: PhantomData,
        work: Snapshot::of(&first),
    };
    let Ok(thread) = scope.spawn_with(done, move || first.work(rt)) else {
        return None;
    };
    let others = go_on(scope, rt, second, here, instead);
    Some((thread.join(rt), others))
}

fn go_on<'s, E, R, G, H, I, Y, Z>(
    scope: &Scope<'s, E>,
    rt: &'s R,
    second: G,
    here: H,
    instead: I,
) -> Option<(Y, Z)>
where
    R: Threads + Wait + Sync + 's,
    G: Work<R, Y> + Send + Drop + 's,
    H: Work<R, Z> + Drop,
    I: FnOnce() + Drop,
    Y: Send + Drop + 's,
    Z: Drop,
    requires { I.pre instead }
    ensures { IfSome result (λ two. G.does second two.0 × H.does here two.1) }
{
    let done = Done {
        runtime: PhantomData,
        work: Snapshot::of(&second),
    };
    let Ok(thread) = scope.spawn_with(done, move || second.work(rt)) else {
        instead();
        return None;
    };
    let came = here.work(rt);
    Some((thread.join(rt), came))
}
