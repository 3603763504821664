//! Opening a node that threads share, together with its flusher, on one disk or on two; and the callers and rounds by which threads use
//! them.
#![tactic(auto)]

mod caller;
mod rounds;

ghost use Rattle.std.specs.Prelude.{◌≡◌, [], false, IfOk, IfErr, IsSome};
ghost use Rattle.journal.specs.Journal.{spare_of, IsAlive};
ghost use Rattle.journal.specs.Pairs.{areas_in, areas_of, store_of};
ghost use Rattle.validator.specs.Setting.{node_of};
ghost use Rattle.opening.specs.Laws.{HoldsIn, IsReadIn};
ghost use Rattle.opening.specs.Renewing.{KeepsStatesIn, IsNewest};
ghost use Rattle.opening.specs.Decoded.{decoded_in, StandsAt};
ghost use Rattle.node_shared.specs.Calls.{HasNothing};
ghost use Rattle.node_shared.specs.Home.{IsOf};
ghost use Rattle.flusher.specs.Rounds.{journal_of, is_down, settled_in, taken_in, IsFlusherOf};
ghost use Rattle.node.specs.Starting.{IsStartingOn};

pub use caller::Caller;
use diskmodel::Disk;
pub use flusher::{FlushError, Flusher};
use journal::{Failed, Journal, JournalError, Store};
pub use node_shared::{Node, Receipt, Refusal, Seat};
use opening::reopen_store;
pub use rounds::Rounds;
use sigface::Sign;
use std::alloc::Global;
use validator::{Config, Validator};

/// Opens a node on one disk or on two. Gives the node, a seat at it, and its flusher. The node begins at the state that the disks decode
/// to, and the seat has seen no event yet.
///
/// # Errors
/// The errors of `reopen_store`, and `Memory` where an allocation for the node failed. Each error hands the disks back.
pub fn start<'a, S: Sign, D: Disk>(
    alloc: Global,
    config: &'a Config<S>,
    store: Store<D>,
) -> Result<(Node<'a, S>, Seat, Flusher<D>), Failed<JournalError, Store<D>>>
    ensures setting { IfOk result (λ started. started.0.setting ≡ config.now) }
    ensures begins { let node = node_of S.scheme config.now in IfOk result (λ started. StandsAt node (decoded_in node (areas_in D.device store)) started.0.begun) }
    ensures seat { IfOk result (λ started. IsOf started.0 started.1) }
    ensures nothing { IfOk result (λ started. HasNothing started.1) }
    ensures flusher { IfOk result (λ started. IsFlusherOf S.scheme D.device started.0 started.2) }
    ensures up { IfOk result (λ started. is_down started.2 ≡ false) }
    ensures nothing_settled { IfOk result (λ started. (settled_in started.2 ≡ []) × (taken_in started.2 ≡ [])) }

    // The journal is on as many disks as were given. A journal on two disks is in the second version afterwards: the opening rewrites a
    // first version.
    ensures disks { IfOk result (λ started. IsReadIn (node_of S.scheme config.now) D.device store (journal_of started.2)) }
    ensures newest { IfOk result (λ started. IsSome (spare_of (journal_of started.2)) → IsNewest (areas_of D.device (journal_of started.2))) }
    // If a start could have restored some state from the areas before the call, the disks now have a journal of the node at that state.
    ensures kept { let node = node_of S.scheme config.now in IfOk result (λ started. KeepsStatesIn node (areas_in D.device store) (areas_of D.device (journal_of started.2))) }

    // What each error says, and what a stop at any moment of the opening may leave.
    ensures opening { IsStartingOn (node_of S.scheme config.now) D.device (λ started. store_of (journal_of started.2)) store result }
{
    let (validator, journal) = reopen_store(alloc, config, store)?;
    begin(alloc, validator, journal)
}

// The node over a validator and a journal that were opened.
fn begin<'a, S: Sign, D: Disk>(
    alloc: Global,
    validator: Validator<'a, S>,
    journal: Journal<D>,
) -> Result<(Node<'a, S>, Seat, Flusher<D>), Failed<JournalError, Store<D>>>
    requires alive { IsAlive D.device journal }
    requires holds { HoldsIn (node_of S.scheme validator.setting) (areas_of D.device journal) validator.tables }
    ensures setting { IfOk result (λ started. started.0.setting ≡ validator.entry.setting) }
    ensures begins { IfOk result (λ started. started.0.begun ≡ validator.entry.tables) }
    ensures seat { IfOk result (λ started. IsOf started.0 started.1) }
    ensures nothing { IfOk result (λ started. HasNothing started.1) }
    ensures flusher { IfOk result (λ started. IsFlusherOf S.scheme D.device started.0 started.2) }
    ensures up { IfOk result (λ started. is_down started.2 ≡ false) }
    ensures nothing_settled { IfOk result (λ started. (settled_in started.2 ≡ []) × (taken_in started.2 ≡ [])) }
    ensures journal { IfOk result (λ started. journal_of started.2 ≡ journal) }
    ensures err { IfErr result (λ failed. (failed.error ≡ JournalError.Memory) × (failed.disk ≡ store_of journal)) }
{
    validator.limits_hold();
    match Node::new(alloc, validator) {
        Ok((node, seat, flush_seat)) => Ok((node, seat, Flusher::new(journal, flush_seat))),
        Err(_) => Err(Failed {
            error: JournalError::Memory,
            disk: journal.into_store(),
        }),
    }
}
