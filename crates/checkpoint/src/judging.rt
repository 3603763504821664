//! Whether the records of a checkpoint that were read are a sound state. If they are, this gives the parts from which a validator's tables
//! are restored.

mod batches;
mod certificates;
mod headers;
mod held;
mod leader;
mod votes;
mod weights;

ghost use Rattle.std.specs.Prelude.{◌≡◌, ◌≢◌, ◌==◌, ◌+◌, length, not, is_some, None, OnOk, IfOk, IfErr, if◌then◌else◌};
ghost use Rattle.spec_checkpoint.specs.Data.{IsCanonical};
ghost use Rattle.spec_checkpoint.specs.Loading as loading;
ghost use Rattle.spec_checkpoint.specs.Meaning.{state_in};
ghost use Rattle.spec_checkpoint.specs.Records.{state_records};
ghost use Rattle.spec_model.specs.Nodes.{IsNode, node_view};
ghost use Rattle.admission.specs.Kept.{IsKeptOf};
ghost use Rattle.checkpoint.specs.Reader.{fault_of};

use crate::error::LoadError;
use crate::reading::ReadSoFar;
use crate::records::pieces::ORDER_PIECE;
use admission::Kept;
use batches::sound_batches;
use certificates::{Rechecked, recheck_all, test_certificates};
use header::Node;
use headers::sound_headers;
use leader::{floor_of, last_leader};
use sequencer::Coins;
use sigface::Sign;
use std::alloc::Global;
use votes::test_votes;
use wire::{Author, Digest, Round};

/// The parts from which a validator's tables are restored, if what was read is a sound state. `count` records came, the configuration
/// included.
///
/// # Errors
/// `Unsound` with the first record that isn't sound; `UnsoundWhole` where each record is sound and the whole isn't; `Memory` where an
/// allocation failed.
pub fn kept_of<S: Sign>(
    alloc: Global,
    node: &Node<S>,
    count: u64,
    read: ReadSoFar,
) -> Result<Kept, LoadError>
    requires node { IsNode (node_view S.scheme node.now) }
    requires canonical { IsCanonical (node_view S.scheme node.now) read }
    requires counted { count ≡ 1 + length (state_records read) }
    ensures ok { OnOk result (loading.unsound (node_view S.scheme node.now) read ≡ None) }
    ensures kept { let seen = node_view S.scheme node.now in IfOk result (IsKeptOf seen (state_in seen read)) }
    ensures err { IfErr result (λ error. error ≢ LoadError.Memory → loading.unsound (node_view S.scheme node.now) read ≡ fault_of error) }
{
    spec_checkpoint::no_fault_is_sound();
    let ReadSoFar {
        order,
        batches,
        votes,
        headers,
        certificates,
        coins,
    } = read;
    let coins = Coins::restore(coins);
    let Rechecked { list, passed } = recheck_all(alloc, node, certificates)?;
    let last = last_leader(&node.committee, &coins, &list);
    let floor = floor_of(&node.committee, &last);
    let of_batches = 1 + ((order.len() + (ORDER_PIECE - 1)) / ORDER_PIECE) as u64;
    let of_votes = of_batches + batches.len() as u64;
    let of_headers = of_votes + votes.len() as u64;
    let of_certificates = of_headers + headers.len() as u64;
    let batches = sound_batches(alloc, node, of_batches, batches)?;
    test_votes(node, floor.number(), of_votes, &votes)?;
    let headers = sound_headers(alloc, node, floor.number(), &list, of_headers, headers)?;
    test_certificates(node, floor.number(), of_certificates, &list, &passed)?;
    if !is_whole_sound(&order, &last) {
        return Err(LoadError::UnsoundWhole);
    }
    Ok(Kept {
        batches,
        votes,
        headers,
        floor,
        last,
        certificates: list,
        coins,
        order,
    })
}

/// Whether the order is empty exactly if no leader is committed.
fn is_whole_sound(order: &[Digest], last: &Option<(Round, Author)>) -> bool
    ensures { result ≡ (if length order.now == 0 then not (is_some last.now) else is_some last.now) }
{
    if order.is_empty() {
        last.is_none()
    } else {
        last.is_some()
    }
}
