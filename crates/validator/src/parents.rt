//! The references by which a header names the certificates of a round as its parents.

ghost use Rattle.std.specs.Prelude.{◌≡◌, IfOk, option_map};
ghost use Rattle.spec_model.specs.Proposing.{as_parent};
ghost use Rattle.dag.specs.Graph.{slots_in};
ghost use Rattle.validator.specs.Proposing.{parents_in};

use dag::Dag;
use std::alloc::{AllocError, Global};
use wire::{Author, ParentReference, Round};

// The parent reference to the certificate of a slot, if there is one.
fn parent(dag: &Dag, round: Round, author: Author) -> Option<ParentReference>
    ensures { result ≡ option_map as_parent (slots_in dag.now round author.0) }
{
    // The certificate in a slot is of the slot's author, so that the reference names this author.
    dag.limits_hold();
    match dag.digest(round, author) {
        Some(digest) => Some(ParentReference {
            author,
            certificate: *digest,
        }),
        None => None,
    }
}

/// The parent references to all certificates of a round, by author. On `AllocError` an allocation failed.
pub(crate) fn parents_of(
    alloc: Global,
    dag: &Dag,
    round: Round,
) -> Result<Vec<ParentReference>, AllocError>
    ensures { IfOk result (λ parents. parents.items ≡ parents_in dag.now round) }
{
    (0..dag.committee().size())
        .filter_map(|author| parent(dag, round, Author(author)))
        .collect(alloc)
}
