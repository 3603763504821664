//! The round of a node, by its tables.

ghost use Rattle.std.specs.Prelude.{◌≡◌, ◌≤◌};
ghost use Rattle.spec_machine.specs.Machine as machine;
ghost use Rattle.spec_model.specs.Nodes.{node_view};
ghost use Rattle.spec_model.specs.Slots.{slots_of};
ghost use Rattle.ref_machine.specs.Tables.{state_of};

use crate::tables::Tables;
use header::Node;
use ref_order::holdings::is_full;
use sigface::Sign;
use wire::Certificate;

/// The greatest round up to this one that has certificates by a quorum of authors; 0 if there is none.
fn full_to<S: Sign>(node: &Node<S>, certificates: &[Certificate], round: u64) -> u64
    ensures value { result ≡ machine.full_to (node_view S.scheme node.now) (slots_of certificates.now) round }
    ensures limit { result ≤ round }
{
    if round == 0 {
        return 0;
    }
    if is_full(node, certificates, round) {
        return round;
    }
    full_to(node, certificates, round - 1)
}

/// The round of the node.
pub fn round_in<S: Sign>(node: &Node<S>, tables: &Tables) -> u64
    ensures { result ≡ machine.round_in (node_view S.scheme node.now) (state_of tables.now) }
{
    1 + full_to(node, &tables.certificates, tables.highest.number())
}
