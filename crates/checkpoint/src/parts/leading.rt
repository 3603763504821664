//! The last committed leader, by the list of a DAG's certificates.

ghost use Rattle.std.specs.Prelude.{◌≡◌, option_map};
ghost use Rattle.spec_machine.specs.Machine.{last_leader as last_of};
ghost use Rattle.tusk.specs.Chain.{ledger_in, slot_of};
ghost use Rattle.checkpoint.specs.Parts.{above_genesis};

use dag::Dag;
use sequencer::{Coins, listed_top};
use wire::{Author, Certificate, Digest, Round};

/// The round and author of the last committed leader of a DAG whose certificates above the genesis are listed, if a leader is committed.
pub fn last_leader(
    dag: &Dag,
    coins: &Coins,
    certificates: &[(Certificate, Digest)],
) -> Option<(Round, Author)>
    requires { certificates.now ≡ above_genesis dag.now }
    ensures { result ≡ option_map slot_of (last_of (ledger_in dag.now coins.now)) }
{
    dag.limits_hold();
    let wave = listed_top(dag.committee(), coins, certificates)?;
    coins.leader(dag, wave)
}
