//! The last committed leader, by the certificates and coins of a checkpoint, and the floor that it determines.

ghost use Rattle.std.specs.Prelude.{◌≡◌, ◌-◌, ◌*◌, Some, None, option_map};
ghost use Rattle.std.specs.Option.{option_map_or};
ghost use Rattle.spec_machine.specs.Machine.{last_leader as last_of};
ghost use Rattle.spec_model.specs.Ordering.{floor_by, top};
ghost use Rattle.sequencer.specs.Restored.{AreListed};
ghost use Rattle.sequencer.specs.Listing.{ledger_of};
ghost use Rattle.tusk.specs.Chain.{slot_of};

use crate::judging::held::entry_of;
use committee::Committee;
use sequencer::{Coins, listed_top};
use wire::{Author, Certificate, Digest, Round};

/// The round and author of the last committed leader, if a leader is committed.
pub fn last_leader(
    committee: &Committee,
    coins: &Coins,
    list: &[(Certificate, Digest)],
) -> Option<(Round, Author)>
    requires { AreListed list.now }
    ensures value { result ≡ option_map slot_of (last_of (ledger_of committee.now list.now coins.now)) }
    ensures round { option_map (λ slot. slot.0) result ≡ option_map (λ wave. 2 * wave - 1) (top (ledger_of committee.now list.now coins.now)) }
{
    let wave = listed_top(committee, coins, list)?;
    leader_of(committee, coins, list, wave)
}

/// The round and author of the leader of this wave, which is the greatest wave whose leader has enough support to be committed by itself.
fn leader_of(
    committee: &Committee,
    coins: &Coins,
    list: &[(Certificate, Digest)],
    wave: u64,
) -> Option<(Round, Author)>
    requires listed { AreListed list.now }
    requires top { top (ledger_of committee.now list.now coins.now) ≡ Some wave }
    ensures value { result ≡ option_map slot_of (last_of (ledger_of committee.now list.now coins.now)) }
    ensures round { option_map (λ slot. slot.0) result ≡ Some (2 * wave - 1) }
{
    // A wave's number is at most the number of coins, so the numbers of its rounds fit 64 bits.
    let _ = coins.count();
    let coin = coins.get(wave)?;
    let author = (coin % committee.size() as u64) as u16;
    let (leader, _) = entry_of(list, 2 * wave - 1, author)?;
    Some((leader.header.round, leader.header.author))
}

/// The floor that the last committed leader determines: its round less the depth; 0 where no leader is committed.
pub fn floor_of(committee: &Committee, last: &Option<(Round, Author)>) -> Round
    ensures { result ≡ option_map_or (λ slot. slot.0 - committee.now.depth) last.now 0 }
{
    match last {
        None => Round::genesis(),
        Some((round, _)) => match Round::new(round.number().saturating_sub(committee.depth())) {
            Ok(floor) => floor,
            Err(_) => unreachable!(),
        },
    }
}
