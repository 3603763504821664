//! The tests of the definitions and of the validator. A definition is tested by scripts over the reference implementation whose contract
//! it is. The validator takes histories of events, and sums over its answers have to be those of `oracles/histories.py`. The first events
//! of a history also go through the reference implementation of the validator's tables.

mod beside;
mod keeping;
mod looking;
mod played;
mod searching;
mod showing;
mod validating;
mod weighing;

pub use looking::number;
pub use played::{Played, coin};
pub use validating::Gathered;
pub use weighing::{committee_of, label_genesis};

/// Calls each law of the definitions; none has a precondition. A law is a function whose contract is a theorem and that does nothing.
pub fn laws_hold() {
    spec_laws::one_vote();
    spec_laws::one_certificate();
    spec_laws::coins_in_turn();
    spec_laws::one_more();
    spec_laws::slots_grow();
    spec_laws::outputs_given();
    spec_laws::order_grows();
    spec_laws::order_lengthens();
    spec_laws::held_is_enough();
    spec_laws::given_grows();
    spec_laws::proposals_are_new();
    spec_laws::proposals_are_legal();
    spec_laws::proposals_pass();
    spec_laws::own_votes_pass();
    spec_accord::orders_agree();
    spec_accord::headers_agree();
    spec_accord::headers_agree_ever();
    spec_accord::members_agree();
    spec_machine::starts_fresh();
    spec_machine::state_follows();
    spec_machine::state_answers();
    spec_machine::state_is_ready();
    spec_machine::state_proposes();
    spec_machine::answers_alike();
    spec_machine::kept_decides();
    spec_machine::kept_follows();
    spec_machine::kept_proposes();
    spec_machine::order_is_put_out();
    spec_machine::state_stands();
    spec_machine::fresh_is_sound();
    spec_machine::sound_stays();
    spec_machine::kept_is_sound();
    spec_machine::sound_proposes();
    spec_machine::floors_agree();
    spec_machine::low_is_to_the_floor();
    spec_machine::held_goes_on();
    spec_machine::held_is_enough_now();
    spec_machine::held_is_enough_after();
}
