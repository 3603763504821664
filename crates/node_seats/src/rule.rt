//! The invariant of the words and of what the seats know.

use crate::view::View;
use atomic_table::TableRule;
use std::marker::PhantomData;

/// Which lists of events are legal, given the key (such as a node's setting) with which the words were made.
pub trait Law<K> {
    ghost use Rattle.spec_model.specs.Histories.{History};

    ghost legal: { K → History → Type 0 };
}

/// The invariant: the words count the accepted events and the settled ones among them, these events are legal, and what each seat knows is
/// true.
pub struct Kept<L> {
    law: PhantomData<L>,
}

impl<K, L: Law<K>> TableRule<(), View, K> for Kept<L> {
    ghost use Rattle.node_seats.specs.Views.{first_view};
    ghost use Rattle.node_seats.specs.Rule.{IsKept};

    ghost holds = { λ key state. IsKept (L.legal key) state.words state.views };

    ghost first = { λ key. first_view };
}
