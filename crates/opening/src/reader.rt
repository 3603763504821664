//! How validators take a journal's records while they are read.

ghost use Rattle.std.specs.Prelude.{◌++◌};
ghost use Rattle.std.proofs.Common.{refl, sym, ◌∙◌, subst, append_assoc};
ghost use Rattle.std.proofs.lemmas.List.{append-nil};
ghost use Rattle.opening.specs.PairReplays.{HasTakenPair, TakesMorePair};
ghost use Rattle.opening.specs.Replays.{HasTaken, TakesMore};

use crate::pair_replay::PairReplay;
use crate::replay::Replay;
use journal::{Reader, RecordRef};
use sigface::Sign;
use std::alloc::{AllocError, Global};

impl<'a, S: Sign> Reader for Replay<'a, S> {
    ghost takes = { TakesMore S.scheme };

    ghost takes_none = { λ one. record { config = refl; taken = λ before has. subst (HasTaken S.scheme one) (sym (append-nil before)) has } };

    ghost takes_more = { λ one other third records more first then. record {
      config = then.config ∙ first.config;
      taken = λ before has. subst (HasTaken S.scheme third) (append_assoc before records more) (then.taken (before ++ records) (first.taken before has));
    } };

    fn take(&mut self, alloc: Global, group: Vec<RecordRef<'_>>) -> Result<(), AllocError> {
        self.take_all(alloc, &group)
    }
}

impl<'a, S: Sign> Reader for PairReplay<'a, S> {
    ghost takes = { TakesMorePair S.scheme };

    ghost takes_none = { λ one. record { config = refl; taken = λ before has. subst (HasTakenPair S.scheme one) (sym (append-nil before)) has } };

    ghost takes_more = { λ one other third records more first then. record {
      config = then.config ∙ first.config;
      taken = λ before has. subst (HasTakenPair S.scheme third) (append_assoc before records more) (then.taken (before ++ records) (first.taken before has));
    } };

    fn take(&mut self, alloc: Global, group: Vec<RecordRef<'_>>) -> Result<(), AllocError> {
        self.take_all(alloc, &group)
    }
}
