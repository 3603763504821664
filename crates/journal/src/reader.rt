//! Readers, which take the records of a journal while it is opened.

ghost use Rattle.std.specs.Prelude.{◌≡◌, ◌++◌, [], List, OnOk};
ghost use Rattle.std.proofs.Common.{sym, ap, ◌∙◌, append_assoc};
ghost use Rattle.std.proofs.lemmas.List.{append-nil};
ghost use Rattle.journal.specs.declared.record.Record.{Record};

use crate::record::{Record, RecordRef};
use std::alloc::{AllocError, Global};

/// What takes the records of a journal, group by group, while the journal is opened.
pub trait Reader {
    /// What taking records means: these records, taken in their order, lead from the first state of the reader to the second.
    ghost takes: { Self → List Record → Self → Type 0 };

    /// Takes the records of the next group.
    fn take(&mut self, alloc: Global, group: Vec<RecordRef<'_>>) -> Result<(), AllocError>
        ensures { OnOk result (takes self.old group.entry.items self.new) };

    /// If the reader takes no records, its state stays as it is.
    ghost takes_none: { (one : Self) → takes one [] one };

    /// Taking some records and then others leads to the same state as taking all of them.
    ghost takes_more: { (one other third : Self) (records more : List Record) → takes one records other → takes other more third → takes one (records ++ more) third };
}

impl Reader for Vec<Record> {
    ghost takes = { λ old records new. new.items ≡ old.items ++ records };

    ghost takes_none = { λ one. sym (append-nil one.items) };

    ghost takes_more = { λ one other third records more first then. then ∙ ap (λ (l : List Record). l ++ more) first ∙ append_assoc one.items records more };

    fn take(&mut self, alloc: Global, group: Vec<RecordRef<'_>>) -> Result<(), AllocError> {
        for one in &group {
            let record = one.kept(alloc)?;
            self.push(record)?;
        }
        Ok(())
    }
}
