//! What the tables decide about a message, before they change.

ghost use Rattle.std.specs.Prelude.{◌≡◌, Ok, Err, IfOk, IfErr};
ghost use Rattle.header.specs.declared.refusal.Refusal.TheVariants.{Memory};
ghost use Rattle.admission.specs.Decisions.{lacks_parents, is_new_decision};
ghost use Rattle.admission.specs.declared.step.Step.TheVariants as step;

use crate::step::Step;
use header::Refusal;
use std::alloc::AllocError;
use wire::Output;

/// The decision about a message that isn't refused.
#[derive(Clone, Copy, Debug, PartialEq, Eq)]
pub enum Answer {
    /// The message is new: it will be accepted.
    New,
    /// The message was accepted before.
    Known,
}

/// The result for a new event with these outputs; `Memory` where an allocation for them failed.
pub(crate) fn new_step(made: Result<Vec<Output>, AllocError>) -> Result<Step, Refusal>
    ensures ok { IfOk made (λ outputs. result ≡ Ok (step.New outputs)) }
    ensures err { IfErr made (λ _. result ≡ Err Memory) }
{
    match made {
        Ok(outputs) => Ok(Step::New(outputs)),
        Err(_) => Err(Refusal::Memory),
    }
}

/// The result for a known event with these outputs; `Memory` where an allocation for them failed.
pub(crate) fn known_step(made: Result<Vec<Output>, AllocError>) -> Result<Step, Refusal>
    ensures ok { IfOk made (λ outputs. result ≡ Ok (step.Known outputs)) }
    ensures err { IfErr made (λ _. result ≡ Err Memory) }
{
    match made {
        Ok(outputs) => Ok(Step::Known(outputs)),
        Err(_) => Err(Refusal::Memory),
    }
}

/// Whether the decision about a message is that a parent is missing.
pub(crate) fn lacks_parents(decision: &Result<Answer, Refusal>) -> bool
    ensures { result ≡ lacks_parents decision.now }
{
    matches!(decision, Err(Refusal::MissingParents))
}

/// Whether the decision about a message is that it is new.
pub(crate) fn is_new(decision: &Result<Answer, Refusal>) -> bool
    ensures { result ≡ is_new_decision decision.now }
{
    matches!(decision, Ok(Answer::New))
}
