//! Which questions are due: those that the node has to be asked after a new record, since their answers may have changed.

ghost use Rattle.std.specs.Prelude.{◌≡◌, ◌↔◌, IsTrue, suc, true};
ghost use Rattle.node_run.specs.Asking.{Leaves, LacksNothingBelow, nothing_due, first_due, both_due, both_waiting};

use wire::{Author, Message, Round};

/// The rounds whose waiting certificates are due: they may have become ready.
#[derive(Clone, Copy)]
pub(crate) enum Waiting {
    /// No round.
    Nothing,
    /// All rounds from `low` on and below `end`, which may be none. A certificate that waits in another round can have become ready only if
    /// the floor has risen over the lowest round in which one waits.
    Rounds {
        /// The lowest of these rounds.
        low: u64,
        /// The round after the highest of these rounds.
        end: u64,
    },
}

impl Waiting {
    // The rounds of either of the two, and all rounds between them.
    fn and(self, other: Waiting) -> Waiting
        ensures { result ≡ both_waiting self other }
    {
        match (self, other) {
            (Waiting::Nothing, _) => other,
            (_, Waiting::Nothing) => self,
            (
                Waiting::Rounds { low, end },
                Waiting::Rounds {
                    low: other_low,
                    end: other_end,
                },
            ) => Waiting::Rounds {
                low: low.min(other_low),
                end: end.max(other_end),
            },
        }
    }
}

/// Which questions the node has to be asked again: which of the waiting certificates are ready, and which header it proposes.
#[derive(Clone, Copy)]
pub(crate) struct Due {
    /// The rounds whose waiting certificates have to be asked about.
    pub(crate) waiting: Waiting,
    /// Whether the node has to be asked which header it proposes.
    pub(crate) proposal: bool,
}

impl Due {
    /// What is due at a node that was not asked anything yet: which header it proposes. No certificate waits at that time.
    pub(crate) const fn first() -> Due
        ensures { result ≡ first_due }
    {
        Due {
            waiting: Waiting::Nothing,
            proposal: true,
        }
    }

    /// Whether no question is due.
    pub(crate) fn is_nothing(self) -> bool
        ensures { IsTrue result ↔ (self ≡ nothing_due) }
    {
        matches!(self.waiting, Waiting::Nothing) && !self.proposal
    }

    /// The questions that are due by either of the two.
    pub(crate) fn and(self, other: Due) -> Due
        ensures { result ≡ both_due self other }
    {
        Due {
            waiting: self.waiting.and(other.waiting),
            proposal: self.proposal || other.proposal,
        }
    }
}

/// Which questions are due after a new event of this member's node. A question that isn't due has the same answer as before the event. If
/// no waiting certificates are due, no certificate entered the DAG and the floor did not move. If the proposal isn't due, neither the
/// node's round nor the availability of a batch nor an own header changed. A certificate that enters the DAG makes the waiting certificates
/// of its round due, since its slot is filled now, and those of the next round, since it may be their parent.
pub(crate) fn due_after(own: Author, message: &Message) -> Due
    ensures left { Leaves own message.now result }
{
    spec_machine::sound_stays();
    match message {
        Message::Batch(batch) => Due {
            waiting: Waiting::Nothing,
            proposal: batch.author() == own,
        },
        Message::BatchAck(_) => Due {
            waiting: Waiting::Nothing,
            proposal: true,
        },
        // A header adds no certificate to the DAG.
        Message::Header(header) => Due {
            waiting: Waiting::Nothing,
            proposal: header.body.author == own,
        },
        // A vote may complete the certificate of the own header of its round.
        Message::Vote(vote) => certificate_due(vote.round),
        Message::Certificate(certificate) => certificate_due(certificate.header.round),
        // A coin may move the floor, but adds no certificate to the DAG.
        Message::Coin(_) => Due {
            waiting: Waiting::Rounds { low: 0, end: 0 },
            proposal: false,
        },
    }
}

// Which questions are due after a certificate of this round has entered the DAG.
fn certificate_due(round: Round) -> Due
    ensures { result ≡ record { waiting = Waiting.Rounds round (suc (suc round)); proposal = true } }
{
    let low = round.number();
    Due {
        waiting: Waiting::Rounds { low, end: low + 2 },
        proposal: true,
    }
}

/// The law that low certificates lack no parents: if the floor has risen over the certificates of a round, neither they nor those of lower
/// rounds lack parents. So if a certificate of the lowest round in which any waits lacks a parent, the floor has risen over none that
/// waits. The call does nothing.
pub(crate) fn low_ones_lack_nothing()
    ensures { LacksNothingBelow }
{}
