//! Which events would be new in the state that a validator's tables hold.

ghost use Rattle.std.specs.Prelude.{◌≡◌};
ghost use Rattle.spec_model.specs.Admitting.{is_new};
ghost use Rattle.spec_model.specs.Nodes.{Node};
ghost use Rattle.spec_model.specs.States.{State};
ghost use Rattle.spec_machine.specs.Machine.{answered};
ghost use Rattle.admission.specs.Standing.{Meets, MeetSome};

use crate::taking::given;
use admission::Tables;
use header::Checked;
use wire::Message;

/// Whether an event would be new in the state of these tables. The call allocates no memory.
pub(crate) fn is_new(tables: &Tables, event: &Checked) -> bool
    requires meets { MeetSome tables.now event.now.message }
    ensures { (node : Node) (state : State) → Meets node state event.now tables.now event.now.message → result ≡ is_new (answered node state event.now) }
{
    match event.message() {
        Message::Batch(_) => {
            let digest = given(event.batch_digest().copied());
            tables.is_batch_new(&digest)
        }
        Message::BatchAck(ack) => tables.is_ack_new(ack),
        Message::Header(header) => {
            let digest = given(event.header_digest().copied());
            tables.is_header_new(header, &digest)
        }
        Message::Vote(vote) => tables.is_vote_new(vote),
        Message::Certificate(certificate) => {
            let digest = given(event.certificate_digest().copied());
            tables.is_certificate_new(certificate, &digest)
        }
        Message::Coin(coin) => tables.is_coin_new(event.sender(), coin),
    }
}
