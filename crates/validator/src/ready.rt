//! Which events are ready: they lack no parent in the state that a validator's tables hold.

ghost use Rattle.std.specs.Prelude.{◌≡◌};
ghost use Rattle.spec_model.specs.Nodes.{Node};
ghost use Rattle.spec_model.specs.States.{State};
ghost use Rattle.spec_machine.specs.Machine.{is_ready};
ghost use Rattle.admission.specs.Standing.{Meets, MeetSome};

use crate::taking::given;
use admission::{Tables, others_are_ready};
use header::Checked;
use wire::Message;

/// Whether an event is ready in the state of these tables: its answer isn't that a parent is missing.
pub(crate) fn is_ready(tables: &Tables, event: &Checked) -> bool
    requires meets { MeetSome tables.now event.now.message }
    ensures { (node : Node) (state : State) → Meets node state event.now tables.now event.now.message → result ≡ is_ready node state event.now }
{
    others_are_ready();
    match event.message() {
        Message::Header(header) => {
            let digest = given(event.header_digest().copied());
            tables.is_header_ready(header, &digest)
        }
        Message::Certificate(certificate) => {
            let digest = given(event.certificate_digest().copied());
            tables.is_certificate_ready(certificate, &digest)
        }
        _ => true,
    }
}
