//! What an end is told: the messages of its stream.

ghost use Rattle.std.specs.Prelude.{◌≡◌, ℕ, List, IfOk, IsErrOf, length};
ghost use Rattle.atspi_protocol.specs.declared.ends.fault.EndFault.{EndFault};
ghost use Rattle.atspi_live_conversation.specs.Talking.{AttendsAll, AttendsToSpent, MaySpeak};

use crate::BusEnd;
use atspi_protocol::ends::EndFault;
use atspi_stream::{Feeder, Got};
use atspi_types::Fault;

/// The end takes each whole message that is held. Answers the fault behind them, if there is one.
pub(crate) fn attend<E: BusEnd>(feeder: &mut Feeder, end: &mut E) -> Result<Option<Fault>, EndFault>
    requires { MaySpeak E.Stands end.old }
    ensures ok { IfOk result
        (λ fault. (aside : List ℕ) → AttendsAll (E.Stands aside) fault feeder.old feeder.new end.old end.new) }
    ensures spent { IsErrOf result EndFault.Spent → (aside : List ℕ)
        → AttendsToSpent (E.Stands aside) E.IsSpent feeder.old end.old end.new }
{
    'messages: loop {
        match feeder.next() {
            Got::Message(message) => {
                if let Err(fault) = end.take(&message) {
                    return Err(fault);
                }
            }
            Got::NotYet => return Ok(None),
            Got::Bad(fault) => return Ok(Some(fault)),
        }
    }
}
