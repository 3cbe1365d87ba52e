//! What an end says: its messages, on their way to the link.

ghost use Rattle.std.specs.Prelude.{◌≡◌, ◌<◌, ℕ, List, [], false, IsTrue, IfOk, OnOk, length};
ghost use Rattle.atspi_live_conversation.specs.Talking.{HasNone, MaySpeak, Says};
ghost use Rattle.atspi_live_conversation.specs.inner.Talking.{SaysOne};

use crate::BusEnd;
use crate::unsent::Unsent;
use atspi_base::NoMemory;

/// As long as fewer bytes wait, more messages are written.
const ENOUGH: usize = 4096;

/// Writes the end's next message, if it has one.
fn say_one<E: BusEnd>(end: &mut E, unsent: &mut Unsent) -> Result<bool, NoMemory>
    requires { MaySpeak E.Stands end.old }
    ensures says { IfOk result
        (λ more. (aside : List ℕ) → SaysOne (E.Stands aside) more end.old end.new unsent.old unsent.new) }
    ensures fewer { IfOk result (λ more. IsTrue more → E.queued end.new < E.queued end.old) }
    ensures empty { IfOk result (λ more. more ≡ false → HasNone E.queued end.new) }
{
    match end.next() {
        Some(message) => match unsent.put(&message) {
            Ok(()) => Ok(true),
            Err(fault) => Err(fault),
        },
        None => Ok(false),
    }
}

/// Writes messages of the end, until enough bytes wait or it has no more.
pub(crate) fn say<E: BusEnd>(end: &mut E, unsent: &mut Unsent) -> Result<(), NoMemory>
    requires { MaySpeak E.Stands end.old }
    ensures says { OnOk result ((aside : List ℕ) → Says (E.Stands aside) end.old end.new unsent.old unsent.new) }
    ensures empty { OnOk result (unsent.new ≡ [] → HasNone E.queued end.new) }
{
    'messages: while unsent.len() < ENOUGH {
        match say_one(end, unsent) {
            Ok(more) => {
                if !more {
                    return Ok(());
                }
            }
            Err(fault) => return Err(fault),
        }
    }
    Ok(())
}
