//! Messages that are not answered: what comes back to the calls of the start, and the news of listeners.

ghost use Rattle.std.specs.Prelude.{◌≡◌, true, IsErrOf, OnErr, OnOk};
ghost use Rattle.atspi_message_in_place.specs.View.{envelope_at};
ghost use Rattle.atspi_protocol.specs.exporting.Exporter.{Exporter};
ghost use Rattle.atspi_protocol.specs.exporting.Taking.{is_spent};
ghost use Rattle.atspi_app_known.specs.starting.KnownView.{call_of, known_in};
ghost use Rattle.atspi_app_known.specs.heeding.Heeding.{heeds, heeds_other, heeds_own, is_answered, is_call};

use crate::starting::{Known, StartStep};
use atspi_message_in_place::MessageRef;
use atspi_protocol::ends::EndFault;
use std::alloc::Global;

/// Whether a call has a sender and the application a name.
fn has_ends(known: &Known, message: &MessageRef) -> bool
    ensures { (s : Exporter) → result ≡ is_call (known_in known.now s) (envelope_at message.now) }
{
    known.name().is_some() && message.kind == 1 && message.sender.is_some()
}

/// Whether a message is a call that is answered: none of the application's own calls waits for it, it has a sender, and
/// the application has its name.
pub fn is_answered(known: &Known, message: &MessageRef) -> bool
    ensures { (s : Exporter) → result ≡ is_answered (known_in known.now s) (envelope_at message.now) }
{
    match known.awaited(message) {
        Some(_) => false,
        None => has_ends(known, message),
    }
}

/// What comes back to a call of its own.
fn heed_own(
    known: &mut Known,
    alloc: Global,
    step: StartStep,
    message: &MessageRef,
) -> Result<(), EndFault>
    ensures ok { OnOk result
        ((s : Exporter)
        → known_in known.new s ≡ heeds_own (known_in known.old s) (call_of step) (envelope_at message.now)) }
    ensures spent { IsErrOf result EndFault.Spent → (s : Exporter)
        → is_spent (heeds_own (known_in known.old s) (call_of step) (envelope_at message.now)) ≡ true }
    ensures err { OnErr result ((s : Exporter) → known_in known.new s ≡ known_in known.old s) }
{
    if message.kind == 2 {
        return known.take_return(alloc, step, message.body);
    }
    known.end_start();
    Ok(())
}

/// Any other message that is not answered.
fn heed_other(known: &mut Known, alloc: Global, message: &MessageRef) -> Result<(), EndFault>
    ensures ok { OnOk result
        ((s : Exporter) → known_in known.new s ≡ heeds_other (known_in known.old s) (envelope_at message.now)) }
    ensures spent { IsErrOf result EndFault.Spent → ⊥ }
    ensures err { OnErr result ((s : Exporter) → known_in known.new s ≡ known_in known.old s) }
{
    if known.name().is_some() && message.kind == 4 {
        return known.take_signal(alloc, message);
    }
    Ok(())
}

/// Heeds a message that is not answered. Spent exactly where no number is left for a call of the start; after a fault
/// all is as before.
pub fn heed(known: &mut Known, alloc: Global, message: &MessageRef) -> Result<(), EndFault>
    ensures ok { OnOk result
        ((s : Exporter) → known_in known.new s ≡ heeds (known_in known.old s) (envelope_at message.now)) }
    ensures spent { IsErrOf result EndFault.Spent → (s : Exporter)
        → is_spent (heeds (known_in known.old s) (envelope_at message.now)) ≡ true }
    ensures err { OnErr result ((s : Exporter) → known_in known.new s ≡ known_in known.old s) }
{
    match known.awaited(message) {
        Some(step) => heed_own(known, alloc, step, message),
        None => heed_other(known, alloc, message),
    }
}
