//! Replies to calls.

ghost use Rattle.std.specs.Prelude.{◌≡◌, ◌++◌, OnOk, OnErr};
ghost use Rattle.atspi_types.specs.DataView.{all_data};
ghost use Rattle.atspi_message_in_place.specs.View.{envelope_at};
ghost use Rattle.atspi_protocol.specs.ends.Messages as messages;
ghost use Rattle.atspi_protocol.specs.ends.Messages.{error_word, returns, fails, replies};

use atspi_base::NoMemory;
use atspi_base::valid_names::BusName;
use atspi_message_in_place::MessageRef;
use atspi_protocol::ends::{CallError, Mail, error_to, return_to};
use atspi_types::Values;
use std::alloc::Global;

/// Whether the caller waits for a reply.
fn expects_reply(call: &MessageRef) -> bool
    ensures { result ≡ messages.expects_reply (envelope_at call.now) }
{
    call.kind == 1 && call.flags & 1 == 0
}

/// Values are returned to the caller, where it waits for them. After want of memory all is as before.
pub fn returned(
    alloc: Global,
    call: &MessageRef,
    caller: &BusName,
    values: Values,
    mail: &mut Mail,
) -> Result<(), NoMemory>
    ensures ok { OnOk result
        (mail.new ≡ mail.old ++ replies caller.now (envelope_at call.now) (returns (all_data values))) }
    ensures err { OnErr result (mail.new ≡ mail.old) }
{
    if expects_reply(call) {
        mail.push(return_to(caller.copy(alloc)?, call.serial, values))?;
    }
    Ok(())
}

/// The caller gets an error, where it waits for a reply. After want of memory all is as before.
pub fn refused(
    alloc: Global,
    call: &MessageRef,
    caller: &BusName,
    error: CallError,
    mail: &mut Mail,
) -> Result<(), NoMemory>
    ensures ok { OnOk result
        (mail.new ≡ mail.old ++ replies caller.now (envelope_at call.now) (fails (error_word error))) }
    ensures err { OnErr result (mail.new ≡ mail.old) }
{
    if expects_reply(call) {
        mail.push(error_to(alloc, caller.copy(alloc)?, call.serial, error)?)?;
    }
    Ok(())
}
