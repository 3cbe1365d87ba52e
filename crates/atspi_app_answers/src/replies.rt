//! What is sent back for a call.

ghost use Rattle.std.specs.Prelude.{◌≡◌, ◌++◌, true, OnOk, OnErr};
ghost use Rattle.atspi_base.specs.valid_names.Names.{is_bus_name};
ghost use Rattle.atspi_types.specs.DataView.{all_data};
ghost use Rattle.atspi_message_in_place.specs.View.{envelope_at};
ghost use Rattle.atspi_protocol.specs.ends.Messages as messages;
ghost use Rattle.atspi_protocol.specs.ends.Messages.{error_word, returns, fails, replies};
ghost use Rattle.atspi_app_answers.specs.Replies.{sent_back};

use atspi_base::NoMemory;
use atspi_message_in_place::MessageRef;
use atspi_protocol::ends::{CallError, Mail, bus_name, error_to, return_to};
use atspi_types::Values;
use std::alloc::Global;

/// Whether the caller waits for a reply.
fn expects_reply(call: &MessageRef) -> bool
    ensures { result ≡ messages.expects_reply (envelope_at call.now) }
{
    call.kind == 1 && call.flags & 1 == 0
}

/// Values are returned to the caller, where it waits for them.
fn return_values(
    alloc: Global,
    call: &MessageRef,
    caller: &str,
    values: Values,
    mail: &mut Mail,
) -> Result<(), NoMemory>
    requires { is_bus_name caller.now ≡ true }
    ensures ok { OnOk result
        (mail.new ≡ mail.old ++ replies caller.now (envelope_at call.now) (returns (all_data values))) }
    ensures err { OnErr result (mail.new ≡ mail.old) }
{
    if expects_reply(call) {
        mail.push(return_to(bus_name(alloc, caller)?, call.serial, values))?;
    }
    Ok(())
}

/// The caller gets an error, where it waits for a reply.
fn return_error(
    alloc: Global,
    call: &MessageRef,
    caller: &str,
    error: CallError,
    mail: &mut Mail,
) -> Result<(), NoMemory>
    requires { is_bus_name caller.now ≡ true }
    ensures ok { OnOk result
        (mail.new ≡ mail.old ++ replies caller.now (envelope_at call.now) (fails (error_word error))) }
    ensures err { OnErr result (mail.new ≡ mail.old) }
{
    if expects_reply(call) {
        mail.push(error_to(alloc, bus_name(alloc, caller)?, call.serial, error)?)?;
    }
    Ok(())
}

/// Appends the return of values to a call's sender (D-Bus Specification, "Method Calls"): nothing where the call has
/// the flag that no reply is expected, or no sender, or is no call. After want of memory all is as before.
pub fn reply(
    alloc: Global,
    call: &MessageRef,
    values: Values,
    mail: &mut Mail,
) -> Result<(), NoMemory>
    ensures ok { OnOk result (mail.new ≡ mail.old ++ sent_back (envelope_at call.now) (returns (all_data values))) }
    ensures err { OnErr result (mail.new ≡ mail.old) }
{
    match call.sender {
        Some(caller) => return_values(alloc, call, caller, values, mail),
        None => Ok(()),
    }
}

/// Appends the error instead, with its name and the last word of that as its text, under the same conditions.
pub fn refusal(
    alloc: Global,
    call: &MessageRef,
    error: CallError,
    mail: &mut Mail,
) -> Result<(), NoMemory>
    ensures ok { OnOk result (mail.new ≡ mail.old ++ sent_back (envelope_at call.now) (fails (error_word error))) }
    ensures err { OnErr result (mail.new ≡ mail.old) }
{
    match call.sender {
        Some(caller) => return_error(alloc, call, caller, error, mail),
        None => Ok(()),
    }
}
