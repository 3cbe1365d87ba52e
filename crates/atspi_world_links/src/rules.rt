//! Whether a message meets the rules of messages.

ghost use Rattle.std.specs.Prelude.{◌≡◌, ◌≢◌, ◌↔◌, IsSome, IfSome, IsTrue};
ghost use Rattle.atspi_message.specs.Envelope.{envelope_of};
ghost use Rattle.atspi_message.specs.Rules.{HasRequired, MeetsRules};

use atspi_message::Message;

/// Whether a message that is a call has its path and its member.
fn is_call_whole(m: &Message) -> bool
    ensures { IsTrue result
        ↔ ((envelope_of m.now).kind ≡ 1 → IsSome (envelope_of m.now).path × IsSome (envelope_of m.now).member) }
{
    if m.kind != 1 {
        return true;
    }
    m.path.is_some() && m.member.is_some()
}

/// Whether a message that is a return has the serial that it replies to.
fn is_return_whole(m: &Message) -> bool
    ensures { IsTrue result ↔ ((envelope_of m.now).kind ≡ 2 → IsSome (envelope_of m.now).reply) }
{
    if m.kind != 2 {
        return true;
    }
    m.reply.is_some()
}

/// Whether a message that is an error has its name and the serial that it replies to.
fn is_error_whole(m: &Message) -> bool
    ensures { IsTrue result
        ↔ ((envelope_of m.now).kind ≡ 3 → IsSome (envelope_of m.now).error × IsSome (envelope_of m.now).reply) }
{
    if m.kind != 3 {
        return true;
    }
    m.error.is_some() && m.reply.is_some()
}

/// Whether a message that is a signal has its path, its interface and its member.
fn is_signal_whole(m: &Message) -> bool
    ensures { IsTrue result
        ↔ ((envelope_of m.now).kind ≡ 4
        → IsSome (envelope_of m.now).path × IsSome (envelope_of m.now).interface
        × IsSome (envelope_of m.now).member) }
{
    if m.kind != 4 {
        return true;
    }
    m.path.is_some() && m.interface.is_some() && m.member.is_some()
}

/// Whether the fields that a message of its type must have are there.
fn has_required(m: &Message) -> bool
    ensures { IsTrue result ↔ HasRequired (envelope_of m.now) }
{
    if !is_call_whole(m) {
        return false;
    }
    if !is_return_whole(m) {
        return false;
    }
    if !is_error_whole(m) {
        return false;
    }
    is_signal_whole(m)
}

/// Whether a serial that is there is not 0.
fn is_no_zero(serial: Option<u32>) -> bool
    ensures { IsTrue result ↔ IfSome serial (λ n. n ≢ 0) }
{
    match serial {
        Some(serial) => serial != 0,
        None => true,
    }
}

/// Whether a message meets the rules of messages (D-Bus Specification, "Message Types" and "Header Fields"). Takes no
/// memory.
pub fn meets_rules(m: &Message) -> bool
    ensures { IsTrue result ↔ MeetsRules (envelope_of m.now) }
{
    if m.kind == 0 {
        return false;
    }
    if m.serial == 0 {
        return false;
    }
    if !is_no_zero(m.reply) {
        return false;
    }
    if !has_required(m) {
        return false;
    }
    m.body.are_well_typed()
}
