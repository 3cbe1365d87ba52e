//! The call that waits, and whether a message is its reply.

ghost use Rattle.std.specs.Prelude.{◌≡◌, ◌==◌, ◌||◌, bytes_eq, IfOk};
ghost use Rattle.std.specs.Option.{option_map};
ghost use Rattle.atspi_message_in_place.specs.View.{envelope_at};
ghost use Rattle.atspi_protocol.specs.ends.Places as places;
ghost use Rattle.atspi_protocol.specs.following.Replied as replied;
ghost use Rattle.atspi_reader.specs.inner.Turns.{is_answer, asked_of};
ghost use Rattle.atspi_reader.specs.ReaderOf.{pending_of};

use crate::waiting::Waiting;
use atspi_base::NoMemory;
use atspi_base::valid_names::BusName;
use atspi_message_in_place::MessageRef;
use atspi_protocol::following::Question;
use atspi_reader_told::sender_of;
use std::alloc::Global;

/// An equal question.
pub(crate) fn copied(alloc: Global, question: &Question) -> Result<Question, NoMemory>
    ensures { IfOk result (λ copy. copy ≡ question.now) }
{
    match question {
        Question::Hello => Ok(Question::Hello),
        Question::AddMatch(rule) => Ok(Question::AddMatch(rule.copy(alloc)?)),
        Question::RegisterEvent(pattern) => Ok(Question::RegisterEvent(pattern.copy(alloc)?)),
        Question::GetChildren => Ok(Question::GetChildren),
        Question::GetItems(name) => Ok(Question::GetItems(name.copy(alloc)?)),
        Question::GetPart(name, path, part) => {
            let name = name.copy(alloc)?;
            Ok(Question::GetPart(name, path.copy(alloc)?, *part))
        }
    }
}

/// The question that waits.
pub(crate) fn waiting_question(
    alloc: Global,
    pending: &Option<Waiting>,
) -> Result<Option<Question>, NoMemory>
    ensures { IfOk result (λ question. question ≡ option_map asked_of (option_map pending_of pending.now)) }
{
    match pending {
        Some(waiting) => Ok(Some(copied(alloc, &waiting.question)?)),
        None => Ok(None),
    }
}

/// Whether a sender is the application or the bus.
fn is_of(name: &BusName, sender: &str) -> bool
    ensures { result ≡ (bytes_eq sender.now name.now || bytes_eq sender.now places.bus) }
{
    sender == name.as_str() || sender == "org.freedesktop.DBus"
}

/// Whether a message may answer a question, by its sender.
fn may_answer(question: &Question, m: &MessageRef) -> bool
    ensures { result ≡ replied.may_answer question.now (envelope_at m.now) }
{
    match question {
        Question::GetItems(name) => is_of(name, sender_of(m)),
        Question::GetPart(name, _, _) => is_of(name, sender_of(m)),
        _ => true,
    }
}

/// Whether a message replies to the call with this serial.
fn is_reply_to(serial: u32, m: &MessageRef) -> bool
    ensures { result ≡ replied.is_reply_to serial (envelope_at m.now).reply }
{
    match m.reply {
        Some(reply) => reply == serial,
        None => false,
    }
}

/// Whether a message ends the call that waits: it is a return or an error with its serial, of one who may answer it.
fn ends_call(waiting: &Waiting, m: &MessageRef) -> bool
    ensures { result ≡ replied.ends_call (pending_of waiting.now) (envelope_at m.now) }
{
    (m.kind == 2 || m.kind == 3)
        && (is_reply_to(waiting.serial, m) && may_answer(&waiting.question, m))
}

/// Whether a message is the reply that is waited for.
pub(crate) fn is_answer(pending: &Option<Waiting>, m: &MessageRef) -> bool
    ensures { result ≡ is_answer (option_map pending_of pending.now) (envelope_at m.now) }
{
    match pending {
        Some(waiting) => ends_call(waiting, m),
        None => false,
    }
}

/// Whether a message is a signal.
pub(crate) fn is_signal(m: &MessageRef) -> bool
    ensures { result ≡ ((envelope_at m.now).kind == 4) }
{
    m.kind == 4
}
