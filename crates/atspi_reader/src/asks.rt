//! What a reader asks next.

ghost use Rattle.std.specs.Prelude.{◌≡◌, ◌<◌, ◌≤◌, ◌↔◌, ◌++◌, Some, None, [], IfOk, IsErrOf, OnOk};
ghost use Rattle.atspi_reader.specs.Doing.{all_done};
ghost use Rattle.atspi_reader.specs.inner.Asked.{sent, Asks};

use atspi_protocol::ends::EndFault;
use atspi_protocol::following::{Question, ReaderEvent};
use atspi_reader_calls::asking;
use std::alloc::Global;
use std::collections::VecDeque;

/// What is asked next, with the number of its message.
#[derive(Drop)]
pub(crate) enum Next {
    /// A call waits already, or nothing is left to ask.
    Nothing,
    /// The next call of the start.
    Start(u32),
    /// What is wanted.
    Wish(u32, Question),
}

/// Appends the message of a question that gets this number. Spent exactly where there is no such number.
fn ask(
    alloc: Global,
    number: u64,
    question: &Question,
    events: &mut VecDeque<ReaderEvent>,
) -> Result<u32, EndFault>
    ensures ok { OnOk result
        (all_done events.new.items ≡ all_done events.old.items ++ sent number (Some question.now)) }
    ensures serial { IfOk result (λ serial. serial ≡ number) }
    ensures room { OnOk result (number ≤ 4294967295) }
    ensures spent { IsErrOf result EndFault.Spent ↔ (4294967295 < number) }
{
    if number > u64::from(u32::MAX) {
        return Err(EndFault::Spent);
    }
    let serial = number as u32;
    let message = asking(alloc, serial, question)?;
    events.push_back(ReaderEvent::Send(message))?;
    Ok(serial)
}

/// Appends the call of a wish, if there is one.
pub(crate) fn ask_wish(
    alloc: Global,
    number: u64,
    wish: Option<Question>,
    events: &mut VecDeque<ReaderEvent>,
) -> Result<Next, EndFault>
    requires { number ≤ 4294967296 }
    ensures { Asks result (all_done events.old.items) (all_done events.new.items) None number [] wish }
{
    let Some(question) = wish else {
        return Ok(Next::Nothing);
    };
    let serial = ask(alloc, number, &question, events)?;
    Ok(Next::Wish(serial, question))
}

/// Appends the next call of the start, or else that of the wish, if there is one.
pub(crate) fn ask_next(
    alloc: Global,
    number: u64,
    to_come: &VecDeque<Question>,
    wish: Option<Question>,
    events: &mut VecDeque<ReaderEvent>,
) -> Result<Next, EndFault>
    requires { number ≤ 4294967296 }
    ensures { Asks result (all_done events.old.items) (all_done events.new.items) None number to_come.now.items wish }
{
    let Some(start) = to_come.front() else {
        return ask_wish(alloc, number, wish, events);
    };
    // (let go before what can fail)
    drop(wish);
    let serial = ask(alloc, number, start, events)?;
    Ok(Next::Start(serial))
}
