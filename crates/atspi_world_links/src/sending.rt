//! What is told, and what an end sends.

ghost use Rattle.std.specs.Prelude.{◌≡◌, [], ◌∷◌, ◌++◌, OnOk, OnErr};
ghost use Rattle.atspi_message.specs.Envelope.{envelope_of};
ghost use Rattle.atspi_message.specs.Bytes.{IsMessage, written};

use crate::fault::SendFault;
use crate::post::Post;
use atspi_base::NoMemory;
use atspi_message::Message;
use atspi_script_lines::Party;
use atspi_trace_events::Event;
use std::alloc::Global;
use std::mem;

/// An event is told behind the others. After want of memory the trace is as before.
pub fn note(trace: &mut Vec<Event>, event: Event) -> Result<(), NoMemory>
    ensures told { OnOk result (trace.new.items ≡ trace.old.items ++ event ∷ []) }
    ensures err { OnErr result (trace.new.items ≡ trace.old.items) }
{
    trace.push(event)?;
    Ok(())
}

/// Takes out what was told, so that what is told next is told apart.
pub fn apart(alloc: Global, trace: &mut Vec<Event>) -> Vec<Event>
    ensures before { result.items ≡ trace.old.items }
    ensures none { trace.new.items ≡ [] }
{
    mem::replace(trace, Vec::new(alloc))
}

/// What was told apart is put behind what was told before. After want of memory nothing of it is told.
pub fn put_behind(trace: &mut Vec<Event>, before: Vec<Event>) -> Result<(), NoMemory>
    ensures told { OnOk result (trace.new.items ≡ before.items ++ trace.old.items) }
    ensures err { OnErr result (trace.new.items ≡ before.items) }
{
    let mut told = mem::replace(trace, before);
    trace.append(&mut told)?;
    Ok(())
}

/// A message of a party is sent: its bytes stand behind those on its link, and that is told. After a fault all is as
/// before.
pub fn send(
    post: &mut Post,
    who: Party,
    message: Message,
    trace: &mut Vec<Event>,
) -> Result<(), SendFault>
    ensures up { OnOk result (post.new ≡ record post.old { up = post.old.up ++ written (envelope_of message) }) }
    ensures message { OnOk result (IsMessage (envelope_of message) (written (envelope_of message))) }
    ensures told { OnOk result (trace.new.items ≡ trace.old.items ++ Event.Sent who message ∷ []) }
    ensures err { OnErr result ((post.new ≡ post.old) × (trace.new.items ≡ trace.old.items)) }
{
    // room in the trace first, so that the link changes last
    trace.reserve(1)?;
    post.up.send(&message)?;
    trace.push_reserved(Event::Sent { who, message });
    Ok(())
}
