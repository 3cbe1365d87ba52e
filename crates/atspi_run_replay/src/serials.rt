//! The serials of a trace have 32 bits. Their type says so, and a clause knows it of those that were read: so those of
//! each line are read behind it, and all of them where a world came to its end.

ghost use Rattle.std.specs.Prelude.{drop};
ghost use Rattle.std.specs.List.{AllByRecursion};
ghost use Rattle.atspi_trace_played.specs.Turns.{IsUnspent};
ghost use Rattle.atspi_trace.specs.Entry.{entries_of, entry_of};

use atspi_trace_events::Event;

/// Reads the serial of the message that an event tells as sent; answers whether it has 32 bits, which is so.
fn fits(event: &Event) -> bool
    ensures { IsUnspent (entry_of event.now) }
{
    match event {
        Event::Sent { message, .. } => message.serial <= u32::MAX,
        Event::Start { .. }
        | Event::Step { .. }
        | Event::Got { .. }
        | Event::Hears { .. }
        | Event::Deaf { .. }
        | Event::Say { .. }
        | Event::Show { .. }
        | Event::Exit { .. }
        | Event::Gone { .. }
        | Event::Dropped { .. }
        | Event::Busy(_)
        | Event::Quiet => true,
    }
}

/// Reads the serials of all messages that a trace tells as sent, each of which has 32 bits.
pub(crate) fn all_fit(trace: &[Event])
    ensures { AllByRecursion IsUnspent (entries_of trace.now) }
{
    for event in trace {
        fits(event);
    }
}

/// Reads those of the messages that a trace tells as sent from a place on.
pub(crate) fn fit_from(trace: &[Event], place: usize)
    ensures { AllByRecursion IsUnspent (entries_of (drop place trace.now)) }
{
    if place < trace.len() {
        all_fit(&trace[place..]);
    }
}
