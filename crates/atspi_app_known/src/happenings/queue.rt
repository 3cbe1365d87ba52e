//! The queue of what happens at an application.

ghost use Rattle.std.specs.Prelude.{◌≡◌, [], ◌∷◌, ◌++◌, ◌+◌, ◌<◌, ◌↔◌, IsErrOf, MatchOption, OnOk, OnErr};
ghost use Rattle.atspi_protocol.specs.exporting.Exporter.{numbered, sent_in};
ghost use Rattle.atspi_app_known.specs.happenings.Happened.{happening_of, sent_by};
ghost use Rattle.atspi_app_known.specs.happenings.inner.Happened.{is_sent};
ghost use Rattle.atspi_app_known.specs.happenings.View.{happened, next_of, out_of};

use crate::happenings::event::AppEvent;
use crate::happenings::happenings::Happenings;
use crate::happenings::kept::AppQueue;
use atspi_protocol::ends::EndFault;
use std::alloc::Global;
use std::collections::VecDeque;

/// Whether it is a message.
fn is_message(event: &AppEvent) -> bool
    ensures { result ≡ is_sent event.now }
{
    matches!(event, AppEvent::Send(_))
}

/// How many of some happenings are messages.
pub(crate) fn count_messages(events: &VecDeque<AppEvent>) -> u64
    ensures { result ≡ sent_by events.now.items }
{
    let mut count = 0;
    for i in 0..events.len() {
        if is_message(&events[i]) {
            count += 1;
        }
    }
    count
}

impl AppQueue {
    /// Nothing; the first message will have number 1.
    pub fn new(alloc: Global) -> AppQueue
        ensures next { next_of result ≡ 1 }
        ensures out { out_of result ≡ [] }
    {
        AppQueue {
            handed_out: 0,
            taken: 0,
            waiting: VecDeque::new(alloc),
        }
    }

    /// The number of the next message that is queued; 4,294,967,296 where none is left.
    pub fn next_number(&self) -> u64
        ensures { result ≡ next_of self.now }
    {
        self.taken + 1
    }

    /// Queues what happens; its messages get the next numbers. Spent exactly where they would pass number
    /// 4,294,967,295; after a fault all is as before.
    pub fn post(&mut self, happenings: &mut Happenings) -> Result<(), EndFault>
        ensures next { OnOk result (next_of self.new ≡ next_of self.old + sent_in (happened happenings.old)) }
        ensures out { OnOk result
            (out_of self.new ≡ out_of self.old ++ numbered (next_of self.old) (happened happenings.old)) }
        ensures spent { IsErrOf result EndFault.Spent
            ↔ (4294967296 < next_of self.old + sent_in (happened happenings.old)) }
        ensures err_next { OnErr result (next_of self.new ≡ next_of self.old) }
        ensures err_out { OnErr result (out_of self.new ≡ out_of self.old) }
        ensures kept { OnErr result (happened happenings.new ≡ happened happenings.old) }
    {
        let more = count_messages(&happenings.events);
        if u64::from(u32::MAX) - self.taken < more {
            return Err(EndFault::Spent);
        }
        self.waiting.append(&mut happenings.events)?;
        self.taken += more;
        Ok(())
    }

    /// The oldest of what is queued, which is no longer queued.
    pub fn pop(&mut self) -> Option<AppEvent>
        ensures front { MatchOption result (out_of self.old ≡ [])
            (λ event. out_of self.old ≡ happening_of event ∷ out_of self.new) }
        ensures empty { MatchOption result (out_of self.new ≡ out_of self.old)
            (λ event. next_of self.new ≡ next_of self.old) }
        ensures next { next_of self.new ≡ next_of self.old }
    {
        let mut event = self.waiting.pop_front()?;
        if let AppEvent::Send(message) = &mut event {
            self.handed_out += 1;
            message.serial = self.handed_out as u32;
        }
        Some(event)
    }
}
