//! The parts of a step: what was done is queued, the message is noted, and the call that was asked waits.

ghost use Rattle.std.specs.Prelude.{◌≡◌, ◌≤◌, None, OnOk, OnErr, length, take};
ghost use Rattle.atspi_message_in_place.specs.View.{envelope_at};
ghost use Rattle.atspi_protocol.specs.following.Takes.{notes};
ghost use Rattle.atspi_reader.specs.Doing.{all_done};
ghost use Rattle.atspi_reader.specs.inner.Turns.{did, coming, noted_if};
ghost use Rattle.atspi_reader.specs.inner.Asked.{waits, started, went_on, Asks, Queues};
ghost use Rattle.atspi_reader.specs.ReaderOf.{reader_of};

use crate::asks::{Next, ask_next, ask_wish};
use crate::state::Reader;
use crate::waiting::Waiting;
use atspi_base::NoMemory;
use atspi_message_in_place::MessageRef;
use atspi_protocol::ends::EndFault;
use atspi_protocol::following::{Question, ReaderEvent};
use atspi_reader_told::sender_of;
use std::collections::VecDeque;

impl Reader {
    /// What was done is queued. After want of memory all is as before.
    pub(crate) fn queue(&mut self, events: &mut VecDeque<ReaderEvent>) -> Result<(), NoMemory>
        ensures ok { OnOk result (reader_of self.new ≡ did (reader_of self.old) (all_done events.old.items)) }
        ensures err { OnErr result (reader_of self.new ≡ reader_of self.old) }
    {
        self.out.append(events)?;
        Ok(())
    }

    /// How much of what was done is queued.
    pub(crate) fn queued(&self) -> usize
        ensures { result ≡ length (reader_of self.now).out }
    {
        self.out.len()
    }

    /// Only the first so many of what was done stay queued.
    pub(crate) fn unqueue(&mut self, count: usize)
        ensures { reader_of self.new ≡ record (reader_of self.old) { out = take count (reader_of self.old).out } }
    {
        self.out.truncate(count);
    }

    /// The serial of a message is noted.
    pub(crate) fn note(&mut self, m: &MessageRef)
        ensures { reader_of self.new ≡ notes (reader_of self.old) (envelope_at m.now) }
    {
        self.apps.note(sender_of(m), m.serial);
    }

    /// The serial of a message is noted, where its sender was known before.
    pub(crate) fn note_if(&mut self, known: bool, m: &MessageRef)
        ensures { reader_of self.new ≡ (noted_if known (reader_of self.old) (envelope_at m.now)) }
    {
        if known {
            self.note(m);
        }
    }

    /// A call of the reader's own waits from now on.
    fn wait(&mut self, serial: u32, question: Question)
        ensures { reader_of self.new ≡ waits (reader_of self.old) self.old.to_come.items serial question }
    {
        self.pending = Some(Waiting { serial, question });
        self.number = u64::from(serial) + 1;
    }

    /// The next call of the start waits from now on.
    fn wait_start(&mut self, serial: u32)
        ensures { reader_of self.new ≡ started (reader_of self.old) serial self.old.to_come.items }
    {
        if let Some(start) = self.to_come.pop_front() {
            self.wait(serial, start);
        }
    }

    /// The call that was queued waits from now on.
    pub(crate) fn goes_on(&mut self, next: Next)
        ensures { reader_of self.new ≡ went_on next (reader_of self.old) }
    {
        match next {
            Next::Nothing => (),
            Next::Start(serial) => self.wait_start(serial),
            Next::Wish(serial, question) => self.wait(serial, question),
        }
    }

    /// No call waits any more, and the one that was queued does; where the start ends here, no further call of it is
    /// sent.
    pub(crate) fn answered(&mut self, starts: bool, next: Next)
        ensures { reader_of self.new
            ≡ went_on next
            (record (reader_of self.old) { pending = None; to_come = coming starts self.old.to_come.items }) }
    {
        self.pending = None;
        if !starts {
            self.to_come.clear();
        }
        self.goes_on(next);
    }

    /// Appends the call that goes out where the call that waits stays: none, if there is one; else the next of the
    /// start, or the wish.
    pub(crate) fn rest(
        &self,
        wish: Option<Question>,
        events: &mut VecDeque<ReaderEvent>,
    ) -> Result<Next, EndFault>
        requires { self.now.number ≤ 4294967296 }
        ensures { Asks result (all_done events.old.items) (all_done events.new.items) (reader_of self.now).pending
            self.now.number self.now.to_come.items wish }
    {
        match &self.pending {
            Some(_) => Ok(Next::Nothing),
            None => ask_next(self.alloc, self.number, &self.to_come, wish, events),
        }
    }

    /// Appends the call that goes out where no call waits any more and the start goes on or ends here.
    fn ask_then(
        &self,
        starts: bool,
        wish: Option<Question>,
        events: &mut VecDeque<ReaderEvent>,
    ) -> Result<Next, EndFault>
        requires { self.now.number ≤ 4294967296 }
        ensures { Asks result (all_done events.old.items) (all_done events.new.items) None self.now.number
            (coming starts self.now.to_come.items) wish }
    {
        if starts {
            ask_next(self.alloc, self.number, &self.to_come, wish, events)
        } else {
            ask_wish(self.alloc, self.number, wish, events)
        }
    }

    /// That call is queued, given what is wanted first then. After a fault all is as before.
    pub(crate) fn proceeds(
        &mut self,
        starts: bool,
        wish: Option<Question>,
    ) -> Result<Next, EndFault>
        requires { self.old.number ≤ 4294967296 }
        ensures { Queues result (reader_of self.old) (reader_of self.new) (coming starts self.old.to_come.items) wish }
    {
        let mut events = VecDeque::new(self.alloc);
        let next = self.ask_then(starts, wish, &mut events)?;
        self.queue(&mut events)?;
        Ok(next)
    }
}
