//! The reader.

ghost use Rattle.std.specs.Prelude.{◌≡◌, ◌<◌, ◌≤◌, ◌↔◌, ◌+◌, ◌^◌, ◌∷◌, [], None, Err, IsTrue, IsErrOf, IsSome, IfOk};
ghost use Rattle.std.specs.Prelude.{MatchOption, OnOk, OnErr, slice_get};
ghost use Rattle.std.specs.Option.{option_copied, option_map};
ghost use Rattle.atspi_message_in_place.specs.View.{envelope_at};
ghost use Rattle.atspi_cache_arena.specs.Sights.{sights};
ghost use Rattle.atspi_message.specs.Envelope.{envelope_of};
ghost use Rattle.atspi_protocol.specs.following.ReaderState.{begins, sends};
ghost use Rattle.atspi_protocol.specs.following.Takes.{starts, reader_takes, reader_calls, held_view, last_taken};
ghost use Rattle.atspi_protocol.specs.following.Takes.{held_names};
ghost use Rattle.atspi_protocol.specs.following.Takes as takes;
ghost use Rattle.atspi_reader_calls.specs.Deeds.{MayBeAsked};
ghost use Rattle.atspi_reader.specs.Doing.{done_of};
ghost use Rattle.atspi_reader.specs.inner.Turns as turns;
ghost use Rattle.atspi_reader.specs.Steps.{Does};
ghost use Rattle.atspi_reader.specs.ReaderOf.{IsReader, reader_of};

use crate::begin::start_calls;
use crate::question::{is_answer, is_signal};
use crate::state::Reader;
use atspi_base::NoMemory;
use atspi_base::valid_names::BusName;
use atspi_cache::Rows;
use atspi_message::Message;
use atspi_message_in_place::MessageRef;
use atspi_protocol::ends::EndFault;
use atspi_protocol::following::ReaderEvent;
use atspi_reader_calls::{CallFault, user_call};
use atspi_reader_known::Apps;
use atspi_script_lines::Deed;
use std::alloc::Global;
use std::collections::VecDeque;

impl Reader {
    /// It knows nothing, and has not started.
    pub fn new(alloc: Global) -> Result<Reader, NoMemory>
        ensures begins { IfOk result (λ r. reader_of r ≡ begins) }
        ensures is { IfOk result (λ r. IsReader r) }
    {
        Ok(Reader {
            alloc,
            to_come: start_calls(alloc)?,
            pending: None,
            registry: None,
            apps: Apps::new(alloc),
            number: 1,
            out: VecDeque::new(alloc),
        })
    }

    /// The first call, Hello, is queued. Spent only where its number would pass 4,294,967,295, and then it is refused;
    /// after a fault all is as before.
    pub fn start(&mut self) -> Result<(), EndFault>
        requires { IsReader self.old }
        ensures ok { OnOk result (reader_of self.new ≡ starts (reader_of self.old)) }
        ensures room { OnOk result ((starts (reader_of self.old)).next ≤ 4294967296) }
        ensures spent { IsErrOf result EndFault.Spent → 4294967296 < (starts (reader_of self.old)).next }
        ensures err { OnErr result (reader_of self.new ≡ reader_of self.old) }
        ensures stays { IsReader self.new }
    {
        self.begin()
    }

    /// The next call goes out, where none waits.
    fn begin(&mut self) -> Result<(), EndFault>
        requires { IsReader self.old }
        ensures { Does result (reader_of self.old) (reader_of self.new) (takes.goes_on (reader_of self.old)) }
    {
        let mut events = VecDeque::new(self.alloc);
        let next = self.rest(None, &mut events)?;
        self.queue(&mut events)?;
        self.goes_on(next);
        Ok(())
    }

    /// Takes a message. Spent only where the reader's call that it asks for would pass number 4,294,967,295, and then
    /// it is refused; after a fault all is as before.
    pub fn take(&mut self, m: &MessageRef) -> Result<(), EndFault>
        requires { IsReader self.old }
        ensures ok { OnOk result (reader_of self.new ≡ reader_takes (reader_of self.old) (envelope_at m.now)) }
        ensures room { OnOk result ((reader_takes (reader_of self.old) (envelope_at m.now)).next ≤ 4294967296) }
        ensures spent { IsErrOf result EndFault.Spent
            → 4294967296 < (reader_takes (reader_of self.old) (envelope_at m.now)).next }
        ensures err { OnErr result (reader_of self.new ≡ reader_of self.old) }
        ensures stays { IsReader self.new }
    {
        self.take_any(m)
    }

    /// Takes a message: the reply that is waited for, a signal, or any other.
    fn take_any(&mut self, m: &MessageRef) -> Result<(), EndFault>
        requires { IsReader self.old }
        ensures { Does result (reader_of self.old) (reader_of self.new)
            (reader_takes (reader_of self.old) (envelope_at m.now)) }
    {
        if is_answer(&self.pending, m) {
            return self.take_reply(m);
        }
        if is_signal(m) {
            return self.take_signal(m);
        }
        self.take_other(m)
    }

    /// Takes a message that is no signal and not the reply that is waited for: its serial is noted.
    fn take_other(&mut self, m: &MessageRef) -> Result<(), EndFault>
        requires { IsReader self.old }
        ensures { Does result (reader_of self.old) (reader_of self.new)
            (takes.goes_on (takes.notes (reader_of self.old) (envelope_at m.now))) }
    {
        self.begin()?;
        self.note(m);
        Ok(())
    }

    /// A user's call of a node of an application that is held is queued. NotHeld exactly where `view` is none; Spent
    /// exactly where it is held and the call's number would pass 4,294,967,295; after a fault all is as before.
    pub fn call(&mut self, app: &BusName, node: u32, what: &Deed) -> Result<(), CallFault>
        requires reader { IsReader self.old }
        requires asked { MayBeAsked what.now }
        ensures ok { OnOk result (reader_of self.new ≡ reader_calls (reader_of self.old) app.now node what.now) }
        ensures not_held { IsErrOf result CallFault.NotHeld ↔ (held_view (reader_of self.old) app.now ≡ None) }
        ensures spent { IsErrOf result CallFault.Spent
            ↔ (IsSome (held_view (reader_of self.old) app.now) × (4294967295 < self.old.number)) }
        ensures err { OnErr result (reader_of self.new ≡ reader_of self.old) }
        ensures stays { IsReader self.new }
    {
        if !self.holds(app) {
            return Err(CallFault::NotHeld);
        }
        if self.number > u64::from(u32::MAX) {
            return Err(CallFault::Spent);
        }
        let message = user_call(self.alloc, self.number as u32, app, node, what)?;
        self.send(message)
    }

    /// Whether an application is held.
    fn holds(&self, app: &BusName) -> bool
        ensures { IsTrue result ↔ IsSome (held_view (reader_of self.now) app.now) }
    {
        match self.apps.found(app.as_str()) {
            Some(found) => found.is_held(),
            None => false,
        }
    }

    /// A message is queued. After want of memory all is as before.
    fn send(&mut self, message: Message) -> Result<(), CallFault>
        requires { self.old.number < 2 ^ 63 }
        ensures ok { OnOk result
            (reader_of self.new
            ≡ record (turns.did (reader_of self.old) (sends (envelope_of message) ∷ []))
            { next = self.old.number + 1 }) }
        ensures err { OnErr result (reader_of self.new ≡ reader_of self.old) }
        ensures memory { OnErr result (result ≡ Err CallFault.NoMemory) }
    {
        match self.out.push_back(ReaderEvent::Send(message)) {
            Ok(()) => {
                self.number += 1;
                Ok(())
            }
            Err(_) => Err(CallFault::NoMemory),
        }
    }

    /// What it did first of all that was not handed out yet, none exactly where all was.
    pub fn next(&mut self) -> Option<ReaderEvent>
        ensures front { MatchOption result (reader_of self.new ≡ reader_of self.old)
            (λ event. reader_of self.old
            ≡ record (reader_of self.new) { out = done_of event ∷ (reader_of self.new).out }) }
        ensures all { result ≡ None → (reader_of self.old).out ≡ [] }
        ensures stays { IsReader self.old → IsReader self.new }
    {
        self.out.pop_front()
    }

    /// The rows of an application in preorder, none exactly where it is not held. Takes no memory.
    pub fn view(&self, app: &BusName) -> Option<Rows>
        ensures { result ≡ option_map (λ view. sights view) (held_view (reader_of self.now) app.now) }
    {
        match self.apps.found(app.as_str()) {
            Some(found) => found.rows(),
            None => None,
        }
    }

    /// The serial of the last message taken from an application, none exactly where it is not held.
    pub fn last(&self, app: &BusName) -> Option<u32>
        ensures { result ≡ last_taken (reader_of self.now) app.now }
    {
        match self.apps.found(app.as_str()) {
            Some(found) => found.last(),
            None => None,
        }
    }

    /// The name of the k-th application that is held, counted from 0, in the order in which they became known.
    pub fn held(&self, k: u32) -> Option<&BusName>
        ensures { option_copied result ≡ slice_get (held_names (reader_of self.now)) k }
    {
        let mut left = k;
        for app in self.apps.as_slice() {
            if app.is_held() {
                if left == 0 {
                    return Some(app.name());
                }
                left -= 1;
            }
        }
        None
    }
}
