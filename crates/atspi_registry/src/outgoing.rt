//! The queue of the registry's messages, which knows the number of the next one.

ghost use Rattle.std.specs.Prelude.{◌≡◌, ◌<◌, ◌≤◌, ◌+◌, [], ◌∷◌, length, IsErrOf, MatchOption, OnOk, OnErr};
ghost use Rattle.atspi_message.specs.Envelope.{envelope_of};
ghost use Rattle.atspi_protocol.specs.ends.Messages.{posted};

use atspi_message::Message;
use atspi_protocol::ends::{EndFault, Mail, Outbox};
use std::alloc::Global;
use std::marker::Model;

/// The registry's queue. It counts the messages that were ever queued, so that it can say which number the next one
/// gets.
#[derive(Drop)]
pub struct Outgoing {
    queued: u64,
    outbox: Outbox,
}

impl Model for Outgoing {
    ghost use Rattle.std.specs.Prelude.{◌≡◌, ◌≤◌, ◌+◌};
    ghost use Rattle.atspi_protocol.specs.ends.Messages.{Queue, queue_code};

    ghost Value = { Queue };

    ghost coded = { queue_code };

    ghost view = { λ o. o.outbox };

    ghost invariant = { λ o. (o.queued + 1 ≡ o.outbox.next) × (o.outbox.next ≤ 4294967296) };
}

impl Outgoing {
    /// No message; the first will have number 1.
    pub fn new(alloc: Global) -> Outgoing
        ensures next { result.next ≡ 1 }
        ensures out { result.out ≡ [] }
    {
        Outgoing {
            queued: 0,
            outbox: Outbox::new(alloc),
        }
    }

    /// The number that the next message gets.
    pub fn next_number(&self) -> u64
        ensures { result ≡ self.now.next }
    {
        self.queued + 1
    }

    /// Queues messages, which get the next numbers. Spent exactly where they would pass number 4,294,967,295; after a
    /// fault all is as before.
    pub fn post(&mut self, mail: &mut Mail) -> Result<(), EndFault>
        ensures done { OnOk result (self.new ≡ posted self.old mail.old) }
        ensures room { OnOk result (self.old.next + length mail.old ≤ 4294967296) }
        ensures spent { IsErrOf result EndFault.Spent → 4294967296 < self.old.next + length mail.old }
        ensures kept { OnErr result (self.new ≡ self.old) }
        ensures within { self.new.next ≤ 4294967296 }
    {
        let count = mail.len() as u64;
        self.outbox.post(mail)?;
        self.queued += count;
        Ok(())
    }

    /// The oldest queued message, which is no longer queued.
    pub fn next(&mut self) -> Option<Message>
        ensures front { MatchOption result (self.old.out ≡ [])
            (λ message. self.old.out ≡ envelope_of message ∷ self.new.out) }
        ensures empty { MatchOption result (self.new ≡ self.old) (λ message. self.new.next ≡ self.old.next) }
        ensures number { self.new.next ≡ self.old.next }
    {
        match self.outbox.next() {
            Some(message) => Some(message),
            None => None,
        }
    }
}
