//! The queue of an end's messages.

ghost use Rattle.std.specs.Prelude.{◌≡◌, [], ◌∷◌, ◌+◌, ◌<◌, ◌↔◌, length, IsErrOf, MatchOption, OnOk, OnErr};
ghost use Rattle.atspi_message.specs.Envelope.{envelope_of};
ghost use Rattle.atspi_protocol.specs.ends.Messages.{posted};

use crate::ends::fault::EndFault;
use crate::ends::mail::Mail;
use atspi_message::Message;
use std::alloc::Global;
use std::collections::VecDeque;
use std::marker::Model;

/// The messages that an end has queued, with their numbers, which rise by one from 1. A message is numbered where it is
/// handed out.
#[derive(Drop)]
pub struct Outbox {
    handed_out: u64,
    waiting: VecDeque<Message>,
}

impl Model for Outbox {
    ghost use Rattle.std.specs.Prelude.{◌+◌, ◌≤◌, length, map};
    ghost use Rattle.atspi_message.specs.Envelope.{envelope_of};
    ghost use Rattle.atspi_protocol.specs.ends.Messages.{Queue, queue_code, numbered};

    ghost Value = { Queue };

    ghost coded = { queue_code };

    ghost view = { λ o.
        record {
          next = o.handed_out + length o.waiting.items + 1;
          out = numbered (o.handed_out + 1) (map envelope_of o.waiting.items);
        } };

    ghost invariant = { λ o. o.handed_out + length o.waiting.items ≤ 4294967295 };
}

impl Outbox {
    /// No message; the first will have number 1.
    pub fn new(alloc: Global) -> Outbox
        ensures next { result.next ≡ 1 }
        ensures out { result.out ≡ [] }
    {
        Outbox {
            handed_out: 0,
            waiting: VecDeque::new(alloc),
        }
    }

    /// Queues messages, which get the next numbers. Spent exactly where they would pass number 4,294,967,295; after a
    /// fault all is as before.
    pub fn post(&mut self, mail: &mut Mail) -> Result<(), EndFault>
        ensures ok { OnOk result (self.new ≡ posted self.old mail.old) }
        ensures spent { IsErrOf result EndFault.Spent ↔ (4294967296 < self.old.next + length mail.old) }
        ensures err { OnErr result (self.new ≡ self.old) }
        ensures kept { OnErr result (mail.new ≡ mail.old) }
    {
        let used = self.handed_out + self.waiting.len() as u64;
        if u64::from(u32::MAX) - used < mail.len() as u64 {
            return Err(EndFault::Spent);
        }
        self.waiting.append(&mut mail.messages)?;
        Ok(())
    }

    /// The oldest queued message, which is no longer queued.
    pub fn next(&mut self) -> Option<Message>
        ensures front { MatchOption result (self.old.out ≡ [])
            (λ message. self.old.out ≡ envelope_of message ∷ self.new.out) }
        ensures empty { MatchOption result (self.new ≡ self.old) (λ message. self.new.next ≡ self.old.next) }
    {
        let mut message = self.waiting.pop_front()?;
        self.handed_out += 1;
        message.serial = self.handed_out as u32;
        Some(message)
    }
}
