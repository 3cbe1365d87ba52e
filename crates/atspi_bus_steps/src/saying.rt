//! What a bus says of its own.

ghost use Rattle.std.specs.Prelude.{◌≡◌, ◌+◌, ◌<◌, [], ◌∷◌, ◌++◌, map, length, All, IfOk, OnOk, IsErrOf};
ghost use Rattle.atspi_message.specs.Envelope.{envelope_of};
ghost use Rattle.atspi_message.specs.Rules.{MeetsRules};
ghost use Rattle.atspi_message_in_place.specs.View.{envelope_at};
ghost use Rattle.atspi_match.specs.routing.Routing as routing;
ghost use Rattle.atspi_match.specs.routing.Queues.{stepped};
ghost use Rattle.atspi_match.specs.routing.Steps.{speaks, replies};
ghost use Rattle.atspi_bus_answers.specs.Answered.{reply_of};
ghost use Rattle.atspi_bus_steps.specs.InnerBus.{inner_of, state_of};
ghost use Rattle.atspi_bus_steps.specs.inner.Handing.{handed_out};
ghost use Rattle.atspi_bus_steps.specs.Sayable.{MaySay, IsTyped, reply_message};
ghost use Rattle.atspi_bus_steps.specs.Sound.{IsReady};

use crate::BusFault;
use crate::handing::{hand_out, write_own};
use crate::inner::Inner;
use crate::receiving::receivers_of;
use atspi_base::NoMemory;
use atspi_bus_answers::{Reply, error_to, return_to};
use atspi_message::Message;
use atspi_message_in_place::MessageRef;
use std::collections::VecDeque;

/// Whether the message is a call whose caller waits for the reply.
pub fn expects_reply(m: &MessageRef) -> bool
    ensures { result ≡ routing.expects_reply (envelope_at m.now) }
{
    m.kind == 1 && m.flags & 1 == 0
}

impl Inner {
    /// Hands a message of the bus's own to its receivers.
    fn hand(&mut self, message: &Message) -> Result<(), BusFault>
        requires ready { IsReady (state_of self.old) }
        requires meets { MeetsRules (envelope_of message.now) }
        ensures ok { OnOk result (inner_of self.new ≡ handed_out (inner_of self.old) (envelope_of message.now)) }
        ensures spent { IsErrOf result BusFault.Spent → ⊥ }
    {
        let spelled = write_own(self.alloc, message)?;
        let (names, rules) = (&self.names, &self.rules);
        let receivers = receivers_of(self.alloc, &self.joined, names, rules, message, &spelled)?;
        hand_out(&mut self.queues, &spelled, &receivers)?;
        Ok(())
    }

    /// Says one message, with the next number.
    fn say_one(&mut self, message: Message) -> Result<(), BusFault>
        requires ready { IsReady (state_of self.old) }
        requires sayable { MaySay (envelope_of message) }
        ensures ok { OnOk result
            (inner_of self.new ≡ stepped (inner_of self.old) (speaks (state_of self.old) (envelope_of message ∷ []))) }
        ensures ready { OnOk result (IsReady (state_of self.new)) }
        ensures spent { IsErrOf result BusFault.Spent → self.old.next ≡ 4294967296 }
    {
        if self.next > u64::from(u32::MAX) {
            return Err(BusFault::Spent);
        }
        let mut message = message;
        message.serial = self.next as u32;
        self.hand(&message)?;
        if self.own.push_back(message).is_err() {
            return Err(BusFault::NoMemory);
        }
        self.next += 1;
        Ok(())
    }

    /// Says messages, with the next numbers. `Spent` only where they would pass the last.
    pub(crate) fn say(&mut self, told: Vec<Message>) -> Result<(), BusFault>
        requires ready { IsReady (state_of self.old) }
        requires sayable { All MaySay (map envelope_of told.items) }
        ensures ok { OnOk result
            (inner_of self.new
            ≡ stepped (inner_of self.old) (speaks (state_of self.old) (map envelope_of told.items))) }
        ensures ready { OnOk result (IsReady (state_of self.new)) }
        ensures spent { IsErrOf result BusFault.Spent → 4294967296 < self.old.next + length told.items }
    {
        let mut rest = VecDeque::from(told);
        while let Some(message) = rest.pop_front() {
            self.say_one(message)?;
        }
        Ok(())
    }

    /// The reply to a call of a connection, as a message.
    pub fn reply(&self, conn: u32, serial: u32, reply: Reply) -> Result<Message, NoMemory>
        ensures { IfOk result
            (λ message. envelope_of message ≡ reply_message (state_of self.now) conn serial (reply_of reply)) }
    {
        let caller = self.names.unique_name(conn);
        match reply {
            Reply::Returns(values) => return_to(self.alloc, caller, serial, values),
            Reply::Fails(error) => error_to(self.alloc, caller, serial, error),
        }
    }

    /// Says what is told, and behind it the reply to a call, where one is expected.
    pub(crate) fn conclude(
        &mut self,
        conn: u32,
        m: &MessageRef,
        told: Vec<Message>,
        reply: Reply,
    ) -> Result<(), BusFault>
        requires ready { IsReady (state_of self.old) }
        requires meets { MeetsRules (envelope_at m.now) }
        requires sayable { All MaySay (map envelope_of told.items) }
        requires typed { IsTyped (reply_of reply) }
        ensures ok { OnOk result (inner_of self.new ≡ stepped (inner_of self.old) (speaks (state_of self.old)
            (map envelope_of told.items ++ replies (state_of self.old) conn (envelope_at m.now) (reply_of reply)))) }
        ensures ready { OnOk result (IsReady (state_of self.new)) }
        ensures spent { IsErrOf result BusFault.Spent → 4294967296
            < self.old.next
            + length
            (map envelope_of told.items ++ replies (state_of self.old) conn (envelope_at m.now) (reply_of reply)) }
    {
        let mut told = told;
        if expects_reply(m) {
            told.push(self.reply(conn, m.serial, reply)?)?;
        }
        self.say(told)
    }
}
