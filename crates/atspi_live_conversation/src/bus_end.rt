//! What a conversation wants of an end of the bus.

ghost use Rattle.std.specs.Prelude.{◌<◌, ℕ, List, IfNone, IfSome, IsErrOf, OnOk, OnErr};
ghost use Rattle.atspi_message.specs.Envelope.{Envelope, envelope_of};
ghost use Rattle.atspi_message_in_place.specs.View.{envelope_at};
ghost use Rattle.atspi_protocol.specs.declared.ends.fault.EndFault.{EndFault};
ghost use Rattle.atspi_live_conversation.specs.Talking.{Takes, HandsOut, HasNone, Rests, MaySend, MaySpeak};

use atspi_message::Message;
use atspi_message_in_place::MessageRef;
use atspi_protocol::ends::EndFault;

/// An end of the bus: it takes messages, and hands out its own.
pub trait BusEnd {
    /// From its start on it told these bytes beside the link, and took the first messages and handed out the others.
    ghost Stands: { List ℕ → Self → List Envelope → List Envelope → Type 0 };

    /// The messages that it sends for one more would pass the last number.
    ghost IsSpent: { Self → Envelope → Type 0 };

    /// How many messages it has queued.
    ghost queued: { Self → ℕ };

    /// Takes a message, and queues what it sends then. After a fault all is as before.
    fn take(&mut self, m: &MessageRef) -> Result<(), EndFault>
        requires { MaySpeak Stands self.old }
        ensures ok { OnOk result ((aside : List ℕ) → Takes (Stands aside) self.old self.new (envelope_at m.now)) }
        ensures spent { IsErrOf result EndFault.Spent → IsSpent self.old (envelope_at m.now) }
        ensures err { OnErr result ((aside : List ℕ) → Rests (Stands aside) self.old self.new) };

    /// The oldest queued message, which is no longer queued.
    fn next(&mut self) -> Option<Message>
        requires { MaySpeak Stands self.old }
        ensures some { IfSome result
            (λ message. (aside : List ℕ) → HandsOut (Stands aside) self.old self.new (envelope_of message)) }
        ensures meets { IfSome result
            (λ message. (aside : List ℕ) → MaySend (Stands aside) self.old (envelope_of message)) }
        ensures fewer { IfSome result (λ message. queued self.new < queued self.old) }
        ensures none { IfNone result ((aside : List ℕ) → Rests (Stands aside) self.old self.new) }
        ensures empty { IfNone result (HasNone queued self.new) };
}
