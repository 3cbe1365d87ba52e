//! Messages that are to be sent and have no numbers yet.

ghost use Rattle.std.specs.Prelude.{◌≡◌, [], ◌∷◌, ◌++◌, length, OnOk, OnErr};
ghost use Rattle.atspi_message.specs.Envelope.{envelope_of};

use atspi_base::NoMemory;
use atspi_message::Message;
use std::alloc::Global;
use std::collections::VecDeque;
use std::marker::Model;

/// Messages that are to be sent, in order. They get their numbers when they are queued.
#[derive(Drop)]
pub struct Mail {
    pub(crate) messages: VecDeque<Message>,
}

impl Model for Mail {
    ghost use Rattle.std.specs.Prelude.{List, map};
    ghost use Rattle.std.specs.Coded.{coded_list};
    ghost use Rattle.atspi_message.specs.Envelope.{Envelope, envelope_of};
    ghost use Rattle.atspi_protocol.specs.ends.DataCode.{envelope_code};

    ghost Value = { List Envelope };

    ghost coded = { coded_list envelope_code };

    ghost view = { λ m. map envelope_of m.messages.items };
}

impl Mail {
    /// No message.
    pub fn new(alloc: Global) -> Mail
        ensures { result ≡ [] }
    {
        Mail {
            messages: VecDeque::new(alloc),
        }
    }

    /// How many messages there are.
    pub fn len(&self) -> usize
        ensures { result ≡ length self.now }
    {
        self.messages.len()
    }

    /// Appends a message. After want of memory all is as before.
    pub fn push(&mut self, message: Message) -> Result<(), NoMemory>
        ensures ok { OnOk result (self.new ≡ self.old ++ envelope_of message ∷ []) }
        ensures err { OnErr result (self.new ≡ self.old) }
    {
        self.messages.push_back(message)?;
        Ok(())
    }
}
