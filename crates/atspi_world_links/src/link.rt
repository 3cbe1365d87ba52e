//! A link between an end and the bus: bytes that came and were not taken.

ghost use Rattle.std.specs.Prelude.{◌≡◌, ◌≤◌, ◌==◌, ◌++◌, [], length, drop, IsErrOf, OnOk, OnErr};
ghost use Rattle.atspi_message.specs.Envelope.{envelope_of};
ghost use Rattle.atspi_message.specs.Rules.{MeetsRules};
ghost use Rattle.atspi_message.specs.Bytes.{IsMessage, FitsWire, rising_fields, written};

use crate::fault::SendFault;
use crate::rules::meets_rules;
use atspi_base::{Bytes, NoMemory};
use atspi_message::{Message, WriteFault};
use std::alloc::Global;
use std::marker::Model;

/// The bytes of messages that one side sent and the other did not take yet. Contracts see the list of them.
#[derive(Drop)]
pub struct Link {
    bytes: Bytes,
    /// The first so many were taken.
    taken: usize,
}

impl Model for Link {
    ghost use Rattle.std.specs.Prelude.{ℕ, List, ◌≤◌, drop, length};

    ghost Value = { List ℕ };

    ghost view = { λ l. drop l.taken l.bytes };

    ghost invariant = { λ l. l.taken ≤ length l.bytes };
}

impl Link {
    /// Nothing was sent.
    pub fn new(alloc: Global) -> Link
        ensures { result ≡ [] }
    {
        Link {
            bytes: Bytes::new(alloc),
            taken: 0,
        }
    }

    /// How many bytes wait.
    pub fn len(&self) -> usize
        ensures { result ≡ length self.now }
    {
        self.bytes.len() - self.taken
    }

    /// Whether none wait.
    pub fn is_empty(&self) -> bool
        ensures { result ≡ (length self.now == 0) }
    {
        self.len() == 0
    }

    /// The bytes that wait.
    pub fn as_slice(&self) -> &[u8]
        ensures { result.now ≡ self.now }
    {
        &self.bytes.as_slice()[self.taken..]
    }

    /// Forgets what was taken, where nothing waits behind it.
    fn settle(&mut self)
        ensures { self.new ≡ self.old }
    {
        if self.bytes.len() == self.taken {
            self.bytes.truncate(0);
            self.taken = 0;
        }
    }

    /// The bytes of a message come behind those that wait. After a fault all is as before.
    pub fn send(&mut self, message: &Message) -> Result<(), SendFault>
        ensures ok { OnOk result (self.new ≡ self.old ++ written (envelope_of message.now)) }
        ensures message { OnOk result (IsMessage (envelope_of message.now) (written (envelope_of message.now))) }
        ensures unsendable { IsErrOf result SendFault.Unsendable → MeetsRules (envelope_of message.now)
            → ¬ FitsWire (envelope_of message.now) (rising_fields (envelope_of message.now)) }
        ensures err { OnErr result (self.new ≡ self.old) }
    {
        if !meets_rules(message) {
            return Err(SendFault::Unsendable);
        }
        self.settle();
        match message.write(&mut self.bytes) {
            Ok(()) => Ok(()),
            Err(WriteFault::Big) => Err(SendFault::Unsendable),
            Err(WriteFault::NoMemory) => Err(SendFault::NoMemory),
        }
    }

    /// A piece of what was sent comes behind the bytes that wait. After want of memory all is as before.
    pub fn feed(&mut self, piece: &[u8]) -> Result<(), NoMemory>
        ensures ok { OnOk result (self.new ≡ self.old ++ piece.now) }
        ensures err { OnErr result (self.new ≡ self.old) }
    {
        self.settle();
        self.bytes.extend(piece)
    }

    /// The first bytes that wait are gone.
    pub fn pop(&mut self, count: usize)
        requires { count ≤ length self.old }
        ensures { self.new ≡ drop count self.old }
    {
        // no more than all bytes are taken
        let rest = self.len() - count;
        self.taken = self.bytes.len() - rest;
    }

    /// What waits is lost.
    pub fn clear(&mut self)
        ensures { self.new ≡ [] }
    {
        self.bytes.truncate(0);
        self.taken = 0;
    }
}
