//! The bytes that wait to be given on a link.

ghost use Rattle.std.specs.Prelude.{◌≡◌, ◌≤◌, ◌++◌, ◌==◌, [], drop, length, take, OnOk, OnErr};
ghost use Rattle.atspi_message.specs.Envelope.{envelope_of};
ghost use Rattle.atspi_message.specs.Rules.{MeetsRules};
ghost use Rattle.atspi_live_conversation.specs.Sent.{IsSent};

use atspi_base::{Bytes, NoMemory};
use atspi_message::{Message, WriteFault};
use std::alloc::Global;
use std::marker::Model;

/// How many bytes are given in one call at the most.
const PIECE: usize = 4096;

/// Bytes that wait to be given, oldest first. A byte is moved at most once for each time that the bytes given outgrow
/// those that wait.
#[derive(Drop)]
pub(crate) struct Unsent {
    alloc: Global,
    bytes: Vec<u8>,
    start: usize,
}

impl Model for Unsent {
    ghost use Rattle.std.specs.Prelude.{ℕ, List, ◌≤◌, drop, length};

    ghost Value = { List ℕ };

    ghost view = { λ u. drop u.start u.bytes.items };

    ghost invariant = { λ u. u.start ≤ length u.bytes.items };
}

impl Unsent {
    /// Nothing waits.
    pub fn new(alloc: Global) -> Unsent
        ensures { result ≡ [] }
    {
        Unsent {
            alloc,
            bytes: Vec::new(alloc),
            start: 0,
        }
    }

    /// How many bytes wait.
    pub fn len(&self) -> usize
        ensures { result ≡ length self.now }
    {
        self.bytes.len() - self.start
    }

    /// The first of the bytes, as many as are given in one call.
    pub fn front(&self) -> &[u8]
        ensures { result.now ≡ take PIECE self.now }
    {
        let n = self.len().min(PIECE);
        &self.bytes[self.start..self.start + n]
    }

    /// Moves the bytes that wait to the front, where those given are as many or more.
    fn settle(&mut self)
        ensures { self.new ≡ self.old }
    {
        let waiting = self.len();
        if waiting <= self.start {
            self.bytes.copy_within(self.start.., 0);
            self.bytes.truncate(waiting);
            self.start = 0;
        }
    }

    /// The first `n` bytes were given.
    pub fn pop(&mut self, n: usize)
        requires { n ≤ length self.old }
        ensures { self.new ≡ drop n self.old }
    {
        self.start += n;
        self.settle();
    }

    /// Appends bytes. After want of memory none was appended.
    pub fn push(&mut self, bytes: &[u8]) -> Result<(), NoMemory>
        ensures ok { OnOk result (self.new ≡ self.old ++ bytes.now) }
        ensures err { OnErr result (self.new ≡ self.old) }
    {
        self.bytes.extend_from_slice(bytes)?;
        Ok(())
    }

    /// Appends a message as it is written. One that passes the limits of the wire is left out.
    pub fn put(&mut self, message: &Message) -> Result<(), NoMemory>
        requires { MeetsRules (envelope_of message.now) }
        ensures { OnOk result (IsSent (envelope_of message.now) self.old self.new) }
    {
        let mut bytes = Bytes::new(self.alloc);
        match message.write(&mut bytes) {
            Ok(()) => self.push(bytes.as_slice()),
            Err(WriteFault::Big) => Ok(()),
            Err(WriteFault::NoMemory) => Err(NoMemory),
        }
    }
}
