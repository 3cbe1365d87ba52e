//! Pieces of a stream of bytes to whole messages.

ghost use Rattle.std.specs.Prelude.{◌≡◌, ◌<◌, ◌≤◌, ◌+◌, ◌++◌, ◌↔◌, ℕ, List, [], length, OnOk, OnErr};
ghost use Rattle.std.specs.Borrow.{sem};
ghost use Rattle.std.specs.Io.BufRead.{Rests};
ghost use Rattle.atspi_message.specs.Envelope.{Envelope};
ghost use Rattle.atspi_message.specs.Bytes.{IsMessage};
ghost use Rattle.atspi_stream.specs.Laws.{AreBytes};
ghost use Rattle.atspi_stream.specs.inner.Seen.{Sees};
ghost use Rattle.atspi_stream.specs.Stream.{stated, AwaitsMore, HasFault, TakesPiece, IsMessageGiven, WaitsRightly};
ghost use Rattle.atspi_stream.specs.Stream.{TellsFault, IsFaultTold, Leaves};
ghost use Rattle.atspi_stream.specs.contracts.feeder.Feeder.{the_row};

use atspi_base::NoMemory;
use atspi_message::total;
use atspi_message_in_place::MessageRef;
use atspi_types::Fault;
use std::alloc::Global;
use std::marker::Model;

/// What a stream has next.
#[derive(Clone, Copy)]
pub enum Got<'a> {
    /// A whole message, read where it lies.
    Message(MessageRef<'a>),
    /// The next message is not whole yet.
    NotYet,
    /// The next message is malformed; its fault's place counts from its first byte. Nothing behind it is read.
    Bad(Fault),
}

/// Takes a stream of bytes in pieces of any length, and gives its messages (D-Bus Specification, "Message Format").
/// Contracts see the list of the bytes that are held: fed, and not yet given out as messages.
///
/// A byte is moved at most once for each time that the bytes given out outgrow those held, so all work is linear.
#[derive(Drop)]
pub struct Feeder {
    alloc: Global,
    bytes: Vec<u8>,
    start: usize,
}

impl Model for Feeder {
    ghost use Rattle.std.specs.Prelude.{ℕ, List, ◌≤◌, drop, length};

    ghost Value = { List ℕ };

    ghost view = { λ f. drop f.start f.bytes.items };

    ghost invariant = { λ f. f.start ≤ length f.bytes.items };
}

/// What begins the bytes, and how many of them a message takes.
#[inline(always)]
fn look(held: &[u8]) -> (Got<'_>, usize)
    ensures seen { Sees result held.now }
    ensures bytes { AreBytes held.now }
{
    let Some(first) = held.first_chunk::<16>() else {
        return (Got::NotYet, 0);
    };
    let length = match total(first) {
        Ok(length) => length as usize,
        Err(fault) => return (Got::Bad(fault), 0),
    };
    if held.len() < length {
        return (Got::NotYet, 0);
    }
    match MessageRef::parse(&held[..length]) {
        Ok(message) => (Got::Message(message), length),
        Err(fault) => (Got::Bad(fault), 0),
    }
}

/// How many bytes a message that begins with these lacks.
fn lacking(held: &[u8]) -> usize
    ensures awaits { (0 < result) ↔ AwaitsMore held.now }
    ensures front { length held.now < 16 → length held.now + result ≡ 16 }
    ensures rest { 16 ≤ length held.now → 0 < result → length held.now + result ≡ stated held.now }
{
    let Some(first) = held.first_chunk::<16>() else {
        return 16 - held.len();
    };
    match total(first) {
        Ok(length) => (length as usize).saturating_sub(held.len()),
        Err(_) => 0,
    }
}

impl Feeder {
    /// Nothing is held yet.
    pub fn new(alloc: Global) -> Feeder
        ensures { result ≡ [] }
    {
        Feeder {
            alloc,
            bytes: Vec::new(alloc),
            start: 0,
        }
    }

    /// How many bytes are held.
    #[inline(always)]
    pub fn len(&self) -> usize
        ensures { result ≡ length self.now }
    {
        self.bytes.len() - self.start
    }

    /// How many bytes the next message awaits: those that its first 16 lack, and once these are there, those that it
    /// lacks in whole. 0 exactly where it is whole or malformed in its first 16 bytes. No memory is taken.
    pub fn missing(&self) -> usize
        ensures awaits { (0 < result) ↔ AwaitsMore self.now }
        ensures front { length self.now < 16 → length self.now + result ≡ 16 }
        ensures rest { 16 ≤ length self.now → 0 < result → length self.now + result ≡ stated self.now }
    {
        lacking(&self.bytes[self.start..])
    }

    /// Moves the bytes that are held to the front, where those given out are as many or more.
    fn settle(&mut self)
        ensures { self.new ≡ self.old }
    {
        let held = self.len();
        if held <= self.start {
            self.bytes.copy_within(self.start.., 0);
            self.bytes.truncate(held);
            self.start = 0;
        }
    }

    /// Takes the next piece of the stream. After `NoMemory` the feeder is as before.
    pub fn feed(&mut self, piece: &[u8]) -> Result<(), NoMemory>
        ensures ok { OnOk result (self.new ≡ self.old ++ piece.now) }
        ensures err { OnErr result (self.new ≡ self.old) }
        // All bytes fed are those of the messages given, and behind them those that are held.
        ensures history { OnOk result (TakesPiece self.old piece.now self.new) }
    {
        self.settle();
        self.bytes.extend_from_slice(piece)?;
        Ok(())
    }

    /// The next message, once it is whole: it lies in the bytes that are held, and is looked at until the next call.
    /// `Bad` tells its first fault (reasons 2 to 35, its place counted from the message's first byte), as soon as the
    /// bytes show it, and the same ever after. No memory is taken.
    #[inline(always)]
    pub fn next(&mut self) -> Got<'_>
        // A message at the front is given.
        ensures only { (e : Envelope) (bytes rest : List ℕ) → IsMessage e bytes → self.old ≡ bytes ++ rest
            → IsMessageGiven result e }
        ensures not_yet { WaitsRightly result self.old }
        ensures waits { AwaitsMore self.old → result ≡ Got.NotYet }
        ensures bad { TellsFault result self.old }
        ensures told { (place reason : ℕ) → HasFault self.old place reason → IsFaultTold result place reason }
        // What is held once what was given is looked at no more: the message and its bytes are gone, and nothing else
        // is.
        ensures* left { sem 𝓛 (Rests the_row self.entry (λ new. Leaves result self.old new)) }
    {
        let (got, length) = look(&self.bytes[self.start..]);
        self.start += length;
        got
    }
}
