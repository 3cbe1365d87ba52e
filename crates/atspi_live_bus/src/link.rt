//! A link of the bus: its authentication, what is held of a message that is not whole, and the bytes that wait to be
//! given.

ghost use Rattle.std.specs.Prelude.{◌≡◌, ◌<◌, ◌≤◌, ◌++◌, ℕ, List, [], drop, length, IfErr, IfOk, MatchResult, OnErr};
ghost use Rattle.std.specs.Prelude.{OnOk, true};
ghost use Rattle.atspi_auth.specs.declared.stage.Stage.TheVariants.{Over};
ghost use Rattle.atspi_message.specs.Envelope.{Envelope};
ghost use Rattle.atspi_bus.specs.View.{bus_of, given_of};
ghost use Rattle.atspi_live_host.specs.Calls.{IsOpen};
ghost use Rattle.atspi_live_host.specs.declared.call.Did.{Did};
ghost use Rattle.atspi_live_bus.specs.inner.Rounds.{Does};
ghost use Rattle.atspi_live_bus.specs.inner.Seats.{HasRead, HasReadOnly, HasSent};
ghost use Rattle.atspi_live_bus.specs.Asked.{Spends};
ghost use Rattle.atspi_live_bus.specs.Stops.{IsFree, IsWant};
ghost use Rattle.atspi_live_bus.specs.Turns.{Converses, Tells};
ghost use Rattle.atspi_live_bus.specs.inner.Turns.{Fetches, Gives, IsSilent, Remains};

use crate::stop::{Stop, stop_of};
use atspi_auth::{AuthFault, Server};
use atspi_bus::{Bus, BusFault};
use atspi_live_host::{Did, Host};
use atspi_stream::{Feeder, Got};
use std::alloc::Global;

/// How many bytes are moved in one call at the most.
const PIECE: usize = 4096;

/// What a link has next for the bus.
#[derive(Clone, Copy, Debug, PartialEq, Eq)]
pub(crate) enum Next {
    /// The bus took a message.
    Took,
    /// The next message is not whole yet.
    NotYet,
    /// The next message is malformed.
    Bad,
}

/// A link, and the connection of the bus that it is.
#[derive(Drop)]
pub(crate) struct Link {
    pub(crate) number: u32,
    pub(crate) conn: u32,
    server: Server,
    feeder: Feeder,
    /// The bytes that wait to be given, as many as one call gives and a line more at the most.
    out: Vec<u8>,
}

impl Link {
    /// Nothing was heard or said.
    pub(crate) fn new(alloc: Global, number: u32, conn: u32) -> Link
        ensures number { result.number ≡ number }
        ensures conn { result.conn ≡ conn }
        ensures begins { Converses [] [] result [] [] }
    {
        Link {
            number,
            conn,
            server: Server::new(alloc),
            feeder: Feeder::new(alloc),
            out: Vec::new(alloc),
        }
    }

    /// Hears a piece of what the peer sends: lines of authentication, and behind them bytes of messages. False where a
    /// line is at fault.
    fn hear(&mut self, piece: &[u8]) -> Result<bool, Stop>
        ensures ok { IfOk result
            (λ goes_on. (n : ℕ) (took : List Envelope) (handed t g : List ℕ) → Converses took handed self.old t g
            → Remains goes_on (Did.Done n) took handed self.new (t ++ piece.now) g) }
        ensures number { self.new.number ≡ self.old.number }
        ensures conn { self.new.conn ≡ self.old.conn }
        ensures cause { IfErr result IsWant }
    {
        let taken = match self.server.feed(piece) {
            Ok(taken) => taken,
            Err(AuthFault::NoMemory) => return Err(Stop::NoMemory),
            Err(AuthFault::NoZero | AuthFault::TooLong | AuthFault::Early | AuthFault::Rejected) =>
                {
                    return Ok(false);
                }
        };
        match self.feeder.feed(&piece[taken..]) {
            Ok(()) => Ok(true),
            Err(_) => Err(Stop::NoMemory),
        }
    }

    /// One read into the piece, and what it brings is heard. False where the link has ended, has failed, or sent a line
    /// that is at fault.
    pub(crate) fn take_in<H: Host>(
        &mut self,
        host: &mut H,
        piece: &mut [u8; PIECE],
    ) -> Result<bool, Stop>
        requires { IsOpen self.old.number (H.links host.old) }
        ensures calls { MatchResult result
            (λ goes_on. Does (H.calls host.old) (H.calls host.new) (HasRead self.old.number goes_on self.old self.new))
            (λ _. Does (H.calls host.old) (H.calls host.new) (HasReadOnly self.old.number self.old)) }
        ensures number { self.new.number ≡ self.old.number }
        ensures conn { self.new.conn ≡ self.old.conn }
        ensures links { H.links host.new ≡ H.links host.old }
        ensures same { H.faults host.new ≡ H.faults host.old }
        ensures cause { IfErr result IsWant }
    {
        match host.read(self.number, piece) {
            Did::Done(n) => self.hear(&piece[..n as usize]),
            Did::NotYet => Ok(true),
            Did::End | Did::Failed => Ok(false),
        }
    }

    /// The bus takes the next message, if it is whole.
    pub(crate) fn tell(&mut self, bus: &mut Bus) -> Result<Next, Stop>
        ensures ok { IfOk result (λ next. Tells next self.old self.new (bus_of bus.old) (bus_of bus.new)) }
        ensures spent { IfErr result (λ stop. stop ≡ Stop.Spent → Spends (bus_of bus.old)) }
        ensures given { given_of bus.new ≡ given_of bus.old }
        ensures number { self.new.number ≡ self.old.number }
        ensures conn { self.new.conn ≡ self.old.conn }
        ensures cause { IfErr result IsFree }
    {
        match self.feeder.next() {
            Got::Message(message) => match bus.take(self.conn, &message) {
                Ok(()) => Ok(Next::Took),
                Err(fault) => Err(stop_of(fault)),
            },
            Got::NotYet => Ok(Next::NotYet),
            Got::Bad(_) => Ok(Next::Bad),
        }
    }

    /// Some bytes wait to be given, behind the others.
    fn queue(&mut self, bytes: &[u8]) -> Result<(), Stop>
        ensures out { OnOk result (self.new.out.items ≡ self.old.out.items ++ bytes.now) }
        ensures server { self.new.server ≡ self.old.server }
        ensures feeder { self.new.feeder ≡ self.old.feeder }
        ensures number { self.new.number ≡ self.old.number }
        ensures conn { self.new.conn ≡ self.old.conn }
        ensures cause { IfErr result IsWant }
    {
        match self.out.extend_from_slice(bytes) {
            Ok(()) => Ok(()),
            Err(_) => Err(Stop::NoMemory),
        }
    }

    /// The lines that are to be said wait to be given, until enough bytes wait.
    fn say_lines(&mut self) -> Result<(), Stop>
        ensures talks { OnOk result
            ((took : List Envelope) (handed t g : List ℕ) → Converses took handed self.old t g
            → Converses took handed self.new t g) }
        ensures done { OnOk result (length self.new.out.items < PIECE → self.new.server.unsent ≡ []) }
        ensures number { self.new.number ≡ self.old.number }
        ensures conn { self.new.conn ≡ self.old.conn }
        ensures cause { IfErr result IsWant }
    {
        'lines: while self.out.len() < PIECE {
            let Some(line) = self.server.out() else {
                return Ok(());
            };
            if let Err(stop) = self.queue(line.bytes()) {
                return Err(stop);
            }
        }
        Ok(())
    }

    /// What the bus has for this connection waits to be given, until enough bytes wait.
    fn fetch(&mut self, bus: &mut Bus) -> Result<(), Stop>
        requires over { self.old.server.stage ≡ Over }
        requires said { length self.old.out.items < PIECE → self.old.server.unsent ≡ [] }
        ensures ok { OnOk result (Fetches self.old.conn (bus_of bus.old) (bus_of bus.new) self.old self.new) }
        ensures silent { OnOk result (length self.new.out.items < PIECE → IsSilent (bus_of bus.new) self.new) }
        ensures given { given_of bus.new ≡ given_of bus.old }
        ensures number { self.new.number ≡ self.old.number }
        ensures conn { self.new.conn ≡ self.old.conn }
        ensures cause { IfErr result IsWant }
    {
        let conn = self.conn;
        'pieces: while self.out.len() < PIECE {
            let front = bus.front(conn);
            if front.is_empty() {
                return Ok(());
            }
            let n = front.len().min(PIECE - self.out.len());
            if let Err(stop) = self.queue(&front[..n]) {
                return Err(stop);
            }
            bus.pop(conn, n as u32);
        }
        Ok(())
    }

    /// What is to be said now waits to be given: lines, and once these are over what the bus has for this connection.
    fn fill(&mut self, bus: &mut Bus) -> Result<(), Stop>
        ensures ok { OnOk result (Fetches self.old.conn (bus_of bus.old) (bus_of bus.new) self.old self.new) }
        ensures silent { OnOk result (length self.new.out.items < PIECE → IsSilent (bus_of bus.new) self.new) }
        ensures given { given_of bus.new ≡ given_of bus.old }
        ensures number { self.new.number ≡ self.old.number }
        ensures conn { self.new.conn ≡ self.old.conn }
        ensures cause { IfErr result IsWant }
    {
        if let Err(stop) = self.say_lines() {
            return Err(stop);
        }
        if !self.server.ready() {
            return Ok(());
        }
        self.fetch(bus)
    }

    /// The bytes that wait, as many as are given in one call.
    fn front(&self) -> &[u8]
        ensures front { (rest : List ℕ) × (self.now.out.items ≡ result.now ++ rest) }
        ensures some { 0 < length self.now.out.items → 0 < length result.now }
        ensures few { length result.now ≤ PIECE }
    {
        &self.out[..self.out.len().min(PIECE)]
    }

    /// The first `n` bytes were given. Those behind them, at most one call's and a line, move to the front.
    fn gave(&mut self, n: usize)
        requires { n ≤ length self.old.out.items }
        ensures out { self.new.out.items ≡ drop n self.old.out.items }
        ensures server { self.new.server ≡ self.old.server }
        ensures feeder { self.new.feeder ≡ self.old.feeder }
        ensures number { self.new.number ≡ self.old.number }
        ensures conn { self.new.conn ≡ self.old.conn }
    {
        let left = self.out.len() - n;
        self.out.copy_within(n.., 0);
        self.out.truncate(left);
    }

    /// One write, where output waits. False where it failed.
    pub(crate) fn give<H: Host>(&mut self, host: &mut H, bus: &mut Bus) -> Result<bool, Stop>
        requires { IsOpen self.old.number (H.links host.old) }
        ensures calls { IfOk result
            (λ goes_on. Does (H.calls host.old) (H.calls host.new)
            (HasSent self.old.number goes_on (bus_of bus.new) self.new)) }
        ensures ok { OnOk result
            (Gives self.old.conn self.old.number (H.calls host.old) (H.calls host.new) (bus_of bus.old) (bus_of bus.new)
            self.old self.new) }
        ensures err { OnErr result (H.calls host.new ≡ H.calls host.old) }
        ensures given { given_of bus.new ≡ given_of bus.old }
        ensures number { self.new.number ≡ self.old.number }
        ensures conn { self.new.conn ≡ self.old.conn }
        ensures links { H.links host.new ≡ H.links host.old }
        ensures same { H.faults host.new ≡ H.faults host.old }
        ensures cause { IfErr result IsWant }
    {
        if let Err(stop) = self.fill(bus) {
            return Err(stop);
        }
        if self.out.is_empty() {
            return Ok(true);
        }
        match host.write(self.number, self.front()) {
            Did::Done(n) => {
                self.gave(n as usize);
                Ok(true)
            }
            Did::NotYet => Ok(true),
            Did::End | Did::Failed => Ok(false),
        }
    }
}
