//! The bus and its links, in rounds over a host.

ghost use Rattle.std.specs.Prelude.{◌≡◌, ◌<◌, ◌≤◌, ◌==◌, [], length, position, true, false, IsTrue, IfErr, IfOk};
ghost use Rattle.std.specs.Prelude.{IfSome, MatchResult, OnOk};
ghost use lib.Dec.{leb};
ghost use Rattle.std.specs.List.{remove};
ghost use Rattle.atspi_match.specs.routing.Queues.{empty_bus};
ghost use Rattle.atspi_bus.specs.View.{bus_of, given_of};
ghost use Rattle.atspi_live_host.specs.Calls.{Adds};
ghost use Rattle.atspi_live_host.specs.inner.Calls.{Differ};
ghost use Rattle.atspi_live_host.specs.declared.call.Call.{Call};
ghost use Rattle.atspi_live_bus.specs.Rounds.{AreTurns, Breaks, IsRound};
ghost use Rattle.atspi_live_bus.specs.inner.Rounds.{Moves};
ghost use Rattle.atspi_live_bus.specs.inner.Seats.{Dismisses, GoesOpen, HasAccepted, Hears, Leaves, MayTake, Settles};
ghost use Rattle.atspi_live_bus.specs.inner.Seats.{Takes, TakesAll, TakesCut, TakesNone, Writes, conn_at, held};
ghost use Rattle.atspi_live_bus.specs.inner.Seats.{number_at, numbers_of, seats};
ghost use Rattle.atspi_live_bus.specs.inner.Serving.{Serves, numbers};
ghost use Rattle.atspi_live_bus.specs.Stops.{IsFree, IsWant, StopBlames};
ghost use Rattle.atspi_live_bus.specs.Turns.{StopsAt};
ghost use Rattle.atspi_live_bus.specs.inner.Turns.{Goes, IsTold, Seats};

use crate::link::{Link, Next};
use crate::stop::{Stop, stop_of};
use atspi_bus::Bus;
use atspi_live_host::{Did, Host};
use std::alloc::Global;

/// How many bytes are taken in one read at the most.
const PIECE: usize = 4096;

/// How many bytes wait for a connection at the most.
const QUOTA: u32 = 16_777_216;

/// The bus, and its links in the order in which they joined, which is that of their connections.
#[derive(Drop)]
pub(crate) struct Hall {
    alloc: Global,
    bus: Bus,
    links: Vec<Link>,
}

impl Hall {
    /// Nobody has joined.
    pub(crate) fn new(alloc: Global) -> Hall
        ensures links { result.links.items ≡ [] }
        ensures bus { bus_of result.bus ≡ empty_bus QUOTA }
        ensures given { given_of result.bus ≡ 0 }
    {
        Hall {
            alloc,
            bus: Bus::new(alloc, QUOTA),
            links: Vec::new(alloc),
        }
    }

    /// Where the link of a connection stands.
    fn place(&self, conn: u32) -> Option<usize>
        ensures first { result ≡ position (λ l. l.conn == conn) self.now.links.items }
        ensures below { IfSome result (λ at. at < length self.now.links.items) }
    {
        self.links.iter().position(|link| link.conn == conn)
    }

    /// Where the link of a number stands.
    fn place_of(&self, number: u32) -> Option<usize>
        ensures first { result ≡ position (λ l. l.number == number) self.now.links.items }
        ensures below { IfSome result (λ at. at < length self.now.links.items) }
    {
        self.links.iter().position(|link| link.number == number)
    }

    /// The same, and looks first where the link stood a moment ago, so that a link that has nothing to say costs no
    /// walk over the others.
    fn place_near(&self, number: u32, near: usize) -> Option<usize>
        requires differ { Differ (numbers self.now.links.items) }
        ensures first { result ≡ position (λ l. l.number == number) self.now.links.items }
        ensures below { IfSome result (λ at. at < length self.now.links.items) }
    {
        if near < self.links.len() && self.links[near].number == number {
            return Some(near);
        }
        self.place_of(number)
    }

    /// Where the first link stands whose connection is this one or a later one.
    fn next_due(&self, from: u64) -> Option<usize>
        ensures first { result ≡ position (λ l. leb from l.conn) self.now.links.items }
        ensures below { IfSome result (λ at. at < length self.now.links.items) }
    {
        self.links
            .iter()
            .position(|link| from <= u64::from(link.conn))
    }

    /// A link that was given joins the bus, behind the others. All numbers of connections are never given: there is one
    /// a round at the most.
    fn seat(&mut self, number: u32) -> Result<(), Stop>
        ensures ok { OnOk result (Seats number self.old.bus self.new.bus self.old.links.items self.new.links.items) }
        ensures cause { IfErr result IsWant }
    {
        let Ok(conn) = self.bus.join() else {
            return Err(Stop::NoMemory);
        };
        let Ok(()) = self.links.push(Link::new(self.alloc, number, conn)) else {
            return Err(Stop::NoMemory);
        };
        Ok(())
    }

    /// Takes a link in, if one waits: it joins the bus at once.
    fn admit<H: Host>(&mut self, host: &mut H) -> Result<(), Stop>
        requires serves { Serves (H.links host.old) self.old.links.items }
        ensures calls { MatchResult result
            (λ _. Moves (H.calls host.old) (H.calls host.new) (GoesOpen self.old.bus self.old.links.items) HasAccepted
            (GoesOpen self.new.bus self.new.links.items))
            (λ stop. Moves (H.calls host.old) (H.calls host.new) (GoesOpen self.old.bus self.old.links.items)
            (Breaks stop) (StopsAt stop)) }
        ensures serves { OnOk result (Serves (H.links host.new) self.new.links.items) }
        ensures same { OnOk result (H.faults host.new ≡ H.faults host.old) }
        ensures cause { IfErr result (λ stop. StopBlames stop (H.faults host.old) (H.faults host.new)) }
    {
        match host.accept() {
            Did::Done(number) => self.seat(number),
            Did::NotYet | Did::End => Ok(()),
            Did::Failed => Err(Stop::HostFailed),
        }
    }

    /// A link is closed, and is none of the bus's any more.
    fn close<H: Host>(&mut self, host: &mut H, at: usize)
        requires serves { Serves (H.links host.old) self.old.links.items }
        requires there { at < length self.old.links.items }
        ensures calls { Adds (H.calls host.old) (H.calls host.new) (Call.Close (number_at self.old.links.items at)) }
        ensures links { self.new.links.items ≡ remove self.old.links.items at }
        ensures serves { Serves (H.links host.new) self.new.links.items }
        ensures bus { self.new.bus ≡ self.old.bus }
        ensures same { H.faults host.new ≡ H.faults host.old }
    {
        let gone = self.links.remove(at);
        host.close(gone.number);
    }

    /// The oldest of the bus's own messages is told to nobody else. Whether there was one.
    fn forget_one(&mut self) -> bool
        ensures links { self.new.links.items ≡ self.old.links.items }
        ensures told { IsTold (bus_of self.old.bus) (bus_of self.new.bus) }
        ensures closings { (bus_of self.new.bus).closings ≡ (bus_of self.old.bus).closings }
        ensures given { given_of self.new.bus ≡ given_of self.old.bus }
        ensures none { result ≡ false → (bus_of self.new.bus).own ≡ [] }
        ensures fewer { IsTrue result → length (bus_of self.new.bus).own < length (bus_of self.old.bus).own }
    {
        let oldest = self.bus.own();
        oldest.is_some()
    }

    /// The bus's own messages are told to nobody else.
    fn forget(&mut self)
        ensures links { self.new.links.items ≡ self.old.links.items }
        ensures told { IsTold (bus_of self.old.bus) (bus_of self.new.bus) }
        ensures closings { (bus_of self.new.bus).closings ≡ (bus_of self.old.bus).closings }
        ensures none { (bus_of self.new.bus).own ≡ [] }
        ensures given { given_of self.new.bus ≡ given_of self.old.bus }
    {
        'messages: while self.forget_one() {}
    }

    /// The link of a connection that the bus closed is closed, where it still stands.
    fn dismiss<H: Host>(&mut self, host: &mut H, conn: u32)
        requires serves { Serves (H.links host.old) self.old.links.items }
        ensures calls { Moves (H.calls host.old) (H.calls host.new) (Goes self.old.bus self.old.links.items)
            (Dismisses conn self.old.links.items self.new.links.items) (Goes self.new.bus self.new.links.items) }
        ensures serves { Serves (H.links host.new) self.new.links.items }
        ensures same { H.faults host.new ≡ H.faults host.old }
        ensures bus { self.new.bus ≡ self.old.bus }
        ensures held { held self.new.links.items ≤ held self.old.links.items }
    {
        if let Some(at) = self.place(conn) {
            self.close(host, at);
        }
    }

    /// The links of the connections that the bus closed are closed, in the order of their causes.
    fn settle<H: Host>(&mut self, host: &mut H)
        requires serves { Serves (H.links host.old) self.old.links.items }
        ensures calls { Moves (H.calls host.old) (H.calls host.new) (Goes self.old.bus self.old.links.items)
            (Settles self.old.links.items self.new.links.items) (Goes self.new.bus self.new.links.items) }
        ensures serves { Serves (H.links host.new) self.new.links.items }
        ensures same { H.faults host.new ≡ H.faults host.old }
        ensures held { held self.new.links.items ≤ held self.old.links.items }
    {
        self.forget();
        'closings: while let Some(closing) = self.bus.closed() {
            self.dismiss(host, closing.conn);
        }
    }

    /// A link is closed, and its connection leaves the bus. Of what was heard and said on the link nothing is asked.
    fn part<H: Host>(&mut self, host: &mut H, at: usize) -> Result<(), Stop>
        requires serves { Serves (H.links host.old) self.old.links.items }
        requires there { at < length self.old.links.items }
        ensures calls { MatchResult result
            (λ _. Moves (H.calls host.old) (H.calls host.new) (Goes self.old.bus (remove self.old.links.items at))
            (Leaves true (number_at self.old.links.items at) (conn_at self.old.links.items at) self.old.links.items
            self.new.links.items) (Goes self.new.bus self.new.links.items))
            (λ stop. Moves (H.calls host.old) (H.calls host.new) (Goes self.old.bus (remove self.old.links.items at))
            (Leaves false (number_at self.old.links.items at) (conn_at self.old.links.items at) self.old.links.items
            self.new.links.items) (StopsAt stop)) }
        ensures serves { OnOk result (Serves (H.links host.new) self.new.links.items) }
        ensures same { H.faults host.new ≡ H.faults host.old }
        ensures cause { IfErr result IsFree }
    {
        let conn = self.links[at].conn;
        self.close(host, at);
        match self.bus.leave(conn) {
            Ok(()) => {
                self.settle(host);
                Ok(())
            }
            Err(fault) => Err(stop_of(fault)),
        }
    }

    /// The bus takes the next message of a link, and closes whom it brings to close; one that sent what is malformed is
    /// closed. Whether a message was taken.
    fn attend_one<H: Host>(&mut self, host: &mut H, number: u32, near: usize) -> Result<bool, Stop>
        requires serves { Serves (H.links host.old) self.old.links.items }
        ensures calls { MatchResult result
            (λ more. Moves (H.calls host.old) (H.calls host.new) (Goes self.old.bus self.old.links.items)
            (MayTake more number self.old.links.items self.new.links.items)
            (Goes self.new.bus self.new.links.items))
            (λ stop. Moves (H.calls host.old) (H.calls host.new) (Goes self.old.bus self.old.links.items)
            (TakesNone false number self.old.links.items self.new.links.items) (StopsAt stop)) }
        ensures serves { OnOk result (Serves (H.links host.new) self.new.links.items) }
        ensures fewer { IfOk result (λ more. more ≡ true → held self.new.links.items < held self.old.links.items) }
        ensures same { H.faults host.new ≡ H.faults host.old }
        ensures cause { IfErr result IsFree }
    {
        let Some(at) = self.place_near(number, near) else {
            return Ok(false);
        };
        match self.links[at].tell(&mut self.bus) {
            Ok(Next::Took) => {
                self.settle(host);
                Ok(true)
            }
            Ok(Next::NotYet) => Ok(false),
            Ok(Next::Bad) => match self.part(host, at) {
                Ok(()) => Ok(false),
                Err(stop) => Err(stop),
            },
            Err(stop) => Err(stop),
        }
    }

    /// The bus takes each whole message of a link, until the link is gone.
    fn attend<H: Host>(&mut self, host: &mut H, number: u32, near: usize) -> Result<(), Stop>
        requires serves { Serves (H.links host.old) self.old.links.items }
        ensures calls { MatchResult result
            (λ _. Moves (H.calls host.old) (H.calls host.new) (Goes self.old.bus self.old.links.items)
            (TakesAll true number self.old.links.items self.new.links.items)
            (Goes self.new.bus self.new.links.items))
            (λ stop. Moves (H.calls host.old) (H.calls host.new) (Goes self.old.bus self.old.links.items)
            (TakesAll false number self.old.links.items self.new.links.items) (StopsAt stop)) }
        ensures serves { OnOk result (Serves (H.links host.new) self.new.links.items) }
        ensures same { H.faults host.new ≡ H.faults host.old }
        ensures cause { IfErr result IsFree }
    {
        'messages: loop {
            match self.attend_one(host, number, near) {
                Ok(true) => {}
                Ok(false) => return Ok(()),
                Err(stop) => return Err(stop),
            }
        }
    }

    /// One read of a link, and the bus takes what is then whole. A link that has ended, has failed, or sent what is at
    /// fault is closed.
    fn take_in<H: Host>(
        &mut self,
        host: &mut H,
        at: usize,
        piece: &mut [u8; PIECE],
    ) -> Result<(), Stop>
        requires serves { Serves (H.links host.old) self.old.links.items }
        requires there { at < length self.old.links.items }
        ensures calls { MatchResult result
            (λ _. Moves (H.calls host.old) (H.calls host.new) (Goes self.old.bus self.old.links.items)
            (Hears true (number_at self.old.links.items at) (conn_at self.old.links.items at) self.old.links.items
            self.new.links.items) (Goes self.new.bus self.new.links.items))
            (λ stop. Moves (H.calls host.old) (H.calls host.new) (Goes self.old.bus self.old.links.items)
            (Hears false (number_at self.old.links.items at) (conn_at self.old.links.items at) self.old.links.items
            self.new.links.items) (StopsAt stop)) }
        ensures serves { OnOk result (Serves (H.links host.new) self.new.links.items) }
        ensures same { H.faults host.new ≡ H.faults host.old }
        ensures cause { IfErr result IsFree }
    {
        let number = self.links[at].number;
        match self.links[at].take_in(host, piece) {
            Ok(true) => self.attend(host, number, at),
            Ok(false) => self.part(host, at),
            Err(stop) => Err(stop),
        }
    }

    /// One write of a link that is open, where output waits. One on which it failed is closed.
    fn give<H: Host>(&mut self, host: &mut H, number: u32, near: usize) -> Result<(), Stop>
        requires serves { Serves (H.links host.old) self.old.links.items }
        ensures calls { MatchResult result
            (λ _. Moves (H.calls host.old) (H.calls host.new) (Goes self.old.bus self.old.links.items)
            (Writes true number self.old.links.items self.new.links.items) (Goes self.new.bus self.new.links.items))
            (λ stop. Moves (H.calls host.old) (H.calls host.new) (Goes self.old.bus self.old.links.items)
            (Writes false number self.old.links.items self.new.links.items) (StopsAt stop)) }
        ensures serves { OnOk result (Serves (H.links host.new) self.new.links.items) }
        ensures same { H.faults host.new ≡ H.faults host.old }
        ensures cause { IfErr result IsFree }
    {
        let Some(at) = self.place_near(number, near) else {
            return Ok(());
        };
        match self.links[at].give(host, &mut self.bus) {
            Ok(true) => Ok(()),
            Ok(false) => self.part(host, at),
            Err(stop) => Err(stop),
        }
    }

    /// One read of a link and, where it is still open, one write.
    fn serve<H: Host>(
        &mut self,
        host: &mut H,
        at: usize,
        piece: &mut [u8; PIECE],
    ) -> Result<(), Stop>
        requires serves { Serves (H.links host.old) self.old.links.items }
        requires there { at < length self.old.links.items }
        ensures calls { MatchResult result
            (λ _. Moves (H.calls host.old) (H.calls host.new) (Goes self.old.bus self.old.links.items)
            (Takes (number_at self.old.links.items at) self.old.links.items self.new.links.items)
            (Goes self.new.bus self.new.links.items))
            (λ stop. Moves (H.calls host.old) (H.calls host.new) (Goes self.old.bus self.old.links.items)
            (TakesCut (number_at self.old.links.items at) self.old.links.items) (StopsAt stop)) }
        ensures serves { OnOk result (Serves (H.links host.new) self.new.links.items) }
        ensures same { H.faults host.new ≡ H.faults host.old }
        ensures cause { IfErr result IsFree }
    {
        let number = self.links[at].number;
        match self.take_in(host, at, piece) {
            Ok(()) => self.give(host, number, at),
            Err(stop) => Err(stop),
        }
    }

    /// Each link is served once, in the order in which they joined.
    fn pass<H: Host>(&mut self, host: &mut H) -> Result<(), Stop>
        requires serves { Serves (H.links host.old) self.old.links.items }
        ensures calls { MatchResult result
            (λ _. Moves (H.calls host.old) (H.calls host.new) (GoesOpen self.old.bus self.old.links.items)
            (λ x past. AreTurns true x past (numbers_of (seats self.old.links.items)))
            (GoesOpen self.new.bus self.new.links.items))
            (λ stop. Moves (H.calls host.old) (H.calls host.new) (GoesOpen self.old.bus self.old.links.items)
            (λ x past. AreTurns false x past (numbers_of (seats self.old.links.items))) (StopsAt stop)) }
        ensures serves { OnOk result (Serves (H.links host.new) self.new.links.items) }
        ensures same { H.faults host.new ≡ H.faults host.old }
        ensures cause { IfErr result IsFree }
    {
        let mut from = 0u64;
        // one room for the reads of all links
        let mut piece = [0u8; PIECE];
        for _ in 0..self.links.len() {
            let Some(at) = self.next_due(from) else {
                return Ok(());
            };
            from = u64::from(self.links[at].conn) + 1;
            match self.serve(host, at, &mut piece) {
                Ok(()) => {}
                Err(stop) => return Err(stop),
            }
        }
        Ok(())
    }

    /// One round: an accept, and each link is served once.
    pub(crate) fn round<H: Host>(&mut self, host: &mut H) -> Result<(), Stop>
        requires serves { Serves (H.links host.old) self.old.links.items }
        ensures calls { MatchResult result
            (λ _. Moves (H.calls host.old) (H.calls host.new) (GoesOpen self.old.bus self.old.links.items)
            (IsRound true) (GoesOpen self.new.bus self.new.links.items))
            (λ stop. Moves (H.calls host.old) (H.calls host.new) (GoesOpen self.old.bus self.old.links.items)
            (Breaks stop) (StopsAt stop)) }
        ensures serves { OnOk result (Serves (H.links host.new) self.new.links.items) }
        ensures same { OnOk result (H.faults host.new ≡ H.faults host.old) }
        ensures cause { IfErr result (λ stop. StopBlames stop (H.faults host.old) (H.faults host.new)) }
    {
        match self.admit(host) {
            Ok(()) => {}
            Err(stop) => return Err(stop),
        }
        self.pass(host)
    }
}
