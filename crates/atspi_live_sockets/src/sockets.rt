//! The sockets of a host: where it listens, and its links. What needs the system's own names stands above it, in the
//! host.

ghost use Rattle.std.specs.Prelude.{◌≡◌, ◌≢◌, ◌<◌, [], vec_len, length, IfSome};
ghost use Rattle.std.specs.List.{All};
ghost use Rattle.atspi_live_host.specs.declared.call.Did.{Did};
ghost use Rattle.atspi_live_host.specs.Calls.{Counts, Moves, Opens, without};
ghost use Rattle.atspi_live_sockets.specs.Numbers.{numbers};

use crate::moving::{fault, give, take};
use crate::open_link::Open;
use crate::ready::{LISTENER, Ready};
use atspi_live_host::Did;
use mio::net::{UnixListener, UnixStream};
use mio::{Interest, Token};
use std::alloc::Global;
use std::io::{self, ErrorKind};
use std::net::Net;

/// How many links are in use at the most.
const LINKS: usize = 64;

/// The listener and the links, with the counts of their faults. It is generic in nothing, so that what is done with
/// them is proved over few facts.
#[derive(Drop)]
pub(crate) struct Sockets {
    ready: Ready,
    listener: Option<UnixListener>,
    /// In the order of their numbers.
    pub(crate) links: Vec<Open>,
    /// The number of the next link.
    next: u32,
    pub(crate) faults: u64,
    pub(crate) link_faults: u64,
    ghost below: { All (λ o. o.number < next) links.items },
}

impl Sockets {
    /// No link is open yet, no call has failed, and the system is asked for nothing. A longest rest is in milliseconds.
    pub(crate) fn new(alloc: Global, rest: Option<u64>) -> Sockets
        ensures links { result.links.items ≡ [] }
        ensures faults { result.faults ≡ 0 }
        ensures link_faults { result.link_faults ≡ 0 }
    {
        Sockets {
            ready: Ready::new(alloc, rest),
            listener: None,
            links: Vec::new(alloc),
            next: 0,
            faults: 0,
            link_faults: 0,
        }
    }

    /// Opens what the system needs for the first socket, where that was not done yet.
    pub(crate) fn open(&mut self, alloc: Global, net: &impl Net) -> io::Result<()>
        ensures links { self.new.links ≡ self.old.links }
        ensures faults { self.new.faults ≡ self.old.faults }
        ensures link_faults { self.new.link_faults ≡ self.old.link_faults }
    {
        self.ready.open(alloc, net, LINKS + 1)
    }

    /// From now on links are made at the listener.
    pub(crate) fn listen(&mut self, listener: UnixListener) -> Did
        ensures links { numbers self.new.links.items ≡ numbers self.old.links.items }
        ensures cause { Counts self.old.faults self.new.faults result }
        ensures same { self.new.link_faults ≡ self.old.link_faults }
    {
        let mut listener = listener;
        let Some(registry) = self.ready.registry() else {
            return fault(&mut self.faults);
        };
        if registry
            .register(&mut listener, Token(LISTENER), Interest::READABLE)
            .is_err()
        {
            return fault(&mut self.faults);
        }
        self.listener = Some(listener);
        self.ready.add(LISTENER);
        Did::Done(0)
    }

    /// Listens no more, and answers whether it did.
    pub(crate) fn leave(&mut self) -> bool {
        let listened = self.listener.is_some();
        self.listener = None;
        listened
    }

    /// The next link, if one waits.
    pub(crate) fn accept(&mut self) -> Did
        ensures links { Opens (numbers self.old.links.items) (numbers self.new.links.items) result }
        ensures cause { Counts self.old.faults self.new.faults result }
        ensures same { self.new.link_faults ≡ self.old.link_faults }
    {
        self.ready.begin();
        let Some(listener) = &self.listener else {
            return fault(&mut self.faults);
        };
        if self.links.len() >= LINKS || !self.ready.may_read(LISTENER) {
            return Did::NotYet;
        }
        match listener.accept() {
            Ok((stream, _)) => self.join(stream),
            Err(error) if error.kind() == ErrorKind::WouldBlock => {
                self.ready.found_nothing(LISTENER);
                Did::NotYet
            }
            Err(_) => fault(&mut self.faults),
        }
    }

    /// The link gets the next number and comes behind the others.
    pub(crate) fn join(&mut self, stream: UnixStream) -> Did
        ensures links { Opens (numbers self.old.links.items) (numbers self.new.links.items) result }
        ensures cause { Counts self.old.faults self.new.faults result }
        ensures same { self.new.link_faults ≡ self.old.link_faults }
        ensures ready { result ≢ Did.NotYet }
    {
        let number = self.next;
        let mut stream = stream;
        let both = Interest::READABLE | Interest::WRITABLE;
        let Some(registry) = self.ready.registry() else {
            return fault(&mut self.faults);
        };
        if registry
            .register(&mut stream, Token(number as usize), both)
            .is_err()
        {
            return fault(&mut self.faults);
        }
        let Some(next) = number.checked_add(1) else {
            return fault(&mut self.faults);
        };
        let Ok(()) = self.links.push(Open { number, stream }) else {
            return fault(&mut self.faults);
        };
        self.next = next;
        self.ready.add(number as usize);
        Did::Done(number)
    }

    /// Moves bytes of the link's peer to the front of `into`, and answers how many.
    pub(crate) fn read(&mut self, link: u32, into: &mut [u8]) -> Did
        requires room { 0 < length into.old }
        ensures links { numbers self.new.links.items ≡ numbers self.old.links.items }
        ensures within { Moves (length into.old) result }
        ensures cause { Counts self.old.link_faults self.new.link_faults result }
        ensures same { self.new.faults ≡ self.old.faults }
    {
        if self.listener.is_none() {
            self.ready.begin();
        }
        let Some(place) = self.place(link) else {
            return fault(&mut self.link_faults);
        };
        let stream = &mut self.links[place].stream;
        take(
            stream,
            link as usize,
            into,
            &mut self.ready,
            &mut self.link_faults,
        )
    }

    /// Gives the first of the bytes to the link's peer, and answers how many.
    pub(crate) fn write(&mut self, link: u32, bytes: &[u8]) -> Did
        requires some { 0 < length bytes.now }
        ensures links { numbers self.new.links.items ≡ numbers self.old.links.items }
        ensures within { Moves (length bytes.now) result }
        ensures no_end { result ≢ Did.End }
        ensures cause { Counts self.old.link_faults self.new.link_faults result }
        ensures same { self.new.faults ≡ self.old.faults }
    {
        let Some(place) = self.place(link) else {
            return fault(&mut self.link_faults);
        };
        let stream = &mut self.links[place].stream;
        give(
            stream,
            link as usize,
            bytes,
            &mut self.ready,
            &mut self.link_faults,
        )
    }

    /// The link is used no more.
    pub(crate) fn close(&mut self, link: u32)
        ensures links { numbers self.new.links.items ≡ without link (numbers self.old.links.items) }
        ensures same { self.new.faults ≡ self.old.faults }
        ensures link_same { self.new.link_faults ≡ self.old.link_faults }
    {
        self.links.retain(|o| o.number != link);
        self.ready.forget(link as usize);
    }

    /// Where a link of this number stands among the links.
    fn place(&self, link: u32) -> Option<usize>
        ensures { IfSome result (λ place. place < vec_len self.now.links) }
    {
        self.links.binary_search_by(|o| o.number.cmp(&link)).ok()
    }

    /// One fault more: a listen or a connect came to nothing.
    pub(crate) fn fails(&mut self) -> Did
        ensures failed { result ≡ Did.Failed }
        ensures links { self.new.links ≡ self.old.links }
        ensures cause { Counts self.old.faults self.new.faults result }
        ensures same { self.new.link_faults ≡ self.old.link_faults }
    {
        fault(&mut self.faults)
    }
}
