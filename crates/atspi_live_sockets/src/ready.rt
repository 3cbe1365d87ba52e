//! What the system's poll tells of the sockets of a host: which may have something to read, and which have no room.

use mio::{Events, Poll, Registry};
use std::alloc::Global;
use std::io;
use std::net::Net;
use std::time::Duration;

/// The token of the listener. A link's token is its number, which is less.
pub(crate) const LISTENER: usize = 1 << 32;

/// The system's poll, and where it puts what it tells.
#[derive(Drop)]
struct SystemPoll {
    poll: Poll,
    events: Events<Global>,
}

/// What is known of the sockets. The system tells a change once, so what it told is kept until a call has found
/// nothing.
#[derive(Drop)]
pub(crate) struct Ready {
    /// So long is rested at the most, in milliseconds. If it is none, the system is not asked at all: each socket is
    /// tried at each call, and nothing is waited for.
    rest: Option<u64>,
    /// Whether something came or went in this round.
    moved: bool,
    /// In this round each socket is tried.
    tries_all: bool,
    /// None until the first socket is to be named to the system.
    poll: Option<SystemPoll>,
    /// Those that may have something to read.
    readable: Vec<usize>,
    /// Those whose peer sends no more, or that failed: what was sent before, and then the end, is still to be read.
    ended: Vec<usize>,
    /// Those whose last write found no room.
    full: Vec<usize>,
}

impl Ready {
    /// Nothing is known of any socket, and the system is asked for nothing yet. Without a longest rest, in
    /// milliseconds, the host waits for nothing.
    pub(crate) fn new(alloc: Global, rest: Option<u64>) -> Ready {
        Ready {
            rest,
            moved: true,
            tries_all: true,
            poll: None,
            readable: Vec::new(alloc),
            ended: Vec::new(alloc),
            full: Vec::new(alloc),
        }
    }

    /// Opens the system's poll for so many sockets at the most, where that was not done yet.
    pub(crate) fn open(&mut self, alloc: Global, net: &impl Net, sockets: usize) -> io::Result<()> {
        if self.poll.is_some() {
            return Ok(());
        }
        self.readable.reserve(sockets)?;
        self.ended.reserve(sockets)?;
        self.full.reserve(sockets)?;
        self.poll = Some(SystemPoll {
            poll: Poll::new(net)?,
            events: Events::with_capacity(alloc, sockets)?,
        });
        Ok(())
    }

    /// Where sockets are named to the system, once its poll is open.
    pub(crate) fn registry(&self) -> Option<&Registry> {
        match &self.poll {
            Some(system) => Some(system.poll.registry()),
            None => None,
        }
    }

    /// A round begins: the system is asked once. Where nothing came or went in the whole round before, it rests until
    /// something does.
    pub(crate) fn begin(&mut self) {
        let Some(rest) = self.rest else {
            return;
        };
        let Some(system) = &mut self.poll else {
            return;
        };
        let most = if self.moved { 0 } else { rest };
        let wait = Duration::from_millis(most);
        let failed = system.poll.poll(&mut system.events, Some(wait)).is_err();
        // also after a rest that nothing ended, so that nothing is missed for long
        self.tries_all = failed || (!self.moved && system.events.is_empty());
        self.moved = false;
        self.hear();
    }

    /// Keeps what the system told.
    fn hear(&mut self) {
        let Some(system) = &self.poll else {
            return;
        };
        for event in system.events.iter() {
            let token = event.token().0;
            if event.is_writable() {
                self.full.retain(|t| *t != token);
            }
            let ended = event.is_read_closed() || event.is_error();
            if ended {
                mark(&mut self.ended, token);
            }
            if ended || event.is_readable() {
                mark(&mut self.readable, token);
            }
        }
    }

    /// Whether the socket may have something to read.
    pub(crate) fn may_read(&self, token: usize) -> bool {
        self.rest.is_none() || self.tries_all || self.readable.contains(&token)
    }

    /// Whether the socket may have room.
    pub(crate) fn may_write(&self, token: usize) -> bool {
        self.rest.is_none() || self.tries_all || !self.full.contains(&token)
    }

    /// Something came or went.
    pub(crate) fn moves(&mut self) {
        self.moved = true;
    }

    /// A new socket: it may have something to read.
    pub(crate) fn add(&mut self, token: usize) {
        self.moved = true;
        mark(&mut self.readable, token);
    }

    /// The socket had nothing to read.
    pub(crate) fn found_nothing(&mut self, token: usize) {
        self.readable.retain(|t| *t != token);
    }

    /// The socket gave less than was asked for, so nothing is left in it, and the system tells when something comes.
    /// Not where its peer has ended: of that the system tells no more.
    pub(crate) fn gave_all(&mut self, token: usize) {
        if !self.ended.contains(&token) {
            self.found_nothing(token);
        }
    }

    /// The socket had no room.
    pub(crate) fn found_no_room(&mut self, token: usize) {
        mark(&mut self.full, token);
    }

    /// The socket is used no more.
    pub(crate) fn forget(&mut self, token: usize) {
        self.moved = true;
        self.readable.retain(|t| *t != token);
        self.ended.retain(|t| *t != token);
        self.full.retain(|t| *t != token);
    }
}

/// Puts a token among others. There is room for all sockets; without it the socket is tried behind the next rest.
fn mark(tokens: &mut Vec<usize>, token: usize) {
    if !tokens.contains(&token) {
        let _ = tokens.push(token);
    }
}
