//! A host in memory, with peers that send what they were told to and calls that fail by their number.

ghost use Rattle.std.specs.Prelude.{◌≡◌, ◌<◌, ◌≤◌, [], Some, IfSome, MatchOption, length};
ghost use Rattle.std.specs.Option.{option_map};
ghost use Rattle.std.specs.List.{All};
ghost use Rattle.atspi_live_host.specs.Calls.{Counts, Moves, Opens};
ghost use Rattle.atspi_live_host.specs.Numbers.{ToldBelow};
ghost use Rattle.atspi_live_host.specs.inner.Numbers.{Follows};

use crate::peer::Peer;
use crate::tell::{fails, fault, has_room, room_for, tell, tell_given, tell_taken};
use crate::{Call, Did, Host};
use atspi_base::Text;
use std::alloc::Global;

/// How many links are in use at the most.
const LINKS: usize = 64;

/// How many bytes are moved in one call at the most.
const PIECE: usize = 4096;

/// A host in memory. The calls with the given numbers fail, counted from 0; a close is not counted. It tells its calls,
/// until memory is wanting for one: that call fails, and nothing is told from then on.
#[derive(Drop)]
pub struct MemHost {
    alloc: Global,
    /// By the numbers of their links, in the order in which they come.
    peers: Vec<Peer>,
    links: Vec<u32>,
    next: u32,
    made: u64,
    failing: Vec<u64>,
    /// None once there was no memory for a call.
    calls: Option<Vec<Call>>,
    faults: u64,
    link_faults: u64,
    ghost below: { All (λ l. l < next) links.items },
    ghost told_below: { ToldBelow next (option_map (λ v. v.items) calls) },
}

impl MemHost {
    /// The peers come in the order in which they stand here, whether they connect or are connected to.
    pub fn new(alloc: Global, peers: Vec<Peer>, failing: Vec<u64>) -> MemHost
        ensures calls { ⟦<MemHost as Host>⟧.calls result ≡ Some [] }
        ensures links { ⟦<MemHost as Host>⟧.links result ≡ [] }
        ensures faults { ⟦<MemHost as Host>⟧.faults result ≡ 0 }
        ensures link_faults { ⟦<MemHost as Host>⟧.link_faults result ≡ 0 }
    {
        MemHost {
            alloc,
            peers,
            links: Vec::new(alloc),
            next: 0,
            made: 0,
            failing,
            calls: Some(Vec::new(alloc)),
            faults: 0,
            link_faults: 0,
        }
    }

    /// The calls made so far, where all are told.
    pub fn calls(&self) -> Option<&[Call]>
        ensures { MatchOption result (⟦<MemHost as Host>⟧.calls self.now ≡ None)
            (λ calls. ⟦<MemHost as Host>⟧.calls self.now ≡ Some calls.now) }
    {
        match &self.calls {
            Some(calls) => Some(calls),
            None => None,
        }
    }

    /// The next peer, as a link.
    #[tactic(auto, using(crate::proofs::MemoryLemmas::joined))]
    fn join(&mut self) -> Did
        ensures links { Opens self.old.links.items self.new.links.items result }
        ensures next { Follows self.old.next self.new.next result }
        ensures cause { Counts self.old.faults self.new.faults result }
        ensures same { self.new.link_faults ≡ self.old.link_faults }
        ensures calls { self.new.calls ≡ self.old.calls }
    {
        let number = self.next;
        if self.links.len() >= LINKS || number as usize >= self.peers.len() {
            return Did::NotYet;
        }
        let Some(next) = number.checked_add(1) else {
            return fault(&mut self.faults);
        };
        let Ok(()) = self.links.push(number) else {
            return fault(&mut self.faults);
        };
        self.next = next;
        Did::Done(number)
    }
}

/// What the peer of a link sends next.
fn take(peers: &mut Vec<Peer>, link_faults: &mut u64, link: u32, into: &mut [u8]) -> Did
    requires { 0 < length into.old }
    ensures moves { Moves (length into.old) result }
    ensures cause { Counts link_faults.old link_faults.new result }
{
    match peers.get_mut(link as usize) {
        Some(peer) => peer.send(into),
        None => fault(link_faults),
    }
}

impl Host for MemHost {
    ghost calls = { λ h. option_map (λ v. v.items) h.calls };

    ghost links = { λ h. h.links.items };

    ghost faults = { λ h. h.faults };

    ghost link_faults = { λ h. h.link_faults };

    #[tactic(auto, using(crate::proofs::MemoryLemmas::told_nothing))]
    fn listen(&mut self, path: &Text) -> Did {
        let fails = fails(&mut self.made, &self.failing);
        if !has_room(&mut self.calls) {
            return fault(&mut self.faults);
        }
        let Ok(kept) = path.copy(self.alloc) else {
            self.calls = None;
            return fault(&mut self.faults);
        };
        let did = if fails {
            fault(&mut self.faults)
        } else {
            Did::Done(0)
        };
        tell(&mut self.calls, Call::Listen(kept, did));
        did
    }

    #[tactic(auto, using(crate::proofs::MemoryLemmas::told_unused, crate::proofs::MemoryLemmas::told_more, crate::proofs::MemoryLemmas::told_nothing))]
    fn accept(&mut self) -> Did {
        let fails = fails(&mut self.made, &self.failing);
        if !has_room(&mut self.calls) {
            return fault(&mut self.faults);
        }
        let did = if fails {
            fault(&mut self.faults)
        } else {
            self.join()
        };
        tell(&mut self.calls, Call::Accept(did));
        did
    }

    #[tactic(auto, using(crate::proofs::MemoryLemmas::told_unused, crate::proofs::MemoryLemmas::told_more, crate::proofs::MemoryLemmas::told_nothing))]
    fn connect(&mut self, path: &Text) -> Did {
        let fails = fails(&mut self.made, &self.failing);
        if !has_room(&mut self.calls) {
            return fault(&mut self.faults);
        }
        let Ok(kept) = path.copy(self.alloc) else {
            self.calls = None;
            return fault(&mut self.faults);
        };
        let did = if fails {
            fault(&mut self.faults)
        } else {
            match self.join() {
                Did::NotYet => fault(&mut self.faults),
                did => did,
            }
        };
        tell(&mut self.calls, Call::Connect(kept, did));
        did
    }

    #[tactic(auto, using(crate::proofs::MemoryLemmas::open_below, crate::proofs::MemoryLemmas::told_more, crate::proofs::MemoryLemmas::told_nothing))]
    fn read(&mut self, link: u32, into: &mut [u8]) -> Did {
        let fails = fails(&mut self.made, &self.failing);
        let most = into.len().min(PIECE);
        let Some(room) = room_for(self.alloc, &mut self.calls, most) else {
            return fault(&mut self.link_faults);
        };
        let did = if fails {
            fault(&mut self.link_faults)
        } else {
            take(&mut self.peers, &mut self.link_faults, link, into)
        };
        tell_taken(&mut self.calls, link, room, into, did);
        did
    }

    #[tactic(auto, using(crate::proofs::MemoryLemmas::open_below, crate::proofs::MemoryLemmas::told_more, crate::proofs::MemoryLemmas::told_nothing))]
    fn write(&mut self, link: u32, bytes: &[u8]) -> Did {
        let fails = fails(&mut self.made, &self.failing);
        let Some(room) = room_for(self.alloc, &mut self.calls, bytes.len()) else {
            return fault(&mut self.link_faults);
        };
        let did = if fails {
            fault(&mut self.link_faults)
        } else {
            Did::Done(bytes.len().min(PIECE) as u32)
        };
        tell_given(&mut self.calls, link, room, bytes, did);
        did
    }

    fn close(&mut self, link: u32) {
        self.links.retain(|l| *l != link);
        tell(&mut self.calls, Call::Close(link));
    }
}
