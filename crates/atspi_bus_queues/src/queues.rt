//! The queues of a bus with their quota, and who is to be closed.

ghost use Rattle.std.specs.Prelude.{◌≡◌, ◌<◌, ◌≤◌, ◌^◌, ◌↔◌, ◌-◌, ℕ, min, List, [], ◌∷◌, ◌++◌, length, drop, take};
ghost use Rattle.std.specs.Prelude.{MatchBool, MatchOption, IsTrue, IfOk, OnOk, OnErr};
ghost use Rattle.std.specs.FinMap as finmap;
ghost use Rattle.atspi_match.specs.declared.routing.closing.Why.{Why};
ghost use Rattle.atspi_match.specs.routing.Queues.{queue_of, doomed, queued, without_queue};
ghost use Rattle.atspi_match.specs.routing.Laws.{AreWithin};
ghost use Rattle.atspi_bus_queues.specs.Change.{with_queue};
ghost use Rattle.atspi_bus_queues.specs.Each.{HasRoom};
ghost use Rattle.atspi_bus_queues.specs.Held.{no_queues};

use crate::due_list::DueList;
use crate::queue_map::QueueMap;
use atspi_base::NoMemory;
use atspi_match::routing::Why;
use std::alloc::Global;
use std::marker::Model;

/// The most that a quota may be: whatever is too long for the wire passes it.
const MOST: u32 = 67_108_864;

/// What waits for each connection, at most a quota of bytes, and the connections that are to be closed. A connection is
/// known by its number, and one without a queue has nothing waiting.
#[derive(Drop)]
pub struct Queues {
    quota: u32,
    queues: QueueMap,
    due: DueList,
}

impl Model for Queues {
    ghost use Rattle.atspi_bus_queues.specs.Held.{AreHeld, Held, held_code};

    ghost Value = { Held };

    ghost coded = { held_code };

    ghost view = { λ q. record { quota = q.quota; waiting = record { queues = q.queues; due = q.due } } };

    ghost invariant = { λ q. AreHeld q.quota q.queues };
}

impl Queues {
    /// No queue, and nobody is to be closed. A quota of more than 67,108,864 bytes counts as that.
    pub fn new(alloc: Global, quota: u32) -> Queues
        ensures { result ≡ record { quota = min quota 67108864; waiting = no_queues } }
    {
        Queues {
            quota: quota.min(MOST),
            queues: QueueMap::new(alloc),
            due: DueList::new(alloc),
        }
    }

    /// Equal queues, with the same connections to be closed.
    pub fn copy(&self, alloc: Global) -> Result<Queues, NoMemory>
        ensures { IfOk result (λ copy. copy ≡ self.now) }
    {
        Ok(Queues {
            quota: self.quota,
            queues: self.queues.copy(alloc)?,
            due: self.due.copy()?,
        })
    }

    /// Gives a connection an empty queue. After want of memory all is as before.
    pub fn open_queue(&mut self, conn: u32) -> Result<(), NoMemory>
        ensures ok { OnOk result (self.new ≡ record self.old {
          waiting = record self.old.waiting { queues = finmap.insert self.old.waiting.queues conn [] };
        }) }
        ensures err { OnErr result (self.new ≡ self.old) }
    {
        self.queues.open_queue(conn)
    }

    /// Drops the queue of a connection, which is not to be closed any more.
    pub fn close(&mut self, conn: u32)
        ensures { self.new ≡ record self.old { waiting = without_queue self.old.waiting conn } }
    {
        self.queues.close(conn);
        self.due.remove(conn);
    }

    /// Puts bytes behind those that wait for a connection. Where they would pass the quota they are not put there, and
    /// the connection is to be closed. Nothing goes to one that is to be closed. After want of memory all is as before.
    pub fn push(&mut self, conn: u32, bytes: &[u8]) -> Result<(), NoMemory>
        requires { length bytes.now < 2 ^ 32 }
        ensures ok { OnOk result
            (self.new ≡ record self.old { waiting = queued self.old.quota self.old.waiting conn bytes.now }) }
        ensures err { OnErr result (self.new ≡ self.old) }
    {
        if self.due.has(conn) {
            return Ok(());
        }
        let queued = self.queues.len(conn);
        let len = bytes.len() as u32;
        if u64::from(queued) + u64::from(len) > u64::from(self.quota) {
            return self.due.add(conn, Why::Quota { queued, len });
        }
        self.queues.push(conn, bytes)
    }

    /// Puts bytes behind those that wait for a connection, where it has a queue with room for them and nobody is to be
    /// closed, and answers whether it is so. Where it is not, and after want of memory, all is as before.
    pub fn push_if_room(&mut self, conn: u32, bytes: &[u8]) -> Result<bool, NoMemory>
        requires { length bytes.now < 2 ^ 32 }
        ensures ok { IfOk result (λ went. MatchBool went
            (HasRoom self.old conn (length bytes.now)
            × (self.new ≡ record self.old { waiting = queued self.old.quota self.old.waiting conn bytes.now }))
            ((HasRoom self.old conn (length bytes.now) → ⊥) × (self.new ≡ self.old))) }
        ensures err { OnErr result (self.new ≡ self.old) }
    {
        if self.due.first().is_some() {
            return Ok(false);
        }
        self.queues.push_within(conn, bytes, self.quota)
    }

    /// Whether a connection has a queue with room for so many bytes more, while nobody is to be closed.
    pub fn has_room(&self, conn: u32, len: u32) -> bool
        ensures { IsTrue result ↔ HasRoom self.now conn len }
    {
        if self.due.first().is_some() {
            return false;
        }
        if !self.queues.has(conn) {
            return false;
        }
        u64::from(self.queues.len(conn)) + u64::from(len) <= u64::from(self.quota)
    }

    /// A connection is to be closed, if it is not already. After want of memory all is as before.
    pub fn doom(&mut self, conn: u32, why: Why) -> Result<(), NoMemory>
        ensures ok { OnOk result (self.new ≡ record self.old { waiting = doomed self.old.waiting conn why }) }
        ensures err { OnErr result (self.new ≡ self.old) }
    {
        if self.due.has(conn) {
            return Ok(());
        }
        self.due.add(conn, why)
    }

    /// The first that is to be closed, and why.
    pub fn first_due(&self) -> Option<(u32, Why)>
        ensures { MatchOption result (self.now.waiting.due ≡ [])
            (λ first. (rest : List (ℕ × Why)) × (self.now.waiting.due ≡ first ∷ rest)) }
    {
        self.due.first()
    }

    /// How many bytes wait for a connection: at most the quota.
    pub fn waiting(&self, conn: u32) -> u32
        ensures len { result ≡ length (queue_of self.now.waiting.queues conn) }
        ensures within { AreWithin self.now.quota self.now.waiting.queues }
    {
        self.queues.len(conn)
    }

    /// A law: each queue is at most the quota, and the quota at most 67,108,864 bytes.
    pub fn stay_within(&self)
        ensures within { AreWithin self.now.quota self.now.waiting.queues }
        ensures few { self.now.quota ≤ 67108864 }
    {
        let _ = &self.quota;
    }

    /// The next piece of the bytes that wait for a connection, empty exactly where none wait.
    pub fn front(&self, conn: u32) -> &[u8]
        ensures begins { (rest : List ℕ) × (queue_of self.now.waiting.queues conn ≡ result.now ++ rest) }
        ensures empty { (length result.now ≡ 0) ↔ (length (queue_of self.now.waiting.queues conn) ≡ 0) }
    {
        self.queues.front(conn)
    }

    /// Drops the first bytes that wait for a connection.
    pub fn pop(&mut self, conn: u32, n: u32)
        requires { n ≤ length (queue_of self.old.waiting.queues conn) }
        ensures { self.new ≡ record self.old {
          waiting = record self.old.waiting {
            queues = with_queue self.old.waiting.queues conn (drop n (queue_of self.old.waiting.queues conn));
          };
        } }
    {
        self.queues.pop(conn, n);
    }

    /// Takes back the last bytes that were put behind those that wait for a connection.
    pub fn take_back(&mut self, conn: u32, n: u32)
        requires { n ≤ length (queue_of self.old.waiting.queues conn) }
        ensures { self.new ≡ record self.old {
          waiting = record self.old.waiting {
            queues = with_queue self.old.waiting.queues conn
                (take (length (queue_of self.old.waiting.queues conn) - n) (queue_of self.old.waiting.queues conn));
          };
        } }
    {
        self.queues.cut_back(conn, n);
    }
}
