//! The queue of each connection: a chain of one pool.

ghost use Rattle.std.specs.Prelude.{◌≡◌, ◌+◌, ◌-◌, ◌<◌, ◌≤◌, ◌^◌, ◌↔◌, ℕ, List, [], ◌++◌, length, take, drop, None};
ghost use Rattle.std.specs.Prelude.{IsSome, IsTrue, MatchBool, IfOk, OnOk, OnErr};
ghost use Rattle.std.specs.FinMap as finmap;
ghost use Rattle.atspi_match.specs.routing.Queues.{queue_of};
ghost use Rattle.atspi_bus_queues.specs.Change.{with_queue};
ghost use Rattle.atspi_bus_queues.specs.Space.{HasSpace};

use atspi_base::NoMemory;
use atspi_pool::Pool;
use std::alloc::Global;
use std::collections::BTreeMap;
use std::marker::Model;

/// The bytes that wait for each connection. A connection is known by its number, and one without a queue has nothing
/// waiting.
#[derive(Drop)]
pub struct QueueMap {
    pool: Pool,
    /// The chain of each connection.
    chains: BTreeMap<u32, u32>,
}

impl Model for QueueMap {
    ghost use Rattle.std.specs.Prelude.{ℕ, List};
    ghost use Rattle.std.specs.Coded.{coded_ℕ, coded_list};
    ghost use Rattle.std.specs.Ordering.{nat_cmp};
    ghost use Rattle.std.specs.FinMap as finmap;
    ghost use Rattle.atspi_bus_queues.specs.QueueMap.{queues_of, HasChains};

    ghost Value = { finmap.FinMap nat_cmp (List ℕ) };

    ghost coded = { finmap.code coded_ℕ (coded_list coded_ℕ) };

    ghost view = { λ q. queues_of q.pool q.chains.entries };

    ghost invariant = { λ q. HasChains q.pool q.chains.entries };
}

impl QueueMap {
    /// No queue.
    pub fn new(alloc: Global) -> QueueMap
        ensures { result ≡ finmap.empty }
    {
        QueueMap {
            pool: Pool::new(alloc),
            chains: BTreeMap::new(alloc),
        }
    }

    /// Equal queues.
    pub fn copy(&self, alloc: Global) -> Result<QueueMap, NoMemory>
        ensures { IfOk result (λ copy. copy ≡ self.now) }
    {
        Ok(QueueMap {
            pool: self.pool.copy(alloc)?,
            chains: self.chains.clone()?,
        })
    }

    /// Whether a connection has a queue.
    pub fn has(&self, conn: u32) -> bool
        ensures { IsTrue result ↔ IsSome (finmap.get self.now conn) }
    {
        self.chains.contains_key(&conn)
    }

    /// How many bytes wait for a connection.
    pub fn len(&self, conn: u32) -> u32
        ensures { result ≡ length (queue_of self.now conn) }
    {
        match self.chains.get(&conn) {
            Some(chain) => self.pool.len(*chain),
            None => 0,
        }
    }

    /// The next piece of the bytes that wait for a connection, empty exactly where none wait.
    pub fn front(&self, conn: u32) -> &[u8]
        ensures begins { (rest : List ℕ) × (queue_of self.now conn ≡ result.now ++ rest) }
        ensures empty { (length result.now ≡ 0) ↔ (length (queue_of self.now conn) ≡ 0) }
    {
        match self.chains.get(&conn) {
            Some(chain) => self.pool.front(*chain),
            None => &[],
        }
    }

    /// Gives a connection without a queue an empty one.
    fn add(&mut self, conn: u32) -> Result<(), NoMemory>
        requires { finmap.get self.old conn ≡ None }
        ensures ok { OnOk result (self.new ≡ finmap.insert self.old conn []) }
        ensures err { OnErr result (self.new ≡ self.old) }
    {
        let chain = self.pool.new_chain()?;
        match self.chains.insert(conn, chain) {
            Ok(_) => Ok(()),
            Err(_) => {
                self.pool.drop_chain(chain);
                Err(NoMemory)
            }
        }
    }

    /// Gives a connection an empty queue. After want of memory all is as before.
    pub fn open_queue(&mut self, conn: u32) -> Result<(), NoMemory>
        ensures ok { OnOk result (self.new ≡ finmap.insert self.old conn []) }
        ensures err { OnErr result (self.new ≡ self.old) }
    {
        match self.chains.get(&conn) {
            Some(chain) => {
                let len = self.pool.len(*chain);
                self.pool.pop(*chain, len);
                Ok(())
            }
            None => self.add(conn),
        }
    }

    /// Drops the queue of a connection.
    pub fn close(&mut self, conn: u32)
        ensures { self.new ≡ finmap.remove self.old conn }
    {
        if let Some(chain) = self.chains.remove(&conn) {
            self.pool.drop_chain(chain);
        }
    }

    /// Puts bytes behind those that wait for a connection which has a queue.
    fn append(&mut self, conn: u32, bytes: &[u8]) -> Result<(), NoMemory>
        requires has { IsSome (finmap.get self.old conn) }
        requires small { length (queue_of self.old conn) + length bytes.now < 2 ^ 32 }
        ensures ok { OnOk result
            (self.new ≡ finmap.insert self.old conn (queue_of self.old conn ++ bytes.now)) }
        ensures err { OnErr result (self.new ≡ self.old) }
    {
        match self.chains.get(&conn) {
            Some(chain) => self.pool.push(*chain, bytes),
            None => unreachable!(),
        }
    }

    /// Gives a connection without a queue one with these bytes.
    fn begin(&mut self, conn: u32, bytes: &[u8]) -> Result<(), NoMemory>
        requires new { finmap.get self.old conn ≡ None }
        requires small { length bytes.now < 2 ^ 32 }
        ensures ok { OnOk result (self.new ≡ finmap.insert self.old conn bytes.now) }
        ensures err { OnErr result (self.new ≡ self.old) }
    {
        self.add(conn)?;
        match self.append(conn, bytes) {
            Ok(()) => Ok(()),
            Err(refused) => {
                self.close(conn);
                Err(refused)
            }
        }
    }

    /// Puts bytes behind those that wait for a connection, in a queue of its own if it has none yet. After want of
    /// memory all is as before.
    pub fn push(&mut self, conn: u32, bytes: &[u8]) -> Result<(), NoMemory>
        requires { length (queue_of self.old conn) + length bytes.now < 2 ^ 32 }
        ensures ok { OnOk result
            (self.new ≡ finmap.insert self.old conn (queue_of self.old conn ++ bytes.now)) }
        ensures err { OnErr result (self.new ≡ self.old) }
    {
        if self.chains.contains_key(&conn) {
            self.append(conn, bytes)
        } else {
            self.begin(conn, bytes)
        }
    }

    /// Puts bytes behind those that wait for a connection, where it has a queue and no more than so many bytes wait
    /// there then, and answers whether it is so. Where it is not, and after want of memory, all is as before. The queue
    /// is looked up once.
    pub fn push_within(&mut self, conn: u32, bytes: &[u8], quota: u32) -> Result<bool, NoMemory>
        requires { length bytes.now < 2 ^ 32 }
        ensures ok { IfOk result (λ went. MatchBool went
            (HasSpace self.old conn (length bytes.now) quota
            × (self.new ≡ finmap.insert self.old conn (queue_of self.old conn ++ bytes.now)))
            ((HasSpace self.old conn (length bytes.now) quota → ⊥) × (self.new ≡ self.old))) }
        ensures err { OnErr result (self.new ≡ self.old) }
    {
        let Some(chain) = self.chains.get(&conn) else {
            return Ok(false);
        };
        if u64::from(self.pool.len(*chain)) + bytes.len() as u64 > u64::from(quota) {
            return Ok(false);
        }
        self.pool.push(*chain, bytes)?;
        Ok(true)
    }

    /// Drops the first bytes that wait for a connection.
    pub fn pop(&mut self, conn: u32, n: u32)
        requires { n ≤ length (queue_of self.old conn) }
        ensures { self.new ≡ with_queue self.old conn (drop n (queue_of self.old conn)) }
    {
        if let Some(chain) = self.chains.get(&conn) {
            self.pool.pop(*chain, n);
        }
    }

    /// Drops the last bytes that wait for a connection.
    pub fn cut_back(&mut self, conn: u32, n: u32)
        requires { n ≤ length (queue_of self.old conn) }
        ensures { self.new ≡
            with_queue self.old conn (take (length (queue_of self.old conn) - n) (queue_of self.old conn)) }
    {
        if let Some(chain) = self.chains.get(&conn) {
            self.pool.cut_back(*chain, n);
        }
    }
}
