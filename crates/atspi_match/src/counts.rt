//! How many rules each connection has.

ghost use Rattle.std.specs.Prelude.{◌≡◌, ℕ, ◌-◌, OnOk, OnErr};
ghost use Rattle.atspi_match.specs.Counts.{count_in, SetsCount, SameCounts};

use atspi_base::NoMemory;
use std::alloc::Global;
use std::collections::BTreeMap;

/// How many rules each connection has, none where it is not named.
#[derive(Drop)]
pub struct Counts {
    counts: BTreeMap<u32, u32>,
}

impl Counts {
    /// No connection has a rule.
    pub fn new(alloc: Global) -> Counts
        ensures { (c : ℕ) → count_in result.counts c ≡ 0 }
    {
        Counts {
            counts: BTreeMap::new(alloc),
        }
    }

    /// How many rules a connection has.
    pub fn of(&self, conn: u32) -> u32
        ensures { result ≡ count_in self.now.counts conn }
    {
        match self.counts.get(&conn) {
            Some(count) => *count,
            None => 0,
        }
    }

    /// A connection has so many rules now. After want of memory all is as before.
    pub fn set(&mut self, conn: u32, count: u32) -> Result<(), NoMemory>
        ensures ok { OnOk result (SetsCount self.old.counts self.new.counts conn count) }
        ensures err { OnErr result (SameCounts self.old.counts self.new.counts) }
    {
        self.counts.insert(conn, count)?;
        Ok(())
    }

    /// A connection has a rule less, if it has one.
    pub fn fall(&mut self, conn: u32)
        ensures { SetsCount self.old.counts self.new.counts conn (count_in self.old.counts conn - 1) }
    {
        if let Some(count) = self.counts.get_mut(&conn) {
            *count = count.saturating_sub(1);
        }
    }

    /// A connection has no rule.
    pub fn drop_conn(&mut self, conn: u32)
        ensures { SetsCount self.old.counts self.new.counts conn 0 }
    {
        self.counts.remove(&conn);
    }
}
