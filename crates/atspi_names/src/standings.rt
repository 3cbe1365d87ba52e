//! For each connection the names in whose lists it stands: so one that leaves is taken out of those lists alone.

ghost use Rattle.std.specs.Prelude.{◌≡◌, ℕ, List, true, false, not, Some, IfOk, OnOk, OnErr};
ghost use Rattle.std.specs.Option.{option_copied};
ghost use Rattle.std.specs.Ordering.{nat_cmp};
ghost use Rattle.std.specs.BTreeMap.{Updates, IsUnchanged};
ghost use Rattle.atspi_names.specs.Standings.{notes, has_name, SetsNote, SameNotes, SameNames, ForgetsConnection};

use atspi_base::NoMemory;
use atspi_base::valid_names::BusName;
use std::alloc::Global;
use std::collections::{BTreeMap, BTreeSet};

/// The names of each connection.
#[derive(Drop)]
pub struct Standings {
    sets: BTreeMap<u32, BTreeSet<BusName>>,
}

impl Standings {
    /// No connection stands anywhere.
    pub fn new(alloc: Global) -> Standings
        ensures { (c : ℕ) (q : List ℕ) → notes result.sets c q ≡ false }
    {
        Standings {
            sets: BTreeMap::new(alloc),
        }
    }

    /// The same connections stand in the same lists.
    pub fn copy(&self, alloc: Global) -> Result<Standings, NoMemory>
        ensures { IfOk result (λ copy. SameNotes self.now.sets copy.sets) }
    {
        let mut sets = BTreeMap::new(alloc);
        let mut rest = self.sets.iter();
        while let Some((conn, names)) = rest.next_back() {
            put(&mut sets, *conn, copy_set(alloc, names)?)?;
        }
        Ok(Standings { sets })
    }

    /// The names of the connection.
    pub fn get(&self, conn: u32) -> Option<&BTreeSet<BusName>>
        ensures { (q : List ℕ) → has_name (option_copied result) q ≡ notes self.now.sets conn q }
    {
        self.sets.get(&conn)
    }

    /// Whether the connection is noted at the name.
    fn has(&self, conn: u32, name: &BusName) -> bool
        ensures { result ≡ notes self.now.sets conn name.now }
    {
        match self.sets.get(&conn) {
            Some(names) => names.contains(name),
            None => false,
        }
    }

    /// Notes that the connection stands in the list of the name. After want of memory nothing is noted.
    fn note(&mut self, alloc: Global, conn: u32, name: BusName) -> Result<(), NoMemory>
        ensures ok { OnOk result (SetsNote self.old.sets self.new.sets conn name true) }
        ensures err { OnErr result (SameNotes self.old.sets self.new.sets) }
    {
        if let Some(names) = self.sets.get_mut(&conn) {
            names.insert(name)?;
            return Ok(());
        }
        let mut names = BTreeSet::new(alloc);
        names.insert(name)?;
        put(&mut self.sets, conn, names)
    }

    /// Notes that the connection stands in the list of the name, and answers whether that is new. After want of
    /// memory nothing is noted.
    pub fn ensure(&mut self, alloc: Global, conn: u32, name: &BusName) -> Result<bool, NoMemory>
        ensures is_new { IfOk result (λ is_new. is_new ≡ not (notes self.old.sets conn name.now)) }
        ensures ok { OnOk result (SetsNote self.old.sets self.new.sets conn name.now true) }
        ensures err { OnErr result (SameNotes self.old.sets self.new.sets) }
    {
        if self.has(conn, name) {
            return Ok(false);
        }
        self.note(alloc, conn, name.copy(alloc)?)?;
        Ok(true)
    }

    /// Forgets that the connection stands in the list of the name.
    pub fn forget(&mut self, conn: u32, name: &BusName)
        ensures { SetsNote self.old.sets self.new.sets conn name.now false }
    {
        if let Some(names) = self.sets.get_mut(&conn) {
            names.remove(name);
        }
    }

    /// Takes out the names of the connection.
    pub fn take(&mut self, conn: u32) -> Option<BTreeSet<BusName>>
        ensures names { (q : List ℕ) → has_name result q ≡ notes self.old.sets conn q }
        ensures rest { ForgetsConnection self.old.sets self.new.sets conn }
    {
        self.sets.remove(&conn)
    }
}

/// The same names.
fn copy_set(alloc: Global, names: &BTreeSet<BusName>) -> Result<BTreeSet<BusName>, NoMemory>
    ensures { IfOk result (SameNames names.now) }
{
    let mut copy = BTreeSet::new(alloc);
    for name in names {
        copy.insert(name.copy(alloc)?)?;
    }
    Ok(copy)
}

/// Puts the first names of a connection. After want of memory there are none.
fn put(
    sets: &mut BTreeMap<u32, BTreeSet<BusName>>,
    conn: u32,
    names: BTreeSet<BusName>,
) -> Result<(), NoMemory>
    ensures ok { OnOk result (Updates nat_cmp sets.old sets.new conn (Some names)) }
    ensures err { OnErr result (IsUnchanged sets.old sets.new) }
{
    sets.insert(conn, names)?;
    Ok(())
}
