//! The lists of all names.

ghost use Rattle.std.specs.Prelude.{◌≡◌, ◌++◌, OnOk, OnErr, IfOk, []};
ghost use Rattle.atspi_names.specs.Queue.{requested, released, request_change, release_change};
ghost use Rattle.atspi_names.specs.Queue as queue;
ghost use Rattle.atspi_names.specs.Owners.{list_of, with_list, well_known};
ghost use Rattle.atspi_names.specs.Tree.{as_lists};
ghost use Rattle.std.specs.FinMap as finmap;

use crate::queue::{Queue, owner_in, stands_in};
use crate::{NameList, OwnerChange};
use atspi_base::NoMemory;
use atspi_base::valid_names::BusName;
use std::alloc::Global;
use std::collections::BTreeMap;
use std::marker::Model;

/// Each owned name with its list.
#[derive(Drop)]
pub struct Lists {
    map: BTreeMap<BusName, Queue>,
}

impl Model for Lists {
    ghost use Rattle.std.specs.Prelude.{ℕ, List};
    ghost use Rattle.std.specs.Coded.{coded_ℕ, coded_list, coded×};
    ghost use Rattle.std.specs.Ordering.{nat_cmp};
    ghost use Rattle.std.specs.Cmp.Lexicographic.{slice_cmp};
    ghost use Rattle.std.specs.FinMap as finmap;
    ghost use Rattle.atspi_names.specs.Tree.{as_lists};

    ghost Value = { finmap.FinMap {K = List ℕ} (slice_cmp nat_cmp) (List (ℕ × ℕ)) };

    ghost coded = { finmap.code (coded_list coded_ℕ) (coded_list (coded× coded_ℕ coded_ℕ)) };

    ghost view = { λ l. as_lists l.map };
}

impl Lists {
    /// No list.
    pub fn new(alloc: Global) -> Lists
        ensures { result ≡ finmap.empty }
    {
        Lists {
            map: BTreeMap::new(alloc),
        }
    }

    /// Equal lists. They are copied from the last to the first, so that each is put before those that stand already.
    pub fn copy(&self, alloc: Global) -> Result<Lists, NoMemory>
        ensures { IfOk result (λ copy. copy ≡ self.now) }
    {
        let mut map = BTreeMap::new(alloc);
        let mut rest = self.map.iter();
        while let Some((name, queue)) = rest.next_back() {
            put(&mut map, name.copy(alloc)?, queue.copy(alloc)?)?;
        }
        Ok(Lists { map })
    }

    /// The list of a name, empty where nobody has it.
    pub fn get(&self, name: &BusName) -> &[(u32, u32)]
        ensures { result.now ≡ list_of self.now name.now }
    {
        match self.map.get(name) {
            Some(queue) => queue.as_slice(),
            None => &[],
        }
    }

    /// The owner of a name.
    pub fn owner(&self, name: &BusName) -> Option<u32>
        ensures { result ≡ queue.owner_in (list_of self.now name.now) }
    {
        owner_in(self.get(name))
    }

    /// Whether the connection owns the name or waits for it.
    pub fn stands(&self, name: &BusName, conn: u32) -> bool
        ensures { result ≡ queue.stands conn (list_of self.now name.now) }
    {
        stands_in(self.get(name), conn)
    }

    /// Takes a request of the name. After want of memory the lists are as before.
    pub fn request(
        &mut self,
        alloc: Global,
        conn: u32,
        name: &BusName,
        flags: u32,
    ) -> Result<OwnerChange, NoMemory>
        ensures ok { IfOk result (λ change. change ≡ request_change (list_of self.old name.now) conn flags) }
        ensures lists { OnOk result
            (self.new ≡ with_list self.old name.now (requested (list_of self.old name.now) conn flags).0) }
        ensures err { OnErr result (self.new ≡ self.old) }
    {
        if let Some(queue) = self.map.get_mut(name) {
            return queue.request(conn, flags);
        }
        let mut queue = Queue::new(alloc);
        let change = queue.request(conn, flags)?;
        put(&mut self.map, name.copy(alloc)?, queue)?;
        Ok(change)
    }

    /// Takes the connection out of the list of the name.
    pub fn release(&mut self, conn: u32, name: &BusName) -> OwnerChange
        ensures lists { self.new ≡ with_list self.old name.now (released (list_of self.old name.now) conn).0 }
        ensures change { result ≡ release_change (list_of self.old name.now) conn }
    {
        let Some(queue) = self.map.get_mut(name) else {
            return OwnerChange {
                answer: 2,
                before: None,
                after: None,
            };
        };
        let change = queue.release(conn);
        if queue.as_slice().is_empty() {
            take_out(&mut self.map, name);
        }
        change
    }

    /// Appends the well-known names by their bytes.
    pub fn append_well_known(&self, alloc: Global, names: &mut NameList) -> Result<(), NoMemory>
        ensures { OnOk result (names.new ≡ names.old ++ well_known self.now) }
    {
        for name in self.map.keys() {
            if !name.is_unique() {
                names.push(name.copy(alloc)?)?;
            }
        }
        Ok(())
    }
}

/// Puts the queue of a name into the map. After want of memory the map is as before.
fn put(map: &mut BTreeMap<BusName, Queue>, name: BusName, queue: Queue) -> Result<(), NoMemory>
    ensures ok { OnOk result (as_lists map.new ≡ finmap.insert (as_lists map.old) name queue) }
    ensures err { OnErr result (as_lists map.new ≡ as_lists map.old) }
{
    map.insert(name, queue)?;
    Ok(())
}

/// Takes the name out of the map.
fn take_out(map: &mut BTreeMap<BusName, Queue>, name: &BusName)
    ensures { as_lists map.new ≡ finmap.remove (as_lists map.old) name.now }
{
    map.remove(name);
}
