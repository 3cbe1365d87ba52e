//! The lists of all names, and beside them where each connection stands.

ghost use Rattle.std.specs.Prelude.{◌≡◌, ◌++◌, ◌&&◌, ℕ, List, true, not, IsTrue, IfOk, OnOk, OnErr};
ghost use Rattle.std.specs.Ordering.{nat_cmp};
ghost use Rattle.std.specs.Cmp.Lexicographic.{slice_cmp};
ghost use Rattle.std.specs.FinMap as finmap;
ghost use Rattle.std.specs.BTreeSet as set;
ghost use Rattle.atspi_names.specs.Queue.{requested, released, request_change, release_change, owner_in, stands};
ghost use Rattle.atspi_names.specs.Owners.{list_of, with_list, lists_without, well_known, owned_by, HasNoEmptyList};
ghost use Rattle.atspi_names.specs.Standings.{notes, SetsNote, SameNotes};

use crate::lists::Lists;
use crate::queue::owns_in;
use crate::standings::Standings;
use crate::{NameList, OwnerChange};
use atspi_base::NoMemory;
use atspi_base::valid_names::BusName;
use std::alloc::Global;
use std::collections::BTreeSet;
use std::marker::Model;

/// Each owned name with its list.
#[derive(Drop)]
pub struct Book {
    lists: Lists,
    standings: Standings,
}

impl Model for Book {
    ghost use Rattle.std.specs.Prelude.{ℕ, List};
    ghost use Rattle.std.specs.Coded.{coded_ℕ, coded_list, coded×};
    ghost use Rattle.std.specs.Ordering.{nat_cmp};
    ghost use Rattle.std.specs.Cmp.Lexicographic.{slice_cmp};
    ghost use Rattle.std.specs.FinMap as finmap;
    ghost use Rattle.atspi_names.specs.Book.{IsKept};

    ghost Value = { finmap.FinMap {K = List ℕ} (slice_cmp nat_cmp) (List (ℕ × ℕ)) };

    ghost coded = { finmap.code (coded_list coded_ℕ) (coded_list (coded× coded_ℕ coded_ℕ)) };

    ghost view = { λ b. b.lists };

    ghost invariant = { λ b. IsKept b.lists b.standings.sets };
}

impl Book {
    /// No name.
    pub fn new(alloc: Global) -> Book
        ensures { result ≡ finmap.empty }
    {
        Book {
            lists: Lists::new(alloc),
            standings: Standings::new(alloc),
        }
    }

    /// An equal book.
    pub fn copy(&self, alloc: Global) -> Result<Book, NoMemory>
        ensures { IfOk result (λ copy. copy ≡ self.now) }
    {
        Ok(Book {
            lists: self.lists.copy(alloc)?,
            standings: self.standings.copy(alloc)?,
        })
    }

    /// The list of a name, empty where nobody has it.
    pub fn get(&self, name: &BusName) -> &[(u32, u32)]
        ensures list { result.now ≡ list_of self.now name.now }
        ensures no_empty { HasNoEmptyList self.now }
    {
        self.lists.get(name)
    }

    /// The owner of a name.
    pub fn owner(&self, name: &BusName) -> Option<u32>
        ensures { result ≡ owner_in (list_of self.now name.now) }
    {
        self.lists.owner(name)
    }

    /// Appends the well-known names by their bytes.
    pub fn append_well_known(&self, alloc: Global, names: &mut NameList) -> Result<(), NoMemory>
        ensures { OnOk result (names.new ≡ names.old ++ well_known self.now) }
    {
        self.lists.append_well_known(alloc, names)
    }

    /// Appends the well-known names that the connection owns, by their bytes.
    pub fn append_owned(
        &self,
        alloc: Global,
        conn: u32,
        names: &mut NameList,
    ) -> Result<(), NoMemory>
        ensures { OnOk result (names.new ≡ names.old ++ owned_by self.now conn) }
    {
        let Some(held) = self.standings.get(conn) else {
            return Ok(());
        };
        for name in held {
            if !name.is_unique() && owns_in(self.lists.get(name), conn) {
                names.push(name.copy(alloc)?)?;
            }
        }
        Ok(())
    }

    /// Takes a request of the name. After want of memory the lists are as before.
    pub fn request(
        &mut self,
        alloc: Global,
        conn: u32,
        name: &BusName,
        flags: u32,
    ) -> Result<OwnerChange, NoMemory>
        ensures ok { IfOk result (λ change. change ≡ request_change (list_of self.old name.now) conn flags) }
        ensures lists { OnOk result
            (self.new ≡ with_list self.old name.now (requested (list_of self.old name.now) conn flags).0) }
        ensures no_empty { HasNoEmptyList self.old }
        ensures err { OnErr result (self.new ≡ self.old) }
    {
        let is_new = self.standings.ensure(alloc, conn, name)?;
        match self.lists.request(alloc, conn, name, flags) {
            Ok(change) => {
                settle(&mut self.standings, &self.lists, conn, name);
                if let Some(owner) = change.before {
                    settle(&mut self.standings, &self.lists, owner, name);
                }
                Ok(change)
            }
            Err(refused) => {
                if is_new {
                    self.standings.forget(conn, name);
                }
                Err(refused)
            }
        }
    }

    /// Takes the connection out of the list of the name.
    pub fn release(&mut self, conn: u32, name: &BusName) -> OwnerChange
        ensures lists { self.new ≡ with_list self.old name.now (released (list_of self.old name.now) conn).0 }
        ensures change { result ≡ release_change (list_of self.old name.now) conn }
    {
        self.standings.forget(conn, name);
        self.lists.release(conn, name)
    }

    /// Takes the connection out of every list.
    pub fn gone(&mut self, conn: u32)
        ensures { self.new ≡ lists_without conn self.old }
    {
        if let Some(names) = self.standings.take(conn) {
            leave_all(&mut self.lists, &names, conn);
        }
    }
}

/// Forgets that the connection stands in the list of the name where it does not.
fn settle(standings: &mut Standings, lists: &Lists, conn: u32, name: &BusName)
    ensures { SetsNote standings.old.sets standings.new.sets conn name.now
        (stands conn (list_of lists.now name.now) && notes standings.old.sets conn name.now) }
{
    if !lists.stands(name, conn) {
        standings.forget(conn, name);
    }
}

/// Takes the connection out of the lists of the names, which are all in which it stands.
fn leave_all(lists: &mut Lists, names: &BTreeSet<BusName>, conn: u32)
    requires no_empty { HasNoEmptyList lists.old }
    requires all { (q : List ℕ) → stands conn (list_of lists.old q) ≡ set.contains (slice_cmp nat_cmp) names.now q }
    ensures { lists.new ≡ lists_without conn lists.old }
{
    for name in names {
        lists.release(conn, name);
    }
}
