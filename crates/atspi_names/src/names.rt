//! Who owns the names of a bus, and who waits for them.

ghost use Rattle.std.specs.Prelude.{◌≡◌, ◌≢◌, ◌<◌, ◌^◌, ◌↔◌, ◌++◌, ℕ, false, None, IfOk, IfErr, IsTrue, OnOk, OnErr};
ghost use Rattle.std.specs.Prelude.{IsErrOf};
ghost use Rattle.std.specs.Option.{option_copied};
ghost use Rattle.std.specs.Ordering.{nat_cmp};
ghost use Rattle.std.specs.FinMap as finmap;
ghost use Rattle.atspi_names.specs.Owners as owners;
ghost use Rattle.atspi_base.specs.valid_names.Names.{is_unique_name};
ghost use Rattle.atspi_names.specs.Queue.{request_change, release_change, owner_in, IsRequestAnswer};
ghost use Rattle.atspi_names.specs.Owners.{Owners, list_of, unique_name, listed, owned_by, nobody, after_hello};
ghost use Rattle.atspi_names.specs.Owners.{after_request, after_release, after_gone};
ghost use Rattle.atspi_names.specs.Hello.{IsAfterHello};
ghost use Rattle.atspi_names.specs.Tree.{as_unique};
ghost use Rattle.atspi_names.specs.declared.names.NamesFault.TheVariants as faults;

use crate::book::Book;
use crate::unique::{own_name, unique_name};
use crate::{NameList, OwnerChange};
use atspi_base::NoMemory;
use atspi_base::valid_names::BusName;
use std::alloc::{AllocError, AllocFailed, Global};
use std::collections::BTreeMap;
use std::marker::Model;
use thiserror::Error;

/// Why a name was not given.
#[derive(Clone, Copy, Debug, PartialEq, Eq, Error)]
pub enum NamesFault {
    /// All 4,294,967,295 unique names were given.
    #[error("no unique name is left")]
    Full,
    #[error("out of memory")]
    NoMemory,
}

impl From<AllocError> for NamesFault {
    ghost from_gives = { λ _ e. e ≡ faults.NoMemory };

    fn from(_: AllocError) -> NamesFault {
        NamesFault::NoMemory
    }
}

impl From<NoMemory> for NamesFault {
    ghost from_gives = { λ _ e. e ≡ faults.NoMemory };

    fn from(_: NoMemory) -> NamesFault {
        NamesFault::NoMemory
    }
}

impl<T: Drop> From<AllocFailed<T>> for NamesFault {
    ghost from_gives = { λ _ e. e ≡ faults.NoMemory };

    fn from(_: AllocFailed<T>) -> NamesFault {
        NamesFault::NoMemory
    }
}

/// The names of a bus: for each owned name the connections that own it or wait for it, each with the flags of its
/// last request, the owner first. A connection is known by its number, and has its unique name from its Hello on. It
/// keeps the allocator that it was made with.
#[derive(Drop)]
pub struct Names {
    alloc: Global,
    given: u32,
    unique: BTreeMap<u32, BusName>,
    book: Book,
}

impl Model for Names {
    ghost use Rattle.std.specs.FinMap as finmap;
    ghost use Rattle.atspi_names.specs.Owners.{Owners, owners_code, NoneTooEarly};

    ghost Value = { Owners };

    ghost coded = { owners_code };

    ghost view = { λ n. record { given = n.given; unique = finmap.from_entries n.unique.entries; lists = n.book } };

    ghost invariant = { λ n. NoneTooEarly n.given n.book };
}

impl Names {
    /// No name.
    pub fn new(alloc: Global) -> Names
        ensures { result ≡ nobody }
    {
        Names {
            alloc,
            given: 0,
            unique: BTreeMap::new(alloc),
            book: Book::new(alloc),
        }
    }

    /// The same names with the same owners. It fails only for want of memory.
    pub fn copy(&self) -> Result<Names, NoMemory>
        ensures { IfOk result (λ copy. copy ≡ self.now) }
    {
        Ok(Names {
            alloc: self.alloc,
            given: self.given,
            unique: copy_unique(self.alloc, &self.unique)?,
            book: self.book.copy(self.alloc)?,
        })
    }

    /// Gives the connection, which has no unique name, the next one: `:1.n`, n counting from 0. None is given twice.
    /// Full exactly where 4,294,967,295 were given; after a fault all is as before.
    pub fn hello(&mut self, conn: u32) -> Result<BusName, NamesFault>
        requires { finmap.get self.old.unique conn ≡ None }
        ensures name { IfOk result (λ name. name ≡ unique_name self.old.given) }
        ensures owners { OnOk result (self.new ≡ after_hello self.old conn) }
        ensures after { OnOk result (IsAfterHello self.old self.new conn) }
        ensures new { IfOk result (λ name. (n : ℕ) → n < self.old.given → name ≢ unique_name n) }
        ensures full { IsErrOf result NamesFault.Full ↔ (self.old.given ≡ 4294967295) }
        ensures err { OnErr result (self.new ≡ self.old) }
    {
        if self.given == u32::MAX {
            return Err(NamesFault::Full);
        }
        let name = unique_name(self.alloc, self.given)?;
        self.unique.insert(conn, name.copy(self.alloc)?)?;
        if let Err(refused) = self.book.request(self.alloc, conn, &name, 0) {
            self.unique.remove(&conn);
            return Err(refused.into());
        }
        self.given += 1;
        Ok(name)
    }

    /// Takes back the Hello of the connection, where nothing changed since: all is as before it.
    pub fn take_back_hello(&mut self, conn: u32)
        requires { (before : Owners) × IsAfterHello before self.old conn }
        ensures { (before : Owners) → IsAfterHello before self.old conn → self.new ≡ before }
    {
        let Some(name) = self.unique.remove(&conn) else {
            unreachable!()
        };
        self.book.release(conn, &name);
        self.given -= 1;
    }

    /// Takes a request of the connection for a well-known name: RequestName with these flags. After want of memory
    /// all is as before.
    pub fn request(
        &mut self,
        conn: u32,
        name: &BusName,
        flags: u32,
    ) -> Result<OwnerChange, NamesFault>
        requires well_known { is_unique_name name.now ≡ false }
        requires not_the_bus { name.now ≢ owners.own_name }
        ensures change { IfOk result (λ change. change ≡ request_change (list_of self.old.lists name.now) conn flags) }
        ensures owners { OnOk result (self.new ≡ after_request self.old conn name.now flags) }
        ensures answer { IfOk result (λ change.
            IsRequestAnswer change.answer conn (list_of self.old.lists name.now) (list_of self.new.lists name.now)) }
        ensures memory { IfErr result (λ e. e ≡ NamesFault.NoMemory) }
        ensures err { OnErr result (self.new ≡ self.old) }
    {
        Ok(self.book.request(self.alloc, conn, name, flags)?)
    }

    /// Takes the connection out of the list of a well-known name: ReleaseName.
    pub fn release(&mut self, conn: u32, name: &BusName) -> OwnerChange
        requires well_known { is_unique_name name.now ≡ false }
        requires not_the_bus { name.now ≢ owners.own_name }
        ensures change { result ≡ release_change (list_of self.old.lists name.now) conn }
        ensures owners { self.new ≡ after_release self.old conn name.now }
    {
        self.book.release(conn, name)
    }

    /// Takes the connection out of every list, its unique name's too. Only those in which it stands are looked at.
    pub fn gone(&mut self, conn: u32)
        ensures { self.new ≡ after_gone self.old conn }
    {
        self.unique.remove(&conn);
        self.book.gone(conn);
    }

    /// The unique name of the connection, which it has from its Hello until it is gone.
    pub fn unique_name(&self, conn: u32) -> Option<&BusName>
        ensures { option_copied result ≡ finmap.get self.now.unique conn }
    {
        self.unique.get(&conn)
    }

    /// The connection that owns the name.
    pub fn owner(&self, name: &BusName) -> Option<u32>
        ensures { result ≡ owner_in (list_of self.now.lists name.now) }
    {
        self.book.owner(name)
    }

    /// Whether nobody owns the name or waits for it.
    pub fn is_free(&self, name: &BusName) -> bool
        ensures { IsTrue result ↔ (finmap.get self.now.lists name.now ≡ None) }
    {
        self.book.get(name).is_empty()
    }

    /// The connections that own the name or wait for it, each with its flags, the owner first.
    pub fn queue(&self, name: &BusName) -> &[(u32, u32)]
        ensures { result.now ≡ list_of self.now.lists name.now }
    {
        self.book.get(name)
    }

    /// The bus's own name, the unique names by rising connection number, and the well-known names by their bytes.
    pub fn list(&self) -> Result<NameList, NoMemory>
        ensures { IfOk result (λ names. names ≡ listed self.now) }
    {
        let mut names = NameList::new(self.alloc);
        names.push(own_name(self.alloc)?)?;
        append_all(self.alloc, &self.unique, &mut names)?;
        self.book.append_well_known(self.alloc, &mut names)?;
        Ok(names)
    }

    /// The well-known names that the connection owns, by their bytes.
    pub fn owned(&self, conn: u32) -> Result<NameList, NoMemory>
        ensures { IfOk result (λ names. names ≡ owned_by self.now.lists conn) }
    {
        let mut names = NameList::new(self.alloc);
        self.book.append_owned(self.alloc, conn, &mut names)?;
        Ok(names)
    }
}

/// The same unique names, copied from the last to the first.
fn copy_unique(
    alloc: Global,
    unique: &BTreeMap<u32, BusName>,
) -> Result<BTreeMap<u32, BusName>, NoMemory>
    ensures { IfOk result (λ copy. as_unique copy ≡ as_unique unique.now) }
{
    let mut copy = BTreeMap::new(alloc);
    let mut rest = unique.iter();
    while let Some((conn, name)) = rest.next_back() {
        put_unique(&mut copy, *conn, name.copy(alloc)?)?;
    }
    Ok(copy)
}

/// Puts the unique name of a connection into the map.
fn put_unique(unique: &mut BTreeMap<u32, BusName>, conn: u32, name: BusName) -> Result<(), NoMemory>
    ensures { OnOk result (as_unique unique.new ≡ finmap.insert (as_unique unique.old) conn name) }
{
    unique.insert(conn, name)?;
    Ok(())
}

/// Appends the unique names by rising connection number.
fn append_all(
    alloc: Global,
    unique: &BTreeMap<u32, BusName>,
    names: &mut NameList,
) -> Result<(), NoMemory>
    ensures { OnOk result
        (names.new ≡ names.old ++ finmap.values (finmap.from_entries {R = nat_cmp} unique.now.entries)) }
{
    for name in unique.values() {
        names.push(name.copy(alloc)?)?;
    }
    Ok(())
}
