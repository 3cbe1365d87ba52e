//! The list of one name: its owner, and the connections that wait for it.

ghost use Rattle.std.specs.Prelude.{◌≡◌, ◌≢◌, ◌<◌, ◌≤◌, IfOk, OnOk, OnErr, [], Some, vec_len, vec_capacity};
ghost use Rattle.atspi_names.specs.Queue.{requested, released, request_change, release_change, without, with_flags};
ghost use Rattle.atspi_names.specs.Queue.{taken_over};
ghost use Rattle.atspi_names.specs.Queue as queue;

use crate::OwnerChange;
use atspi_base::NoMemory;
use std::alloc::Global;
use std::marker::Model;

/// The flag of a request that lets another connection take the name over.
const ALLOW_REPLACEMENT: u32 = 1;

/// The flag of a request that takes the name over from an owner that lets it.
const REPLACE_EXISTING: u32 = 2;

/// The flag of a request that does not wait for the name.
const DO_NOT_QUEUE: u32 = 4;

/// The connections that asked for a name, each with its flags, the owner first.
#[derive(Drop)]
pub struct Queue {
    entries: Vec<(u32, u32)>,
}

impl Model for Queue {
    ghost use Rattle.std.specs.Prelude.{ℕ, List};

    ghost Value = { List (ℕ × ℕ) };

    ghost view = { λ q. q.entries.items };
}

impl Queue {
    /// Nobody's.
    pub fn new(alloc: Global) -> Queue
        ensures { result ≡ [] }
    {
        Queue {
            entries: Vec::new(alloc),
        }
    }

    /// An equal list.
    pub fn copy(&self, alloc: Global) -> Result<Queue, NoMemory>
        ensures { IfOk result (λ copy. copy ≡ self.now) }
    {
        Ok(Queue {
            entries: self.entries.to_vec(alloc)?,
        })
    }

    /// The connections with their flags, the owner first.
    pub fn as_slice(&self) -> &[(u32, u32)]
        ensures { result.now ≡ self.now }
    {
        &self.entries
    }

    /// The owner.
    pub fn owner(&self) -> Option<u32>
        ensures { result ≡ queue.owner_in self.now }
    {
        owner_in(&self.entries)
    }

    /// Whether the connection owns the name or waits for it.
    pub fn stands(&self, conn: u32) -> bool
        ensures { result ≡ queue.stands conn self.now }
    {
        stands_in(&self.entries, conn)
    }

    /// Takes a request. After want of memory the list is as before.
    pub fn request(&mut self, conn: u32, flags: u32) -> Result<OwnerChange, NoMemory>
        ensures ok { IfOk result (λ change. change ≡ request_change self.old conn flags) }
        ensures list { OnOk result (self.new ≡ (requested self.old conn flags).0) }
        ensures err { OnErr result (self.new ≡ self.old) }
    {
        let before = self.owner();
        let answer = self.answer_request(conn, flags)?;
        Ok(OwnerChange {
            answer,
            before,
            after: self.owner(),
        })
    }

    /// Takes the connection out.
    pub fn release(&mut self, conn: u32) -> OwnerChange
        ensures change { result ≡ release_change self.old conn }
        ensures list { self.new ≡ (released self.old conn).0 }
    {
        let before = self.owner();
        let answer = self.answer_release(conn);
        OwnerChange {
            answer,
            before,
            after: self.owner(),
        }
    }

    /// Takes a request, and answers it. After want of memory the list is as before.
    fn answer_request(&mut self, conn: u32, flags: u32) -> Result<u32, NoMemory>
        ensures ok { IfOk result (λ answer. (self.new, answer) ≡ requested self.old conn flags) }
        ensures err { OnErr result (self.new ≡ self.old) }
    {
        let Some(&(owner, owner_flags)) = self.entries.first() else {
            self.entries.push((conn, flags))?;
            return Ok(1);
        };
        if owner == conn {
            self.entries[0].1 = flags;
            return Ok(4);
        }
        if owner_flags & ALLOW_REPLACEMENT != 0 && flags & REPLACE_EXISTING != 0 {
            take_over(&mut self.entries, conn, flags)?;
            return Ok(1);
        }
        if flags & DO_NOT_QUEUE != 0 {
            leave(&mut self.entries, conn);
            return Ok(3);
        }
        if self.stands(conn) {
            set_flags(&mut self.entries, conn, flags);
        } else {
            self.entries.push((conn, flags))?;
        }
        Ok(2)
    }

    /// Takes the connection out, and answers it.
    fn answer_release(&mut self, conn: u32) -> u32
        ensures { (self.new, result) ≡ released self.old conn }
    {
        if self.entries.is_empty() {
            return 2;
        }
        let stood = self.stands(conn);
        leave(&mut self.entries, conn);
        if stood { 1 } else { 3 }
    }
}

/// The owner in the list of a name.
pub fn owner_in(list: &[(u32, u32)]) -> Option<u32>
    ensures { result ≡ queue.owner_in list.now }
{
    list.first().map(|e| e.0)
}

/// Whether the connection is the owner in the list of a name.
pub fn owns_in(list: &[(u32, u32)], conn: u32) -> bool
    ensures { result ≡ queue.owns conn list.now }
{
    match list.first() {
        Some(first) => first.0 == conn,
        None => false,
    }
}

/// Whether the connection stands in the list of a name.
pub fn stands_in(list: &[(u32, u32)], conn: u32) -> bool
    ensures { result ≡ queue.stands conn list.now }
{
    list.iter().any(|e| e.0 == conn)
}

/// Takes the connection out of the list.
fn leave(entries: &mut Vec<(u32, u32)>, conn: u32)
    ensures items { entries.new.items ≡ without conn entries.old.items }
    ensures len { vec_len entries.new ≤ vec_len entries.old }
    ensures capacity { vec_capacity entries.new ≡ vec_capacity entries.old }
{
    entries.retain(|e| e.0 != conn);
}

/// Sets the flags of the connection.
fn set_flags(entries: &mut [(u32, u32)], conn: u32, flags: u32)
    ensures { entries.new ≡ with_flags conn flags entries.old }
{
    for entry in entries {
        if entry.0 == conn {
            *entry = (conn, flags);
        }
    }
}

/// Puts a new owner first. After want of memory the list is as before.
fn take_over(entries: &mut Vec<(u32, u32)>, conn: u32, flags: u32) -> Result<(), NoMemory>
    requires owned { 0 < vec_len entries.old }
    requires by_another { queue.owner_in entries.old.items ≢ Some conn }
    ensures ok { OnOk result (entries.new.items ≡ taken_over conn flags entries.old.items) }
    ensures err { OnErr result (entries.new.items ≡ entries.old.items) }
{
    entries.reserve(1)?;
    let replaced = entries[0];
    leave(entries, conn);
    if replaced.1 & DO_NOT_QUEUE != 0 {
        entries[0] = (conn, flags);
    } else {
        entries.insert(0, (conn, flags)).unwrap();
    }
    Ok(())
}
