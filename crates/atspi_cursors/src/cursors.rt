//! The cursors of one reader in the texts of one application.

ghost use Rattle.std.specs.Prelude.{◌≡◌, ℕ, min, OnOk, OnErr};
ghost use Rattle.atspi_cursors.specs.Cursors.{cursor_at, OthersStay, AllStay};
ghost use Rattle.atspi_cursors.specs.Moves as moves;

use crate::moves::{after_deletion, after_insertion};
use atspi_base::NoMemory;
use std::alloc::Global;
use std::collections::BTreeMap;

/// Where a reader stands in the texts of one application: a cursor for each node whose text it reads. A text that was
/// not read yet has its cursor at its start, which takes no memory. Looking one up and moving it cost the logarithm of
/// how many there are.
#[derive(Drop)]
pub struct Cursors {
    places: BTreeMap<u32, u32>,
}

impl Cursors {
    /// Every text has its cursor at its start.
    pub fn new(alloc: Global) -> Cursors
        ensures { (node : ℕ) → cursor_at result node ≡ 0 }
    {
        Cursors {
            places: BTreeMap::new(alloc),
        }
    }

    /// The cursor in the text of a node.
    pub fn at(&self, node: u32) -> u32
        ensures { result ≡ cursor_at self.now node }
    {
        match self.places.get(&node) {
            Some(place) => *place,
            None => 0,
        }
    }

    /// Puts the cursor in the text of a node to a place. After want of memory it is where it was.
    pub fn put(&mut self, node: u32, place: u32) -> Result<(), NoMemory>
        ensures ok { OnOk result (cursor_at self.new node ≡ place) }
        ensures others { OthersStay self.old self.new node }
        ensures err { OnErr result (AllStay self.old self.new) }
    {
        match self.places.insert(node, place) {
            Ok(_) => Ok(()),
            Err(_) => Err(NoMemory),
        }
    }

    /// So many characters were put into the text of a node, at a place.
    pub fn inserted(&mut self, node: u32, at: u32, count: u32)
        ensures here { cursor_at self.new node
            ≡ min (moves.after_insertion (cursor_at self.old node) at count) 4294967295 }
        ensures others { OthersStay self.old self.new node }
    {
        if let Some(place) = self.places.get_mut(&node) {
            *place = after_insertion(*place, at, count);
        }
    }

    /// So many characters were taken out of the text of a node, from a place on.
    pub fn deleted(&mut self, node: u32, at: u32, count: u32)
        ensures here { cursor_at self.new node ≡ moves.after_deletion (cursor_at self.old node) at count }
        ensures others { OthersStay self.old self.new node }
    {
        if let Some(place) = self.places.get_mut(&node) {
            *place = after_deletion(*place, at, count);
        }
    }
}
