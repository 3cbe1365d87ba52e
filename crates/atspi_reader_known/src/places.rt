//! Where each application stands, by its name.

ghost use Rattle.std.specs.Prelude.{◌≡◌, ℕ, List, bytes_eq, cond, None, Some, OnOk, OnErr};
ghost use Rattle.std.specs.Option.{option_map};
ghost use Rattle.atspi_reader_known.specs.Places.{moved_up, place_in};

use atspi_base::NoMemory;
use std::alloc::Global;
use std::collections::BTreeMap;

/// The place of each name in a list, found in log n steps whoever chose the names. It keeps the allocator that it was
/// made with.
#[derive(Drop)]
pub(crate) struct Places {
    alloc: Global,
    places: BTreeMap<String, usize>,
}

impl Places {
    /// No name has a place.
    pub(crate) fn new(alloc: Global) -> Places
        ensures { (q : List ℕ) → place_in result q ≡ None }
    {
        Places {
            alloc,
            places: BTreeMap::new(alloc),
        }
    }

    /// The place of a name.
    pub(crate) fn find(&self, name: &str) -> Option<usize>
        ensures { result ≡ place_in self.now name.now }
    {
        self.places.get(name).copied()
    }

    /// A name gets a place. After want of memory all is as before.
    pub(crate) fn put(&mut self, name: &str, place: usize) -> Result<(), NoMemory>
        ensures ok { OnOk result
            ((q : List ℕ) → place_in self.new q ≡ cond (bytes_eq name.now q) (Some place) (place_in self.old q)) }
        ensures err { OnErr result ((q : List ℕ) → place_in self.new q ≡ place_in self.old q) }
    {
        let name = String::from_str(self.alloc, name)?;
        self.places.insert(name, place)?;
        Ok(())
    }

    /// A name has no place any more.
    pub(crate) fn remove(&mut self, name: &str)
        ensures { (q : List ℕ) → place_in self.new q ≡ cond (bytes_eq name.now q) None (place_in self.old q) }
    {
        self.places.remove(name);
    }

    /// Each place behind one that is gone is one less.
    pub(crate) fn move_up(&mut self, gone: usize)
        ensures { (q : List ℕ) → place_in self.new q ≡ option_map (moved_up gone) (place_in self.old q) }
    {
        self.places.retain(|_, place| {
            *place = moved_up(gone, *place);
            true
        });
    }
}

/// A place, once another one is gone.
fn moved_up(gone: usize, place: usize) -> usize
    ensures { result ≡ moved_up gone place }
{
    if gone < place { place - 1 } else { place }
}
