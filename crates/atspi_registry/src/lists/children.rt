//! The children of the registry.

ghost use Rattle.std.specs.Prelude.{◌≡◌, ◌<◌, [], ◌∷◌, ◌++◌, length, remove, slice_get, take, Some, OnOk, OnErr};
ghost use Rattle.std.specs.Option.{option_copied};
ghost use Rattle.atspi_protocol.specs.registering.RegistryState as state;
ghost use Rattle.atspi_protocol.specs.registering.RegistryState.{child_place};

use atspi_base::NoMemory;
use atspi_base::valid_names::{BusName, Path};
use std::alloc::Global;
use std::marker::Model;

/// The roots that are embedded, each by the bus name of its application and its path, in order of arrival.
#[derive(Drop)]
pub struct Children {
    items: Vec<(BusName, Path)>,
}

impl Model for Children {
    ghost use Rattle.std.specs.Prelude.{ℕ, List};

    ghost Value = { List (List ℕ × List ℕ) };

    ghost view = { λ c. c.items.items };
}

/// Whether the child is the application's.
fn is_of(child: &(BusName, Path), name: &str) -> bool
    ensures { result ≡ state.is_of name.now child.now }
{
    child.0.as_str() == name
}

impl Children {
    /// No child.
    pub fn new(alloc: Global) -> Children
        ensures { result ≡ [] }
    {
        Children {
            items: Vec::new(alloc),
        }
    }

    /// The children in order.
    pub fn as_slice(&self) -> &[(BusName, Path)]
        ensures { result.now ≡ self.now }
    {
        &self.items
    }

    /// Where the child of the application stands.
    pub fn place(&self, name: &str) -> Option<usize>
        ensures { result ≡ child_place self.now name.now }
    {
        self.items.iter().position(|child| is_of(child, name))
    }

    /// Appends a child. After want of memory all is as before.
    pub fn push(&mut self, name: BusName, path: Path) -> Result<(), NoMemory>
        ensures ok { OnOk result (self.new ≡ self.old ++ (name, path) ∷ []) }
        ensures err { OnErr result (self.new ≡ self.old) }
    {
        self.items.push((name, path))?;
        Ok(())
    }

    /// Keeps the first children, so many.
    pub fn truncate(&mut self, count: usize)
        ensures { self.new ≡ take count self.old }
    {
        self.items.truncate(count);
    }

    /// The child at the place goes.
    pub fn remove(&mut self, place: usize)
        requires { place < length self.old }
        ensures { self.new ≡ remove self.old place }
    {
        self.items.remove(place);
    }
}
