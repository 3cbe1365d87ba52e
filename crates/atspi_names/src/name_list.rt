//! A list of names.

ghost use Rattle.std.specs.Prelude.{◌≡◌, [], ◌∷◌, ◌++◌, length, OnOk, OnErr};

use atspi_base::NoMemory;
use atspi_base::valid_names::BusName;
use std::alloc::Global;
use std::marker::Model;

/// A list of names of connections.
#[derive(Drop)]
pub struct NameList {
    names: Vec<BusName>,
}

impl Model for NameList {
    ghost use Rattle.std.specs.Prelude.{ℕ, List};

    ghost Value = { List (List ℕ) };

    ghost view = { λ l. l.names.items };
}

impl NameList {
    /// No name.
    pub fn new(alloc: Global) -> NameList
        ensures { result ≡ [] }
    {
        NameList {
            names: Vec::new(alloc),
        }
    }

    /// The names of a `Vec`, which are not copied.
    pub fn from_vec(names: Vec<BusName>) -> NameList
        ensures { result ≡ names.items }
    {
        NameList { names }
    }

    /// The names as a `Vec`, not copied.
    pub fn into_vec(self) -> Vec<BusName>
        ensures { result.items ≡ self }
    {
        self.names
    }

    /// The names in order.
    pub fn as_slice(&self) -> &[BusName]
        ensures { result.now ≡ self.now }
    {
        &self.names
    }

    /// How many names there are.
    pub fn len(&self) -> usize
        ensures { result ≡ length self.now }
    {
        self.names.len()
    }

    /// Appends a name. After want of memory the list is as before.
    pub fn push(&mut self, name: BusName) -> Result<(), NoMemory>
        ensures ok { OnOk result (self.new ≡ self.old ++ name ∷ []) }
        ensures err { OnErr result (self.new ≡ self.old) }
    {
        self.names.push(name)?;
        Ok(())
    }
}
