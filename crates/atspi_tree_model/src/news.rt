//! News: what a reader reads in an application's messages.

ghost use Rattle.std.specs.Prelude.{◌≡◌, List, [], ◌∷◌, ◌++◌, length, OnOk, OnErr};

use atspi_base::valid_names::Path;
use atspi_base::{NoMemory, Text, Texts};
use std::alloc::Global;
use std::marker::Model;

/// An object: the bus name of its application, and its path there.
#[derive(Drop)]
pub struct Reference {
    pub bus: Text,
    pub path: Path,
}

/// What an application tells of a node, in `GetItems` and `AddAccessible`.
#[derive(Drop)]
pub struct Item {
    pub object: Reference,
    pub application: Reference,
    pub parent: Reference,
    /// The node's index among its parent's children; -1 for the root.
    pub index: i32,
    /// How many children the node has.
    pub children: i32,
    /// The full names of the node's interfaces.
    pub interfaces: Texts,
    pub name: Text,
    pub role: u32,
    pub description: Text,
    pub states: u64,
}

/// A list of items.
#[derive(Drop)]
pub struct Items {
    items: Vec<Item>,
}

impl Model for Items {
    ghost use Rattle.std.specs.Prelude.{List};
    ghost use Rattle.atspi_tree_model.specs.declared.news.Item.{Item};

    ghost Value = { List Item };

    ghost view = { λ l. l.items.items };
}

impl Items {
    /// No item.
    pub fn new(alloc: Global) -> Items
        ensures { result ≡ [] }
    {
        Items {
            items: Vec::new(alloc),
        }
    }

    /// The items of a `Vec`, which are not copied.
    pub fn from_vec(items: Vec<Item>) -> Items
        ensures { result ≡ items.items }
    {
        Items { items }
    }

    /// The items as a `Vec`, not copied.
    pub fn into_vec(self) -> Vec<Item>
        ensures { result.items ≡ self }
    {
        self.items
    }

    /// The items in order.
    pub fn as_slice(&self) -> &[Item]
        ensures { result.now ≡ self.now }
    {
        &self.items
    }

    /// How many items there are.
    pub fn len(&self) -> usize
        ensures { result ≡ length self.now }
    {
        self.items.len()
    }

    /// Appends an item. After want of memory the list is as before.
    pub fn push(&mut self, item: Item) -> Result<(), NoMemory>
        ensures ok { OnOk result (self.new ≡ self.old ++ item ∷ []) }
        ensures err { OnErr result (self.new ≡ self.old) }
    {
        self.items.push(item)?;
        Ok(())
    }
}

/// What a message says of a node. Paths are those of the application that sent it.
#[derive(Drop)]
pub enum News {
    /// A node is there, with its parent and index.
    Item(Item),
    /// A node is gone.
    Removed(Path),
    /// A parent has a new child.
    ChildAdded(Path),
    /// A parent has lost the child that stood at this index.
    ChildRemoved {
        parent: Path,
        index: i32,
        child: Path,
    },
    Name(Path, Text),
    Description(Path, Text),
    Role(Path, u32),
    /// The state of this bit is on, or off.
    State(Path, u8, bool),
    /// A text was put in at this place.
    Inserted {
        path: Path,
        at: i32,
        text: Text,
    },
    /// So many characters were taken out at this place.
    Deleted {
        path: Path,
        at: i32,
        len: i32,
        text: Text,
    },
    /// The caret went to this place.
    Caret(Path, i32),
    /// The answer to a reader's call for a text.
    TextIs(Path, Text),
    /// The answer to a reader's call for a caret.
    CaretIs(Path, i32),
    /// The answer to a reader's call for a count of columns.
    ColumnsIs(Path, i32),
    /// Anything else.
    Nothing,
}
