//! Steps: the smallest changes of an application's tree.

ghost use Rattle.std.specs.Prelude.{◌≡◌, List, [], ◌∷◌, ◌++◌, length, OnOk, OnErr};

use atspi_base::{Marks, NoMemory, Nums, Text, Texts};
use std::alloc::Global;
use std::marker::Model;

/// What a new node begins with.
#[derive(Drop)]
pub struct Seed {
    pub role: u32,
    pub name: Text,
    /// The node's text, where it has the interface Text.
    pub text: Option<Text>,
    /// Whether the text can be edited.
    pub editable: bool,
    /// How many columns the node has, where it is a table.
    pub columns: Option<u32>,
    /// Whether children can be selected.
    pub select: bool,
    /// The names of the node's actions, in order.
    pub actions: Texts,
}

/// A change of the tree. Nodes are named by their numbers, indexes count the children of a node, places the characters
/// of a text, all from 0.
#[derive(Drop)]
pub enum Step {
    /// A new node before the child at this index, or behind the last.
    Add {
        node: u32,
        parent: u32,
        index: u32,
        seed: Seed,
    },
    /// A node is taken out with all that is below it.
    Remove {
        node: u32,
    },
    /// A node goes, with all that is below it, to an index among the children of another; the index counts them without
    /// it.
    Move {
        node: u32,
        parent: u32,
        index: u32,
    },
    SetName {
        node: u32,
        text: Text,
    },
    SetDescription {
        node: u32,
        text: Text,
    },
    SetRole {
        node: u32,
        role: u32,
    },
    SetState {
        node: u32,
        state: u8,
        on: bool,
    },
    /// A text is put before the character at this place.
    Insert {
        node: u32,
        at: u32,
        text: Text,
    },
    /// The text that stands at this place is taken out.
    Delete {
        node: u32,
        at: u32,
        text: Text,
    },
    /// The caret stands before the character at this place.
    Caret {
        node: u32,
        at: u32,
    },
    /// These are the text selections.
    TextSelect {
        node: u32,
        marks: Marks,
    },
    /// These are the targets of the node's relation of this kind.
    Relate {
        node: u32,
        kind: u32,
        targets: Nums,
    },
}

/// A list of steps, in the order in which they are done.
#[derive(Drop)]
pub struct StepList {
    items: Vec<Step>,
}

impl Model for StepList {
    ghost use Rattle.std.specs.Prelude.{List};
    ghost use Rattle.atspi_tree_model.specs.declared.step.Step.{Step};

    ghost Value = { List Step };

    ghost view = { λ l. l.items.items };
}

impl StepList {
    /// No step.
    pub fn new(alloc: Global) -> StepList
        ensures { result ≡ [] }
    {
        StepList {
            items: Vec::new(alloc),
        }
    }

    /// The steps of a `Vec`, which are not copied.
    pub fn from_vec(items: Vec<Step>) -> StepList
        ensures { result ≡ items.items }
    {
        StepList { items }
    }

    /// The steps as a `Vec`, not copied.
    pub fn into_vec(self) -> Vec<Step>
        ensures { result.items ≡ self }
    {
        self.items
    }

    /// The steps in order.
    pub fn as_slice(&self) -> &[Step]
        ensures { result.now ≡ self.now }
    {
        &self.items
    }

    /// How many steps there are.
    pub fn len(&self) -> usize
        ensures { result ≡ length self.now }
    {
        self.items.len()
    }

    /// Appends a step. After want of memory the list is as before.
    pub fn push(&mut self, step: Step) -> Result<(), NoMemory>
        ensures ok { OnOk result (self.new ≡ self.old ++ step ∷ []) }
        ensures err { OnErr result (self.new ≡ self.old) }
    {
        self.items.push(step)?;
        Ok(())
    }
}
