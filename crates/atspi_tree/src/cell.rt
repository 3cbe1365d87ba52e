//! What the tree keeps of a node.

ghost use Rattle.std.specs.Prelude.{◌≡◌, ℕ, [], IfOk};
ghost use Rattle.atspi_tree_model.specs.RowRules.{first_kinds};
ghost use Rattle.atspi_tree_model.specs.View.{kinds_number};
ghost use Rattle.atspi_tree.specs.Table.{IsNewCell, SameCell};

use crate::relations::Relations;
use atspi_base::{NoMemory, Text};
use atspi_tree_model::{Kinds, Seed};
use std::alloc::{AllocError, Global};

/// A node: its place in the tree, and its row but for the contents.
#[derive(Drop)]
pub(crate) struct Cell {
    /// None for the root.
    pub(crate) parent: Option<u32>,
    pub(crate) children: Vec<u32>,
    pub(crate) name: Text,
    pub(crate) description: Text,
    pub(crate) role: u32,
    /// Each state by its bit.
    pub(crate) states: u64,
    pub(crate) kinds: Kinds,
    pub(crate) relations: Relations,
}

/// The states of a new node: enabled (8), sensitive (24), showing (25) and visible (30).
const FIRST_STATES: u64 = 0x4300_0100;

/// A text of no characters.
#[tactic(auto, unfolding(atspi_base::specs::ReadsText::text_in))]
fn empty_text(alloc: Global) -> Result<Text, NoMemory>
    ensures { IfOk result (λ t. t ≡ []) }
{
    match Text::read(alloc, b"") {
        Ok(text) => Ok(text),
        Err(_) => Err(NoMemory),
    }
}

impl Cell {
    /// A node without children.
    pub(crate) fn new(
        alloc: Global,
        parent: Option<u32>,
        name: Text,
        role: u32,
        kinds: Kinds,
    ) -> Result<Cell, NoMemory>
        ensures { IfOk result (λ cell. IsNewCell cell name role kinds parent) }
    {
        Ok(Cell {
            parent,
            children: Vec::new(alloc),
            name,
            description: empty_text(alloc)?,
            role,
            states: FIRST_STATES,
            kinds,
            relations: Relations::new(alloc),
        })
    }

    /// A cell that says the same.
    fn copy(&self) -> Result<Cell, NoMemory>
        ensures { IfOk result (SameCell self.now) }
    {
        let alloc = *self.children.allocator();
        Ok(Cell {
            parent: self.parent,
            children: self.children.to_vec(alloc)?,
            name: self.name.copy(alloc)?,
            description: self.description.copy(alloc)?,
            role: self.role,
            states: self.states,
            kinds: self.kinds,
            relations: self.relations.copy(alloc)?,
        })
    }
}

impl Clone for Cell {
    ghost is_clone = { SameCell };

    fn clone(&self) -> Result<Cell, AllocError> {
        match self.copy() {
            Ok(cell) => Ok(cell),
            Err(NoMemory) => Err(AllocError),
        }
    }
}

/// The optional interfaces of a new node.
pub(crate) fn first_kinds(seed: &Seed) -> Kinds
    ensures { result ≡ first_kinds seed.now }
{
    Kinds {
        text: seed.text.is_some(),
        editable: seed.editable,
        selection: seed.select,
        table: seed.columns.is_some(),
        action: seed.actions.len() != 0,
    }
}

/// The interfaces as bits: bit 0 Text, 1 EditableText, 2 Selection, 3 Table, 4 Action.
pub(crate) fn bits(kinds: Kinds) -> u8
    ensures { result ≡ kinds_number kinds }
{
    u8::from(kinds.text)
        + 2 * u8::from(kinds.editable)
        + 4 * u8::from(kinds.selection)
        + 8 * u8::from(kinds.table)
        + 16 * u8::from(kinds.action)
}
