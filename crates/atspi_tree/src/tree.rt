//! The tree itself: a table of cells, and the calls that read and change it.

ghost use Rattle.std.specs.Prelude.{◌≡◌, ◌<◌, ℕ, Some, None, true, IfOk, OnOk, OnErr, []};
ghost use Rattle.std.specs.Option.{option_map};
ghost use Rattle.atspi_tree_model.specs.Edits.{node_targets};
ghost use Rattle.atspi_tree_model.specs.declared.step.Step.TheVariants.{Add, Move, Relate, Remove, SetDescription};
ghost use Rattle.atspi_tree_model.specs.declared.step.Step.TheVariants.{SetName, SetRole, SetState};
ghost use Rattle.atspi_tree_model.specs.Forest.{has, count as count_nodes};
ghost use Rattle.atspi_tree_model.specs.Row.{IsName};
ghost use Rattle.atspi_tree_model.specs.RowRules.{shapes};
ghost use Rattle.atspi_tree_model.specs.Tree.{in_subtree, is_shape};
ghost use Rattle.atspi_tree_model.specs.View.{kinds_number};
ghost use Rattle.atspi_tree.specs.NextNode.{IsNextNode};
ghost use Rattle.atspi_tree.specs.TreeShape.{IsLawful, StepApplies, after_step, children_of, parent_of, root_alone};
ghost use Rattle.atspi_tree.specs.TreeShape.{row_of};

use crate::cell::{Cell, bits, first_kinds};
use crate::namers::Namers;
use crate::relations::{Relations, target_set};
use crate::table::{
    forget_named, insert_child, prune, put_cell, rehang, set_description, set_name, set_relations,
    set_role, set_states,
};
use atspi_base::{NoMemory, Nums, Text};
use atspi_tree_model::{Kinds, Seed, Step};
use std::alloc::Global;
use std::collections::BTreeMap;
use std::marker::Model;

/// An application's tree, without the contents of its nodes. Contracts see the rows in their places and the count of
/// nodes that were ever added; every tree keeps the limits and rules of a tree.
#[derive(Drop)]
pub struct Tree {
    alloc: Global,
    cells: BTreeMap<u32, Cell>,
    namers: Namers,
    /// The newest node's number.
    added: u32,
}

impl Model for Tree {
    ghost use Rattle.atspi_tree.specs.TreeShape.{TreeShape, tree_code};
    ghost use Rattle.atspi_tree.specs.Table.{HoldsTree, rows_in};

    ghost Value = { TreeShape };

    ghost coded = { tree_code };

    ghost view = { λ t. record { rows = rows_in t.cells.entries; added = t.added } };

    ghost invariant = { λ t. HoldsTree t.cells.entries t.namers.sets t.added };
}

impl Tree {
    /// The root alone, with the application's name.
    pub fn new(alloc: Global, name: Text) -> Result<Tree, NoMemory>
        requires { IsName name }
        ensures { IfOk result (λ t. t ≡ root_alone name) }
    {
        let kinds = Kinds {
            text: false,
            editable: false,
            selection: false,
            table: false,
            action: false,
        };
        let root = Cell::new(alloc, None, name, 75, kinds)?;
        let mut cells = BTreeMap::new(alloc);
        put_cell(&mut cells, 0, root)?;
        Ok(Tree {
            alloc,
            cells,
            namers: Namers::new(alloc),
            added: 0,
        })
    }

    /// Whether a node is in the tree.
    pub fn has(&self, node: u32) -> bool
        ensures lawful { IsLawful self.now }
        ensures answer { result ≡ has (is_shape node) self.now.rows }
    {
        self.cells.contains_key(&node)
    }

    /// The node with the least number from this one on. Costs a look-up, whatever numbers are free.
    pub fn next_node(&self, from: u32) -> Option<u32>
        ensures next { IsNextNode self.now from result }
        ensures lawful { IsLawful self.now }
    {
        match self.cells.range(from..).next() {
            Some((node, _)) => Some(*node),
            None => None,
        }
    }

    /// The rules of a tree are kept. A law: this does nothing.
    pub fn is_lawful(&self)
        ensures { IsLawful self.now }
    {
        let _ = &self.alloc;
    }

    /// How many nodes were ever added, the root not counted. The newest node has this number.
    pub fn made(&self) -> u32
        ensures { result ≡ self.now.added }
    {
        self.added
    }

    /// How many nodes the tree has.
    pub fn len(&self) -> u32
        ensures count { result ≡ count_nodes (λ row. true) self.now.rows }
        ensures lawful { IsLawful self.now }
    {
        self.cells.len() as u32
    }

    /// Does a step. After want of memory the tree is as before. The steps that change what interface objects keep
    /// change nothing here.
    pub fn apply(&mut self, step: &Step) -> Result<(), NoMemory>
        requires { StepApplies self.old step.now }
        ensures ok { OnOk result (self.new ≡ after_step self.old step.now) }
        ensures err { OnErr result (self.new ≡ self.old) }
    {
        match step {
            Step::Add {
                node,
                parent,
                index,
                seed,
            } => self.add(*node, *parent, *index, seed),
            Step::Move {
                node,
                parent,
                index,
            } => self.shift(*node, *parent, *index),
            Step::SetName { node, text } => self.rename(*node, text),
            Step::SetDescription { node, text } => self.describe(*node, text),
            Step::SetRole { node, role } => {
                self.set_role(*node, *role);
                Ok(())
            }
            Step::SetState { node, state, on } => {
                self.set_state(*node, *state, *on);
                Ok(())
            }
            Step::Insert { .. } => Ok(()),
            Step::Delete { .. } => Ok(()),
            Step::Caret { .. } => Ok(()),
            Step::TextSelect { .. } => Ok(()),
            Step::Relate {
                node,
                kind,
                targets,
            } => self.relate(*node, *kind, targets),
            Step::Remove { node } => {
                self.take_out(*node);
                Ok(())
            }
        }
    }

    /// An equal tree.
    pub fn copy(&self) -> Result<Tree, NoMemory>
        ensures { IfOk result (λ t. t ≡ self.now) }
    {
        Ok(Tree {
            alloc: self.alloc,
            cells: self.cells.clone()?,
            namers: self.namers.copy()?,
            added: self.added,
        })
    }

    /// A node's name.
    pub fn name(&self, node: u32) -> &Text
        requires { has (is_shape node) self.now.rows ≡ true }
        ensures { option_map (λ row. row.name) (row_of node self.now) ≡ Some result.now }
    {
        &self.cells[&node].name
    }

    /// A node's description.
    pub fn description(&self, node: u32) -> &Text
        requires { has (is_shape node) self.now.rows ≡ true }
        ensures { option_map (λ row. row.description) (row_of node self.now) ≡ Some result.now }
    {
        &self.cells[&node].description
    }

    /// A node's role.
    pub fn role(&self, node: u32) -> u32
        requires { has (is_shape node) self.now.rows ≡ true }
        ensures { option_map (λ row. row.role) (row_of node self.now) ≡ Some result }
    {
        self.cells[&node].role
    }

    /// A node's states, each by its bit.
    pub fn states(&self, node: u32) -> u64
        requires { has (is_shape node) self.now.rows ≡ true }
        ensures { option_map (λ row. row.states) (row_of node self.now) ≡ Some result }
    {
        self.cells[&node].states
    }

    /// A node's optional interfaces.
    pub fn kinds(&self, node: u32) -> Kinds
        requires { has (is_shape node) self.now.rows ≡ true }
        ensures { option_map (λ row. row.kinds) (row_of node self.now) ≡ Some result }
    {
        self.cells[&node].kinds
    }

    fn relations_of(&self, node: u32) -> &Relations
        requires { has (is_shape node) self.now.rows ≡ true }
        ensures { option_map (λ row. row.relations) (row_of node self.now) ≡ Some result.now }
    {
        &self.cells[&node].relations
    }

    /// A node's relations: the kind and one target of each, in the order of the targets.
    pub fn relations(&self, node: u32) -> &[(u32, u32)]
        requires { has (is_shape node) self.now.rows ≡ true }
        ensures { option_map (λ row. row.relations) (row_of node self.now) ≡ Some result.now }
    {
        self.relations_of(node).pairs()
    }

    /// The targets of a node's relation of a kind, in their order. None where it has no such relation.
    pub fn targets(&self, node: u32, kind: u32) -> &[u32]
        requires { has (is_shape node) self.now.rows ≡ true }
        ensures { result.now ≡ node_targets kind (row_of node self.now) }
    {
        self.relations_of(node).of_kind(kind)
    }

    /// A node's optional interfaces: bit 0 Text, 1 EditableText, 2 Selection, 3 Table, 4 Action.
    pub fn faces(&self, node: u32) -> u8
        requires { has (is_shape node) self.now.rows ≡ true }
        ensures { option_map (λ row. kinds_number row.kinds) (row_of node self.now) ≡ Some result }
    {
        bits(self.cells[&node].kinds)
    }

    /// A node's parent. None for the root.
    pub fn parent(&self, node: u32) -> Option<u32>
        requires { has (is_shape node) self.now.rows ≡ true }
        ensures { parent_of node self.now ≡ Some result }
    {
        self.cells[&node].parent
    }

    /// The numbers of a node's children, in order.
    pub fn children(&self, node: u32) -> &[u32]
        requires { has (is_shape node) self.now.rows ≡ true }
        ensures { result.now ≡ children_of node self.now }
    {
        &self.cells[&node].children
    }

    fn add(&mut self, node: u32, parent: u32, index: u32, seed: &Seed) -> Result<(), NoMemory>
        requires { StepApplies self.old (Add node parent index seed.now) }
        ensures ok { OnOk result (self.new ≡ after_step self.old (Add node parent index seed.now)) }
        ensures err { OnErr result (self.new ≡ self.old) }
    {
        let name = seed.name.copy(self.alloc)?;
        let cell = Cell::new(self.alloc, Some(parent), name, seed.role, first_kinds(seed))?;
        put_cell(&mut self.cells, node, cell)?;
        match insert_child(&mut self.cells, parent, index as usize, node) {
            Ok(()) => {
                self.added = node;
                Ok(())
            }
            Err(e) => {
                self.cells.remove(&node);
                Err(e)
            }
        }
    }

    /// A node goes below another.
    fn shift(&mut self, node: u32, parent: u32, index: u32) -> Result<(), NoMemory>
        requires { StepApplies self.old (Move node parent index) }
        ensures ok { OnOk result (self.new ≡ after_step self.old (Move node parent index)) }
        ensures err { OnErr result (self.new ≡ self.old) }
    {
        match self.parent(node) {
            Some(old) => {
                rehang(&mut self.cells, old, parent, index as usize, node)?;
                Ok(())
            }
            None => unreachable!(),
        }
    }

    fn describe(&mut self, node: u32, text: &Text) -> Result<(), NoMemory>
        requires { StepApplies self.old (SetDescription node text.now) }
        ensures ok { OnOk result (self.new ≡ after_step self.old (SetDescription node text.now)) }
        ensures err { OnErr result (self.new ≡ self.old) }
    {
        let description = text.copy(self.alloc)?;
        set_description(&mut self.cells, node, description);
        Ok(())
    }

    /// The last of the last children of a node, or the node itself where it has none.
    fn last_leaf(&self, node: u32) -> u32
        requires { has (is_shape node) self.now.rows ≡ true }
        ensures there { has (is_shape result) self.now.rows ≡ true }
        ensures inside { (top : ℕ) → in_subtree shapes top self.now.rows node ≡ true
            → in_subtree shapes top self.now.rows result ≡ true }
        ensures leaf { children_of result self.now ≡ [] }
        ensures lawful { IsLawful self.now }
    {
        let mut at = node;
        while let Some(child) = self.cells[&at].children.last() {
            at = *child;
        }
        at
    }

    /// Takes out a node without children, and answers its parent. Looks at the nodes that may name it, and at no
    /// others.
    fn take_leaf(&mut self, node: u32) -> u32
        requires applies { StepApplies self.old (Remove node) }
        requires leaf { children_of node self.old ≡ [] }
        ensures parent { parent_of node self.old ≡ Some (Some result) }
        ensures taken { self.new ≡ after_step self.old (Remove node) }
    {
        let Some(parent) = self.parent(node) else {
            unreachable!()
        };
        let relations = prune(&mut self.cells, parent, node);
        self.namers.forget_each(relations.pairs(), node);
        let namers = self.namers.take(node);
        forget_named(&mut self.cells, &namers, node);
        parent
    }

    /// Takes out a node that is there and is not the root, with all that is below it. Takes no memory. The cost is that
    /// of the nodes taken out, and of the relations that name them; where the node is not the last child of its parent,
    /// it is also looked for among the children.
    pub fn take_out(&mut self, node: u32)
        requires { StepApplies self.old (Remove node) }
        ensures { self.new ≡ after_step self.old (Remove node) }
    {
        let mut leaf = self.last_leaf(node);
        while leaf != node {
            let parent = self.take_leaf(leaf);
            leaf = self.last_leaf(parent);
        }
        self.take_leaf(node);
    }

    /// These are the targets of a node's relation of a kind.
    fn relate(&mut self, node: u32, kind: u32, targets: &Nums) -> Result<(), NoMemory>
        requires { StepApplies self.old (Relate node kind targets.now) }
        ensures ok { OnOk result (self.new ≡ after_step self.old (Relate node kind targets.now)) }
        ensures err { OnErr result (self.new ≡ self.old) }
    {
        let old = self.relations_of(node);
        let relations = old.with_targets(self.alloc, kind, targets.as_slice())?;
        let named = target_set(self.alloc, relations.pairs())?;
        self.namers.note_each(self.alloc, targets.as_slice(), node)?;
        let lost = set_relations(&mut self.cells, node, relations);
        self.namers.forget_lost(lost.pairs(), &named, node);
        Ok(())
    }

    fn set_role(&mut self, node: u32, role: u32)
        requires { StepApplies self.old (SetRole node role) }
        ensures { self.new ≡ after_step self.old (SetRole node role) }
    {
        set_role(&mut self.cells, node, role);
    }

    /// Sets a state of a node that is there, or clears it. Takes no memory.
    pub fn set_state(&mut self, node: u32, state: u8, on: bool)
        requires there { has (is_shape node) self.old.rows ≡ true }
        requires known { state < 44 }
        ensures { self.new ≡ after_step self.old (SetState node state on) }
    {
        set_states(&mut self.cells, node, state, on);
    }

    fn rename(&mut self, node: u32, text: &Text) -> Result<(), NoMemory>
        requires { StepApplies self.old (SetName node text.now) }
        ensures ok { OnOk result (self.new ≡ after_step self.old (SetName node text.now)) }
        ensures err { OnErr result (self.new ≡ self.old) }
    {
        let name = text.copy(self.alloc)?;
        set_name(&mut self.cells, node, name);
        Ok(())
    }
}
