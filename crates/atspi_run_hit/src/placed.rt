//! The application, where its nodes stand, and how many calls were answered: what lines ask of it.

ghost use Rattle.std.specs.Prelude.{◌≡◌, ◌==◌, ◌<◌, ◌+◌, ◌&&◌, [], ℕ, Option, Some, IfNone, IfOk, cond, length, not};
ghost use Rattle.std.specs.Prelude.{true};
ghost use Rattle.std.specs.FinMap.{empty};
ghost use Rattle.atspi_message.specs.Envelope.{envelope_of};
ghost use Rattle.atspi_tree_model.specs.Edits.{IsEdit, lacks_kind};
ghost use Rattle.atspi_tree_model.specs.Forest.{has};
ghost use Rattle.atspi_tree_model.specs.Tree.{is_shape};
ghost use Rattle.atspi_tree.specs.TreeShape.{IsLawful, children_of};
ghost use Rattle.atspi_hit.specs.Cells.{cells};
ghost use Rattle.atspi_hit.specs.Places.{without_subtree};
ghost use Rattle.atspi_run_hit.specs.declared.line.HitLine.{HitLine as AnyLine};
ghost use Rattle.atspi_run_hit.specs.Scene.{cell_fault, follow_fault};
ghost use Rattle.atspi_run_hit.specs.Told.{IsBeside, application, call_reply, caller, child_at};
ghost use Rattle.atspi_run_hit.specs.inner.Seen.{Answers, MayDo, forgotten, seen};

use crate::line::HitLine;
use crate::naming::{Refused, Undone};
use crate::telling::{put_cell, put_message, put_targets};
use crate::whole::Whole;
use atspi_base::valid_names::BusName;
use atspi_base::{Bytes, NoMemory, Text};
use atspi_hit::{Layout, Rect, Way, step_cell};
use atspi_hit_answers::{Ask, reply};
use atspi_message::Message;
use atspi_protocol::ends::bus_name;
use atspi_tree::Tree;
use atspi_tree_edits::EditRefused;
use atspi_tree_model::{Edit, EditFault};
use std::alloc::Global;

/// The kinds of relations are 1 to this.
const KIND_LIMIT: u32 = 18;

/// The application, and where its nodes stand.
#[derive(Drop)]
pub(crate) struct Placed<T: Whole> {
    whole: T,
    layout: Layout,
    /// How many calls were answered.
    calls: u32,
}

/// The name of the application on the bus.
fn application(alloc: Global) -> Result<Text, NoMemory>
    ensures { IfOk result (λ name. name ≡ application) }
{
    Text::of(alloc, ":1.1")
}

/// The name of who calls it.
#[tactic(auto, unfolding(atspi_base::specs::valid_names::Names::is_bus_name, atspi_base::specs::valid_names::Names::has_bus_elements, atspi_base::specs::valid_names::Elements::are_two_or_more, atspi_base::specs::valid_names::Elements::are_elements, atspi_base::specs::valid_names::Elements::parts_of))]
fn caller(alloc: Global) -> Result<BusName, NoMemory>
    ensures { IfOk result (λ name. name ≡ caller) }
{
    bus_name(alloc, ":1.0")
}

/// The rectangles of a node that may go, and of all below it, go.
fn forget_node(layout: &mut Layout, tree: &Tree, node: u32)
    ensures { layout.new
        ≡ cond (not (node == 0) && has (is_shape node) tree.now.rows) (without_subtree tree.now node layout.old)
        layout.old }
{
    if node == 0 {
        return;
    }
    if tree.has(node) {
        layout.drop_subtree(tree, node);
    }
}

/// The rectangles go of the nodes that an edit removes.
fn forget(layout: &mut Layout, tree: &Tree, edit: &Edit)
    ensures { layout.new ≡ forgotten tree.now edit.now layout.old }
{
    match edit {
        Edit::Remove { node } => forget_node(layout, tree, *node),
        _ => {}
    }
}

/// How many children a node has.
#[tactic(auto, using(crate::proofs::Few::few_children))]
fn child_count(tree: &Tree, node: u32) -> u32
    requires { has (is_shape node) tree.now.rows ≡ true }
    ensures { result ≡ length (children_of node tree.now) }
{
    tree.is_lawful();
    tree.children(node).len() as u32
}

/// How many children of so many are cells of a table with so many columns.
fn cell_count(count: u32, columns: u32) -> u32
    ensures { result ≡ cells count columns }
{
    if columns == 0 {
        return 0;
    }
    count - count % columns
}

/// Whether a node that is there has a table.
fn has_table(tree: &Tree, node: u32) -> bool
    requires there { has (is_shape node) tree.now.rows ≡ true }
    requires lawful { IsLawful tree.now }
    ensures { lacks_kind (λ k. k.table) tree.now.rows node ≡ not result }
{
    tree.kinds(node).table
}

/// Why a cell of a node's table with so many columns cannot be told, if it cannot.
fn cell_fault(tree: &Tree, columns: u32, node: u32, index: u32) -> Option<EditFault>
    ensures fault { result ≡ cell_fault tree.now columns node index }
    ensures there { IfNone result (has (is_shape node) tree.now.rows ≡ true) }
    ensures cell { IfNone result (index < cells (length (children_of node tree.now)) columns) }
{
    if !tree.has(node) {
        return Some(EditFault::NoNode);
    }
    if !has_table(tree, node) {
        return Some(EditFault::NoFace);
    }
    if index >= cell_count(child_count(tree, node), columns) {
        return Some(EditFault::BadIndex);
    }
    None
}

/// The node of the cell beside a cell of a node's table with so many columns.
fn beside(tree: &Tree, columns: u32, node: u32, index: u32, way: Way) -> Option<u32>
    requires there { has (is_shape node) tree.now.rows ≡ true }
    requires cell { index < cells (length (children_of node tree.now)) columns }
    ensures { (place : Option ℕ) × IsBeside tree.now columns node index way place
        × (result ≡ child_at (children_of node tree.now) place) }
{
    match step_cell(child_count(tree, node), columns, index, way) {
        Some(place) => tree.children(node).get(place as usize).copied(),
        None => None,
    }
}

/// Why the targets of a node's relation cannot be told, if they cannot.
fn follow_fault(tree: &Tree, node: u32, kind: u32) -> Option<EditFault>
    ensures fault { result ≡ follow_fault tree.now node kind }
    ensures there { IfNone result (has (is_shape node) tree.now.rows ≡ true) }
{
    if !tree.has(node) {
        return Some(EditFault::NoNode);
    }
    if kind == 0 || kind > KIND_LIMIT {
        return Some(EditFault::BadIndex);
    }
    None
}

impl<T: Whole> Placed<T> {
    /// The application with the root alone, of which no node is placed.
    pub(crate) fn of(alloc: Global, whole: T) -> Placed<T>
        ensures whole { result.whole ≡ whole }
        ensures scene { seen T.tree_of result ≡ record { tree = T.tree_of whole; places = empty; calls = 0 } }
    {
        Placed {
            whole,
            layout: Layout::new(alloc),
            calls: 0,
        }
    }

    /// An edit is done; a removal takes the rectangles of its nodes too.
    fn edit(&mut self, alloc: Global, edit: &Edit) -> Result<(), Undone>
        requires lawful { IsEdit edit.now }
        requires whole { T.is_whole self.old.whole }
        ensures whole { T.is_whole self.new.whole }
        ensures answers { Answers result (Some (seen T.tree_of self.old)) (AnyLine.Edit edit.now)
            (Some (seen T.tree_of self.new)) [] }
    {
        forget(&mut self.layout, self.whole.tree(), edit);
        match self.whole.edit(alloc, edit) {
            Ok(()) => Ok(()),
            Err(EditRefused::Refused(why)) => Err(Undone::Refused(Refused::Asked(why))),
            Err(EditRefused::NoMemory) => Err(Undone::NoMemory),
        }
    }

    /// A node is placed.
    fn place(&mut self, node: u32, rect: Rect) -> Result<(), Undone>
        ensures whole { self.new.whole ≡ self.old.whole }
        ensures answers { Answers result (Some (seen T.tree_of self.old)) (AnyLine.Place node rect)
            (Some (seen T.tree_of self.new)) [] }
    {
        if !self.whole.tree().has(node) {
            return Err(Undone::Refused(Refused::Asked(EditFault::NoNode)));
        }
        match self.layout.place(node, rect) {
            Ok(()) => Ok(()),
            Err(_) => Err(Undone::NoMemory),
        }
    }

    /// The reply to a call, which has this number, as the call.
    fn answered(&self, alloc: Global, node: u32, ask: Ask, serial: u32) -> Result<Message, NoMemory>
        requires { serial ≡ self.now.calls + 1 }
        ensures { IfOk result (λ message. envelope_of message ≡ call_reply (seen T.tree_of self.now) node ask) }
    {
        let name = application(alloc)?;
        let caller = caller(alloc)?;
        reply(
            alloc,
            self.whole.tree(),
            &self.layout,
            &name,
            node,
            ask,
            caller,
            serial,
            serial,
        )
    }

    /// A call is answered, and the reply is told.
    fn call(&mut self, alloc: Global, node: u32, ask: Ask, out: &mut Bytes) -> Result<(), Undone>
        requires few { self.old.calls < 4294967295 }
        requires empty { out.old ≡ [] }
        ensures whole { self.new.whole ≡ self.old.whole }
        ensures answers { Answers result (Some (seen T.tree_of self.old)) (AnyLine.Call node ask)
            (Some (seen T.tree_of self.new)) out.new }
    {
        let serial = self.calls + 1;
        let Ok(message) = self.answered(alloc, node, ask, serial) else {
            return Err(Undone::NoMemory);
        };
        self.calls = serial;
        match put_message(&message, out) {
            Ok(()) => Ok(()),
            Err(_) => Err(Undone::NoMemory),
        }
    }

    /// The cell beside a cell is told.
    fn cell(&self, node: u32, index: u32, way: Way, out: &mut Bytes) -> Result<(), Undone>
        requires whole { T.is_whole self.now.whole }
        requires empty { out.old ≡ [] }
        ensures answers { Answers result (Some (seen T.tree_of self.now)) (AnyLine.Cell node index way)
            (Some (seen T.tree_of self.now)) out.new }
    {
        let tree = self.whole.tree();
        let columns = self.whole.columns(node);
        if let Some(why) = cell_fault(tree, columns, node, index) {
            return Err(Undone::Refused(Refused::Asked(why)));
        }
        match put_cell(beside(tree, columns, node, index, way), out) {
            Ok(()) => Ok(()),
            Err(_) => Err(Undone::NoMemory),
        }
    }

    /// The targets of a relation are told.
    fn follow(&self, node: u32, kind: u32, out: &mut Bytes) -> Result<(), Undone>
        requires empty { out.old ≡ [] }
        ensures answers { Answers result (Some (seen T.tree_of self.now)) (AnyLine.Follow node kind)
            (Some (seen T.tree_of self.now)) out.new }
    {
        let tree = self.whole.tree();
        if let Some(why) = follow_fault(tree, node, kind) {
            return Err(Undone::Refused(Refused::Asked(why)));
        }
        match put_targets(tree.targets(node, kind), out) {
            Ok(()) => Ok(()),
            Err(_) => Err(Undone::NoMemory),
        }
    }

    /// What a line asks for is done, and what it tells is put into what was empty.
    pub(crate) fn does(
        &mut self,
        alloc: Global,
        line: &HitLine,
        out: &mut Bytes,
    ) -> Result<(), Undone>
        requires may { MayDo line.now }
        requires whole { T.is_whole self.old.whole }
        requires few { self.old.calls < 4294967295 }
        requires empty { out.old ≡ [] }
        ensures whole { T.is_whole self.new.whole }
        ensures answers { Answers result (Some (seen T.tree_of self.old)) line.now (Some (seen T.tree_of self.new))
            out.new }
    {
        match line {
            HitLine::Nothing => Ok(()),
            HitLine::App(_) => Err(Undone::Refused(Refused::Form)),
            HitLine::Edit(edit) => self.edit(alloc, edit),
            HitLine::Place { node, rect } => self.place(*node, *rect),
            HitLine::Call { node, ask } => self.call(alloc, *node, *ask, out),
            HitLine::Cell { node, index, way } => self.cell(*node, *index, *way, out),
            HitLine::Follow { node, kind } => self.follow(*node, *kind, out),
        }
    }
}
