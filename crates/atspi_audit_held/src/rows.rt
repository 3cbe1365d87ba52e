//! The rows that a reader shows of what it holds.

ghost use Rattle.std.specs.Prelude.{◌≡◌, ◌≤◌, Some, true, IfOk};
ghost use Rattle.std.specs.Option.{option_map};
ghost use Rattle.atspi_tree_model.specs.Forest.{has};
ghost use Rattle.atspi_tree_model.specs.Path.{path_of};
ghost use Rattle.atspi_tree_model.specs.Row.{TreeRow};
ghost use Rattle.atspi_tree_model.specs.Tree.{is_node, shape_of};
ghost use Rattle.atspi_tree_model.specs.View.{number_part, shown, text_part};
ghost use Rattle.atspi_tree.specs.Seats.{seats_in};
ghost use Rattle.atspi_trace.specs.Causes.{index_below};
ghost use Rattle.atspi_whole_tree.specs.Whole.{row_in, shape_in};
ghost use Rattle.atspi_audit_held.specs.Held.{told_by, told_of};
ghost use Rattle.atspi_audit_held.specs.inner.Rows.{place_row, place_rows};

use crate::known::Known;
use crate::lacking::known_of;
use atspi_base::valid_names::Path;
use atspi_base::{NoMemory, Text};
use atspi_protocol_messages::node_path;
use atspi_trace_events::ShownRow;
use atspi_tree::Seat;
use atspi_tree_model::{NumPart, Part, Row};
use atspi_whole_tree::WholeTree;
use std::alloc::Global;
use std::collections::BTreeMap;

/// A text as a reader knows it.
fn text_part(told: bool, text: Option<Text>) -> Part
    ensures { result ≡ text_part told text }
{
    match text {
        None => Part::Absent,
        Some(text) => {
            if told {
                Part::Known(text)
            } else {
                Part::Unknown
            }
        }
    }
}

/// A number as a reader knows it.
fn number_part(told: bool, number: Option<u32>) -> NumPart
    ensures { result ≡ number_part told number }
{
    match number {
        None => NumPart::Absent,
        Some(number) => {
            if told {
                NumPart::Known(number)
            } else {
                NumPart::Unknown
            }
        }
    }
}

/// The path of a parent, where there is one.
fn parent_path(alloc: Global, parent: Option<u32>) -> Result<Option<Path>, NoMemory>
    ensures { IfOk result (λ path. path ≡ option_map path_of parent) }
{
    match parent {
        None => Ok(None),
        Some(parent) => Ok(Some(node_path(alloc, parent)?)),
    }
}

/// The index as it is shown: that of the root is -1.
fn shown_index(parent: Option<u32>, index: u32) -> i32
    requires { index ≤ 8192 }
    ensures { result ≡ index_below (option_map path_of parent) index }
{
    match parent {
        None => -1,
        Some(_) => index as i32,
    }
}

/// The row of a node, of which these parts were told.
fn row_of(alloc: Global, tree: &WholeTree, node: u32, known: Known) -> Result<Row, NoMemory>
    requires there { has (is_node node) tree.now.forest ≡ true }
    ensures { (row : TreeRow) → row_in node tree.now ≡ Some row
        → IfOk result (λ r. r ≡ shown (λ path. told_of known) row) }
{
    let shape = tree.tree();
    let path = node_path(alloc, node)?;
    let name = shape.name(node).copy(alloc)?;
    let description = shape.description(node).copy(alloc)?;
    let role = shape.role(node);
    let states = shape.states(node);
    let faces = shape.faces(node);
    let characters = tree.text(node)?;
    let text = text_part(known.text, characters);
    let caret = number_part(known.caret, tree.caret(node));
    let columns = number_part(known.columns, tree.columns(node));
    Ok(Row {
        path,
        name,
        description,
        role,
        states,
        faces,
        text,
        caret,
        columns,
    })
}

/// The row of the node at a place.
fn row_at(
    alloc: Global,
    tree: &WholeTree,
    told: &BTreeMap<u32, Known>,
    seat: Seat,
) -> Result<ShownRow, NoMemory>
    requires there { has (is_node seat.node) tree.now.forest ≡ true }
    requires small { seat.index ≤ 8192 }
    ensures { (row : TreeRow) → row_in seat.node tree.now ≡ Some row
        → IfOk result (λ r. r ≡ place_row (told_by told.now.entries) seat row) }
{
    let parent = parent_path(alloc, seat.parent)?;
    let index = shown_index(seat.parent, seat.index);
    let row = row_of(alloc, tree, seat.node, known_of(told, seat.node))?;
    Ok(ShownRow { parent, index, row })
}

/// The rows of all nodes, in preorder.
pub(crate) fn rows_of(
    alloc: Global,
    tree: &WholeTree,
    told: &BTreeMap<u32, Known>,
) -> Result<Vec<ShownRow>, NoMemory>
    ensures { IfOk result
        (λ rows. rows.items ≡ place_rows (told_by told.now.entries) tree.now (seats_in (shape_in tree.now))) }
{
    let shape = tree.tree();
    shape.is_lawful();
    let mut rows = Vec::new(alloc);
    let mut walk = shape.seats();
    while let Some(seat) = walk.next() {
        let row = row_at(alloc, tree, told, seat)?;
        rows.push(row)?;
    }
    Ok(rows)
}
