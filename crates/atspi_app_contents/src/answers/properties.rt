//! The properties that tell of the contents of a node.

ghost use Rattle.std.specs.Prelude.{◌≡◌, ◌≤◌, List, ℕ, true, length};
ghost use Rattle.std.specs.FinMap.{get};
ghost use Rattle.atspi_types.specs.DataView.{data_of};
ghost use Rattle.atspi_tree_model.specs.Forest.{has};
ghost use Rattle.atspi_tree_model.specs.Tree.{is_shape};
ghost use Rattle.atspi_faces.specs.face.Nodes.{Nodes};
ghost use Rattle.atspi_protocol.specs.whole.Whole.{Faces};
ghost use Rattle.atspi_protocol.specs.objects.Values.{count_data};
ghost use Rattle.atspi_app_contents.specs.values.Actions.{actions_in};
ghost use Rattle.atspi_app_contents.specs.values.Numbers.{columns_in};
ghost use Rattle.atspi_app_contents.specs.values.Seen.{faces_of, KeepsContents};
ghost use Rattle.atspi_app_contents.specs.answers.Told.{IsProperty, is_contents_property};

use crate::texts::{caret, character_count};
use crate::values::{action_count, cells_of, column_count, row_count, selected_count};
use atspi_app_values::count;
use atspi_faces::face::{Face, FaceKind};
use atspi_protocol::members::ObjectProperty;
use atspi_tree::Tree;
use atspi_types::Value;

/// How many children are selected.
fn selected_children(tree: &Tree, node: u32) -> Value
    requires { has (is_shape node) tree.now.rows ≡ true }
    ensures { (faces : Faces) (name : List ℕ)
        → IsProperty tree.now faces name node ObjectProperty.NSelectedChildren (data_of result) }
{
    count(selected_count(tree, cells_of(tree, node)) as u32)
}

/// How many rows a table has.
fn rows<G: Face>(tree: &Tree, columns: &G, node: u32) -> Value
    requires there { has (is_shape node) tree.now.rows ≡ true }
    requires kind { G.of_kind columns.now ≡ FaceKind.Grid }
    ensures { (texts actions : Nodes) (name : List ℕ)
        → IsProperty tree.now (faces_of texts (G.nodes columns.now) actions) name node ObjectProperty.NRows
        (data_of result) }
{
    let columns = column_count(columns, node) as usize;
    count(row_count(cells_of(tree, node).len(), columns) as u32)
}

/// How many columns a table has, as a value.
fn columns_value<G: Face>(columns: &G, node: u32) -> Value
    requires kind { G.of_kind columns.now ≡ FaceKind.Grid }
    requires few { columns_in (get (G.nodes columns.now) node) ≤ 1024 }
    ensures { data_of result ≡ count_data (columns_in (get (G.nodes columns.now) node)) }
{
    count(column_count(columns, node))
}

/// How many actions a node has, as a value.
fn actions_value<D: Face>(actions: &D, node: u32) -> Value
    requires kind { D.of_kind actions.now ≡ FaceKind.Deeds }
    requires few { length (actions_in (get (D.nodes actions.now) node)) ≤ 8 }
    ensures { data_of result ≡ count_data (length (actions_in (get (D.nodes actions.now) node))) }
{
    count(action_count(actions, node))
}

/// Whether a property tells of the contents of a node.
pub fn is_contents_property(property: ObjectProperty) -> bool
    ensures { result ≡ is_contents_property property }
{
    match property {
        ObjectProperty::CharacterCount => true,
        ObjectProperty::CaretOffset => true,
        ObjectProperty::NSelectedChildren => true,
        ObjectProperty::NRows => true,
        ObjectProperty::NColumns => true,
        ObjectProperty::NActions => true,
        _ => false,
    }
}

/// A property that tells of the contents of a node that is there, which three faces keep (AT-SPI2, interfaces Text,
/// Selection, Table and Action). No node is looked at but this one and, for NSelectedChildren, its children.
pub fn property<C: Face, G: Face, D: Face>(
    tree: &Tree,
    texts: &C,
    columns: &G,
    actions: &D,
    node: u32,
    property: ObjectProperty,
) -> Value
    requires there { has (is_shape node) tree.now.rows ≡ true }
    requires kept { KeepsContents (C.of_kind texts.now) (G.of_kind columns.now) (D.of_kind actions.now)
        (faces_of (C.nodes texts.now) (G.nodes columns.now) (D.nodes actions.now)) node }
    requires property { is_contents_property property ≡ true }
    ensures { (name : List ℕ)
        → IsProperty tree.now (faces_of (C.nodes texts.now) (G.nodes columns.now) (D.nodes actions.now)) name node
        property (data_of result) }
{
    match property {
        ObjectProperty::CharacterCount => character_count(texts, node),
        ObjectProperty::CaretOffset => caret(texts, node),
        ObjectProperty::NSelectedChildren => selected_children(tree, node),
        ObjectProperty::NRows => rows(tree, columns, node),
        ObjectProperty::NColumns => columns_value(columns, node),
        ObjectProperty::NActions => actions_value(actions, node),
        _ => unreachable!(),
    }
}
