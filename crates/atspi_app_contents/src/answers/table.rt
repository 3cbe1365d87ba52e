//! The members of Table that change nothing.

ghost use Rattle.std.specs.Prelude.{◌≡◌, ℕ, List, true, IfOk};
ghost use Rattle.atspi_types.specs.Data.{Data};
ghost use Rattle.atspi_types.specs.DataView.{data_of};
ghost use Rattle.atspi_marshal_in_place.specs.Items.{fields_data};
ghost use Rattle.atspi_tree_model.specs.Forest.{has};
ghost use Rattle.atspi_tree_model.specs.Tree.{is_shape};
ghost use Rattle.atspi_protocol.specs.objects.Tables.{index_or_none};
ghost use Rattle.atspi_app_contents.specs.values.Numbers.{IsFew};
ghost use Rattle.atspi_app_contents.specs.answers.Told.{reads_table};
ghost use Rattle.atspi_app_contents.specs.answers.inner.Told.{TellsCells};

use crate::values::{
    cell_at, cell_index, cells_of, column_of, is_row_selected, is_selected_there, place_of, row_of,
    selected_rows,
};
use atspi_app_calls::reading::{first_signed, second_signed};
use atspi_app_values::{count, reference_or_null, signed};
use atspi_base::{NoMemory, Text};
use atspi_marshal_in_place::Fields;
use atspi_protocol::members::ObjectMember;
use atspi_tree::Tree;
use atspi_types::{Ty, Value};
use std::alloc::Global;

/// An index as it is told, -1 where there is none.
fn index_told(index: Option<usize>) -> Value
    requires { IsFew index }
    ensures { data_of result ≡ index_or_none index }
{
    match index {
        Some(index) => count(index as u32),
        None => signed(-1),
    }
}

/// GetAccessibleAt.
fn get_accessible_at(
    alloc: Global,
    tree: &Tree,
    bus: &Text,
    columns: usize,
    node: u32,
    args: Fields,
) -> Result<Value, NoMemory>
    requires { has (is_shape node) tree.now.rows ≡ true }
    ensures { IfOk result
        (λ value. TellsCells tree.now columns bus.now node ObjectMember.GetAccessibleAt (fields_data args.entry)
        (data_of value)) }
{
    let row = place_of(first_signed(args));
    let column = place_of(second_signed(args));
    reference_or_null(
        alloc,
        bus,
        cell_at(cells_of(tree, node), columns, row, column),
    )
}

/// GetIndexAt.
fn get_index_at(tree: &Tree, columns: usize, node: u32, args: Fields) -> Value
    requires { has (is_shape node) tree.now.rows ≡ true }
    ensures { (name : List ℕ)
        → TellsCells tree.now columns name node ObjectMember.GetIndexAt (fields_data args.entry) (data_of result) }
{
    let row = place_of(first_signed(args));
    let column = place_of(second_signed(args));
    index_told(cell_index(cells_of(tree, node).len(), columns, row, column))
}

/// GetRowAtIndex.
fn get_row_at_index(tree: &Tree, columns: usize, node: u32, args: Fields) -> Value
    requires { has (is_shape node) tree.now.rows ≡ true }
    ensures { (name : List ℕ)
        → TellsCells tree.now columns name node ObjectMember.GetRowAtIndex (fields_data args.entry) (data_of result) }
{
    let index = place_of(first_signed(args));
    index_told(row_of(cells_of(tree, node).len(), columns, index))
}

/// GetColumnAtIndex.
fn get_column_at_index(tree: &Tree, columns: usize, node: u32, args: Fields) -> Value
    requires { has (is_shape node) tree.now.rows ≡ true }
    ensures { (name : List ℕ)
        → TellsCells tree.now columns name node ObjectMember.GetColumnAtIndex (fields_data args.entry)
        (data_of result) }
{
    let index = place_of(first_signed(args));
    index_told(column_of(cells_of(tree, node).len(), columns, index))
}

/// GetSelectedRows.
fn get_selected_rows(
    alloc: Global,
    tree: &Tree,
    columns: usize,
    node: u32,
) -> Result<Value, NoMemory>
    requires { has (is_shape node) tree.now.rows ≡ true }
    ensures { IfOk result
        (λ value. (name : List ℕ) (body : List Data)
        → TellsCells tree.now columns name node ObjectMember.GetSelectedRows body (data_of value)) }
{
    let rows = selected_rows(alloc, tree, cells_of(tree, node), columns)?;
    Ok(Value::Array(Ty::I32, rows))
}

/// IsRowSelected.
fn row_selected(tree: &Tree, columns: usize, node: u32, args: Fields) -> Value
    requires { has (is_shape node) tree.now.rows ≡ true }
    ensures { (name : List ℕ)
        → TellsCells tree.now columns name node ObjectMember.IsRowSelected (fields_data args.entry) (data_of result) }
{
    let row = place_of(first_signed(args));
    Value::Bool(is_row_selected(tree, cells_of(tree, node), columns, row))
}

/// IsSelected.
fn cell_selected(tree: &Tree, columns: usize, node: u32, args: Fields) -> Value
    requires { has (is_shape node) tree.now.rows ≡ true }
    ensures { (name : List ℕ)
        → TellsCells tree.now columns name node ObjectMember.IsSelected (fields_data args.entry) (data_of result) }
{
    let row = place_of(first_signed(args));
    let column = place_of(second_signed(args));
    let cell = cell_at(cells_of(tree, node), columns, row, column);
    Value::Bool(is_selected_there(tree, cell))
}

/// What a member of Table that changes nothing tells of a node that is there and has so many columns (AT-SPI2,
/// interface Table). The one refusal is want of memory. Looks at the cells that are asked of alone, at all of them for
/// GetSelectedRows.
pub(crate) fn table(
    alloc: Global,
    tree: &Tree,
    bus: &Text,
    columns: usize,
    node: u32,
    member: ObjectMember,
    args: Fields,
) -> Result<Value, NoMemory>
    requires there { has (is_shape node) tree.now.rows ≡ true }
    requires member { reads_table member ≡ true }
    ensures { IfOk result
        (λ value. TellsCells tree.now columns bus.now node member (fields_data args.entry) (data_of value)) }
{
    match member {
        ObjectMember::GetAccessibleAt => get_accessible_at(alloc, tree, bus, columns, node, args),
        ObjectMember::GetIndexAt => Ok(get_index_at(tree, columns, node, args)),
        ObjectMember::GetRowAtIndex => Ok(get_row_at_index(tree, columns, node, args)),
        ObjectMember::GetColumnAtIndex => Ok(get_column_at_index(tree, columns, node, args)),
        ObjectMember::GetSelectedRows => get_selected_rows(alloc, tree, columns, node),
        ObjectMember::IsRowSelected => Ok(row_selected(tree, columns, node, args)),
        ObjectMember::IsSelected => Ok(cell_selected(tree, columns, node, args)),
        _ => unreachable!(),
    }
}
