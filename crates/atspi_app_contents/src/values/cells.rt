//! The cells of a table, row by row: which nodes they are. Cells that make no whole row are in none.

ghost use Rattle.std.specs.FinMap.{get};
ghost use Rattle.std.specs.Prelude.{◌≡◌, ◌<◌, ◌≤◌, ◌/◌, ◌*◌, ◌+◌, nat_lt, length, map, true, None, Some, IfOk};
ghost use Rattle.atspi_types.specs.DataView.{all_data};
ghost use Rattle.atspi_tree_model.specs.Forest.{has};
ghost use Rattle.atspi_tree_model.specs.Tree.{is_shape};
ghost use Rattle.atspi_protocol.specs.objects.Values as values;
ghost use Rattle.atspi_tree.specs.TreeShape.{IsLawful, children_of};
ghost use Rattle.atspi_app_contents.specs.values.Numbers.{IsFew, columns_in, cell_in, node_at, row_in, column_in};
ghost use Rattle.atspi_app_contents.specs.values.Numbers.{is_selected_row, is_selected_row_there, rows_selected};

use crate::values::selected::are_selected;
use crate::values::values::{count, node_at};
use atspi_base::NoMemory;
use atspi_faces::face::{Face, FaceKind};
use atspi_tree::Tree;
use atspi_types::Values;
use std::alloc::Global;

/// The children of a node, as cells.
#[tactic(auto, using(crate::proofs::OfValues::CellLemmas::few_children))]
pub fn cells_of(tree: &Tree, node: u32) -> &[u32]
    requires { has (is_shape node) tree.now.rows ≡ true }
    ensures are { result.now ≡ children_of node tree.now }
    ensures few { length result.now ≤ 8192 }
    ensures lawful { IsLawful tree.now }
{
    tree.is_lawful();
    tree.children(node)
}

/// How many columns a node has, 0 where it has no table.
pub fn column_count<G: Face>(columns: &G, node: u32) -> u32
    requires { G.of_kind columns.now ≡ FaceKind.Grid }
    ensures { result ≡ columns_in (get (G.nodes columns.now) node) }
{
    let _ = columns.kind();
    columns.count(node)
}

/// How many rows so many cells make.
#[tactic(auto, using(crate::proofs::OfValues::CellLemmas::no_columns))]
pub fn row_count(cells: usize, columns: usize) -> usize
    ensures { result ≡ cells / columns }
{
    if columns == 0 { 0 } else { cells / columns }
}

/// The index of the cell in a row and a column.
#[tactic(auto, using(crate::proofs::OfValues::CellLemmas::no_row, crate::proofs::OfValues::CellLemmas::no_column, crate::proofs::OfValues::CellLemmas::cell_some, crate::proofs::OfValues::CellLemmas::in_row))]
fn cell(cells: usize, columns: usize, row: usize, column: usize) -> Option<usize>
    requires { cells ≤ 8192 }
    ensures index { result ≡ cell_in cells columns (Some row) (Some column) }
    ensures few { IsFew result }
{
    let rows = row_count(cells, columns);
    if row >= rows {
        return None;
    }
    if column >= columns {
        return None;
    }
    let before = row * columns;
    let index = before + column;
    Some(index)
}

/// The same of a row and a column that may be none.
#[tactic(auto, using(crate::proofs::OfValues::CellLemmas::no_node, crate::proofs::OfValues::CellLemmas::no_node_there))]
pub fn cell_index(
    cells: usize,
    columns: usize,
    row: Option<usize>,
    column: Option<usize>,
) -> Option<usize>
    requires { cells ≤ 8192 }
    ensures index { result ≡ cell_in cells columns row column }
    ensures few { IsFew result }
{
    let Some(row) = row else {
        return None;
    };
    let Some(column) = column else {
        return None;
    };
    cell(cells, columns, row, column)
}

/// The node in a row and a column.
pub fn cell_at(
    nodes: &[u32],
    columns: usize,
    row: Option<usize>,
    column: Option<usize>,
) -> Option<u32>
    requires { length nodes.now ≤ 8192 }
    ensures { result ≡ node_at nodes.now (cell_in (length nodes.now) columns row column) }
{
    node_at(nodes, cell_index(nodes.len(), columns, row, column))
}

/// Whether the cell at an index is in a row.
fn is_cell(cells: usize, columns: usize, index: usize) -> bool
    requires { cells ≤ 8192 }
    ensures { result ≡ nat_lt index (cells / columns * columns) }
{
    let rows = row_count(cells, columns);
    let whole = rows * columns;
    index < whole
}

/// The row of the cell at an index.
#[tactic(auto, using(crate::proofs::OfValues::CellLemmas::some_columns, crate::proofs::OfValues::CellLemmas::few_rows))]
pub fn row_of(cells: usize, columns: usize, index: Option<usize>) -> Option<usize>
    requires { cells ≤ 8192 }
    ensures row { result ≡ row_in cells columns index }
    ensures few { IsFew result }
{
    let Some(index) = index else {
        return None;
    };
    if !is_cell(cells, columns, index) {
        return None;
    }
    let row = index / columns;
    Some(row)
}

/// The column of the cell at an index.
#[tactic(auto, using(crate::proofs::OfValues::CellLemmas::some_columns, crate::proofs::OfValues::CellLemmas::few_columns))]
pub fn column_of(cells: usize, columns: usize, index: Option<usize>) -> Option<usize>
    requires { cells ≤ 8192 }
    ensures column { result ≡ column_in cells columns index }
    ensures few { IsFew result }
{
    let Some(index) = index else {
        return None;
    };
    if !is_cell(cells, columns, index) {
        return None;
    }
    let column = index % columns;
    Some(column)
}

/// Whether all cells of a row are selected; false where there is no such row.
fn is_selected_row(tree: &Tree, nodes: &[u32], columns: usize, row: usize) -> bool
    requires { length nodes.now ≤ 8192 }
    ensures { result ≡ is_selected_row tree.now.rows nodes.now columns row }
{
    let rows = row_count(nodes.len(), columns);
    if row >= rows {
        return false;
    }
    let from = row * columns;
    let to = from + columns;
    let cells = &nodes[from..to];
    are_selected(tree, cells)
}

/// The same of a row that may be none.
pub fn is_row_selected(tree: &Tree, nodes: &[u32], columns: usize, row: Option<usize>) -> bool
    requires { length nodes.now ≤ 8192 }
    ensures { result ≡ is_selected_row_there tree.now.rows nodes.now columns row }
{
    match row {
        Some(row) => is_selected_row(tree, nodes, columns, row),
        None => false,
    }
}

/// The rows whose cells are all selected, rising.
pub fn selected_rows(
    alloc: Global,
    tree: &Tree,
    nodes: &[u32],
    columns: usize,
) -> Result<Values, NoMemory>
    requires { length nodes.now ≤ 8192 }
    ensures { IfOk result
        (λ rows. all_data rows ≡ map values.count_data (rows_selected tree.now.rows nodes.now columns)) }
{
    let mut rows = Values::new(alloc);
    for row in 0..row_count(nodes.len(), columns) {
        if !is_selected_row(tree, nodes, columns, row) {
            continue;
        }
        rows.push(count(row as u32))?;
    }
    Ok(rows)
}
