//! The cells of a table, and those beside a cell.

ghost use Rattle.std.specs.Prelude.{◌<◌, ℕ, MatchOption};
ghost use Rattle.atspi_hit.specs.Cells.{IsNeighbour, cells};
ghost use Rattle.atspi_hit.specs.declared.cells.Way.TheVariants as ways;

/// A way from a cell to the one beside it.
#[derive(Clone, Copy, Debug, PartialEq, Eq)]
pub enum Way {
    Up,
    Down,
    Left,
    Right,
}

/// The cell beside a cell, by its place among the children of a table with so many columns. The cells are the children
/// that fill whole rows, row by row. None where there is no cell on that way.
pub fn step_cell(count: u32, columns: u32, at: u32, way: Way) -> Option<u32>
    requires { at < cells count columns }
    ensures { MatchOption result ((to : ℕ) → IsNeighbour count columns way at to → ⊥)
        (λ to. IsNeighbour count columns way at to) }
{
    if columns == 0 {
        return None;
    }
    match way {
        Way::Up => up(count, columns, at),
        Way::Down => down(count, columns, at),
        Way::Left => left(count, columns, at),
        Way::Right => right(count, columns, at),
    }
}

/// The cell above.
fn up(count: u32, columns: u32, at: u32) -> Option<u32>
    requires cell { at < cells count columns }
    requires some { 0 < columns }
    ensures { MatchOption result ((to : ℕ) → IsNeighbour count columns ways.Up at to → ⊥)
        (λ to. IsNeighbour count columns ways.Up at to) }
{
    if at < columns {
        return None;
    }
    Some(at - columns)
}

/// The cell below.
fn down(count: u32, columns: u32, at: u32) -> Option<u32>
    requires cell { at < cells count columns }
    requires some { 0 < columns }
    ensures { MatchOption result ((to : ℕ) → IsNeighbour count columns ways.Down at to → ⊥)
        (λ to. IsNeighbour count columns ways.Down at to) }
{
    let behind = count - count % columns - at;
    if behind <= columns {
        return None;
    }
    Some(at + columns)
}

/// The cell to the left.
fn left(count: u32, columns: u32, at: u32) -> Option<u32>
    requires cell { at < cells count columns }
    requires some { 0 < columns }
    ensures { MatchOption result ((to : ℕ) → IsNeighbour count columns ways.Left at to → ⊥)
        (λ to. IsNeighbour count columns ways.Left at to) }
{
    if at % columns == 0 {
        return None;
    }
    Some(at - 1)
}

/// The cell to the right.
fn right(count: u32, columns: u32, at: u32) -> Option<u32>
    requires cell { at < cells count columns }
    requires some { 0 < columns }
    ensures { MatchOption result ((to : ℕ) → IsNeighbour count columns ways.Right at to → ⊥)
        (λ to. IsNeighbour count columns ways.Right at to) }
{
    if at % columns == columns - 1 {
        return None;
    }
    Some(at + 1)
}
