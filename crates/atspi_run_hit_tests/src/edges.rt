//! The edges of rectangles and of tables.

use crate::running::comes_to;
use std::alloc::Global;
use std::test::*;

/// Points beside a rectangle of ten columns and ten rows at 5, 5, and whether they are in it.
const POINTS: [(&str, &str); 9] = [
    ("5 5", "true"),
    ("14 14", "true"),
    ("5 14", "true"),
    ("4 5", "false"),
    ("5 4", "false"),
    ("15 5", "false"),
    ("5 15", "false"),
    ("15 15", "false"),
    ("-5 -5", "false"),
];

/// Whether a point is told to be in the rectangle, or not.
fn is_told(alloc: Global, point: &str, inside: &str) -> Option<bool> {
    let input = format!(in alloc; "app \"T\"\nplace 0 5 5 10 10\ninside 0 {point}\n").ok()?;
    let text = format!(in alloc;
        "return l 1 1 reply=1 destination=:1.0 signature=b [{inside}]\n"
    ).ok()?;
    Some(comes_to(alloc, &input, 0, &text))
}

#[test]
fn edges_of_a_rectangle(rt: HostRuntime) {
    for (point, inside) in POINTS {
        assert!(rt; is_told(rt.alloc(), point, inside) == Some(true), "{point}");
    }
}

/// Steps in a table of three columns with seven children, of which six are cells: the index, the way, and the cell.
/// Its children have the numbers 2 to 8.
const STEPS: [(&str, &str); 16] = [
    ("0 up", "none"),
    ("0 left", "none"),
    ("0 right", "3"),
    ("0 down", "5"),
    ("1 left", "2"),
    ("1 right", "4"),
    ("2 right", "none"),
    ("2 down", "7"),
    ("3 left", "none"),
    ("3 up", "2"),
    ("3 down", "none"),
    ("4 left", "5"),
    ("5 left", "6"),
    ("5 right", "none"),
    ("5 up", "4"),
    ("5 down", "none"),
];

/// Such a table.
const TABLE: &str =
    "app \"T\"\ninsert 0 0 table \"\" columns 3\ninsert 1 0 label \"\"\ninsert 1 1 label \"\"\n\
insert 1 2 label \"\"\ninsert 1 3 label \"\"\ninsert 1 4 label \"\"\ninsert 1 5 label \"\"\ninsert 1 6 label \"\"\n";

/// Whether a step comes to a cell.
fn steps_to(alloc: Global, step: &str, cell: &str) -> Option<bool> {
    let input = format!(in alloc; "{TABLE}cell 1 {step}\n").ok()?;
    let text = format!(in alloc; "cell {cell}\n").ok()?;
    Some(comes_to(alloc, &input, 0, &text))
}

#[test]
fn edges_of_a_table(rt: HostRuntime) {
    for (step, cell) in STEPS {
        assert!(rt; steps_to(rt.alloc(), step, cell) == Some(true), "{step}");
    }
}

/// Whether an index is that of no cell.
fn is_no_cell(alloc: Global, index: &str) -> Option<bool> {
    let input = format!(in alloc; "{TABLE}cell 1 {index} left\n").ok()?;
    Some(comes_to(alloc, &input, 1, "refused 10 BadIndex\n"))
}

/// A child behind the last whole row is no cell.
#[test]
fn a_child_behind_the_cells(rt: HostRuntime) {
    assert!(rt; is_no_cell(rt.alloc(), "6") == Some(true));
    assert!(rt; is_no_cell(rt.alloc(), "4294967295") == Some(true));
}
