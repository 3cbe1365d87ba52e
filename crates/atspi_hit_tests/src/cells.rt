//! Cells beside cells.

use atspi_hit::{Way, step_cell};
use std::test::*;

/// Four cells in two columns; of five children in two columns the last is no cell.
#[test]
fn two_columns(rt: HostRuntime) {
    assert!(rt; step_cell(4, 2, 1, Way::Down) == Some(3));
    assert!(rt; step_cell(4, 2, 2, Way::Up) == Some(0));
    assert!(rt; step_cell(4, 2, 3, Way::Left) == Some(2));
    assert!(rt; step_cell(4, 2, 0, Way::Right) == Some(1));
    assert!(rt; step_cell(4, 2, 1, Way::Right) == None);
    assert!(rt; step_cell(4, 2, 2, Way::Left) == None);
    assert!(rt; step_cell(4, 2, 1, Way::Up) == None);
    assert!(rt; step_cell(4, 2, 2, Way::Down) == None);
    assert!(rt; step_cell(5, 2, 2, Way::Down) == None);
}

/// As many children as there are numbers, in one column.
#[test]
fn one_column(rt: HostRuntime) {
    assert!(rt; step_cell(u32::MAX, 1, 4_294_967_293, Way::Down) == Some(4_294_967_294));
    assert!(rt; step_cell(u32::MAX, 1, 4_294_967_294, Way::Down) == None);
    assert!(rt; step_cell(u32::MAX, 1, 0, Way::Left) == None);
    assert!(rt; step_cell(u32::MAX, 1, 0, Way::Right) == None);
}
