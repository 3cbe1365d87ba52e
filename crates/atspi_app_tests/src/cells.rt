//! Calls of the interface Table, of a table of 2 columns with 5 cells, of which the last three are selected: two rows,
//! and a cell that is in none.

use crate::tables::answers;

/// Cells by their row and column, rows and columns by the index of a cell, selected rows; and a table without cells.
const CELLS: &str = "\
2 Table GetAccessibleAt i=0 i=0 -> (so) [(\":1.5\" \"/org/a11y/atspi/accessible/4\")]
2 Table GetAccessibleAt i=0 i=1 -> (so) [(\":1.5\" \"/org/a11y/atspi/accessible/5\")]
2 Table GetAccessibleAt i=1 i=1 -> (so) [(\":1.5\" \"/org/a11y/atspi/accessible/7\")]
2 Table GetAccessibleAt i=2 i=0 -> (so) [(\":1.5\" \"/org/a11y/atspi/null\")]
2 Table GetAccessibleAt i=0 i=2 -> (so) [(\":1.5\" \"/org/a11y/atspi/null\")]
2 Table GetAccessibleAt i=-1 i=0 -> (so) [(\":1.5\" \"/org/a11y/atspi/null\")]
2 Table GetAccessibleAt i=0 i=-1 -> (so) [(\":1.5\" \"/org/a11y/atspi/null\")]
2 Table GetAccessibleAt i=-2147483648 i=-2147483648 -> (so) [(\":1.5\" \"/org/a11y/atspi/null\")]
2 Table GetAccessibleAt i=2147483647 i=2147483647 -> (so) [(\":1.5\" \"/org/a11y/atspi/null\")]
2 Table GetIndexAt i=0 i=0 -> i [0]
2 Table GetIndexAt i=0 i=1 -> i [1]
2 Table GetIndexAt i=1 i=0 -> i [2]
2 Table GetIndexAt i=1 i=1 -> i [3]
2 Table GetIndexAt i=2 i=0 -> i [-1]
2 Table GetIndexAt i=1 i=2 -> i [-1]
2 Table GetIndexAt i=-1 i=1 -> i [-1]
2 Table GetIndexAt i=1 i=-2147483648 -> i [-1]
2 Table GetIndexAt i=2147483647 i=0 -> i [-1]
2 Table IsSelected i=0 i=1 -> b [false]
2 Table IsSelected i=1 i=0 -> b [true]
2 - IsSelected i=1 i=1 -> b [true]
2 Table IsSelected i=2 i=0 -> b [false]
2 Table IsSelected i=1 i=2 -> b [false]
2 Table IsSelected i=1 i=-1 -> b [false]
2 Table IsSelected i=-1 i=0 -> b [false]
2 Table IsSelected i=-2147483648 i=2147483647 -> b [false]
2 Table GetRowAtIndex i=0 -> i [0]
2 Table GetRowAtIndex i=1 -> i [0]
2 Table GetRowAtIndex i=3 -> i [1]
2 Table GetRowAtIndex i=4 -> i [-1]
2 Table GetRowAtIndex i=-1 -> i [-1]
2 Table GetRowAtIndex i=-2147483648 -> i [-1]
2 Table GetRowAtIndex i=2147483647 -> i [-1]
2 Table GetColumnAtIndex i=0 -> i [0]
2 Table GetColumnAtIndex i=1 -> i [1]
2 Table GetColumnAtIndex i=2 -> i [0]
2 Table GetColumnAtIndex i=3 -> i [1]
2 Table GetColumnAtIndex i=4 -> i [-1]
2 Table GetColumnAtIndex i=-1 -> i [-1]
2 Table GetColumnAtIndex i=-2147483648 -> i [-1]
2 Table GetColumnAtIndex i=2147483647 -> i [-1]
2 Table GetSelectedRows -> ai [[1]]
2 Table IsRowSelected i=0 -> b [false]
2 Table IsRowSelected i=1 -> b [true]
2 Table IsRowSelected i=2 -> b [false]
2 Table IsRowSelected i=-1 -> b [false]
2 Table IsRowSelected i=-2147483648 -> b [false]
2 Table IsRowSelected i=2147483647 -> b [false]
edit a0 insert 0 3 table \"wide\" columns 1024 -> add 9 0 3 table \"wide\" columns 1024
9 Properties Get s=org.a11y.atspi.Table s=NRows -> v [<i 0>]
9 Table GetIndexAt i=0 i=0 -> i [-1]
9 Table GetSelectedRows -> ai [[]]
9 Selection GetSelectedChild i=0 -> !UnknownInterface
";

/// Places inside and outside of a table.
#[test]
fn cells_are_told(rt: HostRuntime) {
    assert!(rt; answers(&rt, CELLS));
}
