//! Paths that name a node, and paths that nearly do.

use crate::made::stop_unless;
use atspi_app_calls::node_at;

/// Paths, and the nodes that they name; what names none has no number.
const PATHS: &str = "\
/org/a11y/atspi/accessible/root => 0
/org/a11y/atspi/accessible/1 => 1
/org/a11y/atspi/accessible/4294967295 => 4294967295
/org/a11y/atspi/accessible/0 => none
/org/a11y/atspi/accessible/01 => none
/org/a11y/atspi/accessible/4294967296 => none
/org/a11y/atspi/accessible/1/ => none
/org/a11y/atspi/accessible/ => none
/org/a11y/atspi/accessible => none
/org/a11y/atspi/accessible/rooted => none
/org/a11y/atspi/accessible/1a => none
/org/a11y/atspi/cache => none
/ => none";

#[test]
fn paths_of_nodes(rt: HostRuntime) {
    for row in PATHS.lines() {
        let (path, due) = row.split_once(" => ").expect(&rt, "a row");
        stop_unless(&rt, row, node_at(path) == due.parse::<u32>().ok());
    }
}
