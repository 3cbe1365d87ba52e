//! Edits of the application's user.

use crate::tables::{answers, makes};

/// Edits of the example that are refused, and some that have nothing to do; behind them the example as it was.
const REFUSED: &str = "\
edit a0 remove 0 -> !the root stays where it is
edit a0 move 0 1 0 -> !the root stays where it is
edit a0 name 99 \"x\" -> !no such node
edit a0 remove 4294967295 -> !no such node
edit a0 insert 99 0 label \"x\" -> !no such node
edit a0 insert 0 4 label \"x\" -> !no such index
edit a0 insert 0 4294967295 label \"x\" -> !no such index
edit a0 insert 0 0 table \"x\" columns 0 -> !no such index
edit a0 insert 0 0 table \"x\" columns 1025 -> !no such index
edit a0 move 2 4 0 -> !a node cannot go below itself
edit a0 move 2 2 0 -> !a node cannot go below itself
edit a0 move 1 0 3 -> !no such index
edit a0 move 1 99 0 -> !no such node
edit a0 put 2 0 \"x\" -> !the node lacks the interface
edit a0 put 1 6 \"x\" -> !no such place in the text
edit a0 type 3 \"x\" -> !the node lacks the interface
edit a0 cut 1 3 2 -> !no such place in the text
edit a0 cut 1 0 6 -> !no such place in the text
edit a0 caret 1 6 -> !no such place in the text
edit a0 caret 2 0 -> !the node lacks the interface
edit a0 mark 1 3 3 -> !no such place in the text
edit a0 mark 1 0 6 -> !no such place in the text
edit a0 select 1 0 -> !the node lacks the interface
edit a0 select 2 5 -> !no such index
edit a0 deselect 2 5 -> !no such index
edit a0 press 1 0 -> !the node lacks the interface
edit a0 press 3 3 -> !no such index
edit a0 relate 1 0 2 -> !no such index
edit a0 relate 1 19 2 -> !no such index
edit a0 unrelate 1 1 99 -> !no such node
edit a0 name 1 \"nnnnnnnnnnnnnnnnnnnnnnnnnnnnnnnnnnnnnnnnnnnnnnnnnnnnnnnnnnnnnnnnnnnnnnnnnnnnnnnnnnnnnnnnnnnnnnnnnnnnnnnnnnnnnnnnnnnnnnnnnnnnnnnnnnnnnnnnnnnnnnnnnnnnnnnnnnnnnnnnnnnnnnnnnnnnnnnnnnnnnnnnnnnnnnnnnnnnnnnnnnnnnnnnnnnnnnnnnnnnnnnnnnnnnnnnnnnnnnnnnnnnnnnnnnnnnnnnnnnnnnnnnnnnnnnnnnnnnnnnnnnnnnnnnnnnnnnnnnnnnnnnnnnnnnnnnnnnnnnnnnnnnnnnnnnnnnnnnnnnnnnnnnnnnnnnnnnnnnnnnnnnnnnnnnnnnnnnnnnnnnnnnnnnnnnnnnnnnnnnnnnnnnnnnnnnnnnnnnnnnnnnnnnnnnnnnnnnnnnnnnnnnnnnnnnnnnnnnnnnnnnnnnnnnnnnnnnnnnnnnnnnnnnnnnnnnnnnnnnnnnnnnnnnnnnn\" -> !the text is too long
edit a0 describe 1 \"nnnnnnnnnnnnnnnnnnnnnnnnnnnnnnnnnnnnnnnnnnnnnnnnnnnnnnnnnnnnnnnnnnnnnnnnnnnnnnnnnnnnnnnnnnnnnnnnnnnnnnnnnnnnnnnnnnnnnnnnnnnnnnnnnnnnnnnnnnnnnnnnnnnnnnnnnnnnnnnnnnnnnnnnnnnnnnnnnnnnnnnnnnnnnnnnnnnnnnnnnnnnnnnnnnnnnnnnnnnnnnnnnnnnnnnnnnnnnnnnnnnnnnnnnnnnnnnnnnnnnnnnnnnnnnnnnnnnnnnnnnnnnnnnnnnnnnnnnnnnnnnnnnnnnnnnnnnnnnnnnnnnnnnnnnnnnnnnnnnnnnnnnnnnnnnnnnnnnnnnnnnnnnnnnnnnnnnnnnnnnnnnnnnnnnnnnnnnnnnnnnnnnnnnnnnnnnnnnnnnnnnnnnnnnnnnnnnnnnnnnnnnnnnnnnnnnnnnnnnnnnnnnnnnnnnnnnnnnnnnnnnnnnnnnnnnnnnnnnnnnnnnnnnnnnnn\" -> !the text is too long
edit a0 insert 0 0 label \"nnnnnnnnnnnnnnnnnnnnnnnnnnnnnnnnnnnnnnnnnnnnnnnnnnnnnnnnnnnnnnnnnnnnnnnnnnnnnnnnnnnnnnnnnnnnnnnnnnnnnnnnnnnnnnnnnnnnnnnnnnnnnnnnnnnnnnnnnnnnnnnnnnnnnnnnnnnnnnnnnnnnnnnnnnnnnnnnnnnnnnnnnnnnnnnnnnnnnnnnnnnnnnnnnnnnnnnnnnnnnnnnnnnnnnnnnnnnnnnnnnnnnnnnnnnnnnnnnnnnnnnnnnnnnnnnnnnnnnnnnnnnnnnnnnnnnnnnnnnnnnnnnnnnnnnnnnnnnnnnnnnnnnnnnnnnnnnnnnnnnnnnnnnnnnnnnnnnnnnnnnnnnnnnnnnnnnnnnnnnnnnnnnnnnnnnnnnnnnnnnnnnnnnnnnnnnnnnnnnnnnnnnnnnnnnnnnnnnnnnnnnnnnnnnnnnnnnnnnnnnnnnnnnnnnnnnnnnnnnnnnnnnnnnnnnnnnnnnnnnnnnnnnnnnnnn\" -> !the text is too long
edit a0 insert 99 0 label \"nnnnnnnnnnnnnnnnnnnnnnnnnnnnnnnnnnnnnnnnnnnnnnnnnnnnnnnnnnnnnnnnnnnnnnnnnnnnnnnnnnnnnnnnnnnnnnnnnnnnnnnnnnnnnnnnnnnnnnnnnnnnnnnnnnnnnnnnnnnnnnnnnnnnnnnnnnnnnnnnnnnnnnnnnnnnnnnnnnnnnnnnnnnnnnnnnnnnnnnnnnnnnnnnnnnnnnnnnnnnnnnnnnnnnnnnnnnnnnnnnnnnnnnnnnnnnnnnnnnnnnnnnnnnnnnnnnnnnnnnnnnnnnnnnnnnnnnnnnnnnnnnnnnnnnnnnnnnnnnnnnnnnnnnnnnnnnnnnnnnnnnnnnnnnnnnnnnnnnnnnnnnnnnnnnnnnnnnnnnnnnnnnnnnnnnnnnnnnnnnnnnnnnnnnnnnnnnnnnnnnnnnnnnnnnnnnnnnnnnnnnnnnnnnnnnnnnnnnnnnnnnnnnnnnnnnnnnnnnnnnnnnnnnnnnnnnnnnnnnnnnnnnnnnnnnn\" -> !no such node
edit a0 insert 0 4 label \"nnnnnnnnnnnnnnnnnnnnnnnnnnnnnnnnnnnnnnnnnnnnnnnnnnnnnnnnnnnnnnnnnnnnnnnnnnnnnnnnnnnnnnnnnnnnnnnnnnnnnnnnnnnnnnnnnnnnnnnnnnnnnnnnnnnnnnnnnnnnnnnnnnnnnnnnnnnnnnnnnnnnnnnnnnnnnnnnnnnnnnnnnnnnnnnnnnnnnnnnnnnnnnnnnnnnnnnnnnnnnnnnnnnnnnnnnnnnnnnnnnnnnnnnnnnnnnnnnnnnnnnnnnnnnnnnnnnnnnnnnnnnnnnnnnnnnnnnnnnnnnnnnnnnnnnnnnnnnnnnnnnnnnnnnnnnnnnnnnnnnnnnnnnnnnnnnnnnnnnnnnnnnnnnnnnnnnnnnnnnnnnnnnnnnnnnnnnnnnnnnnnnnnnnnnnnnnnnnnnnnnnnnnnnnnnnnnnnnnnnnnnnnnnnnnnnnnnnnnnnnnnnnnnnnnnnnnnnnnnnnnnnnnnnnnnnnnnnnnnnnnnnnnnnnnnn\" -> !no such index
edit a0 describe 99 \"nnnnnnnnnnnnnnnnnnnnnnnnnnnnnnnnnnnnnnnnnnnnnnnnnnnnnnnnnnnnnnnnnnnnnnnnnnnnnnnnnnnnnnnnnnnnnnnnnnnnnnnnnnnnnnnnnnnnnnnnnnnnnnnnnnnnnnnnnnnnnnnnnnnnnnnnnnnnnnnnnnnnnnnnnnnnnnnnnnnnnnnnnnnnnnnnnnnnnnnnnnnnnnnnnnnnnnnnnnnnnnnnnnnnnnnnnnnnnnnnnnnnnnnnnnnnnnnnnnnnnnnnnnnnnnnnnnnnnnnnnnnnnnnnnnnnnnnnnnnnnnnnnnnnnnnnnnnnnnnnnnnnnnnnnnnnnnnnnnnnnnnnnnnnnnnnnnnnnnnnnnnnnnnnnnnnnnnnnnnnnnnnnnnnnnnnnnnnnnnnnnnnnnnnnnnnnnnnnnnnnnnnnnnnnnnnnnnnnnnnnnnnnnnnnnnnnnnnnnnnnnnnnnnnnnnnnnnnnnnnnnnnnnnnnnnnnnnnnnnnnnnnnnnnnnnn\" -> !no such node
edit a0 name 1 \"E\" -> -
edit a0 unmark 1 -> marks 1
edit a0 unmark 1 -> -
1 Text GetText i=0 i=-1 -> s [\"héllo\"]
root Accessible GetIndexInParent -> i [-1]
root Properties Get s=org.a11y.atspi.Accessible s=ChildCount -> v [<i 3>]
";

/// A window with menus, a panel, a table and a list: how it is made and used.
const WINDOW: &str = "\
edit a0 insert 0 0 frame \"Untitled\" -> add 1 0 0 frame \"Untitled\"
edit a0 insert 1 0 menu-bar \"\" -> add 2 1 0 menu-bar \"\"
edit a0 insert 2 0 menu \"File\" -> add 3 2 0 menu \"File\"
edit a0 insert 3 0 menu-item \"New\" action \"press\" -> add 4 3 0 menu-item \"New\" action \"press\"
edit a0 insert 3 1 menu-item \"Open\" action \"press\" -> add 5 3 1 menu-item \"Open\" action \"press\"
edit a0 insert 3 2 check-menu-item \"Wrap\" action \"toggle\" -> add 6 3 2 check-menu-item \"Wrap\" action \"toggle\"
edit a0 insert 2 1 menu \"Edit\" -> add 7 2 1 menu \"Edit\"
edit a0 insert 7 0 menu-item \"Undo\" -> add 8 7 0 menu-item \"Undo\"
edit a0 insert 1 1 panel \"\" -> add 9 1 1 panel \"\"
edit a0 insert 9 0 label \"Find\" -> add 10 9 0 label \"Find\"
edit a0 insert 9 1 entry \"Find\" text \"\" -> add 11 9 1 entry \"Find\" text \"\"
edit a0 insert 9 2 push-button \"Go\" action \"press\" -> add 12 9 2 push-button \"Go\" action \"press\"
edit a0 insert 1 2 table \"Files\" columns 2 -> add 13 1 2 table \"Files\" columns 2
edit a0 insert 13 0 table-cell \"a.txt\" -> add 14 13 0 table-cell \"a.txt\"
edit a0 insert 13 1 table-cell \"10\" -> add 15 13 1 table-cell \"10\"
edit a0 insert 13 2 table-cell \"b.txt\" -> add 16 13 2 table-cell \"b.txt\"
edit a0 insert 13 3 table-cell \"20\" -> add 17 13 3 table-cell \"20\"
edit a0 insert 1 3 list \"Recent\" select -> add 18 1 3 list \"Recent\" select
edit a0 insert 18 0 list-item \"One\" -> add 19 18 0 list-item \"One\"
edit a0 insert 18 1 list-item \"Two\" -> add 20 18 1 list-item \"Two\"
edit a0 insert 1 4 status-bar \"Ready\" -> add 21 1 4 status-bar \"Ready\"
edit a0 state 6 checkable on -> state 6 checkable on
edit a0 focus 3 -> state 3 focused on
edit a0 state 3 expandable on -> state 3 expandable on
edit a0 state 3 expanded on -> state 3 expanded on
edit a0 focus 6 -> state 3 focused off|state 6 focused on
edit a0 press 6 0 -> state 6 checked on
edit a0 focus 11 -> state 6 focused off|state 11 focused on
edit a0 type 11 \"né\" -> insert 11 0 \"né\"|caret 11 2
edit a0 cut 11 1 2 -> caret 11 1|delete 11 1 \"é\"
edit a0 focus 19 -> state 11 focused off|state 19 focused on
edit a0 select 18 0 -> state 19 selected on
edit a0 select 18 1 -> state 19 selected off|state 20 selected on
edit a0 insert 1 5 alert \"Saved\" -> add 22 1 5 alert \"Saved\"
11 Text GetText i=0 i=-1 -> s [\"n\"]
11 Properties Get s=org.a11y.atspi.Text s=CaretOffset -> v [<i 1>]
13 Table GetAccessibleAt i=1 i=0 -> (so) [(\":1.5\" \"/org/a11y/atspi/accessible/16\")]
18 Selection GetSelectedChild i=0 -> (so) [(\":1.5\" \"/org/a11y/atspi/accessible/20\")]
6 Accessible GetState -> au [[1124073744 512]]
edit a0 move 9 1 0 -> move 9 1 0
edit a0 move 9 1 0 -> -
edit a0 move 9 13 4 -> move 9 13 4
12 Accessible GetIndexInParent -> i [2]
9 Accessible GetIndexInParent -> i [4]
edit a0 role 9 200 -> role 9 200
9 Accessible GetRole -> u [200]
9 Accessible GetRoleName -> s [\"unknown\"]
edit a0 remove 9 -> remove 9
11 Text GetText i=0 i=-1 -> !UnknownObject
";

/// The first refusal of each edit.
#[test]
fn edits_are_refused(rt: HostRuntime) {
    assert!(rt; answers(&rt, REFUSED));
}

/// The steps of each edit, and what calls tell behind them.
#[test]
fn a_window_is_used(rt: HostRuntime) {
    assert!(rt; makes(&rt, WINDOW));
}
