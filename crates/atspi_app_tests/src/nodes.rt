//! Calls that ask of any node, of the application and of the whole tree.

use crate::tables::answers;

/// What is told of the nodes of the example.
const NODES: &str = "\
root Peer Ping -> -
cache Peer Ping -> -
1 - Ping -> -
root Accessible GetRole -> u [75]
root Accessible GetRoleName -> s [\"application\"]
root Accessible GetLocalizedRoleName -> s [\"application\"]
root Accessible GetIndexInParent -> i [-1]
root Accessible GetState -> au [[1124073728 0]]
root Accessible GetInterfaces -> as [[\"org.a11y.atspi.Accessible\" \"org.a11y.atspi.Application\"]]
root Accessible GetApplication -> (so) [(\":1.5\" \"/org/a11y/atspi/accessible/root\")]
root Accessible GetChildren -> a(so) [[(\":1.5\" \"/org/a11y/atspi/accessible/1\") (\":1.5\" \"/org/a11y/atspi/accessible/2\") (\":1.5\" \"/org/a11y/atspi/accessible/3\")]]
root Accessible GetChildAtIndex i=0 -> (so) [(\":1.5\" \"/org/a11y/atspi/accessible/1\")]
root Accessible GetChildAtIndex i=2 -> (so) [(\":1.5\" \"/org/a11y/atspi/accessible/3\")]
root Accessible GetChildAtIndex i=3 -> (so) [(\":1.5\" \"/org/a11y/atspi/null\")]
root Accessible GetChildAtIndex i=-1 -> (so) [(\":1.5\" \"/org/a11y/atspi/null\")]
root Accessible GetChildAtIndex i=-2147483648 -> (so) [(\":1.5\" \"/org/a11y/atspi/null\")]
root Accessible GetChildAtIndex i=2147483647 -> (so) [(\":1.5\" \"/org/a11y/atspi/null\")]
root - GetChildAtIndex i=1 -> (so) [(\":1.5\" \"/org/a11y/atspi/accessible/2\")]
1 Accessible GetChildren -> a(so) [[]]
1 Accessible GetChildAtIndex i=0 -> (so) [(\":1.5\" \"/org/a11y/atspi/null\")]
1 Accessible GetIndexInParent -> i [0]
7 Accessible GetIndexInParent -> i [3]
1 Accessible GetRole -> u [61]
2 Accessible GetRoleName -> s [\"table\"]
3 Accessible GetLocalizedRoleName -> s [\"push button\"]
7 Accessible GetState -> au [[1132462336 0]]
1 Accessible GetInterfaces -> as [[\"org.a11y.atspi.Accessible\" \"org.a11y.atspi.Text\" \"org.a11y.atspi.EditableText\"]]
2 Accessible GetInterfaces -> as [[\"org.a11y.atspi.Accessible\" \"org.a11y.atspi.Selection\" \"org.a11y.atspi.Table\"]]
3 Accessible GetInterfaces -> as [[\"org.a11y.atspi.Accessible\" \"org.a11y.atspi.Action\"]]
4 Accessible GetInterfaces -> as [[\"org.a11y.atspi.Accessible\"]]
1 Accessible GetApplication -> (so) [(\":1.5\" \"/org/a11y/atspi/accessible/root\")]
1 Accessible GetAttributes -> a{ss} [[]]
1 Accessible GetRelationSet -> a(ua(so)) [[]]
edit a0 relate 1 6 3 -> relate 1 6 3
edit a0 relate 1 2 7 -> relate 1 2 7
edit a0 relate 1 6 2 -> relate 1 6 3 2
1 Accessible GetRelationSet -> a(ua(so)) [[(2 [(\":1.5\" \"/org/a11y/atspi/accessible/7\")]) (6 [(\":1.5\" \"/org/a11y/atspi/accessible/3\") (\":1.5\" \"/org/a11y/atspi/accessible/2\")])]]
edit a0 unrelate 1 6 3 -> relate 1 6 2
edit a0 unrelate 1 2 7 -> relate 1 2
1 Accessible GetRelationSet -> a(ua(so)) [[(6 [(\":1.5\" \"/org/a11y/atspi/accessible/2\")])]]
root Application GetLocale u=0 -> s [\"C\"]
root Application GetLocale u=4294967295 -> s [\"C\"]
root - GetLocale u=1 -> s [\"C\"]
edit a0 state 1 read-only on -> state 1 read-only on
1 Accessible GetState -> au [[1124073728 2048]]
edit a0 describe 7 \"a cell\" -> description 7 \"a cell\"
cache Cache GetItems -> a((so)(so)(so)iiassusau) [[((\":1.5\" \"/org/a11y/atspi/accessible/root\") (\":1.5\" \"/org/a11y/atspi/accessible/root\") (\"org.a11y.atspi.Registry\" \"/org/a11y/atspi/accessible/root\") -1 3 [\"org.a11y.atspi.Accessible\" \"org.a11y.atspi.Application\"] \"Demo\" 75 \"\" [1124073728 0]) ((\":1.5\" \"/org/a11y/atspi/accessible/1\") (\":1.5\" \"/org/a11y/atspi/accessible/root\") (\":1.5\" \"/org/a11y/atspi/accessible/root\") 0 0 [\"org.a11y.atspi.Accessible\" \"org.a11y.atspi.Text\" \"org.a11y.atspi.EditableText\"] \"E\" 61 \"\" [1124073728 2048]) ((\":1.5\" \"/org/a11y/atspi/accessible/2\") (\":1.5\" \"/org/a11y/atspi/accessible/root\") (\":1.5\" \"/org/a11y/atspi/accessible/root\") 1 5 [\"org.a11y.atspi.Accessible\" \"org.a11y.atspi.Selection\" \"org.a11y.atspi.Table\"] \"T\" 55 \"\" [1124073728 0]) ((\":1.5\" \"/org/a11y/atspi/accessible/4\") (\":1.5\" \"/org/a11y/atspi/accessible/root\") (\":1.5\" \"/org/a11y/atspi/accessible/2\") 0 0 [\"org.a11y.atspi.Accessible\"] \"1\" 56 \"\" [1124073728 0]) ((\":1.5\" \"/org/a11y/atspi/accessible/5\") (\":1.5\" \"/org/a11y/atspi/accessible/root\") (\":1.5\" \"/org/a11y/atspi/accessible/2\") 1 0 [\"org.a11y.atspi.Accessible\"] \"2\" 56 \"\" [1124073728 0]) ((\":1.5\" \"/org/a11y/atspi/accessible/6\") (\":1.5\" \"/org/a11y/atspi/accessible/root\") (\":1.5\" \"/org/a11y/atspi/accessible/2\") 2 0 [\"org.a11y.atspi.Accessible\"] \"3\" 56 \"\" [1132462336 0]) ((\":1.5\" \"/org/a11y/atspi/accessible/7\") (\":1.5\" \"/org/a11y/atspi/accessible/root\") (\":1.5\" \"/org/a11y/atspi/accessible/2\") 3 0 [\"org.a11y.atspi.Accessible\"] \"4\" 56 \"a cell\" [1132462336 0]) ((\":1.5\" \"/org/a11y/atspi/accessible/8\") (\":1.5\" \"/org/a11y/atspi/accessible/root\") (\":1.5\" \"/org/a11y/atspi/accessible/2\") 4 0 [\"org.a11y.atspi.Accessible\"] \"5\" 56 \"\" [1132462336 0]) ((\":1.5\" \"/org/a11y/atspi/accessible/3\") (\":1.5\" \"/org/a11y/atspi/accessible/root\") (\":1.5\" \"/org/a11y/atspi/accessible/root\") 2 0 [\"org.a11y.atspi.Accessible\" \"org.a11y.atspi.Action\"] \"B\" 43 \"\" [1124073728 0])]]
";

/// The interfaces Accessible, Application, Cache and Peer.
#[test]
fn nodes_are_told(rt: HostRuntime) {
    assert!(rt; answers(&rt, NODES));
}
