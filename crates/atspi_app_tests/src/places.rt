//! Paths, interfaces and members that are not there.

use crate::tables::answers;
use atspi_message_cases::{bytes_of, lent};
use std::alloc::Global;

/// Paths that nearly name a node; nodes that were removed; interfaces that a node lacks; members of another interface.
const PLACES: &str = "\
9 Accessible GetRole -> !UnknownObject
0 Accessible GetRole -> !UnknownObject
01 Accessible GetRole -> !UnknownObject
4294967296 Accessible GetRole -> !UnknownObject
4294967297 Accessible GetRole -> !UnknownObject
18446744073709551617 Accessible GetRole -> !UnknownObject
1/1 Accessible GetRole -> !UnknownObject
001 Accessible GetRole -> !UnknownObject
/org/a11y/atspi/accessible/root/1 Accessible GetRole -> !UnknownObject
/org/a11y/atspi/accessible/_1 Accessible GetRole -> !UnknownObject
/org/a11y/atspi/cache/1 Accessible GetRole -> !UnknownObject
1a Accessible GetRole -> !UnknownObject
/ Accessible GetRole -> !UnknownObject
/org/a11y/atspi/accessible Accessible GetRole -> !UnknownObject
/org/a11y/atspi/accessible/Root Accessible GetRole -> !UnknownObject
/org/a11y/atspi/null Accessible GetRole -> !UnknownObject
registry Accessible GetRole -> !UnknownObject
9 Peer Ping -> !UnknownObject
9 i.f M u=1 -> !UnknownObject
cache Accessible GetRole -> !UnknownInterface
root Cache GetItems -> !UnknownInterface
1 Cache GetItems -> !UnknownInterface
1 Application GetLocale u=0 -> !UnknownInterface
root Socket Embed (so)=:1.6@/d -> !UnknownInterface
root Registry RegisterEvent s=window -> !UnknownInterface
1 Table GetIndexAt i=0 i=0 -> !UnknownInterface
2 Text GetText i=0 i=-1 -> !UnknownInterface
3 Selection SelectAll -> !UnknownInterface
4 Action DoAction i=0 -> !UnknownInterface
1 org.a11y.atspi.text GetText i=0 i=-1 -> !UnknownInterface
1 Accessible GetText i=0 i=-1 -> !UnknownMethod
1 Text getText i=0 i=-1 -> !UnknownMethod
1 - GetIndexAt i=0 i=0 -> !UnknownMethod
1 - Frob -> !UnknownMethod
cache - GetRole -> !UnknownMethod
cache Cache GetItem -> !UnknownMethod
edit a0 remove 2 -> remove 2
2 Accessible GetRole -> !UnknownObject
7 Accessible GetRole -> !UnknownObject
3 Accessible GetRole -> u [43]
edit a0 insert 0 1 label \"N\" -> add 9 0 1 label \"N\"
9 Accessible GetIndexInParent -> i [1]
3 Accessible GetIndexInParent -> i [2]
edit a0 move 9 3 0 -> move 9 3 0
9 Properties Get s=org.a11y.atspi.Accessible s=Parent -> v [<(so) (\":1.5\" \"/org/a11y/atspi/accessible/3\")>]
edit a0 move 9 3 0 -> -
";

/// The first error of each call.
#[test]
fn others_are_refused(rt: HostRuntime) {
    assert!(rt; answers(&rt, PLACES));
}

/// Whether the bytes of a line, which is one, are a message.
fn is_message(alloc: Global, line: &str) -> Option<bool> {
    let bytes = bytes_of(alloc, line)?;
    Some(lent(bytes.as_slice()).is_some())
}

/// Whether a call by a path is a message.
fn is_called(alloc: Global, path: &str) -> Option<bool> {
    let line = format!(in alloc; "call 5 :1.6 {path} Accessible GetRole").ok()?;
    is_message(alloc, &line)
}

/// Whether calls by each of some paths are messages, or none of them is.
fn are_called(alloc: Global, paths: &str, called: bool) -> bool {
    for path in paths.lines() {
        if is_called(alloc, path) != Some(called) {
            return false;
        }
    }
    true
}

/// A slash behind a path, two of them, or a character that no path has, make it none, and the call no message.
#[test]
fn paths_that_are_none(rt: HostRuntime) {
    assert!(rt; are_called(rt.alloc(), "1\nroot\n/\n/org/a11y/atspi/accessible", true));
    assert!(rt;
        are_called(
            rt.alloc(),
            "1/\nroot/\n1//1\n1-\n/org/a11y/atspi/accessible/\norg/a11y",
            false
        )
    );
}
