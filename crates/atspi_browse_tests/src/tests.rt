//! Lines and cursors as worked out by hand.

use crate::events::told;
use crate::lines::is_read;
use std::alloc::Global;

const LINES: &str = "\
unit r0 a0 1 next word => 0 0 1 next word
unit r3 a15 4294967295 prev line => 3 15 4294967295 prev line
unit r0 a0 0 here char => 0 0 0 here char
unit r4 a0 0 here char => none
unit r0 a16 0 here char => none
unit r0 a0 4294967296 here char => none
unit r0 a0 00 here char => none
unit r0 a0 +1 here char => none
unit r0 a0 -1 here char => none
unit r00 a0 1 here char => none
unit a0 r0 1 here char => none
unit r0 a0 1 back char => none
unit r0 a0 1 here sentence => none
unit r0 a0 1 here => none
unit r0 a0 1 here char  => none
unit r0 a0 1 here char more => none
unit  r0 a0 1 here char => none
 unit r0 a0 1 here char => none
units r0 a0 1 here char => none
show r0 a0 => none
 => none";

#[test]
fn lines_are_read_by_their_words(rt: HostRuntime) {
    for row in LINES.lines() {
        assert!(rt; is_read(row) == Some(true), "{row}");
    }
}

/// What happens, and behind `=>` what the unit lines write; one row behind `~` and its name.
const ROWS: &str = "~an insertion before the cursor moves it once it is taken
text one two
unit r0 a0 1 next word
sent a0 signal 7 - /org/a11y/atspi/accessible/1 org.a11y.atspi.Event.Object TextChanged s=insert i=0 i=3 v=sox
unit r0 a0 1 here char
got r0 a0 7
text soxone two
unit r0 a0 1 here char
=>
unit r0 a0 1 0 3 \"one\"
unit r0 a0 1 3 4 \" \"
unit r0 a0 1 6 7 \" \"
~a deletion around the cursor takes it to its place
text one two
unit r0 a0 1 next word
sent a0 signal 7 - /org/a11y/atspi/accessible/1 org.a11y.atspi.Event.Object TextChanged s=delete i=1 i=5 v=ne_tw
got r0 a0 7
text oo
unit r0 a0 1 here char
unit r0 a0 1 prev char
=>
unit r0 a0 1 0 3 \"one\"
unit r0 a0 1 1 2 \"o\"
unit r0 a0 1 0 1 \"o\"
~other readers, nodes, applications, serials and members move nothing
text one two
unit r0 a0 1 next word
sent a0 signal 7 - /org/a11y/atspi/accessible/1 org.a11y.atspi.Event.Object TextChanged s=insert i=0 i=3 v=sox
sent a0 signal 8 - /org/a11y/atspi/accessible/2 org.a11y.atspi.Event.Object TextChanged s=insert i=0 i=3 v=sox
sent a0 signal 9 - /org/a11y/atspi/accessible/1 org.a11y.atspi.Event.Object TextCaretMoved s=insert i=0 i=3 v=sox
sent a1 signal 5 - /org/a11y/atspi/accessible/1 org.a11y.atspi.Event.Object TextChanged s=insert i=0 i=3 v=sox
sent a0 signal 10 - /org/a11y/atspi/accessible/1 org.a11y.atspi.Event.Object TextChanged s=insert i=-1 i=3 v=sox
got r1 a0 7
got r0 a0 8
got r0 a0 9
got r0 a0 6
got r0 a1 5
got r0 a0 10
got reg a0 7
unit r0 a0 1 here char
unit r0 a1 1 here char
unit r1 a0 1 here char
unit r0 a0 2 here char
=>
unit r0 a0 1 0 3 \"one\"
unit r0 a0 1 3 4 \" \"
unit r0 a1 1 0 1 \"o\"
unit r1 a0 1 0 1 \"o\"
unit r0 a0 2 0 1 \"o\"
~an end takes the cursor to the start
text one two
unit r0 a0 1 next word
gone 0 1
unit r0 a0 1 here char
gone 0 0
unit r0 a0 1 here char
=>
unit r0 a0 1 0 3 \"one\"
unit r0 a0 1 3 4 \" \"
unit r0 a0 1 0 1 \"o\"
~where nothing is read it stays
text ab
unit r0 a0 1 prev word
unit r0 a0 1 next word
unit r0 a0 1 next word
unit r0 a0 1 prev char
=>
unit r0 a0 1 end
unit r0 a0 1 0 2 \"ab\"
unit r0 a0 1 end
unit r0 a0 1 1 2 \"b\"
";

/// Whether a row, without its name, writes what is due.
fn holds(alloc: Global, row: &str) -> Option<bool> {
    let (lines, due) = row.split_once("=>\n")?;
    let written = told(alloc, lines)?;
    Some(written.as_slice() == due.as_bytes())
}

#[test]
fn cursors_follow_what_happens(rt: HostRuntime) {
    for row in ROWS.split('~').skip(1) {
        let (name, row) = row.split_once('\n').unwrap_or((row, ""));
        assert!(rt; holds(rt.alloc(), row) == Some(true), "{name}");
    }
}
