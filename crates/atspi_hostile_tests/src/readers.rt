//! What an application tells its reader, legal and nearly legal: nodes at every index, lists without a root, and nodes
//! that go in a circle. What is kept is read off the rows that the reader writes where its link ends.

use crate::drawn::put_lines;
use crate::ends::{Outside, run};
use crate::faults::stop_unless;
use std::alloc::Global;
use std::process::Abort;

/// What the bus and the registry return to the calls of a reader's start: the root `/r` of `:1.7`.
pub const STARTS: &str = "\
return 1 bus 1 s=:1.5
return 2 bus 2
return 3 bus 3
return 4 bus 4
return 5 :1.0 5
return 6 :1.0 6
return 7 :1.0 7
return 8 :1.0 8
return 9 :1.0 9
return 10 :1.0 10 a(so)=:1.7@/r";

/// A root with three children.
const THREE: &str =
    "return 11 :1.7 11 items=:1.7;/r,/,-1,-,75,Pad;/a,/r,0,-,7,A;/b,/r,1,-,7,B;/c,/r,2,-,7,C";

/// News of the application that has these nodes, with ` + ` between two, and the rows that are kept then, each with its
/// parent and its index there.
const NEWS: &str = "\
item=:1.7;/d,/r,-2,-,7,D => /r<-@-1 /a</r@0 /b</r@1 /c</r@2 /d</r@3
item=:1.7;/d,/r,-1,-,7,D => /r<-@-1 /a</r@0 /b</r@1 /c</r@2 /d</r@3
item=:1.7;/d,/r,0,-,7,D => /r<-@-1 /d</r@0 /a</r@1 /b</r@2 /c</r@3
item=:1.7;/d,/r,1,-,7,D => /r<-@-1 /a</r@0 /d</r@1 /b</r@2 /c</r@3
item=:1.7;/d,/r,2,-,7,D => /r<-@-1 /a</r@0 /b</r@1 /d</r@2 /c</r@3
item=:1.7;/d,/r,3,-,7,D => /r<-@-1 /a</r@0 /b</r@1 /c</r@2 /d</r@3
item=:1.7;/d,/r,4,-,7,D => /r<-@-1 /a</r@0 /b</r@1 /c</r@2 /d</r@3
item=:1.7;/d,/r,5,-,7,D => /r<-@-1 /a</r@0 /b</r@1 /c</r@2 /d</r@3
item=:1.7;/a,/r,-2,-,7,A => /r<-@-1 /b</r@0 /c</r@1 /a</r@2
item=:1.7;/a,/r,-1,-,7,A => /r<-@-1 /b</r@0 /c</r@1 /a</r@2
item=:1.7;/a,/r,0,-,7,A => /r<-@-1 /a</r@0 /b</r@1 /c</r@2
item=:1.7;/a,/r,1,-,7,A => /r<-@-1 /b</r@0 /a</r@1 /c</r@2
item=:1.7;/a,/r,2,-,7,A => /r<-@-1 /b</r@0 /c</r@1 /a</r@2
item=:1.7;/a,/r,3,-,7,A => /r<-@-1 /b</r@0 /c</r@1 /a</r@2
item=:1.7;/a,/r,4,-,7,A => /r<-@-1 /b</r@0 /c</r@1 /a</r@2
item=:1.7;/b,/a,0,-,7,B + item=:1.7;/d,/a,-2,-,7,D => /r<-@-1 /a</r@0 /b</a@0 /d</a@1 /c</r@1
item=:1.7;/b,/a,0,-,7,B + item=:1.7;/d,/a,1,-,7,D => /r<-@-1 /a</r@0 /b</a@0 /d</a@1 /c</r@1
item=:1.7;/b,/a,0,-,7,B + item=:1.7;/d,/a,3,-,7,D => /r<-@-1 /a</r@0 /b</a@0 /d</a@1 /c</r@1
item=:1.7;/b,/a,0,-,7,B + item=:1.7;/a,/b,0,-,7,A => /r<-@-1 /a</r@0 /b</a@0 /c</r@1
item=:1.7;/b,/a,0,-,7,B + item=:1.7;/c,/b,0,-,7,C + item=:1.7;/a,/c,0,-,7,A => /r<-@-1 /a</r@0 /b</a@0 /c</b@0
item=:1.7;/a,/a,0,-,7,A => /r<-@-1 /a</r@0 /b</r@1 /c</r@2
item=:1.7;/r,/a,0,-,7,R => /r<-@-1 /a</r@0 /b</r@1 /c</r@2
item=:1.7;/d,/e,0,-,7,D => /r<-@-1 /a</r@0 /b</r@1 /c</r@2
item=:1.7;/a,/e,0,-,7,A => /r<-@-1 /a</r@0 /b</r@1 /c</r@2
item=:1.7;!/d,/r,0,-,7,D => /r<-@-1 /a</r@0 /b</r@1 /c</r@2
item=:1.7;/d,!/r,0,-,7,D => /r<-@-1 /a</r@0 /b</r@1 /c</r@2";

/// Lists of items, and the rows that are kept of them.
const LISTS: &str = "\
/r,/,-1,-,75,P;/a,/r,-2,-,7,A;/b,/r,5,-,7,B;/c,/r,-1,-,7,C;/d,/r,0,-,7,D => /r<-@-1 /a</r@0 /c</r@1 /d</r@2 /b</r@3
/r,/,-1,-,75,P;/a,/r,1,-,7,A;/b,/r,1,-,7,B;/c,/r,0,-,7,C => /r<-@-1 /c</r@0 /a</r@1 /b</r@2
/a,/r,0,-,7,A;/b,/a,0,-,7,B =>
/a,/b,0,-,7,A;/b,/a,0,-,7,B;/r,/,-1,-,75,P => /r<-@-1
/r,/a,0,-,75,P;/a,/r,0,-,7,A => /r<-@-1 /a</r@0
/r,/r,0,-,75,P;/a,/a,0,-,7,A;/b,/r,0,-,7,B => /r<-@-1 /b</r@0
/r,/,-1,-,75,P;/a,/b,0,-,7,A;/b,/c,0,-,7,B;/c,/a,0,-,7,C;/d,/r,0,-,7,D => /r<-@-1 /d</r@0
/r,/,-1,-,75,P;/a,/r,0,-,7,A;/a,/b,0,-,7,A;/b,/a,0,-,7,B => /r<-@-1 /a</r@0 /b</a@0
!/r,/,-1,-,75,P;/a,/r,0,-,7,A =>
/r,/,-1,-,75,P;!/a,/r,0,-,7,A;/b,!/r,0,-,7,B;/c,/r,0,-,7,C => /r<-@-1 /c</r@0";

/// Signals of an application that is not held, returns to foreign serials, and what comes of them: nothing.
const FOREIGN: &str = "\
signal 20 :1.7 cache Cache AddAccessible item=:1.7;/a,/r,0,-,7,A
signal 21 :1.8 cache Cache AddAccessible item=:1.8;/a,/r,0,-,7,A
signal 22 :1.8 /r Event.Object PropertyChange s=accessible-name i=0 i=0 v=X a{sv}=
return 23 :1.7 12 items=:1.7;/r,/,-1,-,75,X
return 24 :1.8 11 items=:1.8;/r,/,-1,-,75,X
return 25 :1.7 4294967295 items=:1.7;/r,/,-1,-,75,X
error 26 :1.8 11 a.B";

/// All bytes in few reads, and then the link ends.
const ALL: Outside = Outside {
    most: 4096,
    ends: true,
    failing_write: None,
    rounds: 1_000,
};

/// Appends a row of a tree: its path, its parent's and its index there.
fn put_row(rt: &impl Abort, out: &mut String, line: &str) {
    let mut words = line.split(' ').skip(1);
    for gap in [" ", "<", "@"] {
        out.push_str(gap).expect(rt, "memory");
        out.push_str(words.next().unwrap_or(""))
            .expect(rt, "memory");
    }
}

/// Whether a reader that took these messages behind its start shows just these rows.
fn shows(rt: &impl Abort, alloc: Global, lines: &str, rows: &str) -> bool {
    let mut bytes = Vec::new(alloc);
    put_lines(rt, alloc, &mut bytes, STARTS);
    put_lines(rt, alloc, &mut bytes, lines);
    let run = run(rt, alloc, "read", &bytes, ALL);
    let mut shown = String::new(alloc);
    for line in std::str::from_utf8(&run.written).unwrap_or("").lines() {
        if line.starts_with("| ") {
            put_row(rt, &mut shown, line);
        }
    }
    run.status == 0 && shown.trim() == rows.trim()
}

/// A row's words and what is due.
fn parted(row: &str) -> (&str, &str) {
    row.split_once(" =>").unwrap_or((row, "?"))
}

/// Appends the signals of news.
fn put_news(rt: &impl Abort, lines: &mut String, news: &str) {
    for item in news.split(" + ") {
        lines
            .push_str("\nsignal 20 :1.7 cache Cache AddAccessible ")
            .expect(rt, "memory");
        lines.push_str(item).expect(rt, "memory");
    }
}

#[test]
fn nodes_come_at_every_index(rt: HostRuntime) {
    for row in NEWS.lines() {
        let (news, rows) = parted(row);
        let mut lines = String::from_str(rt.alloc(), THREE).expect(&rt, "memory");
        put_news(&rt, &mut lines, news);
        stop_unless(&rt, row, shows(&rt, rt.alloc(), &lines, rows));
    }
}

#[test]
fn lists_of_items_are_kept_as_far_as_the_root_reaches(rt: HostRuntime) {
    for row in LISTS.lines() {
        let (items, rows) = parted(row);
        let mut lines = String::from_str(rt.alloc(), "return 11 :1.7 11 items=:1.7;").expect(
            &rt, "memory",
        );
        lines.push_str(items).expect(&rt, "memory");
        stop_unless(&rt, row, shows(&rt, rt.alloc(), &lines, rows));
    }
}

#[test]
fn what_is_foreign_tells_nothing(rt: HostRuntime) {
    assert!(rt; shows(&rt, rt.alloc(), FOREIGN, ""));
    let mut lines = String::from_str(rt.alloc(), THREE).expect(&rt, "memory");
    lines.push_str("\n").expect(&rt, "memory");
    for line in FOREIGN.lines().skip(1) {
        lines.push_str(line).expect(&rt, "memory");
        lines.push_str("\n").expect(&rt, "memory");
    }
    assert!(rt;
        shows(
            &rt,
            rt.alloc(),
            lines.trim(),
            "/r<-@-1 /a</r@0 /b</r@1 /c</r@2"
        )
    );
}
