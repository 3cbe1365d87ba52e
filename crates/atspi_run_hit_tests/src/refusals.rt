//! Lines that are refused, each behind a line that writes.

use crate::running::{AMPLE, comes_to, ends};
use std::alloc::Global;
use std::test::*;

/// Lines that stand first, and their refusals.
const FIRST: [(&str, &str); 5] = [
    ("place 0 0 0 1 1", "Form"),
    ("extents 0", "Form"),
    ("remove 0", "Form"),
    ("application \"T\"", "Form"),
    ("app T", "Form"),
];

#[test]
fn first_lines(rt: HostRuntime) {
    for (line, why) in FIRST {
        let text = format!(in rt.alloc(); "refused 1 {why}\n").expect(&rt, "memory");
        assert!(rt; comes_to(rt.alloc(), line, 1, &text), "{line}");
    }
}

/// Lines behind a start with one child, which is a table without cells, and a line that writes; and their refusals.
const LATER: &str = "app \"T\" Form
place 2 0 0 1 1 NoNode
place 0 +1 0 1 1 Form
place 0 01 0 1 1 Form
place 0 -0 0 1 1 Form
place 0 -01 0 1 1 Form
place 0 - 0 1 1 Form
place 0 -1000001 0 1 1 Form
place 0 0 1000001 1 1 Form
place 0 0 0 1000001 1 Form
place 0 0 0 1 1000001 Form
place 0 0 0 -1 1 Form
place 0  0 0 1 1 Form
place 0 0 0 1 1  Form
place 0 0 0 1 Form
place 0 0 0 1 1 1 Form
place -1 0 0 1 1 Form
Place 0 0 0 1 1 Form
point 0 2147483648 0 Form
point 0 -2147483649 0 Form
inside 0 0 Form
inside 0 0 0 0 Form
extents 4294967296 Form
extents 00 Form
extents Form
cell 0 0 along Form
cell 0 0 up NoFace
cell 2 0 up NoNode
cell 1 0 up BadIndex
cell 1 -1 up Form
follow 2 0 NoNode
follow 0 0 BadIndex
follow 0 19 BadIndex
follow 0 -1 Form
remove 0 IsRoot
remove 2 NoNode
insert 0 2 label \"\" BadIndex
insert 0 0 table \"\" columns 0 BadIndex
move 1 1 0 Cycle
put 0 0 \"x\" NoFace
edit a0 remove 0 Form
reader Form
show r0 a0 Form
frob Form";

/// Whether a line is refused for this, behind what the line before it wrote.
fn is_refused(alloc: Global, row: &str) -> Option<bool> {
    let (line, why) = row.rsplit_once(' ')?;
    let input = format!(in alloc;
        "app \"T\"\ninsert 0 0 table \"\" columns 2\nfollow 0 1\n{line}\nfollow 0 1\n"
    ).ok()?;
    let text = format!(in alloc; "follow none\nrefused 4 {why}\n").ok()?;
    Some(comes_to(alloc, &input, 1, &text))
}

#[test]
fn later_lines(rt: HostRuntime) {
    for row in LATER.split('\n') {
        assert!(rt; is_refused(rt.alloc(), row) == Some(true), "{row}");
    }
}

/// Whether bytes behind a start are refused for this.
fn are_refused(alloc: Global, bytes: &[u8], why: &str) -> Option<bool> {
    let mut input = Vec::from_slice(alloc, b"app \"T\"\n").ok()?;
    input.extend_from_slice(bytes).ok()?;
    let text = format!(in alloc; "refused 2 {why}\n").ok()?;
    ends(alloc, input, AMPLE, 1, text.as_bytes())
}

/// A line of so many bytes: a comment, or not.
fn filled(alloc: Global, first: u8, count: usize) -> Option<Vec<u8>> {
    let mut line = Vec::new(alloc);
    line.push(first).ok()?;
    for _ in 1..count {
        line.push(b'0').ok()?;
    }
    Some(line)
}

#[test]
fn bytes_that_are_no_line(rt: HostRuntime) {
    let alloc = rt.alloc();
    assert!(rt; are_refused(alloc, b"\xff", "NotUtf8") == Some(true));
    assert!(rt; are_refused(alloc, b"# \xff", "NotUtf8") == Some(true));
    assert!(rt; are_refused(alloc, b"extents 0\r", "Form") == Some(true));
    assert!(rt; are_refused(alloc, b"extents\t0", "Form") == Some(true));
    assert!(rt; are_refused(alloc, b"\0", "Form") == Some(true));
    let long = filled(alloc, b'#', 65_537).expect(&rt, "memory");
    assert!(rt; are_refused(alloc, &long, "Long") == Some(true));
    let number = filled(alloc, b'1', 65_536).expect(&rt, "memory");
    assert!(rt; are_refused(alloc, &number, "Form") == Some(true));
}

/// A comment may have as many bytes as a line may have.
#[test]
fn the_longest_comment(rt: HostRuntime) {
    let input = filled(rt.alloc(), b'#', 65_536).expect(&rt, "memory");
    assert!(rt; ends(rt.alloc(), input, AMPLE, 0, b"") == Some(true));
}

/// A name of 511 bytes is the longest, of the start too.
#[test]
fn names(rt: HostRuntime) {
    let alloc = rt.alloc();
    assert!(rt; is_started(alloc, 511, 0, "") == Some(true));
    assert!(rt; is_started(alloc, 512, 1, "refused 1 TextFull\n") == Some(true));
}

/// Whether a start with a name of so many bytes comes to this.
fn is_started(alloc: Global, count: usize, status: u8, text: &str) -> Option<bool> {
    let mut input = Vec::from_slice(alloc, b"app \"").ok()?;
    for _ in 0..count {
        input.push(b'x').ok()?;
    }
    input.push(b'"').ok()?;
    ends(alloc, input, AMPLE, status, text.as_bytes())
}
