//! Cursors at their ends, by hand and beside a plain list.

use crate::plain::count_right;
use crate::reads::{is_read, moved};
use std::test::*;

const TEXT: &str = "one two\nso";

const READS: &str = "\
next word 0 = 0 3 3
next word 3 = 3 4 4
next word 4 = 4 7 7
next word 7 = 7 8 8
next word 8 = 8 10 10
next word 10 = none
here word 5 = 4 7 5
here line 5 = 0 8 5
next line 5 = 0 8 8
prev line 8 = 0 8 0
prev line 9 = 8 10 8
prev word 5 = 4 7 4
prev char 5 = 4 5 4
prev char 0 = none
prev word 11 = none
here char 9 = 9 10 9
here char 10 = none";

#[test]
fn units_are_read_at_a_cursor(rt: HostRuntime) {
    for row in READS.lines() {
        assert!(rt; is_read(TEXT, row) == Some(true), "{row}");
    }
    assert_eq!(rt; moved(rt.alloc()), Some((7, 2, 0)));
}

#[test]
fn cursors_go_as_a_mark_in_a_list(rt: HostRuntime) {
    assert_eq!(rt; count_right(rt.alloc(), 7, 4000), 4000);
}
