//! Each type of face, in a box, through the tables.

use crate::faces::tables::run;
use atspi_faces::face::Face;
use atspi_faces::{Deeds, GapText, Grid, PlainText};
use std::alloc::Global;
use std::process::Abort;
use std::test::*;

/// A new face of a type.
fn face_of(rt: &impl Abort, alloc: Global, name: &str) -> Box<dyn Face> {
    match name {
        "plain text" => Box::new(alloc, PlainText::new(alloc))
            .ok()
            .expect(rt, "memory"),
        "text with a gap" => Box::new(alloc, GapText::new(alloc))
            .ok()
            .expect(rt, "memory"),
        "grid" => Box::new(alloc, Grid::new(alloc)).ok().expect(rt, "memory"),
        _ => Box::new(alloc, Deeds::new(alloc)).ok().expect(rt, "memory"),
    }
}

/// A new face goes through two tables.
fn run_new(rt: &impl Abort, alloc: Global, name: &str, tables: (&str, &str)) {
    let mut face = face_of(rt, alloc, name);
    run(rt, alloc, &mut face, tables.0);
    run(rt, alloc, &mut face, tables.1);
}

/// Nodes, and a text of characters of one to four bytes and combining ones, changed before, behind and in the middle of
/// what was changed last.
const TEXTS: &str = "\
last 0
count 0
other 9|other
open 2|héllo
no-other 7|x
next 0 7
next 7 7
next 8 9
last 10
count 5
caret 2
part 1 5|éllo
part 3 3|
marks 1 1 3
insert 2|😀e\u{301}
count 8
part 0 8|hé😀e\u{301}llo
part 2 5|😀e\u{301}
part 4 5|\u{301}
marks 0
caret 2
insert 0|ab
insert 10|ß
part 0 11|abhé😀e\u{301}lloß
delete 3 3
part 0 8|abh\u{301}lloß
part 2 5|h\u{301}l
move 8
caret 8
no-delete 0 1
no-move 9
move 0
delete 0 8
count 0
part 0 0|
insert 0|x
part 0 1|x
close 7
close 8
next 0 9
count 0";

/// Sixteen text selections are kept in their order; a deletion empties them, even one of nothing.
const SELECTIONS: &str = "\
open 0|0123456789abcdefg
select 16
marks 16 15 16
move 3
marks 16 15 16
delete 17 0
marks 0
select 1
select 0
marks 0
part 0 17|0123456789abcdefg";

/// What all kinds answer alike: nodes, counts, what is refused, and what is not here.
const ALIKE: &str = "\
last 0
count 0
alike 7 5
no-alike 7 4
alike 4294967295 2
alike 0 300
count 5
no-delete 0 6
no-move 6
absent 6 6
count 5
next 0 0
next 1 7
next 8 4294967295
close 7
count 0
absent 0 0
next 1 4294967295
alike 7 1
count 1
close 4294967295
close 7
close 0
last 0";

/// Columns have no text to change and no part.
const COLUMNS: &str = "\
kind|grid
alike 7 1024
count 1024
absent 0 1
no-delete 0 0
no-move 0";

/// A part of actions is the name of one, whatever stands behind it.
const ACTIONS: &str = "\
kind|deeds
actions|click drücken
count 2
part 1 0|drücken
part 0 0|click
absent 2 3
no-delete 0 0
no-move 0";

/// Characters are found on both sides of a change, far from it and near it: the node has 300 of two bytes each.
const FAR: &str = "\
kind|chars
alike 7 300
insert 150|0123456789
part 149 151|ß0
part 159 161|9ß
insert 0|a😀
insert 312|z
count 313
part 0 3|a😀ß
part 151 153|ß0
part 161 163|9ß
part 310 313|ßßz
delete 1 151
part 0 4|a012
part 9 12|89ß
delete 11 150
part 0 12|a0123456789z";

/// A text of 1,048,576 equal characters, which takes one more: a face has no limit of its own.
const LONGEST: &str = "\
long|a
count 1048576
caret 1048576
part 524288 524289|a
insert 524288|!
count 1048577
part 524288 524289|!
part 1048576 1048577|a
delete 524288 1
count 1048576
part 1048575 1048576|a
close 7
long|😀
count 1048576
caret 1048576
part 524288 524289|😀
insert 524288|!
count 1048577
part 524288 524289|!
part 1048576 1048577|😀
delete 524288 1
count 1048576
part 1048575 1048576|😀";

/// Nothing is asked.
const NOTHING: &str = "";

#[test]
fn plain_texts(rt: HostRuntime) {
    run_new(&rt, rt.alloc(), "plain text", (TEXTS, SELECTIONS));
    run_new(&rt, rt.alloc(), "plain text", (ALIKE, FAR));
}

#[test]
fn texts_with_a_gap(rt: HostRuntime) {
    run_new(&rt, rt.alloc(), "text with a gap", (TEXTS, SELECTIONS));
    run_new(&rt, rt.alloc(), "text with a gap", (ALIKE, FAR));
}

#[test]
fn the_longest_plain_text(rt: HostRuntime) {
    run_new(&rt, rt.alloc(), "plain text", (LONGEST, NOTHING));
}

#[test]
fn the_longest_text_with_a_gap(rt: HostRuntime) {
    run_new(&rt, rt.alloc(), "text with a gap", (LONGEST, NOTHING));
}

#[test]
fn columns_and_actions(rt: HostRuntime) {
    run_new(&rt, rt.alloc(), "grid", (ALIKE, COLUMNS));
    run_new(&rt, rt.alloc(), "actions", (ALIKE, ACTIONS));
}
