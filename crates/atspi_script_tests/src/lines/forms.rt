//! Each form of a line, and what it says. What is due was worked out by hand.

use crate::lines::told::is_told;
use atspi_script_lines::{lines_have_one_reading, parse_line};
use std::alloc::Global;
use std::test::*;

/// Each form of a line as it is spelled, ` => `, and what it says.
pub(crate) const FORMS: &str = "\
\x20=> Blank\n\
# a \"comment => Blank\n\
# => Blank\n\
quota 1024 => Quota 1024\n\
quota 16777216 => Quota 16777216\n\
app \"Demo\" => App <Demo>\n\
app \"\" => App <>\n\
app \"a \\\"b\\\" \\\\ \\x1f\\x7f\" => App <a \"b\" \\ \u{1f}\u{7f}>\n\
app \"n\u{e9}\u{1f600}\" => App <n\u{e9}\u{1f600}>\n\
reader => Reader\n\
edit a0 insert 0 0 frame \"Untitled\" => Edit 0 Insert 0 0 Seed 23 <Untitled>\n\
edit a15 insert 4294967295 1 117 \"\" => Edit 15 Insert 4294967295 1 Seed 117 <>\n\
edit a0 insert 1 2 43 \"x\" => Edit 0 Insert 1 2 Seed 43 <x>\n\
edit a0 insert 9 1 entry \"Find\" text \"t x\" => Edit 0 Insert 9 1 Seed 79 <Find> Text 1 <t x>\n\
edit a0 insert 9 1 entry \"Find\" static \"\" => Edit 0 Insert 9 1 Seed 79 <Find> Text 0 <>\n\
edit a0 insert 1 2 table \"Files\" columns 2 => Edit 0 Insert 1 2 Seed 55 <Files> Columns 2\n\
edit a0 insert 1 2 table \"Files\" columns 0 => Edit 0 Insert 1 2 Seed 55 <Files> Columns 0\n\
edit a0 insert 1 3 list \"Recent\" select => Edit 0 Insert 1 3 Seed 31 <Recent> Select\n\
edit a0 insert 3 0 menu-item \"New\" action \"press\" action \"focus\" => Edit 0 Insert 3 0 Seed 35 <New> Action <press> Action <focus>\n\
edit a0 insert 3 0 panel \"P\" text \"q\" columns 7 select action \"a\" => Edit 0 Insert 3 0 Seed 39 <P> Text 1 <q> Columns 7 Select Action <a>\n\
edit a0 insert 0 0 0 \"\" action \"1\" action \"2\" action \"3\" action \"4\" action \"5\" action \"6\" action \"7\" action \"8\" => Edit 0 Insert 0 0 Seed 0 <> Action <1> Action <2> Action <3> Action <4> Action <5> Action <6> Action <7> Action <8>\n\
edit a1 remove 12 => Edit 1 Remove 12\n\
edit a0 move 1 2 3 => Edit 0 Move 1 2 3\n\
edit a0 name 9 \"x\" => Edit 0 Name 9 <x>\n\
edit a0 describe 9 \"x y\" => Edit 0 Describe 9 <x y>\n\
edit a0 role 9 static => Edit 0 Role 9 116\n\
edit a0 role 9 4294967295 => Edit 0 Role 9 4294967295\n\
edit a0 state 6 checkable on => Edit 0 State 6 41 1\n\
edit a0 state 6 read-only off => Edit 0 State 6 43 0\n\
edit a0 focus 3 => Edit 0 Focus 3\n\
edit a0 put 3 4 \"x\" => Edit 0 Put 3 4 <x>\n\
edit a0 type 11 \"n\u{e9}\" => Edit 0 Keys 11 <n\u{e9}>\n\
edit a0 cut 11 1 2 => Edit 0 Cut 11 1 2\n\
edit a0 caret 11 1 => Edit 0 Caret 11 1\n\
edit a0 mark 11 1 2 => Edit 0 Mark 11 1 2\n\
edit a0 unmark 11 => Edit 0 Unmark 11\n\
edit a0 select 18 0 => Edit 0 Select 18 0\n\
edit a0 deselect 18 1 => Edit 0 Deselect 18 1\n\
edit a0 press 6 0 => Edit 0 Press 6 0\n\
edit a0 relate 1 2 3 => Edit 0 Relate 1 2 3\n\
edit a0 unrelate 1 0 3 => Edit 0 Unrelate 1 0 3\n\
call r0 a1 2 set-caret 3 => Call 0 1 2 SetCaret 3\n\
call r3 a15 2147483647 set-caret 2147483647 => Call 3 15 2147483647 SetCaret 2147483647\n\
call r0 a0 1 insert-text 3 \"x\" => Call 0 0 1 InsertText 3 <x>\n\
call r0 a0 1 delete-text 3 4 => Call 0 0 1 DeleteText 3 4\n\
call r0 a0 1 set-text \"\" => Call 0 0 1 SetText <>\n\
call r0 a0 1 select-child 0 => Call 0 0 1 SelectChild 0\n\
call r0 a0 1 deselect-child 5 => Call 0 0 1 DeselectChild 5\n\
call r0 a0 1 select-all => Call 0 0 1 SelectAll\n\
call r0 a0 1 clear-selection => Call 0 0 1 ClearSelection\n\
call r0 a0 1 do-action 0 => Call 0 0 1 DoAction 0\n\
swap a10 => Swap 10\n\
exit a0 => Exit 0\n\
leave r3 => Leave 3\n\
bytes reg up 0 => Bytes 1 0 Registry\n\
bytes a2 down 4294967295 => Bytes 0 4294967295 App 2\n\
bytes r1 up 7 => Bytes 1 7 Reader 1\n\
turns 0 => Turns 0\n\
drain => Drain\n\
show r0 a0 => Show 0 0";

/// Whether the line of a row says what is due.
fn says(alloc: Global, row: &str) -> bool {
    let (spelled, due) = row.split_once(" => ").unwrap_or((row, ""));
    match parse_line(alloc, spelled.as_bytes()) {
        Ok(line) => is_told(alloc, &line, due),
        Err(_) => false,
    }
}

#[test]
fn each_form_of_a_line_is_read(rt: HostRuntime) {
    lines_have_one_reading();
    for row in FORMS.split('\n') {
        assert!(rt; says(rt.alloc(), row), "line {row}");
    }
}
