//! The calls of a reader's own.

use crate::made::stop_unless;
use crate::reader_calls::shown::{bus_name, is_shown, text};
use atspi_base::valid_names::Path;
use atspi_protocol::following::Question;
use atspi_protocol::news::PartName;
use atspi_reader_calls::asking;
use std::alloc::Global;
use std::process::Abort;

/// The question of `:1.7` for a part of `/a`.
fn part(rt: &impl Abort, alloc: Global, of: PartName) -> Question {
    let path = Path::read(alloc, b"/a").expect(rt, "a path");
    Question::GetPart(bus_name(rt, alloc), path, of)
}

/// The question of a word, and of a text behind a blank.
fn question_of(rt: &impl Abort, alloc: Global, spelled: &str) -> Question {
    let (word, rest) = spelled.split_once(' ').unwrap_or((spelled, ""));
    match word {
        "hello" => Question::Hello,
        "match" => Question::AddMatch(text(rt, alloc, rest)),
        "register" => Question::RegisterEvent(text(rt, alloc, rest)),
        "children" => Question::GetChildren,
        "items" => Question::GetItems(bus_name(rt, alloc)),
        "text" => part(rt, alloc, PartName::Text),
        "caret" => part(rt, alloc, PartName::Caret),
        other => {
            stop_unless(rt, other, other == "columns");
            part(rt, alloc, PartName::Columns)
        }
    }
}

/// Questions to the bus, the registry and an application, and the calls that they are.
const QUESTIONS: &str = "\
hello => 1 0 5 org.freedesktop.DBus /org/freedesktop/DBus org.freedesktop.DBus Hello
match type='é' => 1 0 5 org.freedesktop.DBus /org/freedesktop/DBus org.freedesktop.DBus AddMatch <type='é'>
register object:x => 1 0 5 org.a11y.atspi.Registry /org/a11y/atspi/registry org.a11y.atspi.Registry RegisterEvent <object:x>
children => 1 0 5 org.a11y.atspi.Registry /org/a11y/atspi/accessible/root org.a11y.atspi.Accessible GetChildren
items => 1 0 5 :1.7 /org/a11y/atspi/cache org.a11y.atspi.Cache GetItems
text => 1 0 5 :1.7 /a org.a11y.atspi.Text GetText 0 -1
caret => 1 0 5 :1.7 /a org.freedesktop.DBus.Properties Get <org.a11y.atspi.Text> <CaretOffset>
columns => 1 0 5 :1.7 /a org.freedesktop.DBus.Properties Get <org.a11y.atspi.Table> <NColumns>";

/// Whether the question of a row is the call that is due.
fn holds(rt: &impl Abort, alloc: Global, row: &str) -> bool {
    let (spelled, due) = row.split_once(" => ").expect(rt, "a row");
    let question = question_of(rt, alloc, spelled);
    let call = asking(alloc, 5, &question).expect(rt, "memory");
    is_shown(rt, alloc, call, due)
}

#[test]
fn each_question_is_one_call(rt: HostRuntime) {
    for row in QUESTIONS.lines() {
        stop_unless(&rt, row, holds(&rt, rt.alloc(), row));
    }
}
