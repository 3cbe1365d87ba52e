//! The calls that a user asks for.

ghost use Rattle.std.specs.Prelude.{◌≤◌, length};
ghost use Rattle.atspi_reader_calls.specs.Deeds.{MayBeAsked};

use crate::made::stop_unless;
use crate::reader_calls::shown::{bus_name, is_shown, text};
use atspi_base::Text;
use atspi_reader_calls::user_call;
use atspi_script_lines::Deed;
use std::alloc::Global;
use std::process::Abort;

/// A text of fewer than 1,000 characters.
fn short(rt: &impl Abort, alloc: Global, value: &str) -> Text
    ensures { length result ≤ 1048576 }
{
    let text = text(rt, alloc, value);
    assert!(rt; text.count() < 1000);
    text
}

/// The deed of a word.
fn deed_of(rt: &impl Abort, alloc: Global, word: &str) -> Deed
    ensures { MayBeAsked result }
{
    match word {
        "caret" => Deed::SetCaret { at: 2147483647 },
        "insert" => Deed::InsertText {
            at: 3,
            text: short(rt, alloc, "hé"),
        },
        "delete" => Deed::DeleteText { from: 1, to: 3 },
        "set" => Deed::SetText {
            text: short(rt, alloc, ""),
        },
        "select" => Deed::SelectChild { index: 2 },
        "deselect" => Deed::DeselectChild { index: 0 },
        "all" => Deed::SelectAll,
        "clear" => Deed::ClearSelection,
        other => {
            stop_unless(rt, other, other == "act");
            Deed::DoAction { index: 2147483647 }
        }
    }
}

/// Deeds at a node, and the calls that they are.
const DEEDS: &str = "\
caret 0 => 1 0 5 :1.7 /org/a11y/atspi/accessible/root org.a11y.atspi.Text SetCaretOffset 2147483647
insert 0 => 1 0 5 :1.7 /org/a11y/atspi/accessible/root org.a11y.atspi.EditableText InsertText 3 <hé> 2
delete 4294967295 => 1 0 5 :1.7 /org/a11y/atspi/accessible/4294967295 org.a11y.atspi.EditableText DeleteText 1 3
set 0 => 1 0 5 :1.7 /org/a11y/atspi/accessible/root org.a11y.atspi.EditableText SetTextContents <>
select 0 => 1 0 5 :1.7 /org/a11y/atspi/accessible/root org.a11y.atspi.Selection SelectChild 2
deselect 0 => 1 0 5 :1.7 /org/a11y/atspi/accessible/root org.a11y.atspi.Selection DeselectChild 0
all 0 => 1 0 5 :1.7 /org/a11y/atspi/accessible/root org.a11y.atspi.Selection SelectAll
clear 0 => 1 0 5 :1.7 /org/a11y/atspi/accessible/root org.a11y.atspi.Selection ClearSelection
act 0 => 1 0 5 :1.7 /org/a11y/atspi/accessible/root org.a11y.atspi.Action DoAction 2147483647";

/// Whether the deed of a row, at a node of `:1.7`, is the call that is due.
fn holds(rt: &impl Abort, alloc: Global, row: &str) -> bool {
    let (spelled, due) = row.split_once(" => ").expect(rt, "a row");
    let (word, node) = spelled.split_once(' ').expect(rt, "a deed");
    let node = node.parse::<u32>().expect(rt, "a node");
    let name = bus_name(rt, alloc);
    let deed = deed_of(rt, alloc, word);
    let call = user_call(alloc, 5, &name, node, &deed).expect(rt, "memory");
    is_shown(rt, alloc, call, due)
}

#[test]
fn each_deed_is_one_call(rt: HostRuntime) {
    for row in DEEDS.lines() {
        stop_unless(&rt, row, holds(&rt, rt.alloc(), row));
    }
}
