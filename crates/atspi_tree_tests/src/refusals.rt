//! Why each edit is refused, or how many steps it makes.

ghost use Rattle.std.specs.Prelude.{IfSome};
ghost use Rattle.atspi_tree_model.specs.Edits.{IsEdit};
ghost use Rattle.atspi_tree_edits.specs.Answers.{IsKnown};

use crate::edits::{alone, edit_of, letters, made, take};
use crate::refusal_tables::{
    ACTIONS, BESIDE_STATES, FULL_TREE, LONG_TEXTS, MARKED_TEXTS, NODES, TEXTS, WINDOW,
};
use crate::steps::{told, told_by};
use atspi_base::{Marks, Text, Texts};
use atspi_tree::{Seats, Tree};
use atspi_tree_edits::{EditRefused, steps_of};
use atspi_tree_model::{Edit, EditFault, FaceData, Step};
use std::alloc::Global;
use std::process::Abort;
use std::test::*;

/// The actions of the window.
fn actions(alloc: Global) -> Option<FaceData>
    ensures { IfSome result IsKnown }
{
    let mut names = Texts::new(alloc);
    for name in "toggle expand press focus jump".split(' ') {
        if name.len() <= 511 {
            names.push(Text::read(alloc, name.as_bytes()).ok()?).ok()?;
        }
    }
    Some(FaceData::Deeds(names))
}

/// A text of so many letters with its caret, and nothing selected.
fn text(alloc: Global, count: usize, caret: u32) -> Option<FaceData>
    ensures { IfSome result IsKnown }
{
    let text = letters(alloc, count)?;
    if text.count() > 1_048_576 || caret > text.count() {
        return None;
    }
    Some(FaceData::Chars {
        text,
        caret,
        marks: Marks::new(alloc),
    })
}

/// A text of three letters, with as many selections as a text may have.
fn marked(alloc: Global) -> Option<FaceData>
    ensures { IfSome result IsKnown }
{
    let text = letters(alloc, 3)?;
    if text.count() != 3 {
        return None;
    }
    Some(FaceData::Chars {
        text,
        caret: 0,
        marks: Marks::from_vec(vec![in alloc; (0, 1); 16].ok()?),
    })
}

/// Contents that a node has: the actions of the window, a short text, one that has room for one character, one that has
/// all the selections that a text may have, or none.
fn known_of(alloc: Global, word: &str) -> Option<FaceData>
    ensures { IfSome result IsKnown }
{
    match word {
        "actions" => actions(alloc),
        "text" => text(alloc, 3, 2),
        "full text" => text(alloc, 1_048_575, 0),
        "selected text" => marked(alloc),
        _ => Some(FaceData::Deeds(Texts::new(alloc))),
    }
}

/// The fault of a name.
pub(crate) fn fault_of(name: &str) -> Option<EditFault> {
    match name {
        "NoNode" => Some(EditFault::NoNode),
        "IsRoot" => Some(EditFault::IsRoot),
        "NoFace" => Some(EditFault::NoFace),
        "BadIndex" => Some(EditFault::BadIndex),
        "BadOffset" => Some(EditFault::BadOffset),
        "Cycle" => Some(EditFault::Cycle),
        "Full" => Some(EditFault::Full),
        "TextFull" => Some(EditFault::TextFull),
        _ => None,
    }
}

/// Whether there are as many steps as is due, or the one that is told.
fn are_steps(steps: &[Step], due: &str) -> bool {
    match due.strip_prefix("step ") {
        Some(row) => match steps {
            [step] => told(step).is_some() && told(step) == told_by(row),
            _ => false,
        },
        None => due.parse::<usize>().ok() == Some(steps.len()),
    }
}

/// Whether an edit is refused, or makes steps, as is due, where these contents are known of its node.
fn is_due(alloc: Global, tree: &Tree, edit: &Edit, known: &FaceData, due: &str) -> bool
    requires lawful { IsEdit edit.now }
    requires known { IsKnown known.now }
{
    match steps_of(alloc, tree, edit, known) {
        Ok(steps) => are_steps(steps.as_slice(), due),
        Err(EditRefused::Refused(fault)) => fault_of(due) == Some(fault),
        Err(EditRefused::NoMemory) => false,
    }
}

/// Whether the edit of a row comes to what is due behind its ` = `, or is done where nothing is due.
fn holds(alloc: Global, tree: &mut Tree, row: &str, known: &FaceData) -> Option<bool>
    requires { IsKnown known.now }
{
    let Some((words, due)) = row.split_once(" = ") else {
        return take(alloc, tree, row);
    };
    let edit = edit_of(alloc, words)?;
    Some(is_due(alloc, tree, &edit, known, due))
}

/// The edit of each row comes to what is due.
fn try_rows(rt: &impl Abort, alloc: Global, tree: &mut Tree, rows: &str, known: &FaceData)
    requires { IsKnown known.now }
{
    for row in rows.lines() {
        assert!(rt; holds(alloc, tree, row, known) == Some(true), "{row}");
    }
}

/// The same of a tree with the window, where a word names what is known.
fn try_window(rt: &impl Abort, alloc: Global, rows: &str, known: &str) {
    let known = known_of(alloc, known).expect(rt, "contents");
    let mut tree = made(alloc, WINDOW).expect(rt, "a window");
    try_rows(rt, alloc, &mut tree, rows, &known);
}

#[test]
fn edits_are_refused_or_make_steps(rt: HostRuntime) {
    try_window(&rt, rt.alloc(), NODES, "nothing");
    try_window(&rt, rt.alloc(), BESIDE_STATES, "nothing");
    try_window(&rt, rt.alloc(), TEXTS, "text");
    try_window(&rt, rt.alloc(), LONG_TEXTS, "full text");
    try_window(&rt, rt.alloc(), MARKED_TEXTS, "selected text");
    try_window(&rt, rt.alloc(), ACTIONS, "actions");
}

/// Whether a walk gives the nodes 0 to 8,191, rising.
fn is_rising(seats: Seats) -> bool {
    let mut due = 0u32;
    for seat in seats {
        if seat.node != due {
            return false;
        }
        due = due.saturating_add(1);
    }
    due == 8_192
}

/// Puts 8,191 nodes into a tree, each below the one before it, or all below the root.
fn fill(alloc: Global, tree: &mut Tree, is_deep: bool) -> Option<()> {
    for n in 0..8_191 {
        let (parent, index) = if is_deep { (n, 0) } else { (0, n) };
        let words = format!(in alloc; "insert {parent} {index} panel \"\"").ok()?;
        take(alloc, tree, words.as_str())?;
    }
    Some(())
}

/// A tree that has all the nodes that a tree may have, as deep as can be or as wide, with a walk over it. A text that
/// is too long for a new node is no line of a script: that it is told last stands with the edits that read no contents.
fn try_full(rt: &impl Abort, alloc: Global, is_deep: bool, rows: &str) {
    let known = known_of(alloc, "nothing").expect(rt, "contents");
    let mut tree = alone(alloc).expect(rt, "a tree");
    assert!(rt; fill(alloc, &mut tree, is_deep).is_some());
    assert!(rt; tree.len() == 8_192 && is_rising(tree.seats()));
    try_rows(rt, alloc, &mut tree, rows, &known);
}

#[test]
fn trees_that_are_full(rt: HostRuntime) {
    try_full(&rt, rt.alloc(), false, FULL_TREE);
    try_full(&rt, rt.alloc(), true, "insert 8191 0 panel \"\" = Full");
}
