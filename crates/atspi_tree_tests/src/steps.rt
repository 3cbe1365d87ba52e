//! A copy of each step. What is due was worked out by hand.

use crate::edits::{edit_of, number};
use atspi_base::{Marks, Nums, Text};
use atspi_tree_edits::copy_step;
use atspi_tree_model::{Edit, Seed, Step};
use std::alloc::Global;
use std::test::*;

/// A step as its kind, its node, two numbers more and a text.
pub(crate) type Told<'a> = (u32, u32, u32, u32, &'a str);

/// A text of these characters.
fn text(alloc: Global, characters: &str) -> Option<Text> {
    let bytes = characters.as_bytes();
    if bytes.len() > 1024 {
        return None;
    }
    Text::read(alloc, bytes).ok()
}

/// A seed that has all that a seed can have.
fn rich_seed(alloc: Global) -> Option<Seed> {
    let words = "insert 4 2 62 \"cell\" text \"t\" columns 2 select action \"press\"";
    match edit_of(alloc, words)? {
        Edit::Insert { seed, .. } => Some(seed),
        _ => None,
    }
}

/// Whether a seed has all that a rich one has but for the name.
fn is_rich(seed: &Seed) -> bool {
    let has_text = match &seed.text {
        Some(text) => text.as_str() == "t",
        None => false,
    };
    let has_action = match seed.actions.as_slice() {
        [action] => action.as_str() == "press",
        _ => false,
    };
    has_text
        && has_action
        && seed.role == 62
        && seed.editable
        && seed.select
        && seed.columns == Some(2)
}

/// The name of a seed that has all that a rich one has.
fn rich_name(seed: &Seed) -> Option<&str> {
    if !is_rich(seed) {
        return None;
    }
    Some(seed.name.as_str())
}

/// A step with a text, that is told so.
fn text_step(alloc: Global, told: Told<'_>) -> Option<Step> {
    let (kind, node, at, _, characters) = told;
    let text = text(alloc, characters)?;
    match kind {
        3 => Some(Step::SetName { node, text }),
        4 => Some(Step::SetDescription { node, text }),
        7 => Some(Step::Insert { node, at, text }),
        8 => Some(Step::Delete { node, at, text }),
        _ => None,
    }
}

/// The step that is told so.
fn step_of(alloc: Global, told: Told<'_>) -> Option<Step> {
    let (kind, node, a, b, _) = told;
    match kind {
        0 => Some(Step::Add {
            node,
            parent: a,
            index: b,
            seed: rich_seed(alloc)?,
        }),
        1 => Some(Step::Remove { node }),
        2 => Some(Step::Move {
            node,
            parent: a,
            index: b,
        }),
        5 => Some(Step::SetRole { node, role: a }),
        6 => Some(Step::SetState {
            node,
            state: 12,
            on: true,
        }),
        9 => Some(Step::Caret { node, at: a }),
        10 => Some(Step::TextSelect {
            node,
            marks: Marks::from_vec([(a, b)].to_vec(alloc).ok()?),
        }),
        11 => Some(Step::Relate {
            node,
            kind: a,
            targets: Nums::from_vec([b].to_vec(alloc).ok()?),
        }),
        _ => text_step(alloc, told),
    }
}

/// What a step says.
pub(crate) fn told(step: &Step) -> Option<Told<'_>> {
    match step {
        Step::Add {
            node,
            parent,
            index,
            seed,
        } => Some((0, *node, *parent, *index, rich_name(seed)?)),
        Step::Remove { node } => Some((1, *node, 0, 0, "")),
        Step::Move {
            node,
            parent,
            index,
        } => Some((2, *node, *parent, *index, "")),
        Step::SetName { node, text } => Some((3, *node, 0, 0, text.as_str())),
        Step::SetDescription { node, text } => Some((4, *node, 0, 0, text.as_str())),
        Step::SetRole { node, role } => Some((5, *node, *role, 0, "")),
        Step::SetState { node, state, on } => {
            Some((6, *node, *state as u32, u32::from(*on), ""))
        }
        Step::Insert { node, at, text } => Some((7, *node, *at, 0, text.as_str())),
        Step::Delete { node, at, text } => Some((8, *node, *at, 0, text.as_str())),
        Step::Caret { node, at } => Some((9, *node, *at, 0, "")),
        Step::TextSelect { node, marks } => match marks.as_slice() {
            [(from, to)] => Some((10, *node, *from, *to, "")),
            _ => None,
        },
        Step::Relate {
            node,
            kind,
            targets,
        } => match targets.as_slice() {
            [target] => Some((11, *node, *kind, *target, "")),
            _ => None,
        },
    }
}

/// Each kind of step: its number, its node, two numbers more and, behind `|`, a text.
const STEPS: &str = "\
0 9 4 2|cell
1 9 0 0|
2 9 4 2|
3 9 0 0|name
4 9 0 0|description
5 9 62 0|
6 9 12 1|
7 9 3 0|in
8 9 3 0|out
9 9 3 0|
10 9 1 5|
11 9 2 7|";

/// What a row tells.
pub(crate) fn told_by(row: &str) -> Option<Told<'_>> {
    let (numbers, characters) = row.split_once('|')?;
    let mut numbers = numbers.split(' ');
    let kind = number(numbers.next());
    let node = number(numbers.next());
    let first = number(numbers.next());
    Some((kind, node, first, number(numbers.next()), characters))
}

/// Whether the copy of the step of a row says what the row tells.
fn is_copied(alloc: Global, row: &str) -> Option<bool> {
    let want = told_by(row)?;
    let step = step_of(alloc, want)?;
    let copy = copy_step(alloc, &step);
    drop(step);
    let copy = copy.ok()?;
    let is_same = told(&copy) == Some(want);
    drop(copy);
    Some(is_same)
}

#[test]
fn each_step_is_copied(rt: HostRuntime) {
    for row in STEPS.lines() {
        assert!(rt; is_copied(rt.alloc(), row) == Some(true), "step {row}");
    }
}
