//! Each form of an event's text. What is due was worked out by hand.

use crate::traces::made::{Words, event_of, number, seed, tells, text, words_of};
use atspi_base::{Marks, Nums};
use atspi_trace_events::Event;
use atspi_trace_texts::{TraceOptions, nodes_are_told, text_tells_trace};
use atspi_tree_model::Step;
use std::alloc::Global;
use std::test::*;

/// Events as they are spelled here, and their texts; then events, and whether the brief text keeps them: what readers
/// say and show, who is dropped, and how turns end.
const EVENTS: &str = "\
start a0|Demo => start a0 \"Demo\"
start r3 => start r3
exit a15 => exit a15
exit r0 => exit r0
gone 0 1 => gone r0 a1
dropped reg 945 189 => dropped reg 945 189
busy 44 => busy 44
quiet => quiet
got bus a0 1 => got bus a0 1
got r1 bus 4294967295 => got r1 bus 4294967295
hears 0 :1.2|object:state-changed:focused => hears a0 :1.2 \"object:state-changed:focused\"
deaf 7 :1.2| => deaf a7 :1.2 \"\"
say 0 0|File, menu => say r0 a0 \"File, menu\"
show 0 0 => show r0 a0 none
quiet => kept
busy 1 => kept
show 0 0 => kept
dropped bus 0 0 => kept
say 0 0|x => kept
exit a0 => left out
gone 0 0 => left out
start r0 => left out
got bus a0 1 => left out";

/// Whether the event of a row is told as is due, or kept.
fn event_tells(alloc: Global, row: &str) -> Option<bool> {
    let (spelled, due) = row.split_once(" => ")?;
    let event = event_of(alloc, words_of(spelled))?;
    Some(tells(alloc, event, due))
}

#[test]
fn events_are_told(rt: HostRuntime) {
    text_tells_trace();
    nodes_are_told();
    for row in EVENTS.lines() {
        assert!(rt; event_tells(rt.alloc(), row) == Some(true), "{row}");
    }
}

#[test]
fn options_are_the_same_where_both_are(rt: HostRuntime) {
    let brief = TraceOptions {
        brief: true,
        wire: false,
    };
    let same = TraceOptions {
        wire: false,
        brief: true,
    };
    assert!(rt; brief == same);
}

/// Ranges of characters, each from its first number to its second, with `;` between two.
fn marks(alloc: Global, spelled: &str) -> Option<Marks> {
    let mut marks = Marks::new(alloc);
    for pair in spelled.split(';') {
        if let Some((from, to)) = pair.split_once(' ') {
            marks.push((number(from), number(to))).ok()?;
        }
    }
    Some(marks)
}

/// Numbers of nodes.
fn nodes(alloc: Global, spelled: &str) -> Option<Nums> {
    let mut nodes = Nums::new(alloc);
    for word in spelled.split_whitespace() {
        nodes.push(number(word)).ok()?;
    }
    Some(nodes)
}

/// A step with a text.
fn text_step(alloc: Global, node: u32, words: Words) -> Option<Step> {
    let at = number(words.second);
    let text = text(alloc, words.text.unwrap_or(""))?;
    Some(match words.word {
        "name" => Step::SetName { node, text },
        "description" => Step::SetDescription { node, text },
        "insert" => Step::Insert { node, at, text },
        _ => Step::Delete { node, at, text },
    })
}

/// A step with a list or with what a node begins with, or with a text.
fn long_step(alloc: Global, node: u32, words: Words) -> Option<Step> {
    let second = number(words.second);
    let spelled = words.text.unwrap_or("");
    match words.word {
        "add" => Some(Step::Add {
            node,
            parent: second,
            index: number(words.third),
            seed: seed(alloc, spelled)?,
        }),
        "marks" => Some(Step::TextSelect {
            node,
            marks: marks(alloc, spelled)?,
        }),
        "relate" => Some(Step::Relate {
            node,
            kind: second,
            targets: nodes(alloc, spelled)?,
        }),
        _ => text_step(alloc, node, words),
    }
}

/// A step that words spell.
fn step_of(alloc: Global, words: Words) -> Option<Step> {
    let node = number(words.first);
    let second = number(words.second);
    match words.word {
        "remove" => Some(Step::Remove { node }),
        "move" => Some(Step::Move {
            node,
            parent: second,
            index: number(words.third),
        }),
        "role" => Some(Step::SetRole { node, role: second }),
        "state" => Some(Step::SetState {
            node,
            state: u8::try_from(second).unwrap_or(0),
            on: words.third == "on",
        }),
        "caret" => Some(Step::Caret { node, at: second }),
        _ => long_step(alloc, node, words),
    }
}

/// Steps of the application 0 as they are spelled here, and what is told of them.
const STEPS: &str = "\
add 1 0 0|43;OK => step a0 add 1 0 0 push-button \"OK\"
add 4294967295 9 8|117; => step a0 add 4294967295 9 8 117 \"\"
add 2 1 0|79;Find;text=t \"x\" => step a0 add 2 1 0 entry \"Find\" text \"t \\\"x\\\"\"
add 3 1 1|39;P;static=;columns=7;select;press;focus => step a0 add 3 1 1 panel \"P\" static \"\" columns 7 select action \"press\" action \"focus\"
remove 12 => step a0 remove 12
move 1 2 3 => step a0 move 1 2 3
description 9|\\ => step a0 description 9 \"\\\\\"
role 9 116 => step a0 role 9 static
state 1 12 on => step a0 state 1 focused on
state 6 43 off => step a0 state 6 read-only off
insert 11 4|x y => step a0 insert 11 4 \"x y\"
delete 11 0|\u{1f600} => step a0 delete 11 0 \"\u{1f600}\"
caret 11 5 => step a0 caret 11 5
marks 3 => step a0 marks 3
marks 3|1 2;4 10 => step a0 marks 3 1 2 4 10
relate 1 18 => step a0 relate 1 18
relate 1 2|5 0 => step a0 relate 1 2 5 0";

/// Whether a step of the application 0 is told so.
fn step_tells(alloc: Global, spelled: &str, due: &str) -> Option<bool> {
    let step = step_of(alloc, words_of(spelled))?;
    Some(tells(alloc, Event::Step { app: 0, step }, due))
}

/// Whether the step of a row is told as is due.
fn row_tells(alloc: Global, row: &str) -> Option<bool> {
    let (spelled, due) = row.split_once(" => ")?;
    step_tells(alloc, spelled, due)
}

#[test]
fn steps_are_told(rt: HostRuntime) {
    for row in STEPS.lines() {
        assert!(rt; row_tells(rt.alloc(), row) == Some(true), "{row}");
    }
    let due = "step a0 name 9 \"a\\x0ab\\x7f\u{e9}\"";
    assert!(rt; step_tells(rt.alloc(), "name 9|a\nb\u{7f}\u{e9}", due) == Some(true));
}
