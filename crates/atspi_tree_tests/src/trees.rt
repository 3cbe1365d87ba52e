//! Trees after edits, beside what is due.

use crate::edits::{made, number, take_all};
use atspi_base::{Bytes, put_decimal};
use atspi_tree::{Seat, Seats, Tree};
use std::alloc::Global;
use std::test::*;

/// Appends a mark and a number.
fn put(out: &mut Bytes, mark: &str, number: u32) -> Option<()> {
    out.extend(mark.as_bytes()).ok()?;
    put_decimal(u64::from(number), out).ok()
}

/// Appends numbers, with a blank before each.
fn put_numbers(out: &mut Bytes, numbers: &[u32]) -> Option<()> {
    for number in numbers {
        put(out, " ", *number)?;
    }
    Some(())
}

/// Appends the relations of a node: each its kind, `>` and its target.
fn put_relations(out: &mut Bytes, relations: &[(u32, u32)]) -> Option<()> {
    for (kind, target) in relations {
        put(out, " ", *kind)?;
        put(out, ">", *target)?;
    }
    Some(())
}

/// Appends a node that is there, its children and its relations.
fn put_node(out: &mut Bytes, tree: &Tree, node: u32) -> Option<()> {
    if !tree.has(node) {
        return Some(());
    }
    put(out, " (", node)?;
    out.push(b':').ok()?;
    put_numbers(out, tree.children(node))?;
    put_relations(out, tree.relations(node))?;
    out.push(b')').ok()
}

/// Appends all nodes of a tree by their numbers.
fn put_nodes(out: &mut Bytes, tree: &Tree) -> Option<()> {
    for node in 0..=tree.made() {
        put_node(out, tree, node)?;
    }
    Some(())
}

/// Appends a place: the node, but for the root `<` and its parent, and `@` and its index.
fn put_seat(out: &mut Bytes, seat: Seat) -> Option<()> {
    put(out, " ", seat.node)?;
    if let Some(parent) = seat.parent {
        put(out, "<", parent)?;
    }
    put(out, "@", seat.index)
}

/// Appends the places that a walk gives.
fn put_seats(out: &mut Bytes, seats: Seats) -> Option<()> {
    for seat in seats {
        put_seat(out, seat)?;
    }
    Some(())
}

/// Appends a text, if it is not empty, behind a blank.
fn put_text(out: &mut Bytes, text: &str) -> Option<()> {
    if text.is_empty() {
        return Some(());
    }
    out.push(b' ').ok()?;
    out.extend(text.as_bytes()).ok()
}

/// Appends the parent, where there is one, the role and the interfaces of a node.
fn put_row(out: &mut Bytes, parent: Option<u32>, role: u32, faces: u8) -> Option<()> {
    if let Some(parent) = parent {
        put(out, " ", parent)?;
    }
    put_numbers(out, &[role, u32::from(faces)])
}

/// The word of a question and the two numbers behind it, 0 where there is none.
fn asked(question: &str) -> Option<(&str, u32, u32)> {
    let mut words = question.split(' ');
    let word = words.next()?;
    let node = number(words.next());
    Some((word, node, number(words.next())))
}

/// Appends what a tree answers: all its `nodes`, its places in preorder (`walk`) or those `below NODE`, how many nodes
/// were `made` and are there, the `targets NODE KIND` of a relation, or what a node has.
fn put_answer(out: &mut Bytes, tree: &Tree, question: &str) -> Option<()> {
    let (word, node, kind) = asked(question)?;
    if !tree.has(node) {
        return None;
    }
    match word {
        "nodes" => put_nodes(out, tree),
        "walk" => put_seats(out, tree.seats()),
        "below" => put_seats(out, tree.seats_below(node)),
        "made" => put_numbers(out, &[tree.made(), tree.len()]),
        "targets" => put_numbers(out, tree.targets(node, kind)),
        "row" => put_row(out, tree.parent(node), tree.role(node), tree.faces(node)),
        "states" => put(out, " ", u32::try_from(tree.states(node)).ok()?),
        "name" => put_text(out, tree.name(node).as_str()),
        "description" => put_text(out, tree.description(node).as_str()),
        _ => None,
    }
}

/// Whether a tree answers a question as is due: `QUESTION:` and the answer.
fn answers(alloc: Global, tree: &Tree, row: &str) -> Option<bool> {
    let (question, due) = row.split_once(':')?;
    let mut out = Bytes::new(alloc);
    put_answer(&mut out, tree, question)?;
    Some(out.as_slice() == due.as_bytes())
}

/// The same of questions with `; ` between two.
fn answers_all(alloc: Global, tree: &Tree, rows: &str) -> Option<bool> {
    for row in rows.split("; ") {
        if !answers(alloc, tree, row)? {
            return Some(false);
        }
    }
    Some(true)
}

/// Nodes 1 to 4 below the root, and 5 and 6 below 1.
const FAMILY: &str = "\
insert 0 0 panel \"\"; insert 0 1 panel \"\"; insert 0 2 panel \"\"; insert 0 3 panel \"\"; insert 1 0 panel \"\"; insert 1 1 panel \"\"";

/// Edits of the family, and what the tree is then. Each of four children goes to each index among the others; a child
/// goes below a later sibling and one below a node goes up before it; and a subtree goes, and with it the relations
/// whose targets are in it. Targets of a kind stand in the order in which they were put in, whatever else was put in
/// between, two of each kind that there is, from the last kind on. Each node comes before those below it, and these
/// before its later siblings; a walk below a node has all below it, and one below a leaf none. A node begins with all
/// that its insert says.
const EDITED: &str = "\
move 1 0 0 => nodes: (0: 1 2 3 4) (1: 5 6) (2:) (3:) (4:) (5:) (6:)
move 1 0 1 => nodes: (0: 2 1 3 4) (1: 5 6) (2:) (3:) (4:) (5:) (6:)
move 1 0 2 => nodes: (0: 2 3 1 4) (1: 5 6) (2:) (3:) (4:) (5:) (6:)
move 1 0 3 => nodes: (0: 2 3 4 1) (1: 5 6) (2:) (3:) (4:) (5:) (6:)
move 2 0 0 => nodes: (0: 2 1 3 4) (1: 5 6) (2:) (3:) (4:) (5:) (6:)
move 2 0 1 => nodes: (0: 1 2 3 4) (1: 5 6) (2:) (3:) (4:) (5:) (6:)
move 2 0 2 => nodes: (0: 1 3 2 4) (1: 5 6) (2:) (3:) (4:) (5:) (6:)
move 2 0 3 => nodes: (0: 1 3 4 2) (1: 5 6) (2:) (3:) (4:) (5:) (6:)
move 3 0 0 => nodes: (0: 3 1 2 4) (1: 5 6) (2:) (3:) (4:) (5:) (6:)
move 3 0 1 => nodes: (0: 1 3 2 4) (1: 5 6) (2:) (3:) (4:) (5:) (6:)
move 3 0 2 => nodes: (0: 1 2 3 4) (1: 5 6) (2:) (3:) (4:) (5:) (6:)
move 3 0 3 => nodes: (0: 1 2 4 3) (1: 5 6) (2:) (3:) (4:) (5:) (6:)
move 4 0 0 => nodes: (0: 4 1 2 3) (1: 5 6) (2:) (3:) (4:) (5:) (6:)
move 4 0 1 => nodes: (0: 1 4 2 3) (1: 5 6) (2:) (3:) (4:) (5:) (6:)
move 4 0 2 => nodes: (0: 1 2 4 3) (1: 5 6) (2:) (3:) (4:) (5:) (6:)
move 4 0 3 => nodes: (0: 1 2 3 4) (1: 5 6) (2:) (3:) (4:) (5:) (6:)
move 1 3 0; move 6 0 0; move 5 3 1 => nodes: (0: 6 2 3 4) (1:) (2:) (3: 1 5) (4:) (5:) (6:)
relate 2 4 5; relate 2 4 3; relate 2 1 1; relate 2 1 2; relate 5 6 3; relate 5 6 6; relate 3 2 6; relate 0 2 1 => nodes: (0: 1 2 3 4 2>1) (1: 5 6) (2: 4>5 4>3 1>1 1>2) (3: 2>6) (4:) (5: 6>3 6>6) (6:)
relate 2 4 5; relate 2 4 3; relate 2 1 1; relate 2 1 2; relate 5 6 3; relate 5 6 6; relate 3 2 6; relate 0 2 1; unrelate 2 4 5; relate 2 4 6; remove 1 => nodes: (0: 2 3 4) (2: 1>2 4>3) (3:) (4:)
relate 2 4 5; relate 2 4 3; relate 2 1 1; relate 2 1 2; relate 5 6 3; relate 5 6 6; relate 3 2 6; relate 0 2 1; relate 2 4 0 => targets 2 4: 5 3 0; targets 2 1: 1 2; targets 2 2:; targets 2 0:; targets 2 19:
relate 2 18 5; relate 2 18 2; relate 2 17 5; relate 2 17 1; relate 2 16 5; relate 2 16 0; relate 2 15 5; relate 2 15 3; relate 2 14 5; relate 2 14 2; relate 2 13 5; relate 2 13 1; relate 2 12 5; relate 2 12 0; relate 2 11 5; relate 2 11 3; relate 2 10 5; relate 2 10 2; relate 2 9 5; relate 2 9 1; relate 2 8 5; relate 2 8 0; relate 2 7 5; relate 2 7 3; relate 2 6 5; relate 2 6 2; relate 2 5 5; relate 2 5 1; relate 2 4 5; relate 2 4 0; relate 2 3 5; relate 2 3 3; relate 2 2 5; relate 2 2 2; relate 2 1 5; relate 2 1 1 => targets 2 1: 5 1; targets 2 2: 5 2; targets 2 3: 5 3; targets 2 4: 5 0; targets 2 5: 5 1; targets 2 6: 5 2; targets 2 7: 5 3; targets 2 8: 5 0; targets 2 9: 5 1; targets 2 10: 5 2; targets 2 11: 5 3; targets 2 12: 5 0; targets 2 13: 5 1; targets 2 14: 5 2; targets 2 15: 5 3; targets 2 16: 5 0; targets 2 17: 5 1; targets 2 18: 5 2
move 4 6 0 => walk: 0@0 1<0@0 5<1@0 6<1@1 4<6@0 2<0@1 3<0@2; below 1: 5<1@0 6<1@1 4<6@0; below 3:
insert 4 0 push-button \"b\"; name 4 \"aaa\" => made: 7 8; row 0: 75 0; name 0: aaaa; row 4: 0 39 0; name 4: aaa; row 7: 4 43 0; name 7: b; states 7: 1124073728; description 7:
insert 0 0 62 \"aa\" text \"aaa\" columns 1024 select action \"aaaaa\" => row 7: 0 62 31; name 7: aa";

/// Whether a copy of a tree is what is due after the edits of a row.
fn becomes(alloc: Global, before: &Tree, row: &str) -> Option<bool> {
    let (edits, due) = row.split_once(" => ")?;
    let mut tree = before.copy().ok()?;
    take_all(alloc, &mut tree, edits)?;
    answers_all(alloc, &tree, due)
}

#[test]
fn a_tree_is_edited(rt: HostRuntime) {
    let family = made(rt.alloc(), FAMILY).expect(&rt, "a tree");
    for row in EDITED.lines() {
        assert!(rt; becomes(rt.alloc(), &family, row) == Some(true), "{row}");
    }
}
