//! Drawn edits, done to a tree and to a plain list.

use crate::edits::{alone, take};
use crate::plain::Plain;
use atspi_tree::Tree;
use std::alloc::Global;
use std::test::*;

/// What is asked of a tree: a word, and up to three numbers.
#[derive(Clone, Copy)]
pub(crate) struct Asked<'a> {
    pub(crate) word: &'a str,
    pub(crate) first: u32,
    pub(crate) second: u32,
    pub(crate) third: u32,
}

/// A number below a limit that is not 0, drawn from a state that goes on.
fn draw(state: &mut u64, below: u32) -> u32 {
    *state = state
        .wrapping_mul(6_364_136_223_846_793_005)
        .wrapping_add(1_442_695_040_888_963_407);
    ((*state >> 33) % u64::from(below.max(1))) as u32
}

/// A number of the last forty, which may be that of a node that is there.
fn recent(state: &mut u64, made: u32) -> u32 {
    made.saturating_add(1).saturating_sub(draw(state, 40))
}

/// An edit of a tree to which so many nodes were added.
fn drawn(state: &mut u64, made: u32) -> Asked<'static> {
    let node = recent(state, made);
    let other = recent(state, made);
    let index = draw(state, 3);
    let (word, first, second, third) = match draw(state, 16) {
        0..=6 => ("insert", other, index, 0),
        7 => ("remove", node, 0, 0),
        8 | 9 | 10 => ("move", node, other, index),
        11 => ("role", node, index, 0),
        12 => ("unrelate", node, 1, other),
        _ => ("relate", node, 1, other),
    };
    Asked {
        word,
        first,
        second,
        third,
    }
}

/// The words of a script for what is asked.
fn words_of(alloc: Global, asked: Asked) -> Option<String> {
    let (word, first, second) = (asked.word, asked.first, asked.second);
    match word {
        "insert" => format!(in alloc; "insert {first} {second} panel \"\"").ok(),
        "remove" => format!(in alloc; "remove {first}").ok(),
        "role" => format!(in alloc; "role {first} {second}").ok(),
        _ => format!(in alloc; "{word} {first} {second} {}", asked.third).ok(),
    }
}

/// One drawn edit, done to the tree and, where it is taken, to the list. Answers whether it was taken, none for want of
/// memory.
fn turn(alloc: Global, state: &mut u64, tree: &mut Tree, plain: &mut Plain) -> Option<bool> {
    let asked = drawn(state, tree.made());
    let words = words_of(alloc, asked)?;
    let taken = take(alloc, tree, words.as_str())?;
    if taken {
        plain.take(alloc, asked, tree.made())?;
    }
    Some(taken)
}

/// After each of 2,000 edits the tree has just what the list has.
#[test]
fn two_thousand_edits(rt: HostRuntime) {
    let mut tree = alone(rt.alloc()).expect(&rt, "memory");
    let mut plain = Plain::new(rt.alloc()).expect(&rt, "memory");
    let mut state = 7u64;
    let mut taken = 0u32;
    for i in 0..2_000 {
        if turn(rt.alloc(), &mut state, &mut tree, &mut plain).expect(&rt, "memory") {
            taken = taken.saturating_add(1);
        }
        assert!(rt; plain.is(&tree), "edit {i}");
    }
    assert!(rt; taken > 300);
    assert!(rt; tree.made() > 100);
}
