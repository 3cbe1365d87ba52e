//! Lists of steps and of items, and the words of refusals.

use crate::refusals::fault_of;
use atspi_base::valid_names::Path;
use atspi_base::{Text, Texts};
use atspi_tree_model::{Item, Items, Reference, Step, StepList};
use std::alloc::Global;
use std::test::*;

/// The removal of node 3, and then the caret of node 1 at 5.
fn two_steps(alloc: Global) -> Option<StepList> {
    let mut steps = StepList::new(alloc);
    steps.push(Step::Remove { node: 3 }).ok()?;
    steps.push(Step::Caret { node: 1, at: 5 }).ok()?;
    Some(steps)
}

/// Whether these are the two steps, in their order.
fn are_two(steps: &[Step]) -> bool {
    matches!(
        steps,
        [Step::Remove { node: 3 }, Step::Caret { node: 1, at: 5 }]
    )
}

#[test]
fn steps_keep_their_order(rt: HostRuntime) {
    let steps = two_steps(rt.alloc()).expect(&rt, "memory");
    assert!(rt; steps.len() == 2 && are_two(steps.as_slice()));
    assert!(rt; StepList::from_vec(steps.into_vec()).len() == 2);
}

/// A text without characters.
fn no_text(alloc: Global) -> Option<Text> {
    Text::read(alloc, b"").ok()
}

/// The root of an application whose bus name is empty.
fn root(alloc: Global) -> Option<Reference> {
    let bus = no_text(alloc)?;
    let path = Path::read(alloc, b"/org/a11y/atspi/accessible/root").ok()?;
    Some(Reference { bus, path })
}

/// That root as an item's object, its application and its parent.
fn roots(alloc: Global) -> Option<(Reference, Reference, Reference)> {
    let object = root(alloc)?;
    let application = root(alloc)?;
    let parent = root(alloc)?;
    Some((object, application, parent))
}

/// No interfaces, and a name and a description without characters.
fn no_words(alloc: Global) -> Option<(Texts, Text, Text)> {
    let name = no_text(alloc)?;
    let description = no_text(alloc)?;
    Some((Texts::new(alloc), name, description))
}

/// An item of that root.
fn item(alloc: Global) -> Option<Item> {
    let (interfaces, name, description) = no_words(alloc)?;
    let (object, application, parent) = roots(alloc)?;
    Some(Item {
        object,
        application,
        parent,
        index: -1,
        children: 0,
        interfaces,
        name,
        role: 75,
        description,
        states: 0x4300_0100,
    })
}

/// The item alone.
fn one_item(alloc: Global) -> Option<Items> {
    let item = item(alloc)?;
    let mut items = Items::new(alloc);
    items.push(item).ok()?;
    Some(items)
}

/// Whether these are one item, of an application.
fn is_application(items: &[Item]) -> bool {
    match items {
        [item] => item.role == 75,
        _ => false,
    }
}

#[test]
fn items_are_kept(rt: HostRuntime) {
    let items = one_item(rt.alloc()).expect(&rt, "memory");
    assert!(rt; items.len() == 1 && is_application(items.as_slice()));
    assert!(rt; Items::from_vec(items.into_vec()).len() == 1);
}

/// Each refusal, and its words.
const WORDS: &str = "\
NoNode: no such node
IsRoot: the root stays where it is
NoFace: the node lacks the interface
BadIndex: no such index
BadOffset: no such place in the text
Cycle: a node cannot go below itself
Full: the tree has no room
TextFull: the text is too long";

/// Whether the refusal of a row is told in its words.
fn is_told(alloc: Global, row: &str) -> Option<bool> {
    let (name, words) = row.split_once(": ")?;
    let fault = fault_of(name)?;
    let told = format!(in alloc; "{fault}").ok()?;
    Some(told.as_str() == words)
}

#[test]
fn refusals_are_told_in_words(rt: HostRuntime) {
    for row in WORDS.lines() {
        assert!(rt; is_told(rt.alloc(), row) == Some(true), "{row}");
    }
}
