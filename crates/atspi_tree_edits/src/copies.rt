//! Copies of steps and items.

ghost use Rattle.std.specs.Prelude.{◌≡◌, IfOk};

use atspi_base::{NoMemory, Text, Texts};
use atspi_tree_model::{Item, Reference, Seed, Step};
use std::alloc::Global;

/// An equal step.
pub fn copy_step(alloc: Global, step: &Step) -> Result<Step, NoMemory>
    ensures { IfOk result (λ s. s ≡ step.now) }
{
    Ok(match step {
        Step::Add {
            node,
            parent,
            index,
            seed,
        } => Step::Add {
            node: *node,
            parent: *parent,
            index: *index,
            seed: copy_seed(alloc, seed)?,
        },
        Step::Remove { node } => Step::Remove { node: *node },
        Step::Move {
            node,
            parent,
            index,
        } => Step::Move {
            node: *node,
            parent: *parent,
            index: *index,
        },
        Step::SetName { node, text } => Step::SetName {
            node: *node,
            text: text.copy(alloc)?,
        },
        Step::SetDescription { node, text } => Step::SetDescription {
            node: *node,
            text: text.copy(alloc)?,
        },
        Step::SetRole { node, role } => Step::SetRole {
            node: *node,
            role: *role,
        },
        Step::SetState { node, state, on } => Step::SetState {
            node: *node,
            state: *state,
            on: *on,
        },
        Step::Insert { node, at, text } => Step::Insert {
            node: *node,
            at: *at,
            text: text.copy(alloc)?,
        },
        Step::Delete { node, at, text } => Step::Delete {
            node: *node,
            at: *at,
            text: text.copy(alloc)?,
        },
        Step::Caret { node, at } => Step::Caret {
            node: *node,
            at: *at,
        },
        Step::TextSelect { node, marks } => Step::TextSelect {
            node: *node,
            marks: marks.copy(alloc)?,
        },
        Step::Relate {
            node,
            kind,
            targets,
        } => Step::Relate {
            node: *node,
            kind: *kind,
            targets: targets.copy(alloc)?,
        },
    })
}

/// An equal seed.
pub fn copy_seed(alloc: Global, seed: &Seed) -> Result<Seed, NoMemory>
    ensures { IfOk result (λ s. s ≡ seed.now) }
{
    Ok(Seed {
        role: seed.role,
        name: seed.name.copy(alloc)?,
        text: copy_text(alloc, &seed.text)?,
        editable: seed.editable,
        columns: seed.columns,
        select: seed.select,
        actions: seed.actions.copy(alloc)?,
    })
}

/// An equal text, where there is one.
fn copy_text(alloc: Global, text: &Option<Text>) -> Result<Option<Text>, NoMemory>
    ensures { IfOk result (λ t. t ≡ text.now) }
{
    match text {
        None => Ok(None),
        Some(text) => Ok(Some(text.copy(alloc)?)),
    }
}

/// An equal reference.
fn copy_reference(alloc: Global, reference: &Reference) -> Result<Reference, NoMemory>
    ensures { IfOk result (λ r. r ≡ reference.now) }
{
    Ok(Reference {
        bus: reference.bus.copy(alloc)?,
        path: reference.path.copy(alloc)?,
    })
}

/// Equal references: an item's object, its application and its parent.
fn copy_references(
    alloc: Global,
    item: &Item,
) -> Result<(Reference, Reference, Reference), NoMemory>
    ensures { IfOk result (λ r. (r.0 ≡ item.now.object) × (r.1 ≡ item.now.application) × (r.2 ≡ item.now.parent)) }
{
    let object = copy_reference(alloc, &item.object)?;
    let application = copy_reference(alloc, &item.application)?;
    let parent = copy_reference(alloc, &item.parent)?;
    Ok((object, application, parent))
}

/// Equal words: an item's interfaces, its name and its description.
fn copy_words(alloc: Global, item: &Item) -> Result<(Texts, Text, Text), NoMemory>
    ensures { IfOk result (λ w. (w.0 ≡ item.now.interfaces) × (w.1 ≡ item.now.name) × (w.2 ≡ item.now.description)) }
{
    let interfaces = item.interfaces.copy(alloc)?;
    let name = item.name.copy(alloc)?;
    let description = item.description.copy(alloc)?;
    Ok((interfaces, name, description))
}

/// An equal item.
pub fn copy_item(alloc: Global, item: &Item) -> Result<Item, NoMemory>
    ensures { IfOk result (λ i. i ≡ item.now) }
{
    let (interfaces, name, description) = copy_words(alloc, item)?;
    let (object, application, parent) = copy_references(alloc, item)?;
    Ok(Item {
        object,
        application,
        parent,
        index: item.index,
        children: item.children,
        interfaces,
        name,
        role: item.role,
        description,
        states: item.states,
    })
}
