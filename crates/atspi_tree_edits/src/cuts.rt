//! The steps of characters that are cut out.

ghost use Rattle.std.specs.Prelude.{◌≡◌, ◌-◌, ◌≤◌, ◌<◌, ◌++◌, chars, drop, encode_utf8_all, length, string_bytes, take};
ghost use Rattle.std.specs.Prelude.{IfOk, OnOk};
ghost use Rattle.atspi_tree_model.specs.Edits.{cutting, known_text};
ghost use Rattle.atspi_tree_model.specs.declared.edit.Edit.TheVariants.{Cut};
ghost use Rattle.atspi_tree_edits.specs.Answers.{GivesSteps, edit_steps};
ghost use Rattle.atspi_tree_edits.specs.inner.Cuts.{cutting_of, leaving};

use crate::fault::EditRefused;
use crate::refusals::cut_fault;
use atspi_base::{NoMemory, Text};
use atspi_tree::Tree;
use atspi_tree_model::{FaceData, Step, StepList};
use std::alloc::Global;

/// Some characters of a text, from a place on.
fn characters(alloc: Global, text: &str, from: usize, count: usize) -> Result<String, NoMemory>
    ensures { IfOk result (λ part. string_bytes part ≡ encode_utf8_all (take count (drop from (chars text.now)))) }
{
    let part = text.chars().skip(from).take(count).collect(alloc)?;
    Ok(part)
}

/// The characters of a text from one place up to another.
fn part(alloc: Global, text: &Text, from: u32, to: u32) -> Result<Text, NoMemory>
    requires { from ≤ to }
    ensures { IfOk result (λ part. part ≡ take (to - from) (drop from text.now)) }
{
    let part = characters(alloc, text.as_str(), from as usize, (to - from) as usize)?;
    Text::of(alloc, &part)
}

/// Appends the step of a caret that leaves what will be cut, none where it does not stand in it or behind.
fn push_caret(
    steps: &mut StepList,
    node: u32,
    from: u32,
    to: u32,
    caret: u32,
) -> Result<(), NoMemory>
    requires { from ≤ to }
    ensures { OnOk result (steps.new ≡ steps.old ++ leaving node from to caret) }
{
    if caret <= from {
        return Ok(());
    }
    let at = if caret <= to {
        from
    } else {
        caret - (to - from)
    };
    steps.push(Step::Caret { node, at })
}

/// The steps of characters that are cut out of a text with its caret.
fn cut_out(
    alloc: Global,
    node: u32,
    from: u32,
    to: u32,
    text: &Text,
    caret: u32,
) -> Result<StepList, NoMemory>
    requires { from < to }
    ensures { IfOk result (λ steps. steps ≡ cutting_of node from to text.now caret) }
{
    let mut steps = StepList::new(alloc);
    push_caret(&mut steps, node, from, to, caret)?;
    let text = part(alloc, text, from, to)?;
    steps.push(Step::Delete {
        node,
        at: from,
        text,
    })?;
    Ok(steps)
}

/// The steps of characters that are cut out of the text that is known.
fn known_cut(
    alloc: Global,
    node: u32,
    from: u32,
    to: u32,
    known: &FaceData,
) -> Result<StepList, NoMemory>
    requires some { from < to }
    requires inside { to ≤ length (known_text known.now).characters }
    ensures { IfOk result (λ steps. steps ≡ cutting node from to (known_text known.now)) }
{
    match known {
        FaceData::Chars { text, caret, .. } => cut_out(alloc, node, from, to, text, *caret),
        _ => unreachable!(),
    }
}

/// The steps of a cut.
pub(crate) fn cut(
    alloc: Global,
    tree: &Tree,
    node: u32,
    from: u32,
    to: u32,
    known: &FaceData,
) -> Result<StepList, EditRefused>
    ensures { GivesSteps result (edit_steps tree.now known.now (Cut node from to)) }
{
    if let Some(fault) = cut_fault(tree, node, from, to, known) {
        return Err(EditRefused::Refused(fault));
    }
    if from == to {
        return Ok(StepList::new(alloc));
    }
    Ok(known_cut(alloc, node, from, to, known)?)
}
