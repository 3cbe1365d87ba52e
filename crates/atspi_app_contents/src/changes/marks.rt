//! Text selections, one of them changed.

ghost use Rattle.std.specs.Prelude.{◌≡◌, ◌==◌, ◌&&◌, ◌∷◌, ◌<◌, [], length, IfOk, Some, slice_get};
ghost use Rattle.atspi_tree_model.specs.declared.step.Step.TheVariants.{TextSelect};
ghost use Rattle.atspi_tree_model.specs.Edits.{known_text, others};
ghost use Rattle.atspi_app_contents.specs.changes.inner.Steps.{removed, with_mark, put_in_place, replaced};

use atspi_base::{Marks, NoMemory};
use atspi_tree_model::{FaceData, Step, StepList};
use std::alloc::Global;

/// What is selected of the text that is known.
pub(crate) fn known_marks(known: &FaceData) -> &[(u32, u32)]
    ensures { result.now ≡ (known_text known.now).selections }
{
    match known {
        FaceData::Chars { marks, .. } => marks.as_slice(),
        _ => &[],
    }
}

/// How many characters the text has that is known.
pub(crate) fn known_count(known: &FaceData) -> u32
    ensures { result ≡ length (known_text known.now).characters }
{
    match known {
        FaceData::Chars { text, .. } => text.count(),
        _ => 0,
    }
}

/// The step of other selections.
fn selecting(alloc: Global, node: u32, marks: Vec<(u32, u32)>) -> Result<StepList, NoMemory>
    ensures { IfOk result (λ steps. steps ≡ TextSelect node marks.items ∷ []) }
{
    let mut steps = StepList::new(alloc);
    let marks = Marks::from_vec(marks);
    steps.push(Step::TextSelect { node, marks })?;
    Ok(steps)
}

/// All selections but one.
fn without(alloc: Global, marks: &[(u32, u32)], index: usize) -> Result<Vec<(u32, u32)>, NoMemory>
    requires { index < length marks.now }
    ensures { IfOk result (λ kept. kept.items ≡ others index marks.now) }
{
    let mut kept = Vec::from_slice(alloc, &marks[..index])?;
    kept.extend_from_slice(&marks[index + 1..])?;
    Ok(kept)
}

/// Another selection in the place of one.
fn with(
    alloc: Global,
    marks: &[(u32, u32)],
    index: usize,
    mark: (u32, u32),
) -> Result<Vec<(u32, u32)>, NoMemory>
    requires { index < length marks.now }
    ensures { IfOk result (λ all. all.items ≡ with_mark index mark marks.now) }
{
    let mut all = Vec::from_slice(alloc, &marks[..index])?;
    all.push(mark)?;
    all.extend_from_slice(&marks[index + 1..])?;
    Ok(all)
}

/// The step without the selection at an index, none where there is no such one.
pub(crate) fn removed(
    alloc: Global,
    node: u32,
    marks: &[(u32, u32)],
    index: usize,
) -> Result<Option<StepList>, NoMemory>
    ensures { IfOk result (λ steps. steps ≡ removed node marks.now index) }
{
    if index >= marks.len() {
        return Ok(None);
    }
    let kept = without(alloc, marks, index)?;
    Ok(Some(selecting(alloc, node, kept)?))
}

/// The selection at a place.
fn mark_at(marks: &[(u32, u32)], index: usize) -> Option<(u32, u32)>
    ensures { result ≡ slice_get marks.now index }
{
    marks.get(index).copied()
}

/// Whether two selections have the same ends.
fn same(first: (u32, u32), second: (u32, u32)) -> bool
    ensures { result ≡ (first.0 == second.0 && first.1 == second.1) }
{
    first.0 == second.0 && first.1 == second.1
}

/// The step with another selection in the place of one, none where it is the same.
fn put_over(
    alloc: Global,
    node: u32,
    marks: &[(u32, u32)],
    index: usize,
    mark: (u32, u32),
    there: (u32, u32),
) -> Result<Option<StepList>, NoMemory>
    requires { slice_get marks.now index ≡ Some there }
    ensures { IfOk result (λ steps. steps ≡ put_in_place node marks.now index mark (Some there)) }
{
    if same(there, mark) {
        return Ok(Some(StepList::new(alloc)));
    }
    let all = with(alloc, marks, index, mark)?;
    Ok(Some(selecting(alloc, node, all)?))
}

/// The same at an index; nothing is named where there is no selection.
fn put_in_place(
    alloc: Global,
    node: u32,
    marks: &[(u32, u32)],
    index: usize,
    mark: (u32, u32),
) -> Result<Option<StepList>, NoMemory>
    ensures { IfOk result (λ steps. steps ≡ put_in_place node marks.now index mark (slice_get marks.now index)) }
{
    match mark_at(marks, index) {
        Some(there) => put_over(alloc, node, marks, index, mark, there),
        None => Ok(None),
    }
}

/// The same where the other selection is a part of the text that is known, which has some characters; else none is
/// named.
pub(crate) fn replaced(
    alloc: Global,
    node: u32,
    known: &FaceData,
    index: usize,
    from: u32,
    to: u32,
) -> Result<Option<StepList>, NoMemory>
    ensures { IfOk result (λ steps. steps ≡ replaced node (known_text known.now) index from to) }
{
    if from >= to || known_count(known) < to {
        return Ok(None);
    }
    put_in_place(alloc, node, known_marks(known), index, (from, to))
}
