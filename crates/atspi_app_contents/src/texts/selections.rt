//! The caret of a text, and what is selected of it.

ghost use Rattle.std.specs.Prelude.{◌≡◌, ◌∷◌, [], length, IfOk};
ghost use Rattle.atspi_types.specs.DataView.{data_of, all_data};
ghost use Rattle.atspi_protocol.specs.members.Arguments.{int};
ghost use Rattle.atspi_protocol.specs.objects.Texts as texts_of;
ghost use Rattle.atspi_protocol.specs.objects.Children as children;
ghost use Rattle.atspi_protocol.specs.objects.Values as values;
ghost use Rattle.atspi_app_contents.specs.texts.Texts.{KeepsText, text_at};
ghost use Rattle.atspi_app_contents.specs.texts.inner.Selections.{IsSmall, AreSmall};

use crate::texts::values::{count, is_here};
use atspi_base::{Marks, NoMemory};
use atspi_faces::face::Face;
use atspi_types::{Value, Values};
use std::alloc::Global;

/// Where the caret stands, 0 where there is no text.
pub(crate) fn caret_at<C: Face>(texts: &C, node: u32) -> u32
    requires { KeepsText (C.of_kind texts.now) (C.nodes texts.now) node }
    ensures { result ≡ (text_at (C.nodes texts.now) node).caret }
{
    let _ = texts.kind();
    if is_here(texts, node) {
        texts.caret(node)
    } else {
        0
    }
}

/// Where the caret of a node's text stands.
pub fn caret<C: Face>(texts: &C, node: u32) -> Value
    requires { KeepsText (C.of_kind texts.now) (C.nodes texts.now) node }
    ensures { data_of result ≡ values.count_data (text_at (C.nodes texts.now) node).caret }
{
    count(caret_at(texts, node))
}

/// What is selected of a node's text, in order.
pub(crate) fn marks_at<C: Face>(alloc: Global, texts: &C, node: u32) -> Result<Marks, NoMemory>
    requires { KeepsText (C.of_kind texts.now) (C.nodes texts.now) node }
    ensures { IfOk result (λ marks. marks ≡ (text_at (C.nodes texts.now) node).selections) }
{
    let _ = texts.kind();
    if is_here(texts, node) {
        texts.marks(node)
    } else {
        Ok(Marks::new(alloc))
    }
}

/// How many selections a node's text has. The one refusal is want of memory.
pub fn selection_count<C: Face>(alloc: Global, texts: &C, node: u32) -> Result<Value, NoMemory>
    requires { KeepsText (C.of_kind texts.now) (C.nodes texts.now) node }
    ensures { IfOk result
        (λ value. data_of value ≡ values.count_data (length (text_at (C.nodes texts.now) node).selections)) }
{
    let marks = marks_at(alloc, texts, node)?;
    Ok(count(marks.len() as u32))
}

/// The selection at an index.
fn mark_in(marks: &[(u32, u32)], index: i32) -> Option<(u32, u32)>
    requires { AreSmall marks.now }
    ensures mark { result ≡ children.at index marks.now }
    ensures small { IsSmall result }
{
    if index < 0 {
        return None;
    }
    marks.get(index as usize).copied()
}

/// Two signed numbers.
fn two(alloc: Global, first: i32, second: i32) -> Result<Values, NoMemory>
    ensures { IfOk result (λ values. all_data values ≡ int first ∷ int second ∷ []) }
{
    let mut values = Values::new(alloc);
    values.push(Value::I32(first))?;
    values.push(Value::I32(second))?;
    Ok(values)
}

/// The ends of a selection, -1 where there is none.
fn ends(alloc: Global, mark: Option<(u32, u32)>) -> Result<Values, NoMemory>
    requires { IsSmall mark }
    ensures { IfOk result (λ values. all_data values ≡ texts_of.selection_data mark) }
{
    match mark {
        Some((from, to)) => two(alloc, from as i32, to as i32),
        None => two(alloc, -1, -1),
    }
}

/// The ends of the selection at an index, both -1 where there is none. The one refusal is want of memory.
pub fn selection<C: Face>(
    alloc: Global,
    texts: &C,
    node: u32,
    index: i32,
) -> Result<Values, NoMemory>
    requires { KeepsText (C.of_kind texts.now) (C.nodes texts.now) node }
    ensures { IfOk result
        (λ values. all_data values
        ≡ texts_of.selection_data (children.at index (text_at (C.nodes texts.now) node).selections)) }
{
    let marks = marks_at(alloc, texts, node)?;
    ends(alloc, mark_in(marks.as_slice(), index))
}
