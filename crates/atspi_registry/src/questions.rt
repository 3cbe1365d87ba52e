//! What is returned to a call that changes nothing.

ghost use Rattle.std.specs.Prelude.{◌≡◌, [], ◌∷◌, unwrap_or, IfOk};
ghost use Rattle.atspi_types.specs.DataView.{all_data};
ghost use Rattle.atspi_protocol.specs.registering.Answers.{child_at};
ghost use Rattle.atspi_registry.specs.inner.Questions.{IsQuestion, question_data};

use crate::calls::Ask;
use crate::lists::{Children, Pairs};
use crate::told as told;
use atspi_base::{NoMemory, Text};
use atspi_types::Values;
use std::alloc::Global;

/// The registry's own name, an empty one before it is told.
fn own_text(alloc: Global, own: &Option<Text>) -> Result<Text, NoMemory>
    ensures { IfOk result (λ name. name ≡ unwrap_or own.now []) }
{
    match own {
        Some(name) => name.copy(alloc),
        None => Text::of(alloc, ""),
    }
}

/// The child at an index, or nobody, told by the registry's own name.
fn child_values(
    alloc: Global,
    children: &Children,
    own: &Option<Text>,
    index: i32,
) -> Result<Values, NoMemory>
    ensures { IfOk result (λ values. all_data values ≡ child_at children.now (unwrap_or own.now []) index ∷ []) }
{
    let name = own_text(alloc, own)?;
    let values = told::child_body(alloc, &name, children.as_slice(), index)?;
    Ok(values)
}

/// The values that are returned.
pub fn question_values(
    alloc: Global,
    pairs: &Pairs,
    children: &Children,
    own: &Option<Text>,
    ask: Ask,
) -> Result<Values, NoMemory>
    requires { IsQuestion ask }
    ensures { IfOk result
        (λ values. all_data values ≡ question_data ask.entry pairs.now children.now (unwrap_or own.now [])) }
{
    match ask {
        Ask::Register(_) => unreachable!(),
        Ask::Deregister(_) => unreachable!(),
        Ask::Registered => told::pairs_body(alloc, pairs.as_slice()),
        Ask::Embed(_, _) => unreachable!(),
        Ask::Unembed(_, _) => unreachable!(),
        Ask::Children => told::children_body(alloc, children.as_slice()),
        Ask::ChildAt(index) => child_values(alloc, children, own, index),
        Ask::Role => told::role_body(alloc),
        Ask::RoleName => told::role_name_body(alloc),
        Ask::Name => told::name_body(alloc),
        Ask::ChildCount => told::count_body(alloc, children.as_slice().len()),
        Ask::AllProperties => told::all_body(alloc, children.as_slice().len()),
        Ask::NoProperties => told::none_body(alloc),
        Ask::Ping => Ok(Values::new(alloc)),
    }
}
