//! The members of Text that change nothing.

ghost use Rattle.std.specs.Prelude.{◌≡◌, ◌∷◌, [], List, true, IfOk};
ghost use Rattle.atspi_types.specs.Data.{Data};
ghost use Rattle.atspi_types.specs.DataView.{data_of, all_data};
ghost use Rattle.atspi_marshal_in_place.specs.Items.{fields_data};
ghost use Rattle.atspi_app_contents.specs.texts.Texts.{KeepsText};
ghost use Rattle.atspi_app_contents.specs.answers.Told.{reads_text};
ghost use Rattle.atspi_app_contents.specs.answers.inner.Told.{TellsText};

use crate::texts::{character, part, piece, selection, selection_count};
use atspi_app_calls::reading::{first_signed, grain_of, second_signed, second_unsigned};
use atspi_base::NoMemory;
use atspi_faces::face::Face;
use atspi_marshal_in_place::Fields;
use atspi_protocol::members::ObjectMember;
use atspi_types::{Value, Values};
use std::alloc::Global;

/// One value.
pub(crate) fn one(alloc: Global, value: Value) -> Result<Values, NoMemory>
    ensures { IfOk result (λ values. all_data values ≡ data_of value ∷ []) }
{
    let mut values = Values::new(alloc);
    values.push(value)?;
    Ok(values)
}

/// GetText.
fn get_text<C: Face>(alloc: Global, texts: &C, node: u32, args: Fields) -> Result<Values, NoMemory>
    requires { KeepsText (C.of_kind texts.now) (C.nodes texts.now) node }
    ensures { IfOk result
        (λ values. TellsText (C.nodes texts.now) node ObjectMember.GetText (fields_data args.entry) (all_data values)) }
{
    let value = part(alloc, texts, node, first_signed(args), second_signed(args))?;
    one(alloc, value)
}

/// GetCharacterAtOffset.
fn get_character<C: Face>(
    alloc: Global,
    texts: &C,
    node: u32,
    args: Fields,
) -> Result<Values, NoMemory>
    requires { KeepsText (C.of_kind texts.now) (C.nodes texts.now) node }
    ensures { IfOk result
        (λ values. TellsText (C.nodes texts.now) node ObjectMember.GetCharacterAtOffset (fields_data args.entry)
        (all_data values)) }
{
    let value = character(texts, node, first_signed(args))?;
    one(alloc, value)
}

/// GetStringAtOffset.
fn get_string<C: Face>(
    alloc: Global,
    texts: &C,
    node: u32,
    args: Fields,
) -> Result<Values, NoMemory>
    requires { KeepsText (C.of_kind texts.now) (C.nodes texts.now) node }
    ensures { IfOk result
        (λ values. TellsText (C.nodes texts.now) node ObjectMember.GetStringAtOffset (fields_data args.entry)
        (all_data values)) }
{
    piece(
        alloc,
        texts,
        node,
        grain_of(second_unsigned(args)),
        first_signed(args),
    )
}

/// GetNSelections.
fn get_selection_count<C: Face>(alloc: Global, texts: &C, node: u32) -> Result<Values, NoMemory>
    requires { KeepsText (C.of_kind texts.now) (C.nodes texts.now) node }
    ensures { IfOk result
        (λ values. (body : List Data)
        → TellsText (C.nodes texts.now) node ObjectMember.GetNSelections body (all_data values)) }
{
    let value = selection_count(alloc, texts, node)?;
    one(alloc, value)
}

/// GetSelection.
fn get_selection<C: Face>(
    alloc: Global,
    texts: &C,
    node: u32,
    args: Fields,
) -> Result<Values, NoMemory>
    requires { KeepsText (C.of_kind texts.now) (C.nodes texts.now) node }
    ensures { IfOk result
        (λ values. TellsText (C.nodes texts.now) node ObjectMember.GetSelection (fields_data args.entry)
        (all_data values)) }
{
    selection(alloc, texts, node, first_signed(args))
}

/// What a member of Text that changes nothing tells of a node (AT-SPI2, interface Text). The one refusal is want of
/// memory.
pub(crate) fn text<C: Face>(
    alloc: Global,
    texts: &C,
    node: u32,
    member: ObjectMember,
    args: Fields,
) -> Result<Values, NoMemory>
    requires kept { KeepsText (C.of_kind texts.now) (C.nodes texts.now) node }
    requires member { reads_text member ≡ true }
    ensures { IfOk result
        (λ values. TellsText (C.nodes texts.now) node member (fields_data args.entry) (all_data values)) }
{
    match member {
        ObjectMember::GetText => get_text(alloc, texts, node, args),
        ObjectMember::GetCharacterAtOffset => get_character(alloc, texts, node, args),
        ObjectMember::GetStringAtOffset => get_string(alloc, texts, node, args),
        ObjectMember::GetNSelections => get_selection_count(alloc, texts, node),
        ObjectMember::GetSelection => get_selection(alloc, texts, node, args),
        _ => unreachable!(),
    }
}
