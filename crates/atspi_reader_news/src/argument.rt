//! The arguments of a body, one after the other, where they lie.

ghost use Rattle.std.specs.Prelude.{◌≡◌, ◌^◌, ◌<◌, chars, length, IfOk, IfSome, IsTrue};
ghost use Rattle.std.specs.Option.{option_map};
ghost use Rattle.atspi_base.specs.Text.{HasNoZero};
ghost use Rattle.atspi_base.specs.valid_names.Names.{is_path};
ghost use Rattle.atspi_marshal_in_place.specs.Items.{item_data, fields_data};
ghost use Rattle.atspi_protocol.specs.news.Arguments.{reference_in};
ghost use Rattle.atspi_protocol.specs.news.CacheSignals.{only_of};
ghost use Rattle.atspi_reader_news.specs.Seen.{reference_seen, TextComes, PathComes, SignedComes, UnsignedComes};
ghost use Rattle.atspi_reader_news.specs.Seen.{VariantComes, ReferenceComes, TextsCome, NumbersCome};

use crate::borrowed::ReferenceRef;
use atspi_base::valid_names::{NameFault, Path};
use atspi_base::{NoMemory, Text};
use atspi_marshal_in_place::{Elements, Fields, Item};
use atspi_tree_model::Reference;
use std::alloc::Global;

/// The next argument, where it is a text.
pub fn next_text<'a>(fields: &mut Fields<'a>) -> Option<&'a str>
    ensures comes { TextComes result (fields_data fields.old) (fields_data fields.new) }
    ensures no_zero { IfSome result (λ s. HasNoZero s.now) }
    ensures counted { IfSome result (λ s. length s.now < 2 ^ 32) }
{
    fields.next()?.text()
}

/// The next argument, where it is a signed number of 32 bits.
pub(crate) fn next_i32(fields: &mut Fields) -> Option<i32>
    ensures { SignedComes result (fields_data fields.old) (fields_data fields.new) }
{
    let number = fields.next()?.i32()?;
    Some(number)
}

/// The next argument, where it is a number of 32 bits without a sign.
pub(crate) fn next_u32(fields: &mut Fields) -> Option<u32>
    ensures { UnsignedComes result (fields_data fields.old) (fields_data fields.new) }
{
    fields.next()?.u32()
}

/// The next argument, where it is a path.
pub(crate) fn next_path<'a>(fields: &mut Fields<'a>) -> Option<&'a str>
    ensures comes { PathComes result (fields_data fields.old) (fields_data fields.new) }
    ensures rule { IfSome result (λ path. IsTrue (is_path path.now)) }
{
    fields.next()?.path()
}

/// The value in the next argument, where that is a variant.
pub(crate) fn next_variant<'a>(fields: &mut Fields<'a>) -> Option<Item<'a>>
    ensures { VariantComes result (fields_data fields.old) (fields_data fields.new) }
{
    fields.next()?.variant()
}

/// The next argument, where it is a list of texts.
pub fn next_texts<'a>(fields: &mut Fields<'a>) -> Option<Elements<'a>>
    ensures comes { TextsCome result (fields_data fields.old) (fields_data fields.new) }
{
    let elements = fields.next()?.elements()?;
    if elements.ty().code() == b's' {
        return Some(elements);
    }
    None
}

/// The next argument, where it is a list of numbers of 32 bits without a sign.
pub(crate) fn next_numbers<'a>(fields: &mut Fields<'a>) -> Option<Elements<'a>>
    ensures comes { NumbersCome result (fields_data fields.old) (fields_data fields.new) }
{
    let elements = fields.next()?.elements()?;
    if elements.ty().code() == b'u' {
        return Some(elements);
    }
    None
}

/// The next argument, where it is a reference.
pub(crate) fn next_reference<'a>(fields: &mut Fields<'a>) -> Option<ReferenceRef<'a>>
    ensures { ReferenceComes result (fields_data fields.old) (fields_data fields.new) }
{
    reference(fields.next()?)
}

impl<'a> ReferenceRef<'a> {
    /// The reference, owned.
    pub fn owned(self, alloc: Global) -> Result<Reference, NoMemory>
        ensures { IfOk result (λ reference. reference ≡ reference_seen self.entry) }
    {
        Ok(Reference {
            bus: Text::of(alloc, self.bus)?,
            path: owned_path(alloc, self.path)?,
        })
    }
}

/// A path that is known to be one.
pub(crate) fn owned_path(alloc: Global, path: &str) -> Result<Path, NoMemory>
    requires { IsTrue (is_path path.now) }
    ensures { IfOk result (λ owned. owned ≡ path.now) }
{
    match Path::read(alloc, path.as_bytes()) {
        Ok(owned) => Ok(owned),
        Err(NameFault::NoMemory) => Err(NoMemory),
        Err(NameFault::Form) => unreachable!(),
    }
}

/// The reference that a value is, if it is one.
pub fn reference<'a>(value: Item<'a>) -> Option<ReferenceRef<'a>>
    ensures { option_map reference_seen result ≡ reference_in (item_data value.entry) }
{
    let mut fields = value.fields()?;
    let bus = next_text(&mut fields)?;
    let path = next_path(&mut fields)?;
    match fields.next() {
        None => Some(ReferenceRef { bus, path }),
        Some(_more) => None,
    }
}

/// The one argument of a body.
pub fn only<'a>(body: Fields<'a>) -> Option<Item<'a>>
    ensures { option_map item_data result ≡ only_of (fields_data body.entry) }
{
    let mut rest = body;
    let value = rest.next()?;
    match rest.next() {
        None => Some(value),
        Some(_more) => None,
    }
}
