//! What a value that lies in bytes is, by its type.

ghost use Rattle.std.specs.Prelude.{◌≡◌, IsTrue};
ghost use Rattle.atspi_types.specs.Kinds.{boolean, byte, double, i16, i32, i64, number, path, signature, text, u16};
ghost use Rattle.atspi_types.specs.Kinds.{u32, u64, variant};
ghost use Rattle.atspi_marshal_in_place.specs.codes.Codes.{is_array, is_dictionary, is_structure};
ghost use Rattle.atspi_marshal_in_place.specs.Items.{item_data, item_kind};
ghost use Rattle.atspi_script.specs.inner.Views.{view_data};

use crate::quotes::PathText;
use atspi_marshal_in_place::codes::{Shape, TysRef};
use atspi_marshal_in_place::{Elements, Entries, Fields, Item};

/// A value that lies in bytes: itself where it has no parts, or what walks over its parts.
#[derive(Clone, Copy)]
pub enum View<'a> {
    Byte(u8),
    Bool(bool),
    I16(i16),
    U16(u16),
    I32(i32),
    U32(u32),
    I64(i64),
    U64(u64),
    Double(u64),
    Text(&'a str),
    Path(PathText<'a>),
    Types(TysRef<'a>),
    Parts(Parts<'a>),
}

/// What walks over the parts of a value.
#[derive(Clone, Copy)]
pub enum Parts<'a> {
    Array(Elements<'a>),
    Struct(Fields<'a>),
    Dictionary(Entries<'a>),
    Variant(Item<'a>),
}

/// What the value is. Its type tells, so that one getter alone is asked.
#[inline(always)]
pub fn view_of(item: Item<'_>) -> View<'_>
    ensures { view_data result ≡ item_data item.entry }
{
    match item.ty().shape() {
        Shape::Text => text_of(item),
        Shape::U32 => u32_of(item),
        Shape::I32 => i32_of(item),
        Shape::Struct(_) => struct_of(item),
        Shape::Path => path_of(item),
        Shape::Variant => variant_of(item),
        Shape::Array(_) => array_of(item),
        Shape::Dict(_, _) => dictionary_of(item),
        Shape::Sig => types_of(item),
        Shape::Byte => byte_of(item),
        Shape::Bool => bool_of(item),
        Shape::U64 => u64_of(item),
        Shape::I64 => i64_of(item),
        Shape::U16 => u16_of(item),
        Shape::I16 => i16_of(item),
        Shape::Double => double_of(item),
    }
}

/// A text.
#[inline(always)]
fn text_of(item: Item<'_>) -> View<'_>
    requires { item_kind item ≡ text }
    ensures { view_data result ≡ item_data item.entry }
{
    match item.text() {
        Some(text) => View::Text(text),
        None => unreachable!(),
    }
}

/// A path.
#[inline(always)]
fn path_of(item: Item<'_>) -> View<'_>
    requires { item_kind item ≡ path }
    ensures { view_data result ≡ item_data item.entry }
{
    match item.path() {
        Some(text) => View::Path(PathText::new(text)),
        None => unreachable!(),
    }
}

/// A signature.
#[inline(always)]
fn types_of(item: Item<'_>) -> View<'_>
    requires { item_kind item ≡ signature }
    ensures { view_data result ≡ item_data item.entry }
{
    match item.signature() {
        Some(types) => View::Types(types),
        None => unreachable!(),
    }
}

/// An array and no dictionary.
#[inline(always)]
fn array_of(item: Item<'_>) -> View<'_>
    requires { IsTrue (is_array (item_kind item)) }
    ensures { view_data result ≡ item_data item.entry }
{
    match item.elements() {
        Some(elements) => View::Parts(Parts::Array(elements)),
        None => unreachable!(),
    }
}

/// A struct.
#[inline(always)]
fn struct_of(item: Item<'_>) -> View<'_>
    requires { IsTrue (is_structure (item_kind item)) }
    ensures { view_data result ≡ item_data item.entry }
{
    match item.fields() {
        Some(fields) => View::Parts(Parts::Struct(fields)),
        None => unreachable!(),
    }
}

/// A dictionary.
#[inline(always)]
fn dictionary_of(item: Item<'_>) -> View<'_>
    requires { IsTrue (is_dictionary (item_kind item)) }
    ensures { view_data result ≡ item_data item.entry }
{
    match item.entries() {
        Some(entries) => View::Parts(Parts::Dictionary(entries)),
        None => unreachable!(),
    }
}

/// A variant.
#[inline(always)]
fn variant_of(item: Item<'_>) -> View<'_>
    requires { item_kind item ≡ variant }
    ensures { view_data result ≡ item_data item.entry }
{
    match item.variant() {
        Some(inner) => View::Parts(Parts::Variant(inner)),
        None => unreachable!(),
    }
}

/// A byte.
#[inline(always)]
fn byte_of(item: Item<'_>) -> View<'_>
    requires { item_kind item ≡ number byte }
    ensures { view_data result ≡ item_data item.entry }
{
    match item.u8() {
        Some(n) => View::Byte(n),
        None => unreachable!(),
    }
}

/// A boolean.
#[inline(always)]
fn bool_of(item: Item<'_>) -> View<'_>
    requires { item_kind item ≡ boolean }
    ensures { view_data result ≡ item_data item.entry }
{
    match item.bool() {
        Some(b) => View::Bool(b),
        None => unreachable!(),
    }
}

/// A signed number of 16 bits.
#[inline(always)]
fn i16_of(item: Item<'_>) -> View<'_>
    requires { item_kind item ≡ number i16 }
    ensures { view_data result ≡ item_data item.entry }
{
    match item.i16() {
        Some(n) => View::I16(n),
        None => unreachable!(),
    }
}

/// A number of 16 bits.
#[inline(always)]
fn u16_of(item: Item<'_>) -> View<'_>
    requires { item_kind item ≡ number u16 }
    ensures { view_data result ≡ item_data item.entry }
{
    match item.u16() {
        Some(n) => View::U16(n),
        None => unreachable!(),
    }
}

/// A signed number of 32 bits.
#[inline(always)]
fn i32_of(item: Item<'_>) -> View<'_>
    requires { item_kind item ≡ number i32 }
    ensures { view_data result ≡ item_data item.entry }
{
    match item.i32() {
        Some(n) => View::I32(n),
        None => unreachable!(),
    }
}

/// A number of 32 bits.
#[inline(always)]
fn u32_of(item: Item<'_>) -> View<'_>
    requires { item_kind item ≡ number u32 }
    ensures { view_data result ≡ item_data item.entry }
{
    match item.u32() {
        Some(n) => View::U32(n),
        None => unreachable!(),
    }
}

/// A signed number of 64 bits.
#[inline(always)]
fn i64_of(item: Item<'_>) -> View<'_>
    requires { item_kind item ≡ number i64 }
    ensures { view_data result ≡ item_data item.entry }
{
    match item.i64() {
        Some(n) => View::I64(n),
        None => unreachable!(),
    }
}

/// A number of 64 bits.
#[inline(always)]
fn u64_of(item: Item<'_>) -> View<'_>
    requires { item_kind item ≡ number u64 }
    ensures { view_data result ≡ item_data item.entry }
{
    match item.u64() {
        Some(n) => View::U64(n),
        None => unreachable!(),
    }
}

/// A double.
#[inline(always)]
fn double_of(item: Item<'_>) -> View<'_>
    requires { item_kind item ≡ number double }
    ensures { view_data result ≡ item_data item.entry }
{
    match item.double() {
        Some(bits) => View::Double(bits),
        None => unreachable!(),
    }
}
