//! Values as text, written where they lie.

ghost use Rattle.std.specs.Prelude.{◌≡◌, [], ◌∷◌, ◌++◌, OnOk, chars, length, take};
ghost use Rattle.atspi_types.specs.Kinds.{kinds_of};
ghost use Rattle.atspi_types.specs.Data.{items_of, variant_data};
ghost use Rattle.atspi_types.specs.Signatures.{signature_bytes};
ghost use Rattle.atspi_base.specs.Quoted.{in_quotes, quoted};
ghost use Rattle.atspi_base.specs.Digits.{hex_digits};
ghost use Rattle.atspi_marshal_in_place.specs.codes.TyRefs.{refs_kinds};
ghost use Rattle.atspi_marshal.specs.Reading.{entries_in};
ghost use Rattle.atspi_marshal_in_place.specs.Items.{item_data, item_kind, elements_data, entries_data, fields_data};
ghost use Rattle.atspi_script.specs.Spaced.{in_brackets, spaced};
ghost use Rattle.atspi_script.specs.inner.Views.{parts_data};
ghost use Rattle.atspi_script.specs.ValueText.{boolean_text, entry_texts, in_braces, value_text, value_texts};

use crate::numbers::{put_number, put_signed};
use crate::quotes::{put_in_quotes, put_path};
use crate::view::{Parts, View, view_of};
use atspi_base::{Bytes, NoMemory, put_hex};
use atspi_marshal_in_place::codes::TysRef;
use atspi_marshal_in_place::{Elements, Entries, Entry, Fields, Item};

/// Appends the text of a value. After want of memory a front of it was appended.
#[cycle(put)]
#[inline(always)]
fn put(item: Item<'_>, out: &mut Bytes) -> Result<(), NoMemory>
    ensures ok { OnOk result (out.new ≡ out.old ++ value_text (item_data item.entry)) }
    ensures front { take (length out.old) out.new ≡ out.old }
{
    match view_of(item) {
        View::Byte(n) => put_number(n as u64, out),
        View::Bool(b) => put_bool(b, out),
        View::I16(n) => put_signed(n as i64, out),
        View::U16(n) => put_number(n as u64, out),
        View::I32(n) => put_signed(n as i64, out),
        View::U32(n) => put_number(n as u64, out),
        View::I64(n) => put_signed(n, out),
        View::U64(n) => put_number(n, out),
        View::Double(bits) => put_double(bits, out),
        View::Text(text) => put_text(text, out),
        View::Path(path) => put_path(path, out),
        View::Types(types) => put_types(types, out),
        View::Parts(parts) => put_parts(parts, out),
    }
}

/// Appends the text of a value that has parts. A call of its own, so that a value without parts takes no room for what
/// walks over some.
#[cycle(put)]
#[inline(never)]
fn put_parts(parts: Parts<'_>, out: &mut Bytes) -> Result<(), NoMemory>
    ensures ok { OnOk result (out.new ≡ out.old ++ value_text (parts_data parts.entry)) }
    ensures front { take (length out.old) out.new ≡ out.old }
{
    match parts {
        Parts::Array(elements) => put_array(elements, out),
        Parts::Struct(fields) => put_struct(fields, out),
        Parts::Dictionary(entries) => put_dictionary(entries, out),
        Parts::Variant(inner) => put_variant(inner, out),
    }
}

/// Appends `true` or `false`.
#[inline(always)]
fn put_bool(b: bool, out: &mut Bytes) -> Result<(), NoMemory>
    ensures ok { OnOk result (out.new ≡ out.old ++ boolean_text b) }
    ensures front { take (length out.old) out.new ≡ out.old }
{
    if b {
        out.extend(b"true")
    } else {
        out.extend(b"false")
    }
}

/// Appends the bits of a double in hex.
fn put_double(bits: u64, out: &mut Bytes) -> Result<(), NoMemory>
    ensures ok { OnOk result (out.new ≡ out.old ++ 48 ∷ 120 ∷ hex_digits 16 bits) }
    ensures front { take (length out.old) out.new ≡ out.old }
{
    out.extend(b"0x")?;
    put_hex(bits, out)
}

/// Appends a text in quotes.
#[inline(always)]
fn put_text(text: &str, out: &mut Bytes) -> Result<(), NoMemory>
    ensures ok { OnOk result (out.new ≡ out.old ++ quoted (chars text.now)) }
    ensures front { take (length out.old) out.new ≡ out.old }
{
    put_in_quotes(text.as_bytes(), out)
}

/// Appends the codes of types in quotes.
#[inline(always)]
fn put_types(types: TysRef<'_>, out: &mut Bytes) -> Result<(), NoMemory>
    ensures ok { OnOk result (out.new ≡ out.old ++ in_quotes (signature_bytes (kinds_of (refs_kinds types.entry)))) }
    ensures front { take (length out.old) out.new ≡ out.old }
{
    put_in_quotes(types.codes(), out)
}

/// Appends the text of an array.
#[cycle(put)]
fn put_array(elements: Elements<'_>, out: &mut Bytes) -> Result<(), NoMemory>
    ensures ok { OnOk result
        (out.new ≡ out.old ++ in_brackets 91 (value_texts (items_of (elements_data elements.entry))) 93) }
    ensures front { take (length out.old) out.new ≡ out.old }
{
    out.push(b'[')?;
    put_elements(elements, out)?;
    out.push(b']')
}

/// Appends the texts of elements, with a space between any two.
#[cycle(put)]
#[inline(always)]
fn put_elements(elements: Elements<'_>, out: &mut Bytes) -> Result<(), NoMemory>
    ensures ok { OnOk result (out.new ≡ out.old ++ spaced (value_texts (items_of (elements_data elements.entry)))) }
    ensures front { take (length out.old) out.new ≡ out.old }
{
    let mut rest = elements;
    let Some(first) = rest.next() else {
        return Ok(());
    };
    put_element(first, out)?;
    while let Some(item) = rest.next() {
        out.push(b' ')?;
        put_element(item, out)?;
    }
    Ok(())
}

/// Appends the text of an element. Most that have parts are structs, so these are asked for first.
#[cycle(put)]
#[inline(always)]
fn put_element(item: Item<'_>, out: &mut Bytes) -> Result<(), NoMemory>
    ensures ok { OnOk result (out.new ≡ out.old ++ value_text (item_data item.entry)) }
    ensures front { take (length out.old) out.new ≡ out.old }
{
    match item.fields() {
        Some(fields) => put_struct(fields, out),
        None => put(item, out),
    }
}

/// Appends the text of a struct.
#[cycle(put)]
fn put_struct(fields: Fields<'_>, out: &mut Bytes) -> Result<(), NoMemory>
    ensures ok { OnOk result
        (out.new ≡ out.old ++ in_brackets 40 (value_texts (items_of (fields_data fields.entry))) 41) }
    ensures front { take (length out.old) out.new ≡ out.old }
{
    out.push(b'(')?;
    put_fields(fields, out)?;
    out.push(b')')
}

/// Appends the texts of values, with a space between any two. After want of memory a front of them was appended.
#[cycle(put)]
#[inline(always)]
pub fn put_fields(fields: Fields<'_>, out: &mut Bytes) -> Result<(), NoMemory>
    ensures ok { OnOk result (out.new ≡ out.old ++ spaced (value_texts (items_of (fields_data fields.entry)))) }
    ensures front { take (length out.old) out.new ≡ out.old }
{
    let mut rest = fields;
    let Some(first) = rest.next() else {
        return Ok(());
    };
    put(first, out)?;
    while let Some(item) = rest.next() {
        out.push(b' ')?;
        put(item, out)?;
    }
    Ok(())
}

/// Appends the text of a dictionary.
#[cycle(put)]
fn put_dictionary(entries: Entries<'_>, out: &mut Bytes) -> Result<(), NoMemory>
    ensures ok { OnOk result
        (out.new ≡ out.old ++ in_brackets 91 (entry_texts (entries_in (items_of (entries_data entries.entry)))) 93) }
    ensures front { take (length out.old) out.new ≡ out.old }
{
    out.push(b'[')?;
    put_entries(entries, out)?;
    out.push(b']')
}

/// Appends the texts of entries, with a space between any two.
#[cycle(put)]
#[inline(always)]
fn put_entries(entries: Entries<'_>, out: &mut Bytes) -> Result<(), NoMemory>
    ensures ok { OnOk result
        (out.new ≡ out.old ++ spaced (entry_texts (entries_in (items_of (entries_data entries.entry))))) }
    ensures front { take (length out.old) out.new ≡ out.old }
{
    let mut rest = entries;
    let Some(first) = rest.next() else {
        return Ok(());
    };
    put_entry(first, out)?;
    while let Some(entry) = rest.next() {
        out.push(b' ')?;
        put_entry(entry, out)?;
    }
    Ok(())
}

/// Appends the text of an entry.
#[cycle(put)]
#[inline(always)]
fn put_entry(entry: Entry<'_>, out: &mut Bytes) -> Result<(), NoMemory>
    ensures ok { OnOk result
        (out.new
        ≡ out.old
        ++ in_braces (value_text (item_data entry.entry.key)) (value_text (item_data entry.entry.value))) }
    ensures front { take (length out.old) out.new ≡ out.old }
{
    out.push(b'{')?;
    put(entry.key, out)?;
    out.push(b' ')?;
    put(entry.value, out)?;
    out.push(b'}')
}

/// Appends the text of a variant, by the value in it.
#[cycle(put)]
fn put_variant(inner: Item<'_>, out: &mut Bytes) -> Result<(), NoMemory>
    ensures ok { OnOk result
        (out.new ≡ out.old ++ value_text (variant_data (item_kind inner.entry) (item_data inner.entry))) }
    ensures front { take (length out.old) out.new ≡ out.old }
{
    out.push(b'<')?;
    out.extend(inner.ty().codes())?;
    out.push(b' ')?;
    put(inner, out)?;
    out.push(b'>')
}
